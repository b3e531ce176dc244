// The cases of code.txt: code that is lent, a stated depth, and acts on one store, in order. The answer of each call is
// compared, the code arrays with the lines of the case, and the store: after a refusal and a stop with the words that
// it must have then, and at the end with those of the case.
use test_text::{Code, Part, Store, Tally};

// Makes the check of a line.
fn check(line: &[u8], code: &Code, depth: u64, tally: &mut Tally) {
    let wanted = test_text::natural(line, 1);
    tally.turn_to(Part::CheckCode, test_text::number_of(wanted));
    let answer = engine::engine_check_code(code.kinds(), code.operands(), depth);
    tally.count_call(answer == wanted);
}

// Makes the delivery of a line, and compares the store after a refusal or a stop.
fn deliver(line: &[u8], code: &Code, depth: u64, store: &mut Store, tally: &mut Tally) {
    let mut readings = [0i64; 32];
    let count = test_text::readings_of(line, 3, &mut readings);
    let budget = test_text::natural(line, 1);
    let wanted = test_text::natural(line, 2);
    let number = test_text::number_of(wanted);
    let ended = if number != 0 {
        Some(store.ended(Part::DeliverCode, number))
    } else {
        None
    };
    tally.turn_to(Part::DeliverCode, number);
    let answer = store.lend(|slots, heads| {
        engine::engine_deliver_code(
            code.kinds(),
            code.operands(),
            depth,
            slots,
            heads,
            &readings[..count],
            budget,
        )
    });
    tally.count_call(answer == wanted);
    if let Some(ended) = &ended {
        tally.count_store(store.is_same(ended), store.words());
    }
}

// Makes the call of a line, and compares the code arrays after it with the case's; or puts words into the store.
fn act(case: &[u8], line: &[u8], code: &Code, depth: u64, store: &mut Store, tally: &mut Tally) {
    if store.put(line) {
        return;
    }
    if test_text::stands_at(line, 0, b"check") {
        check(line, code, depth, tally);
    } else if test_text::stands_at(line, 0, b"deliver") {
        deliver(line, code, depth, store, tally);
    } else {
        return;
    }
    tally.count_code(code.is_same(&Code::lent(case)), code.words());
}

// Runs a case: its acts in order, on the code that it lends, past whose lines both arrays are zero. A line `store`
// gives another store from there on; one that is longer than the greatest is none, and nothing is done on it.
pub fn run_case(case: &[u8], tally: &mut Tally) {
    let code = Code::lent(case);
    let depth = test_text::natural(test_text::line_of(case, b"depth"), 1);
    let mut store = Some(Store::filled(0, 0, 0, 0));
    for line in case.split(|byte| *byte == b'\n') {
        if test_text::stands_at(line, 0, b"store") {
            store = Store::of_line(line);
        }
        if let Some(store) = &mut store {
            act(case, line, &code, depth, store, tally);
        }
    }
    if let Some(store) = &store {
        if !store.slots().is_empty() {
            tally.count_last();
            tally.count_store(store.is_same(&store.at_end(case)), store.words());
        }
    }
}
