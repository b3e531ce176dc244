// The cases of swap.txt: acts on one store, in order, in which totals are saved and restored. The answer of each call
// is compared, the code as `engine_translate` gives it, the buffer of a save byte by byte, and the store: after a
// refusal, a stop and a restore that ended with 25 with the words that it must have, and at the end with those of the
// case. The store is checked after each opening, delivery and restore that left one.
use super::{calls, deliveries};
use test_text::{Part, Store, Tally};

// Makes the check, the save or the restore of a line, whose answer is this word; the answer that is wanted.
fn look(
    call: Part,
    line: &[u8],
    answer: usize,
    file: &[u8],
    store: &mut Store,
    tally: &mut Tally,
) -> u64 {
    let wanted = test_text::natural(line, answer);
    let number = test_text::number_of(wanted);
    let found = calls::run(call, line, file, store, number, tally);
    tally.count_call(found == wanted);
    wanted
}

// Makes the delivery of a line, and checks the store.
fn deliver(line: &[u8], file: &[u8], store: &mut Store, tally: &mut Tally) {
    deliveries::deliver(line, file, store, true, tally);
    let cells = store.taken_after(line);
    deliveries::check(line, file, store, cells, tally);
}

// Makes the restore of a line, and checks the store that it opened.
fn restore(line: &[u8], file: &[u8], store: &mut Store, tally: &mut Tally) {
    let wanted = look(Part::Restore, line, 3, file, store, tally);
    if test_text::number_of(wanted) == 0 {
        deliveries::check(line, file, store, test_text::cells_of(wanted), tally);
    }
}

// Makes the call of a line, or puts words into the store.
fn act(line: &[u8], file: &[u8], store: &mut Store, tally: &mut Tally) {
    if store.put(line) {
        return;
    }
    if test_text::stands_at(line, 0, b"open") {
        deliveries::open(line, file, store, tally);
    } else if test_text::stands_at(line, 0, b"check") {
        look(Part::Check, line, 3, file, store, tally);
    } else if test_text::stands_at(line, 0, b"save") {
        look(Part::Save, line, 4, file, store, tally);
    } else if test_text::stands_at(line, 0, b"deliver") {
        deliver(line, file, store, tally);
    } else if test_text::stands_at(line, 0, b"restore") {
        restore(line, file, store, tally);
    }
}

// Runs a case on its file. A line `store` gives another store from there on; one that is longer than the greatest is
// none, and nothing is done on it.
pub fn run_case(case: &[u8], file: &[u8], tally: &mut Tally) {
    let mut store = Some(Store::filled(0, 0, 0, 0));
    for line in case.split(|byte| *byte == b'\n') {
        if test_text::stands_at(line, 0, b"store") {
            store = Store::of_line(line);
        }
        if let Some(store) = &mut store {
            act(line, file, store, tally);
        }
    }
    if let Some(store) = &store {
        tally.count_last();
        tally.count_store(store.is_same(&store.at_end(case)), store.words());
    }
}
