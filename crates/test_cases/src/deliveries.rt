// The cases of deliver.txt: a store is opened and deliveries are made to it. The answer of each call is compared, the
// code as `engine_translate` gives it, and the store: after an opening, a refusal and a stop with the words that
// document 01 fixes, after the last delivery with those of the case. After each call the store is checked.
use super::calls;
use test_text::{Part, Store, Tally};

// Checks the store after a call, with code arrays of the lengths that a line gives; so many cells are taken.
pub fn check(line: &[u8], file: &[u8], store: &mut Store, cells: u64, tally: &mut Tally) {
    let answer = calls::run(Part::Check, line, file, store, 0, tally);
    tally.count_call(test_text::is_done_with(answer, cells) && store.taken() == cells);
}

// Opens a store by the line of a case.
pub fn open(line: &[u8], file: &[u8], store: &mut Store, tally: &mut Tally) {
    let wanted = test_text::natural(line, 3);
    let number = test_text::number_of(wanted);
    let answer = calls::run(Part::Open, line, file, store, number, tally);
    tally.count_call(answer == wanted);
    tally.count_store(store.is_same(&store.opened(file)), store.words());
    check(line, file, store, test_text::cells_of(wanted), tally);
}

// Makes the delivery of a line.
pub fn deliver(line: &[u8], file: &[u8], store: &mut Store, whole: bool, tally: &mut Tally) {
    let wanted = test_text::natural(line, 4);
    let number = test_text::number_of(wanted);
    let answer = calls::run(Part::Deliver, line, file, store, number, tally);
    tally.count_call(test_text::is_wanted(answer, wanted, whole));
}

// Runs a case on its file, whose answers to deliveries are whole or lack the lowest level: it opens the store, which
// holds something else before, makes the deliveries in order, and checks it after each with code arrays as at its
// opening.
pub fn run_case(case: &[u8], file: &[u8], whole: bool, tally: &mut Tally) {
    let cells = test_text::length_of(test_text::line_of(case, b"cells"), 1, 256);
    let mut store = Store::filled(-170, 170, 1 + 16 * cells, 1 + 4 * cells);
    let opening = test_text::line_of(case, b"open");
    open(opening, file, &mut store, tally);
    for line in case.split(|byte| *byte == b'\n') {
        if test_text::stands_at(line, 0, b"deliver") {
            deliver(line, file, &mut store, whole, tally);
            let cells = store.taken_after(line);
            check(opening, file, &mut store, cells, tally);
        }
    }
    tally.count_last();
    tally.count_store(store.is_same(&store.at_end(case)), store.words());
}
