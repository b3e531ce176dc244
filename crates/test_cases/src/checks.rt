// The cases of check.txt: the answer, and the code as `engine_translate` gives it. A store that is refused is lent to a
// delivery and to a save too: it is refused alike, and every word of the store stays as it was.
use super::calls;
use test_text::{Part, Store, Tally};

// Lends the store of a case to a call, and compares its answer with the case's.
fn compare(call: Part, case: &[u8], file: &[u8], store: &mut Store, tally: &mut Tally) {
    let line = test_text::line_of(case, b"arrays");
    let number = test_text::number_of(test_text::answer_of(case));
    let answer = calls::run(call, line, file, store, number, tally);
    tally.count_call(test_text::is_right(case, answer));
}

// Runs a case on its file.
pub fn run_case(case: &[u8], file: &[u8], tally: &mut Tally) {
    let mut store = Store::checked(case);
    compare(Part::Check, case, file, &mut store, tally);
    if test_text::is_refusal(test_text::number_of(test_text::answer_of(case))) {
        compare(Part::Deliver, case, file, &mut store, tally);
        compare(Part::Save, case, file, &mut store, tally);
    }
}
