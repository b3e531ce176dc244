// The cases of translate.txt: the answer, and the code line by line. A file that is refused is lent to the other five
// calls too: they refuse it alike, and leave every word of the store as it was.
use super::calls;
use test_text::{Code, Part, Store, Tally};

// Translates the file of a case.
fn translate(case: &[u8], file: &[u8], tally: &mut Tally) {
    let mut code = Code::filled(170, -170, test_text::line_of(case, b"arrays"));
    let answer = code.lend(|kinds, operands| engine::engine_translate(file, kinds, operands));
    tally.count_code(code.is_left(answer, &Code::of_case(case)), code.words());
    tally.count_call(test_text::is_right(case, answer));
}

// Lends a refused file to a call that has a store.
fn refuse(call: Part, case: &[u8], file: &[u8], number: usize, tally: &mut Tally) {
    let mut store = Store::filled(-170, 170, 33, 9);
    let line = test_text::line_of(case, b"arrays");
    let answer = calls::run(call, line, file, &mut store, number, tally);
    tally.count_call(test_text::is_right(case, answer));
}

// Runs a case on its file.
pub fn run_case(case: &[u8], file: &[u8], tally: &mut Tally) {
    let number = test_text::number_of(test_text::answer_of(case));
    tally.turn_to(Part::Translate, number);
    translate(case, file, tally);
    if test_text::is_refusal(number) {
        for call in [
            Part::Open,
            Part::Check,
            Part::Deliver,
            Part::Save,
            Part::Restore,
        ] {
            refuse(call, case, file, number, tally);
        }
    }
}
