// The answer that a case wants of a call: a number, and what else is packed with it.
ghost use Rattle.std.specs.Prelude.{◌<◌};

use crate::number::natural;
use crate::text::line_of;

// The number of an answer.
pub fn number_of(answer: u64) -> usize
    ensures { result < 256 }
{
    (answer % 256) as usize
}

// Whether a number is a refusal: such a call leaves the store as it was, and its code arrays zero unless they are lent
// code.
pub fn is_refusal(number: usize) -> bool {
    matches!(number, 1..=11 | 27 | 29)
}

// Whether an answer to a delivery is the one that is wanted, whole or but for its lowest level; a refusal has none.
pub fn is_wanted(answer: u64, wanted: u64, whole: bool) -> bool {
    if whole || is_refusal(number_of(wanted)) {
        return answer == wanted;
    }
    number_of(answer) == number_of(wanted) && answer / 16777216 == wanted / 16777216
}

// The cells taken as a call ends.
pub fn cells_of(answer: u64) -> u64 {
    answer / 281474976710656
}

// Whether an answer says nothing but done and so many cells taken.
pub fn is_done_with(answer: u64, cells: u64) -> bool {
    answer % 281474976710656 == 0 && cells_of(answer) == cells
}

// The answer of a case.
pub fn answer_of(case: &[u8]) -> u64 {
    natural(line_of(case, b"answer"), 1)
}

// Whether a call's answer is that of the case. A case from before order 3 may list other nodes beside it; the answer's
// is the lowest of them.
pub fn is_right(case: &[u8], answer: u64) -> bool {
    answer == answer_of(case)
}
