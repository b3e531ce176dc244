// Reads the text of test cases, compares what a call leaves with what it must leave, and counts what is right. A case
// is a part of the text from its line `case` to its line `end`. A line is a key and its values, with one blank between.
// Nothing stands past the end.
#![tactic(auto)]

mod answer;
mod array;
mod code;
mod lent;
mod number;
mod store;
mod tally;
mod text;

pub use answer::{answer_of, cells_of, is_done_with, is_refusal, is_right, is_wanted, number_of};
pub use array::{file_of, readings_of};
pub use code::{Code, MOST_LINES};
pub use lent::{MOST_BYTES, Saved};
pub use number::{length_of, natural};
pub use store::{MOST_HEADS, MOST_SLOTS, Store};
pub use tally::{Part, Tally};
pub use text::{case_end, line_at, line_of, past, read_full, read_text, stands_at};
