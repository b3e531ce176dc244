// A second interpreter, for comparison: it works the written nodes of a script directly on values. A value is a word
// and whether it is an array: a number is its 64 bits, and an array is its place in the arena, where its head and
// then its elements stand. It has no cells and no counts of references; where a cell is taken it counts the arrays
// that are reached from values still needed, and so knows when cells run out, and the lowest level. Scripts are
// taken as accepted: what no accepted script has stops the work with `Stop::Broken`, or is worked as something else.
#![tactic(auto)]

mod arrays;
mod cells;
mod depths;
mod handing;
pub mod kinds;
mod leaves;
mod loops;
pub mod memory;
mod numbers;
pub mod rows;
mod uses;
pub mod work;

// Why work stops, by the numbers that answers have.
#[derive(Clone, Copy, PartialEq, Eq)]
pub enum Stop {
    OutOfSteps = 21,
    CallTooDeep = 22,
    IndexOutOfRange = 23,
    Overflow = 24,
    OutOfCells = 25,
    BadCount = 26,
    BadGuard = 28,
    // The arena is full. No answer of the engine has this number.
    Full = 98,
    // Something that no accepted script has. No answer of the engine has this number.
    Broken = 99,
}

// A value: the bits of a number, or the place of an array.
#[derive(Clone, Copy, PartialEq, Eq)]
pub struct Value {
    pub bits: u64,
    pub is_array: bool,
}

impl Value {
    // A number, by its bits.
    pub fn number(bits: u64) -> Self {
        Value {
            bits,
            is_array: false,
        }
    }

    // The array at a place.
    pub fn array(place: u64) -> Self {
        Value {
            bits: place,
            is_array: true,
        }
    }
}

// What working a part comes to: its value, or why it stops.
pub type Worked = Result<Value, Stop>;

// The values that stand ready for a node or a delivery: as many as an array's elements, and one more, since a delivery
// may be given one reading too many.
pub const VALUE_WORDS: usize = 17;

pub type Values = [Value; VALUE_WORDS];

// The most elements that an array has.
pub const MOST_ELEMENTS: usize = 16;
