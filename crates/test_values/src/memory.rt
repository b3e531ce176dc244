// The memory of the second interpreter: the meter, the rows of the script, the names of each call in progress, the
// arena, in which arrays stand, and the roots. All of it is fixed: thousands of arrays, each as long as it is, stand in
// one array of words, and an array is told from an equal one by its place.
use super::rows::{MOST_NODES, NO_ROW, Row};
use super::{Stop, Value};

// The words of the arena, and the most roots.
pub const ARENA_WORDS: usize = 131072;

pub const ROOT_WORDS: usize = 65536;

// The names of a call, and the calls that may be in progress.
const NAMES: usize = 256;

const CALLS: usize = 32;

#[derive(Clone, Copy)]
pub struct Memory {
    // The steps left, and the steps taken.
    pub left: u64,
    pub taken: u64,
    // The cells of the store, and the lowest level of the delivery.
    pub cells: u64,
    pub lowest: u64,
    // The value of the totals, which stays between deliveries.
    pub totals: u64,
    // The maps and filters in progress, and the mark of the last count of cells.
    pub in_progress: u64,
    pub mark: u64,
    // The words of the arena in use, and the roots there are.
    pub used: usize,
    pub root_count: usize,
    pub rows: [Row; MOST_NODES],
    // A call in progress goes by the number of those that may be made below it.
    names: [[Value; NAMES]; CALLS],
    pub arena: [u64; ARENA_WORDS],
    pub roots: [Option<u32>; ROOT_WORDS],
}

impl Memory {
    // A memory with nothing in it.
    pub const CLEAR: Memory = Memory {
        left: 0,
        taken: 0,
        cells: 0,
        lowest: 0,
        totals: 0,
        in_progress: 0,
        mark: 0,
        used: 0,
        root_count: 0,
        rows: [NO_ROW; MOST_NODES],
        names: [[Value {
            bits: 0,
            is_array: false,
        }; NAMES]; CALLS],
        arena: [0; ARENA_WORDS],
        roots: [None; ROOT_WORDS],
    };

    // Takes one step, if one is left.
    pub fn step(&mut self) -> Result<(), Stop> {
        if self.left == 0 {
            return Err(Stop::OutOfSteps);
        }
        self.left -= 1;
        self.taken = self.taken.wrapping_add(1);
        Ok(())
    }

    // The value of a name.
    pub fn name(&self, call: usize, name: u8) -> Value {
        self.names[call % CALLS][usize::from(name)]
    }

    // Binds a name to a value; the one that it had.
    pub fn bind(&mut self, call: usize, name: u8, value: Value) -> Value {
        let old = self.name(call, name);
        self.names[call % CALLS][usize::from(name)] = value;
        old
    }
}
