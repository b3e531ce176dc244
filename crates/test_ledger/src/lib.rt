// The ledger of a store: the memory of the second interpreter, with the totals' value. It judges each answer of the
// engine, and says whether the totals of a store have its value.
#![tactic(auto)]

ghost use Rattle.std.specs.Prelude.{◌≡◌, true, ◌<◌};

use test_values::memory::Memory;
use test_values::{MOST_ELEMENTS, VALUE_WORDS};

// The cells of the greatest store, and the words of its arrays.
pub const MOST_CELLS: usize = 256;

pub const SLOT_WORDS: usize = 4097;

pub const HEAD_WORDS: usize = 1025;

// The greatest budget.
pub const MOST_STEPS: u64 = 1000000;

// The number of an answer to a delivery with too many readings or too great a budget.
pub const BAD_REQUEST: u8 = 10;

// The parts of a packed answer: its number, the lowest level, the steps, and the cells taken as the call ends.
#[derive(Clone, Copy, PartialEq, Eq)]
pub struct Answer {
    pub number: u8,
    pub lowest: u64,
    pub steps: u64,
    pub cells: u64,
}

impl From<u64> for Answer {
    fn from(packed: u64) -> Answer {
        Answer {
            number: (packed % 256) as u8,
            lowest: packed / 256 % 65536,
            steps: packed / 16777216 % 16777216,
            cells: packed / 281474976710656,
        }
    }
}

// The depth of the totals.
pub fn totals_depth(ledger: &Memory) -> u64
    ensures { result < 8 }
{
    u64::from(ledger.high(0)) % 8
}

// Opens the ledger of a script that is read, beside a store of so many cells: the totals are 0 or, in the same word,
// the array at the arena's start, which is empty.
pub fn open(ledger: &mut Memory, cells: u64) {
    ledger.arena[0] = 0;
    ledger.used = 1;
    ledger.totals = 0;
    ledger.cells = cells;
}

// Whether the answer to a delivery agrees with the meaning. A result replaces the totals, and a stop leaves them.
pub fn judge(
    ledger: &mut Memory,
    readings: &[u64; VALUE_WORDS],
    count: usize,
    budget: u64,
    answer: u64,
) -> bool {
    if MOST_ELEMENTS < count || MOST_STEPS < budget {
        return answer == u64::from(BAD_REQUEST);
    }
    let used = ledger.used;
    ledger.left = budget;
    ledger.taken = 0;
    let number = match ledger.work_main(readings, count) {
        Ok(totals) => {
            ledger.totals = totals.bits;
            0
        }
        Err(stop) => {
            ledger.used = used;
            stop as u8
        }
    };
    let meant = Answer {
        number,
        lowest: ledger.lowest,
        steps: ledger.taken,
        cells: ledger.totals_cells(),
    };
    Answer::from(answer) == meant
}

// The two arrays of a store.
#[derive(Clone, Copy)]
pub struct Store {
    pub slots: [i64; SLOT_WORDS],
    pub heads: [u32; HEAD_WORDS],
}

impl Store {
    // The greatest store, all zero.
    pub const CLEAR: Store = Store {
        slots: [0; SLOT_WORDS],
        heads: [0; HEAD_WORDS],
    };

    // The first array of a store of some cells.
    pub fn slots(&self, cells: usize) -> &[i64] {
        &self.slots[..1 + 16 * cells.min(MOST_CELLS)]
    }

    // Its second array.
    pub fn heads(&self, cells: usize) -> &[u32] {
        &self.heads[..1 + 4 * cells.min(MOST_CELLS)]
    }

    // Lends a call both arrays of a store of some cells to write; its answer.
    pub fn lend<F: FnOnce(&mut [i64], &mut [u32]) -> u64>(&mut self, cells: usize, call: F) -> u64
        requires { F.IsAlwaysCallable call }
    {
        lend_both(&mut self.slots, &mut self.heads, cells, call)
    }

    // Whether a cell has this length and element depth.
    fn has_head(&self, cell: usize, length: usize, element_depth: u64) -> bool
        ensures { result ≡ true → cell < 256 }
    {
        cell < MOST_CELLS
            && self.heads[4 * cell + 2] as usize == length
            && u64::from(self.heads[4 * cell + 3]) == element_depth
    }

    // Whether a word of the store and a value of the ledger are the same value of some depth.
    fn has_value(&self, ledger: &Memory, held: i64, value: u64, depth: u64) -> bool {
        if depth == 0 {
            return held == value.cast_signed();
        }
        let Ok(cell) = usize::try_from(held) else {
            return false;
        };
        let count = ledger.length(value);
        if !self.has_head(cell, count, depth - 1) || MOST_ELEMENTS < count {
            return false;
        }
        for i in 0..count {
            let element = self.slots[16 * cell + 1 + i];
            if !self.has_value(ledger, element, ledger.element_bits(value, i), depth - 1) {
                return false;
            }
        }
        true
    }

    // Whether the totals of a store have the ledger's value.
    pub fn has_totals(&self, ledger: &Memory) -> bool {
        self.has_value(ledger, self.slots[0], ledger.totals, totals_depth(ledger))
    }
}

// Lends a call the arrays of a store of some cells. (a function of its own: two fields behind one reference can be lent
// at once only whole, and are cut here)
fn lend_both<F: FnOnce(&mut [i64], &mut [u32]) -> u64>(
    slots: &mut [i64; SLOT_WORDS],
    heads: &mut [u32; HEAD_WORDS],
    cells: usize,
    call: F,
) -> u64
    requires { F.IsAlwaysCallable call }
{
    let most = cells.min(MOST_CELLS);
    call(&mut slots[..1 + 16 * most], &mut heads[..1 + 4 * most])
}
