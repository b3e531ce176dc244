// Numbers, and what a delivery is given: cells, readings and a budget.
ghost use Rattle.std.specs.Prelude.{◌<◌, ◌≤◌};

use super::Desk;
use test_values::{MOST_ELEMENTS, VALUE_WORDS};

// The greatest budget.
pub const MOST_STEPS: u64 = 1000000;

// The greatest and the least number, as bits.
const GREATEST: u64 = u64::MAX / 2;

const LEAST: u64 = GREATEST + 1;

impl Desk {
    // The bits of a number: small, negative, or at the ends of the range.
    pub fn number(&mut self) -> u64 {
        match self.choose(9) {
            0 => u64::MAX - self.choose(3),
            1 => GREATEST - self.choose(2),
            2 => LEAST + self.choose(2),
            _ => self.choose(5),
        }
    }

    // How many cells a store has.
    pub fn choose_cells(&mut self) -> usize
        ensures { (0 < result) × (result ≤ 256) }
    {
        match self.choose(10) {
            0 => 1,
            1 => 2,
            2 => 3,
            3 => 5,
            4 => 8,
            5 => 13,
            6 => 30,
            7 => 64,
            _ => 256,
        }
    }

    // How many readings there are; at times one too many.
    fn reading_count(&mut self) -> usize
        ensures { result ≤ 17 }
    {
        match self.choose(120) {
            0..=4 => VALUE_WORDS,
            5..=9 => MOST_ELEMENTS,
            choice => (choice % 5) as usize,
        }
    }

    // Fills in readings; how many there are.
    pub fn choose_readings(&mut self, readings: &mut [u64; VALUE_WORDS]) -> usize
        ensures { result ≤ 17 }
    {
        let count = self.reading_count();
        for reading in readings.iter_mut() {
            *reading = self.number();
        }
        count
    }

    // A budget: mostly ample, at times small, and at times too large.
    pub fn choose_budget(&mut self) -> u64 {
        match self.choose(20) {
            0 => MOST_STEPS + 1,
            1 | 2 => self.choose(10),
            3 | 4 => self.choose(100),
            _ => 4000,
        }
    }
}
