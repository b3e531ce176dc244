// The cells that a store has in use while a delivery is worked: one for each array that is reached from a root, and one
// for each map and filter in progress. A root is an array, or none for a number. The roots are all values that are
// still needed: what is held for a node's other parts or for its passes, and what names used later are bound to.
use super::memory::{Memory, ROOT_WORDS};
use super::{Stop, Value};

// The depth of the deepest array.
const MOST_DEPTH: u64 = 4;

impl Memory {
    // Adds a root. One that has no room is not counted, which shows as a difference.
    pub fn push(&mut self, root: Value) {
        if self.root_count < ROOT_WORDS {
            self.roots[self.root_count] = if root.is_array {
                u32::try_from(root.bits).ok()
            } else {
                None
            };
            self.root_count += 1;
        }
    }

    // Takes away so many of the last roots.
    pub fn pop(&mut self, count: usize) {
        if count <= self.root_count {
            self.root_count -= count;
        }
    }

    // Puts a root in the place of the one that is so many places from the end; the one that was there, or none where
    // there is no such place.
    fn exchange(&mut self, back: usize, root: Option<u32>) -> Option<u32> {
        let count = self.root_count;
        if back == 0 || count < back || ROOT_WORDS < count {
            return None;
        }
        let old = self.roots[count - back];
        self.roots[count - back] = root;
        old
    }

    // Takes away the root that is so many places from the end, and leaves its place to a number; whether it was an
    // array.
    pub fn take_out(&mut self, back: usize) -> bool {
        self.exchange(back, None).is_some()
    }

    // How many arrays of at most some depth this one reaches, itself included, that do not have the present mark; they
    // get it.
    fn reach(&mut self, array: u64, depth: u64) -> u64 {
        let mark = self.mark;
        if depth == 0 || !self.set_mark(array, mark) {
            return 0;
        }
        let mut count: u64 = 1;
        for i in 0..self.inner_count(array) {
            let element = self.element_bits(array, i);
            count = count.wrapping_add(self.reach(element, depth - 1));
        }
        count
    }

    // How many arrays the roots reach.
    pub fn reached(&mut self) -> u64 {
        self.mark = self.mark.wrapping_add(1);
        let mut count: u64 = 0;
        for i in 0..self.root_count.min(ROOT_WORDS) {
            if let Some(array) = self.roots[i] {
                count = count.wrapping_add(self.reach(u64::from(array), MOST_DEPTH));
            }
        }
        count
    }

    // How many cells are free.
    fn free(&mut self) -> u64 {
        let used = self.reached().wrapping_add(self.in_progress);
        self.cells.saturating_sub(used)
    }

    // Begins a delivery to totals: they are the only root, and the level is the lowest yet.
    pub fn begin_delivery(&mut self, totals: Value) {
        self.root_count = 0;
        self.in_progress = 0;
        self.push(totals);
        self.lowest = self.free();
    }

    // Takes away the root that is so many places from the end if nothing else reaches its array; false where it stays.
    pub fn take_over(&mut self, back: usize) -> bool {
        let before = self.reached();
        let root = self.exchange(back, None);
        if self.reached() < before {
            return true;
        }
        self.exchange(back, root);
        false
    }

    // Takes a cell, if one is free.
    pub fn take(&mut self) -> Result<(), Stop> {
        let level = self.free();
        if level == 0 {
            self.lowest = 0;
            return Err(Stop::OutOfCells);
        }
        self.lowest = self.lowest.min(level - 1);
        Ok(())
    }
}
