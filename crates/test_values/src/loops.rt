// What the passes of a map, a filter or a reduce come to.
use super::kinds::Kind;
use super::memory::Memory;
use super::{Stop, VALUE_WORDS, Value, Values, Worked};

// The results of the passes so far: the running value of a reduce, and how many there are of a map or a filter.
#[derive(Clone, Copy)]
pub struct Results {
    pub running: Value,
    kept: Values,
    count: usize,
}

// Whether a guard is 1 for yes or 0 for no; the bits of a negative one are above it.
pub fn is_answer(guard: u64) -> bool {
    guard < 2
}

impl Results {
    // No results; a reduce starts from a value.
    pub fn none(start: Value) -> Self {
        Results {
            running: start,
            kept: [start; VALUE_WORDS],
            count: 0,
        }
    }

    // One result more.
    fn push(&mut self, value: Value) {
        self.kept[self.count % VALUE_WORDS] = value;
        self.count = self.count.wrapping_add(1);
    }

    // Keeps what the body gave for an element: a map keeps it, a filter, which has to be told 1 or 0, keeps the element
    // if it is 1, and a reduce has it as its running value.
    pub fn keep(&mut self, kind: Kind, element: Value, given: Value) -> Result<(), Stop> {
        self.running = given;
        match kind {
            Kind::Reduce => {}
            Kind::Filter if !is_answer(given.bits) => return Err(Stop::BadGuard),
            Kind::Filter => {
                if given.bits == 1 {
                    self.push(element);
                }
            }
            _ => self.push(given),
        }
        Ok(())
    }
}

impl Memory {
    // Whether a map may write its results over its array: both hold numbers, by their depths.
    fn may_rewrite(&self, node: usize) -> bool {
        self.kind(node) == Kind::Map && self.part_depth(node, 0) == 1 && self.depth(node) == 1
    }

    // Takes the cell of a map or filter, whose array is the root that is so many places from the end, if one is
    // free. An array that only this root reaches is written over: it is no root any more, and its cell is the
    // result's.
    fn take_cell(&mut self, node: usize, back: usize) -> Result<(), Stop> {
        if self.may_rewrite(node) && self.take_over(back) {
            return Ok(());
        }
        self.take()
    }

    // Begins a loop, whose first parts are the last roots: what its passes use are roots too, and a map or
    // filter takes its cell. The start of a reduce is handed to its first pass, and is no root of the loop's;
    // whether it is an array.
    pub fn begin_loop(&mut self, call: usize, node: usize) -> Result<bool, Stop> {
        let is_reduce = self.kind(node) == Kind::Reduce;
        let starts_array = is_reduce && self.take_out(2);
        let roots = self.root_count;
        self.push_uses(call, node, self.body(node));
        if !is_reduce {
            let more = self.root_count.wrapping_sub(roots);
            self.take_cell(node, more.wrapping_add(1))?;
            self.in_progress = self.in_progress.wrapping_add(1);
        }
        Ok(starts_array)
    }

    // The value of a loop over an array after its last pass. The elements of a map's result are what was worked last.
    pub fn end_loop(&mut self, kind: Kind, array: u64, results: &Results) -> Worked {
        if kind == Kind::Reduce {
            return Ok(results.running);
        }
        self.in_progress = self.in_progress.wrapping_sub(1);
        let are_arrays = if kind == Kind::Filter {
            self.holds_arrays(array)
        } else {
            results.running.is_array
        };
        self.make_array(&results.kept, results.count, are_arrays)
    }
}
