// Arrays in the arena, and the nodes that make or read them. An array is the place of its head, from the arena's start:
// its length, 32 more where its elements are arrays, and 64 times the mark of the last count that reached it.
ghost use Rattle.std.specs.Prelude.{◌<◌};

use super::kinds::Kind;
use super::memory::{ARENA_WORDS, Memory};
use super::{MOST_ELEMENTS, Stop, VALUE_WORDS, Value, Values, Worked};

// More marks than there are counts.
const MOST_MARKS: u64 = 288230376151711743;

// The last place at which an array has room for its elements.
const LAST_PLACE: usize = 131054;

impl Memory {
    // The head of an array.
    fn head(&self, array: u64) -> u64 {
        self.arena.get(array as usize).copied().unwrap_or(0)
    }

    // The length of an array.
    pub fn length(&self, array: u64) -> usize
        ensures { result < 32 }
    {
        (self.head(array) % 32) as usize
    }

    // Whether the elements of an array are arrays.
    pub fn holds_arrays(&self, array: u64) -> bool {
        self.head(array) / 32 % 2 == 1
    }

    // How many arrays an array has as its elements.
    pub fn inner_count(&self, array: u64) -> usize {
        if self.holds_arrays(array) {
            self.length(array)
        } else {
            0
        }
    }

    // Gives an array this mark; false where it has it.
    pub fn set_mark(&mut self, array: u64, mark: u64) -> bool {
        let place = array as usize;
        if ARENA_WORDS <= place {
            return false;
        }
        let head = self.arena[place];
        let marked = head % 64 + 64 * (mark % MOST_MARKS);
        self.arena[place] = marked;
        head != marked
    }

    // The bits of an element of an array.
    pub fn element_bits(&self, array: u64, i: usize) -> u64 {
        let place = array as usize;
        if place <= LAST_PLACE && i < MOST_ELEMENTS {
            self.arena[1 + place + i]
        } else {
            0
        }
    }

    // An element of an array.
    pub fn element(&self, array: u64, i: usize) -> Value {
        Value {
            bits: self.element_bits(array, i),
            is_array: self.holds_arrays(array),
        }
    }

    // An array that is made of the first of these values, which are arrays or numbers.
    pub fn make_array(&mut self, values: &Values, count: usize, are_arrays: bool) -> Worked {
        let place = self.used;
        if LAST_PLACE < place {
            return Err(Stop::Full);
        }
        if MOST_ELEMENTS < count {
            return Err(Stop::Broken);
        }
        self.arena[place] = count as u64 + if are_arrays { 32 } else { 0 };
        for (i, value) in values.iter().enumerate() {
            self.arena[place + 1 + i] = value.bits;
        }
        self.used = place + 1 + count;
        Ok(Value::array(place as u64))
    }

    // The first numbers from 0 on.
    pub fn iota(&mut self, count: usize) -> Worked {
        let mut values = [Value::number(0); VALUE_WORDS];
        for (i, value) in values.iter_mut().enumerate() {
            *value = Value::number(i as u64);
        }
        self.make_array(&values, count, false)
    }

    // A value, so many times.
    pub fn replicate(&mut self, count: usize, value: Value) -> Worked {
        self.make_array(&[value; VALUE_WORDS], count, value.is_array)
    }

    // What is read of an array: its length, or an element by its position. The bits of a negative position are
    // not below any length.
    pub fn read(&self, kind: Kind, array: u64, position: u64) -> Worked {
        let length = self.length(array);
        if kind == Kind::Length {
            Ok(Value::number(length as u64))
        } else if position < length as u64 {
            Ok(self.element(array, position as usize))
        } else {
            Err(Stop::IndexOutOfRange)
        }
    }
}
