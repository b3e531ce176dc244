// A store as a case lends it: room for the words of the greatest one, and how many of each array are lent. And the
// stores that calls must leave, worked out from document 01 and from the words before the call.
ghost use Rattle.std.specs.Prelude.{◌≡◌, ◌≤◌, true, take};

use crate::answer::{cells_of, is_refusal, number_of};
use crate::array::fill;
use crate::number::natural;
use crate::tally::Part;
use crate::text::{line_of, stands_at};

// The words of the greatest store's two arrays.
pub const MOST_SLOTS: usize = 4097;

pub const MOST_HEADS: usize = 1025;

#[derive(Clone, Copy)]
pub struct Store {
    pub slots: [i64; MOST_SLOTS],
    pub heads: [u32; MOST_HEADS],
    pub slot_count: usize,
    pub head_count: usize,
}

impl Store {
    // A store of these words, so many of each array; the greatest where they are more.
    pub fn filled(slot: i64, head: u32, slot_count: usize, head_count: usize) -> Self {
        Store {
            slots: [slot; MOST_SLOTS],
            heads: [head; MOST_HEADS],
            slot_count: slot_count.min(MOST_SLOTS),
            head_count: head_count.min(MOST_HEADS),
        }
    }

    // The store that a line `store` gives: so long, and all its words zero. None where it is longer than the greatest.
    pub fn of_line(line: &[u8]) -> Option<Self> {
        let slot_count = natural(line, 1) as usize;
        let head_count = natural(line, 2) as usize;
        if MOST_SLOTS < slot_count || MOST_HEADS < head_count {
            return None;
        }
        Some(Store::filled(0, 0, slot_count, head_count))
    }

    // The store that a case gives by its lines `slots` and `heads`: the pairs from a word of theirs on, and zeros.
    fn of_case(case: &[u8], from: usize, slot_count: usize, head_count: usize) -> Self {
        let mut store = Store::filled(0, 0, slot_count, head_count);
        fill(line_of(case, b"slots"), from, &mut store.slots);
        fill(line_of(case, b"heads"), from, &mut store.heads);
        store
    }

    // The store that a check is lent: its lines say its lengths too.
    pub fn checked(case: &[u8]) -> Self {
        let slot_count = natural(line_of(case, b"slots"), 1) as usize;
        let head_count = natural(line_of(case, b"heads"), 1) as usize;
        Store::of_case(case, 2, slot_count, head_count)
    }

    // The store that a case ends with, as long as this one.
    pub fn at_end(&self, case: &[u8]) -> Self {
        Store::of_case(case, 1, self.slot_count, self.head_count)
    }

    // Its first array.
    pub fn slots(&self) -> &[i64]
        ensures { result.now ≡ take self.now.slot_count self.now.slots }
    {
        &self.slots[..self.slot_count.min(MOST_SLOTS)]
    }

    // Its second array.
    pub fn heads(&self) -> &[u32]
        ensures { result.now ≡ take self.now.head_count self.now.heads }
    {
        &self.heads[..self.head_count.min(MOST_HEADS)]
    }

    // Lends a call both arrays to write; its answer.
    pub fn lend<F: FnOnce(&mut [i64], &mut [u32]) -> u64>(&mut self, call: F) -> u64
        requires { F.IsAlwaysCallable call }
    {
        let slot_count = self.slot_count;
        let head_count = self.head_count;
        lend_both(
            &mut self.slots,
            &mut self.heads,
            slot_count,
            head_count,
            call,
        )
    }

    // How many words it has.
    pub fn words(&self) -> usize {
        self.slots().len() + self.heads().len()
    }

    // Whether it has the words of another.
    pub fn is_same(&self, wanted: &Store) -> bool
        ensures slots { result ≡ true →
            take self.now.slot_count self.now.slots ≡ take wanted.now.slot_count wanted.now.slots }
        ensures heads { result ≡ true →
            take self.now.head_count self.now.heads ≡ take wanted.now.head_count wanted.now.heads }
    {
        self.slots() == wanted.slots() && self.heads() == wanted.heads()
    }

    // Puts the pairs of a line `put slots` or `put heads` into it; false for another line.
    pub fn put(&mut self, line: &[u8]) -> bool {
        if stands_at(line, 0, b"put slots") {
            fill(line, 2, &mut self.slots);
            true
        } else if stands_at(line, 0, b"put heads") {
            fill(line, 2, &mut self.heads);
            true
        } else {
            false
        }
    }

    // How many cells are taken.
    pub fn taken(&self) -> u64 {
        let heads = self.heads();
        (0..heads.len() / 4)
            .filter(|cell| heads.get(4 * cell + 1) != Some(&0))
            .count() as u64
    }

    // Links the free cells upwards. The number of cells stands at the end.
    fn link_free(&mut self) {
        let cells = self.heads().len() / 4;
        let mut next = cells as u32;
        for cell in (0..cells).rev() {
            if self.heads[4 * cell + 1] == 0 {
                self.heads[4 * cell + 4] = next;
                next = cell as u32;
            }
        }
        self.heads[0] = next;
    }

    // The store after its opening for a script file, as long as this one: empty totals in cell 0 if the totals are an
    // array, and the other cells free.
    pub fn opened(&self, file: &[u8]) -> Self {
        let mut store = Store::filled(0, 0, self.slot_count, self.head_count);
        let depth = totals_depth(file);
        if depth != 0 {
            store.heads[1] = 1;
            store.heads[3] = u32::from(depth - 1);
        }
        store.link_free();
        store
    }

    // The store that a call leaves which did not answer 0, from the one before it: after a refusal the same, after a
    // restore that ended with 25 zeros, and after another stop the free cells are linked upwards.
    pub fn ended(&self, call: Part, number: usize) -> Self {
        if is_refusal(number) {
            return *self;
        }
        if call == Part::Restore {
            return Store::filled(0, 0, self.slot_count, self.head_count);
        }
        let mut store = *self;
        store.link_free();
        store
    }

    // The cells taken after the delivery of a line: those of its answer, or these where it is refused.
    pub fn taken_after(&self, line: &[u8]) -> u64 {
        let wanted = natural(line, 4);
        if is_refusal(number_of(wanted)) {
            self.taken()
        } else {
            cells_of(wanted)
        }
    }
}

// Lends a call the first words of two arrays. (a function of its own: two fields behind one reference can be lent at
// once only whole, and are cut here)
fn lend_both<F: FnOnce(&mut [i64], &mut [u32]) -> u64>(
    slots: &mut [i64; MOST_SLOTS],
    heads: &mut [u32; MOST_HEADS],
    slot_count: usize,
    head_count: usize,
    call: F,
) -> u64
    requires { F.IsAlwaysCallable call }
{
    call(
        &mut slots[..slot_count.min(MOST_SLOTS)],
        &mut heads[..head_count.min(MOST_HEADS)],
    )
}

// The depth of the totals of a script file: the second byte of its first operand.
fn totals_depth(file: &[u8]) -> u8 {
    if file.len() < 4 {
        return 0;
    }
    let at = 5 + usize::from(file[2]) + 256 * usize::from(file[3]);
    file.get(at).copied().unwrap_or(0)
}
