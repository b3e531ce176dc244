// The bytes that a save or a restore is lent: room for the most, and how many of them are lent.
ghost use Rattle.std.specs.Prelude.{◌≡◌, ◌≤◌, take};

use crate::array::pieces_of;
use crate::number::length_of;
use crate::tally::Part;
use crate::text::stands_at;

// The most bytes that are saved or lent to a restore.
pub const MOST_BYTES: usize = 40000;

#[derive(Clone, Copy)]
pub struct Saved {
    pub bytes: [u8; MOST_BYTES],
    pub count: usize,
}

impl Saved {
    // What a call is lent: for a restore the bytes of its line, for a save a buffer of the length that its line gives,
    // or of 64 bytes where the line is another's.
    pub fn lent(call: Part, line: &[u8]) -> Self
        ensures { result.count ≤ 40000 }
    {
        let mut bytes = [170u8; MOST_BYTES];
        let count = match call {
            Part::Restore => pieces_of(line, 4, &mut bytes),
            Part::Save if stands_at(line, 0, b"save") => length_of(line, 3, MOST_BYTES),
            Part::Save => 64,
            _ => 0,
        };
        Saved { bytes, count }
    }

    // The bytes that are lent.
    pub fn lent_bytes(&self) -> &[u8]
        ensures { result.now ≡ take self.now.count self.now.bytes }
    {
        &self.bytes[..self.count.min(MOST_BYTES)]
    }

    // The same for a call that writes them.
    pub fn buffer(&mut self) -> &mut [u8] {
        let count = self.count.min(MOST_BYTES);
        &mut self.bytes[..count]
    }

    // Whether the buffer of a save has the bytes of its line, and zeros past them.
    pub fn is_as_said(&self, line: &[u8]) -> bool {
        let mut wanted = [0u8; MOST_BYTES];
        pieces_of(line, 5, &mut wanted);
        wanted.starts_with(self.lent_bytes())
    }
}
