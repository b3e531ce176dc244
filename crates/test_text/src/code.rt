// Code arrays as a call is lent them: room for the longest, and how many lines of each are lent; and the code of a
// case, with which they are compared after the call.
ghost use Rattle.std.specs.Prelude.{◌≡◌, ◌≤◌, true, length, take};

use crate::answer::{is_refusal, number_of};
use crate::array::put_row;
use crate::number::{length_of, natural};
use crate::text::{byte_at, line_at, line_of, past, stands_at, start_of};

// The most lines that the lent code arrays of a case have.
pub const MOST_LINES: usize = 5000;

#[derive(Clone, Copy)]
pub struct Code {
    pub kinds: [u8; MOST_LINES],
    pub operands: [i64; MOST_LINES],
    pub kind_count: usize,
    pub operand_count: usize,
}

impl Code {
    // Code arrays of these words, of the lengths that a line gives as its words 1 and 2.
    pub fn filled(kind: u8, operand: i64, line: &[u8]) -> Self {
        Code {
            kinds: [kind; MOST_LINES],
            operands: [operand; MOST_LINES],
            kind_count: length_of(line, 1, MOST_LINES),
            operand_count: length_of(line, 2, MOST_LINES),
        }
    }

    // The longest code arrays, all zero.
    pub fn longest() -> Self {
        Code {
            kinds: [0; MOST_LINES],
            operands: [0; MOST_LINES],
            kind_count: MOST_LINES,
            operand_count: MOST_LINES,
        }
    }

    // The code lines of a case, which a translation gives.
    pub fn of_case(case: &[u8]) -> Self {
        let mut code = Code::longest();
        let start = start_of(case, b"rows");
        let lines = natural(line_at(case, start), 1) as usize;
        let mut at = past(case, start, b'\n');
        for i in 0..lines {
            put_row(line_at(case, at), i, &mut code.kinds, &mut code.operands);
            at = past(case, at, b'\n');
        }
        code
    }

    // The code that a case lends, of the lengths that its line `arrays` gives: its lines up to the first check.
    pub fn lent(case: &[u8]) -> Self {
        let mut code = Code::filled(0, 0, line_of(case, b"arrays"));
        let rows = past(case, start_of(case, b"rows"), b'\n');
        let mut at = 0;
        for line in case[rows..].split(|byte| *byte == b'\n') {
            if stands_at(line, 0, b"check") {
                return code;
            }
            at = code.put_line(line, at);
        }
        code
    }

    // Puts the last lines before a place behind them once more, as far as the arrays go. Answers the place after them.
    fn put_last(&mut self, count: usize, from: usize) -> usize {
        let mut at = from;
        for _ in 0..count {
            if MOST_LINES <= at || at < count {
                return at;
            }
            let row = at - count;
            self.kinds[at] = self.kinds[row];
            self.operands[at] = self.operands[row];
            at += 1;
        }
        at
    }

    // Puts what a line of a case gives at a place: a code line, or for a line `again N M` the last M, N times more.
    // Answers the place after it.
    fn put_line(&mut self, line: &[u8], from: usize) -> usize {
        if stands_at(line, 0, b"again") {
            let count = natural(line, 2) as usize;
            let mut at = from;
            for _ in 0..natural(line, 1) {
                at = self.put_last(count, at);
            }
            return at;
        }
        if MOST_LINES <= from {
            return from;
        }
        put_row(line, from, &mut self.kinds, &mut self.operands);
        from + 1
    }

    // The first lines of its first array.
    fn first_kinds(&self, count: usize) -> &[u8]
        ensures { result.now ≡ take count self.now.kinds }
    {
        &self.kinds[..count.min(MOST_LINES)]
    }

    // The first lines of its second array.
    fn first_operands(&self, count: usize) -> &[i64]
        ensures { result.now ≡ take count self.now.operands }
    {
        &self.operands[..count.min(MOST_LINES)]
    }

    // The first array as it is lent.
    pub fn kinds(&self) -> &[u8]
        ensures { result.now ≡ take self.now.kind_count self.now.kinds }
    {
        self.first_kinds(self.kind_count)
    }

    // The second array as it is lent.
    pub fn operands(&self) -> &[i64]
        ensures { result.now ≡ take self.now.operand_count self.now.operands }
    {
        self.first_operands(self.operand_count)
    }

    // Lends a call both arrays to write; its answer.
    pub fn lend<F: FnOnce(&mut [u8], &mut [i64]) -> u64>(&mut self, call: F) -> u64
        requires { F.IsAlwaysCallable call }
    {
        let kind_count = self.kind_count;
        let operand_count = self.operand_count;
        lend_both(
            &mut self.kinds,
            &mut self.operands,
            kind_count,
            operand_count,
            call,
        )
    }

    // How many words are lent.
    pub fn words(&self) -> usize {
        self.kinds().len() + self.operands().len()
    }

    // Whether the lines that are lent are those that other code begins with.
    pub fn is_same(&self, wanted: &Code) -> bool
        ensures kinds { result ≡ true →
            take self.now.kind_count self.now.kinds ≡ take self.now.kind_count wanted.now.kinds }
        ensures operands { result ≡ true →
            take self.now.operand_count self.now.operands ≡ take self.now.operand_count wanted.now.operands }
    {
        self.kinds() == wanted.first_kinds(self.kind_count)
            && self.operands() == wanted.first_operands(self.operand_count)
    }

    // Whether a call with this answer leaves these arrays, where it translates to the code: all zero after a refusal.
    pub fn is_left(&self, answer: u64, code: &Code) -> bool {
        if is_refusal(number_of(answer)) {
            self.is_same(&Code::longest())
        } else {
            self.is_same(code)
        }
    }
}

// Lends a call the first words of two arrays. (a function of its own: two fields behind one reference can be lent at
// once only whole, and are cut here)
fn lend_both<F: FnOnce(&mut [u8], &mut [i64]) -> u64>(
    kinds: &mut [u8; MOST_LINES],
    operands: &mut [i64; MOST_LINES],
    kind_count: usize,
    operand_count: usize,
    call: F,
) -> u64
    requires { F.IsAlwaysCallable call }
{
    call(
        &mut kinds[..kind_count.min(MOST_LINES)],
        &mut operands[..operand_count.min(MOST_LINES)],
    )
}
