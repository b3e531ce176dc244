// Bytes and words of arrays, read from the lines of a case.
ghost use Rattle.std.specs.Prelude.{◌≡◌, ◌+◌, ◌*◌, ◌≤◌, min, length};
ghost use Rattle.test_text.specs.Counts.{IsPrefixLen};

use crate::number::{Numeral, digit, natural_at};
use crate::text::{after, byte_at, line_of, past, word};

// The byte that two digits of base 16 give.
fn paired(high: u8, low: u8) -> u8
    requires { (high ≤ 15) × (low ≤ 15) }
    ensures { result ≡ 16 * high + low }
{
    16 * high + low
}

// Puts the bytes of a case's script file into an array, and answers how many there are.
pub fn file_of(case: &[u8], bytes: &mut [u8]) -> usize
    ensures { IsPrefixLen result bytes.new }
{
    let line = line_of(case, b"file");
    let mut at = word(line, 1);
    for n in 0..bytes.len() {
        let second = after(line, at);
        let (Some(high), Some(low)) = (digit(byte_at(line, at)), digit(byte_at(line, second)))
        else {
            return n;
        };
        bytes[n] = paired(high, low);
        at = after(line, second);
    }
    bytes.len()
}

// Puts a byte into an array so many times, from a place on and as far as it goes. Answers the place after them.
fn repeat(bytes: &mut [u8], from: usize, byte: u8, times: u64) -> usize
    requires { from ≤ length bytes.old }
    ensures { (result ≤ length bytes.new) × (length bytes.new ≡ length bytes.old) }
{
    let count = (bytes.len() - from).min(times as usize);
    let end = from + count;
    bytes[from..end].fill(byte);
    end
}

// How often the byte stands whose digits end at a position: as often as a number after `*` says, or once.
fn times_at(line: &[u8], at: usize) -> u64 {
    if byte_at(line, at) == b'*' {
        natural_at(line, after(line, at))
    } else {
        1
    }
}

// Where the next byte's digits begin, behind those that end at a position.
fn next_at(line: &[u8], at: usize) -> usize
    ensures { min at (length line.now) ≤ result }
{
    match byte_at(line, at) {
        b'*' => past(line, at, b' '),
        b' ' => after(line, at),
        _ => at,
    }
}

// Puts the bytes of a line's pieces, from a word on, into an array, and answers how many there are. A piece is two
// digits of base 16 a byte, or two digits, `*` and a count.
pub fn pieces_of(line: &[u8], from: usize, bytes: &mut [u8]) -> usize
    ensures { result ≤ length bytes.new }
{
    // (a `while`: the place moves by a piece)
    let mut at = word(line, from);
    let mut n = 0;
    while at < line.len() {
        let second = after(line, at);
        let (Some(high), Some(low)) = (digit(byte_at(line, at)), digit(byte_at(line, second)))
        else {
            return n;
        };
        let end = after(line, second);
        n = repeat(bytes, n, paired(high, low), times_at(line, end));
        at = next_at(line, end);
    }
    n
}

// Puts a word into an array, if it has that place.
pub fn put<T: Copy>(words: &mut [T], index: usize, word: T)
    ensures { length words.new ≡ length words.old }
{
    if index < words.len() {
        words[index] = word;
    }
}

// Puts the pairs INDEX=VALUE of a line, from a word on, into an array.
pub fn fill<T: Numeral>(line: &[u8], from: usize, words: &mut [T])
    ensures { length words.new ≡ length words.old }
{
    // (a `while`: the place moves by a pair)
    let mut at = word(line, from);
    while at < line.len() {
        let value = T::read_at(line, past(line, at, b'='));
        put(words, natural_at(line, at) as usize, value);
        at = past(line, at, b' ');
    }
}

// Puts a code line, of which a line gives the kind and the operand, into two arrays.
pub fn put_row(line: &[u8], index: usize, kinds: &mut [u8], operands: &mut [i64])
    ensures { (length kinds.new ≡ length kinds.old)
        × (length operands.new ≡ length operands.old) }
{
    put(kinds, index, u8::read_at(line, 0));
    put(operands, index, i64::read_at(line, word(line, 1)));
}

// Puts the readings of a delivery, from a word of its line on, into an array, and answers how many there are.
pub fn readings_of(line: &[u8], from: usize, readings: &mut [i64]) -> usize
    ensures { result ≤ length readings.new }
{
    let mut at = word(line, from);
    for count in 0..readings.len() {
        if line.len() <= at {
            return count;
        }
        readings[count] = i64::read_at(line, at);
        at = past(line, at, b' ');
    }
    readings.len()
}
