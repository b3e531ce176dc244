// The text of a file of cases: its parts, which are cases, lines and words, and positions in it.
ghost use Rattle.std.specs.Prelude.{◌≡◌, ◌+◌, ◌≤◌, min, true, length, take, drop, slice_index, IfOk};
ghost use Rattle.test_text.specs.Counts.{IsPrefixLen};

use std::io::Read;
use std::rt::Files;
use std::{fs, io};

// Reads a file of cases, and answers how many bytes it has.
pub fn read_text<R: Files>(rt: &R, name: &str, text: &mut [u8]) -> io::Result<usize>
    ensures read { IfOk result (λ n. IsPrefixLen n text.new) }
    ensures as_long { length text.new ≡ length text.old }
{
    let mut file = fs::open(rt, name)?;
    read_full(&mut file, text)
}

// Reads until the text is full or the input ends, and answers how many bytes there are.
pub fn read_full<F: Read>(file: &mut F, text: &mut [u8]) -> io::Result<usize>
    ensures read { IfOk result (λ n. IsPrefixLen n text.new) }
    ensures as_long { length text.new ≡ length text.old }
{
    // (a `while`: each read says how far the place moves)
    let mut n = 0;
    while n < text.len() {
        let more = file.read(&mut text[n..])?;
        if more == 0 {
            return Ok(n);
        }
        n += more;
    }
    Ok(n)
}

// The byte at a position; 0 past the end.
pub fn byte_at(text: &[u8], at: usize) -> u8
    ensures { result ≡ slice_index text.now at }
{
    text.get(at).copied().unwrap_or(0)
}

// The next position, as far as the text goes.
pub fn after(text: &[u8], at: usize) -> usize
    ensures { result ≡ min (at + 1) (length text.now) }
{
    if at < text.len() { at + 1 } else { text.len() }
}

// The first position from `at` on that has this byte, or the text's end.
fn find(text: &[u8], at: usize, byte: u8) -> usize
    ensures { (min at (length text.now) ≤ result) × (result ≤ length text.now) }
{
    for i in at..text.len() {
        if text[i] == byte {
            return i;
        }
    }
    text.len()
}

// The position after the first such byte from `at` on, or the text's end.
pub fn past(text: &[u8], at: usize, byte: u8) -> usize
    ensures { (min (at + 1) (length text.now) ≤ result) × (result ≤ length text.now) }
{
    after(text, find(text, at, byte))
}

// Whether these bytes stand at a position.
pub fn stands_at(text: &[u8], at: usize, bytes: &[u8]) -> bool
    ensures { result ≡ true →
        take (length bytes.now) (drop at text.now) ≡ bytes.now }
{
    if text.len() < at {
        return false;
    }
    if text.len() - at < bytes.len() {
        return false;
    }
    let end = at + bytes.len();
    &text[at..end] == bytes
}

// The end of the case that begins at `at`: the position after its line `end`.
pub fn case_end(text: &[u8], at: usize) -> usize
    ensures { (min (at + 1) (length text.now) ≤ result) × (result ≤ length text.now) }
{
    // (a `while`: the place moves by a line)
    let mut i = at;
    while i < text.len() {
        let next = past(text, i, b'\n');
        if stands_at(text, i, b"end\n") {
            return next;
        }
        i = next;
    }
    text.len()
}

// Where the first line of a case with this key begins, or the case's end.
pub fn start_of(case: &[u8], key: &[u8]) -> usize
    ensures { result ≤ length case.now }
{
    // (a `while`: the place moves by a line)
    let mut at = 0;
    while at < case.len() {
        if stands_at(case, at, key) {
            return at;
        }
        at = past(case, at, b'\n');
    }
    case.len()
}

// The line that begins at `at`, without its line break.
pub fn line_at(text: &[u8], at: usize) -> &[u8] {
    let end = find(text, at, b'\n');
    &text[at.min(end)..end]
}

// The first line of a case with this key, or nothing.
pub fn line_of<'a>(case: &'a [u8], key: &[u8]) -> &'a [u8] {
    line_at(case, start_of(case, key))
}

// Where a word of a line begins; its key is word 0. Past the last word it is the line's end.
pub fn word(line: &[u8], index: usize) -> usize
    ensures { result ≤ length line.now }
{
    let mut at = 0;
    for _ in 0..index {
        at = past(line, at, b' ');
    }
    at
}
