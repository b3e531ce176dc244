// Numbers in a text. A number out of range reads as the nearest one in range, and what is no number as 0.
ghost use Rattle.std.specs.Prelude.{◌≡◌, ◌+◌, ◌*◌, ◌≤◌, min, IfSome};

use crate::text::{after, byte_at, past, word};

// What a digit is worth in base 16, if the byte is one.
pub fn digit(byte: u8) -> Option<u8>
    ensures { IfSome result (λ worth. worth ≤ 15) }
{
    match byte {
        b'0'..=b'9' => Some(byte - b'0'),
        b'a'..=b'f' => Some(byte - b'a' + 10),
        _ => None,
    }
}

// A number with one digit more.
fn with_digit(value: u64, digit: u64) -> u64
    requires { digit ≤ 9 }
    ensures { result ≡ min (10 * value + digit) 18446744073709551615 }
{
    value.saturating_mul(10).saturating_add(digit)
}

// The number that begins at `at`, in base ten.
pub fn natural_at(text: &[u8], at: usize) -> u64 {
    let mut value: u64 = 0;
    for i in at..text.len() {
        match digit(text[i]) {
            Some(next) if next <= 9 => value = with_digit(value, u64::from(next)),
            _ => return value,
        }
    }
    value
}

// A number of this size, with a minus where that is asked for.
fn with_sign(negative: bool, size: u64) -> i64 {
    match i64::try_from(size) {
        Ok(value) if negative => -value,
        Ok(value) => value,
        Err(_) if negative => i64::MIN,
        Err(_) => i64::MAX,
    }
}

// The signed number that begins at `at`, in base ten.
pub fn signed_at(text: &[u8], at: usize) -> i64 {
    if byte_at(text, at) == b'-' {
        with_sign(true, natural_at(text, after(text, at)))
    } else {
        with_sign(false, natural_at(text, at))
    }
}

// A word of a line as a number.
pub fn natural(line: &[u8], index: usize) -> u64 {
    natural_at(line, word(line, index))
}

// A word of a line as a length that is at most `most`.
pub fn length_of(line: &[u8], index: usize, most: usize) -> usize
    ensures { result ≤ most }
{
    most.min(natural(line, index) as usize)
}

// A word of an array that a text gives by its digits.
pub trait Numeral: Copy {
    // The number that begins at `at`, as far as the array's words hold it.
    fn read_at(text: &[u8], at: usize) -> Self;
}

impl Numeral for i64 {
    fn read_at(text: &[u8], at: usize) -> i64 {
        signed_at(text, at)
    }
}

// (its low 32 bits)
impl Numeral for u32 {
    fn read_at(text: &[u8], at: usize) -> u32 {
        (natural_at(text, at) & 0xffff_ffff) as u32
    }
}

// (its low 8 bits)
impl Numeral for u8 {
    fn read_at(text: &[u8], at: usize) -> u8 {
        (natural_at(text, at) & 0xff) as u8
    }
}
