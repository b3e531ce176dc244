// Numbers: exact sums and differences, numbers in bytes, and the packed answer of a call.
#![tactic(auto)]

ghost use Rattle.std.specs.Prelude.{◌≡◌, ◌+◌, ◌*◌, ◌^◌, ◌<◌, ◌≤◌, ◌%◌, length, get_or};
ghost use Rattle.semantics.specs.Number.{exact, sum, difference, less, bytes_at, signed};
ghost use Rattle.semantics.specs.Calls.{packed};
ghost use Rattle.words.specs.Words.{exact_outcome, checked, Unpacked};

// The exact sum, if it is in 64 bits.
#[tactic(auto, using(crate::proofs::Exact::exact_checked))]
pub fn exact_sum(a: i64, b: i64) -> Option<i64>
    ensures { exact_outcome result ≡ checked (exact sum a b) }
{
    a.checked_add(b)
}

// The exact difference, if it is in 64 bits.
#[tactic(auto, using(crate::proofs::Exact::exact_checked))]
pub fn exact_difference(a: i64, b: i64) -> Option<i64>
    ensures { exact_outcome result ≡ checked (exact difference a b) }
{
    a.checked_sub(b)
}

// 1 where a is less than b, and else 0.
pub fn is_less(a: i64, b: i64) -> i64
    ensures { result ≡ exact less a b }
{
    i64::from(a < b)
}

// So many bytes at i, low byte first; past the end they are 0.
fn bytes_from(bytes: &[u8], i: usize, count: u32) -> u64
    requires { count ≤ 8 }
    ensures { (result ≡ bytes_at count bytes.now i) × (result < 256 ^ count) }
{
    if count == 0 || bytes.len() <= i {
        return 0;
    }
    u64::from(bytes[i]) + 256 * bytes_from(bytes, i + 1, count - 1)
}

// The item at i, or another past the end.
pub fn get_or<T: Copy>(items: &[T], i: usize, other: T) -> T
    ensures { result ≡ get_or items.now i other }
{
    items.get(i).copied().unwrap_or(other)
}

// Two bytes at i, low byte first.
#[tactic(auto, using(crate::proofs::Bytes::two, crate::proofs::Bytes::none_past))]
pub fn short_at(bytes: &[u8], i: usize) -> usize
    ensures { (result ≡ bytes_at 2 bytes.now i) × (result < 65536) }
{
    if bytes.len() <= i {
        return 0;
    }
    usize::from(u16::from_le_bytes([bytes[i], get_or(bytes, i + 1, 0)]))
}

// Eight bytes at i, low byte first, where all are there.
#[tactic(auto, using(crate::proofs::Bytes::eight))]
fn whole_at(bytes: &[u8], i: usize) -> u64
    requires { i + 8 ≤ length bytes.now }
    ensures { result ≡ bytes_at 8 bytes.now i }
{
    u64::from_le_bytes([
        bytes[i],
        bytes[i + 1],
        bytes[i + 2],
        bytes[i + 3],
        bytes[i + 4],
        bytes[i + 5],
        bytes[i + 6],
        bytes[i + 7],
    ])
}

// Eight bytes at i, low byte first.
pub fn word_at(bytes: &[u8], i: usize) -> u64
    ensures { result ≡ bytes_at 8 bytes.now i }
{
    if i < bytes.len() && 8 <= bytes.len() - i {
        return whole_at(bytes, i);
    }
    bytes_from(bytes, i, 8)
}

// The nth eight bytes, low byte first: one test where all are there.
#[tactic(auto, using(crate::proofs::Bytes::none_past))]
pub fn nth_word(bytes: &[u8], n: usize) -> u64
    ensures { result ≡ bytes_at 8 bytes.now (8 * n) }
{
    if n < bytes.len() / 8 {
        return whole_at(bytes, 8 * n);
    }
    if bytes.len() / 8 < n {
        return 0;
    }
    bytes_from(bytes, 8 * n, 8)
}

// The signed number whose bits are v.
fn signed_of(v: u64) -> i64
    ensures { result ≡ signed v }
{
    v.cast_signed()
}

// Eight bytes at i as a signed number, low byte first.
pub fn signed_at(bytes: &[u8], i: usize) -> i64
    ensures { result ≡ signed (bytes_at 8 bytes.now i) }
{
    signed_of(word_at(bytes, i))
}

// The parts of a call's answer: number, node, steps or code lines, cells taken.
#[derive(Clone, Copy)]
pub struct Answer {
    pub number: u64,
    pub node: u64,
    pub count: u64,
    pub cells: u64,
}

// An answer as one number. A part that is too great for its place loses its upper bits.
#[tactic(auto, unfolding(semantics::specs::Calls::packed))]
pub fn pack(number: u64, node: u64, count: u64, cells: u64) -> u64
    ensures { result ≡ packed (number % 2 ^ 8) (node % 2 ^ 16) (count % 2 ^ 24) (cells % 2 ^ 16) }
{
    number % 256
        + 256 * (node % 65536)
        + 16777216 * (count % 16777216)
        + 281474976710656 * (cells % 65536)
}

// The parts of an answer that is one number.
#[tactic(auto, unfolding(semantics::specs::Calls::packed))]
pub fn unpack(answer: u64) -> Answer
    ensures { Unpacked answer result }
{
    Answer {
        number: answer % 256,
        node: answer / 256 % 65536,
        count: answer / 16777216 % 16777216,
        cells: answer / 281474976710656,
    }
}
