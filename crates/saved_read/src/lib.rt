// A saved file tested for its form, entry by entry: nothing is made of it.
#![tactic(auto)]

ghost use Rattle.std.specs.Prelude.{◌≡◌, ◌≤◌};
ghost use Rattle.semantics.specs.Outcome.{times};
ghost use Rattle.semantics.specs.Saved.{value_at};
ghost use Rattle.saved_read.specs.Told.{read_outcome, told, readable};

// A value of a depth from entry p on, in a file of k entries: the number of the entry after it, or none where the form
// is broken.
#[cycle(read_value_read_values)]
fn read_value(saved: &[u8], k: usize, depth: u32, p: usize) -> Option<usize>
    requires { k ≤ 4096 }
    ensures { read_outcome result ≡ told (value_at saved.now k depth p) }
{
    if k <= p {
        return None;
    }
    let mark = words::get_or(saved, 3 + p, 0);
    if depth == 0 {
        return if mark == 0 { Some(p + 1) } else { None };
    }
    if mark == 0 || 17 < mark || words::word_at(saved, 3 + k + 8 * p) != 0 {
        return None;
    }
    read_values(saved, k, depth - 1, mark - 1, p + 1)
}

// So many values of a depth, one after the other.
#[cycle(read_value_read_values)]
fn read_values(saved: &[u8], k: usize, depth: u32, count: u8, p: usize) -> Option<usize>
    requires { k ≤ 4096 }
    ensures { read_outcome result ≡ told (times count (value_at saved.now k depth) p) }
{
    let mut q = p;
    for _ in 0..count {
        q = read_value(saved, k, depth, q)?;
    }
    Some(q)
}

// How many entries a file has at most.
pub const MOST_ENTRIES: usize = 4096;

// Whether a file holds a value of a depth.
#[tactic(auto, using(crate::proofs::Laws::ended, crate::proofs::Laws::refused))]
pub fn is_readable(saved: &[u8], depth: u32) -> bool
    ensures { result ≡ readable depth saved.now }
{
    if saved.len() < 3 || u32::from(saved[0]) != depth {
        return false;
    }
    let k = words::short_at(saved, 1);
    if MOST_ENTRIES < k || saved.len() != 3 + 9 * k {
        return false;
    }
    let Some(next) = read_value(saved, k, depth, 0) else {
        return false;
    };
    next == k
}
