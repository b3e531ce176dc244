// The totals of a store written to a saved file: the entries are counted, then marks and numbers are written.
#![tactic(auto)]

ghost use Rattle.std.specs.Prelude.{◌≡◌, ◌+◌, ◌≤◌, length, set};
ghost use Rattle.std.proofs.lemmas.List.Edits.{sets};
ghost use Rattle.semantics.specs.Words.{store_of};
ghost use Rattle.semantics.specs.Saved.{unsigned, low_bytes};
ghost use Rattle.saved_write.specs.Writing.{entry, entries_at, counted, written, put_entry, put_entries};
ghost use Rattle.saved_write.specs.Writing.{totals_saved, saving};

// A signed number as an unsigned one with the same bits.
fn unsigned_of(z: i64) -> u64
    ensures { result ≡ unsigned z }
{
    z.cast_unsigned()
}

// A byte put at a place that is there.
fn put_byte(bytes: &mut [u8], i: usize, b: u8)
    ensures { bytes.new ≡ set bytes.old i b }
{
    if i < bytes.len() {
        bytes[i] = b;
    }
}

// So many bytes of a number put from i on, low byte first. The longest file has 36,867 bytes.
fn put_bytes(bytes: &mut [u8], i: usize, n: u64, count: usize)
    requires { i + count ≤ 36867 }
    ensures { bytes.new ≡ sets bytes.old i (low_bytes count n) }
{
    if count == 0 {
        return;
    }
    put_byte(bytes, i, (n % 256) as u8);
    put_bytes(bytes, i + 1, n / 256, count - 1);
}

// Entry p of k, if there is one; the number of the next.
fn put_entry(saved: &mut [u8], k: usize, p: usize, mark: u8, number: i64) -> usize
    requires { k ≤ 4096 }
    ensures { written result saved.new
        ≡ put_entry k (entry mark number) (written p saved.old) }
{
    if k <= p {
        return p;
    }
    put_byte(saved, 3 + p, mark);
    put_bytes(saved, 3 + k + 8 * p, unsigned_of(number), 8);
    p + 1
}

// How many entries a file has at most.
const MOST_ENTRIES: usize = 4096;

// The entries of a word of a depth, added to those before, if a file has so many.
#[tactic(auto, using(crate::proofs::Laws::full))]
fn count_value(slots: &[i64], heads: &[u32], w: i64, depth: u32, n: usize) -> Option<usize>
    ensures { result ≡ counted (n + length (entries_at (store_of slots.now heads.now) depth w)) }
{
    if MOST_ENTRIES <= n {
        return None;
    }
    let mut counted = n + 1;
    if depth == 0 {
        return Some(counted);
    }
    let c = store_words::named_cell(w);
    for i in 0..store_words::read_length(slots, heads, c) {
        let e = store_words::read_slot(slots, heads, c, i);
        counted = count_value(slots, heads, e, depth - 1, counted)?;
    }
    Some(counted)
}

// The entries of a word of a depth, from entry p of k on; the number of the next.
fn write_value(
    slots: &[i64],
    heads: &[u32],
    saved: &mut [u8],
    w: i64,
    depth: u32,
    k: usize,
    p: usize,
) -> usize
    requires { k ≤ 4096 }
    ensures { written result saved.new
        ≡ put_entries k (entries_at (store_of slots.now heads.now) depth w)
        (written p saved.old) }
{
    if depth == 0 {
        return put_entry(saved, k, p, 0, w);
    }
    let c = store_words::named_cell(w);
    let size = store_words::read_length(slots, heads, c);
    let mut q = put_entry(saved, k, p, (size + 1) as u8, 0);
    for i in 0..size {
        let e = store_words::read_slot(slots, heads, c, i);
        q = write_value(slots, heads, saved, e, depth - 1, k, q);
    }
    q
}

// The file of the totals of a depth, at the front of a buffer and zero past it; false where it has no room, or the
// entries are too many, and the buffer is all zero.
#[tactic(auto, using(crate::proofs::Saving::too_many))]
pub fn write_totals(slots: &[i64], heads: &[u32], saved: &mut [u8], depth: u32) -> bool
    requires { depth ≤ 4 }
    ensures { saving result saved.new
        ≡ totals_saved depth (store_of slots.now heads.now) saved.old }
{
    let w = words::get_or(slots, 0, 0);
    // (no `fill`: an edit that leaves bytes would change more than a number)
    clearing::clear_from(saved, 0, 0);
    let Some(k) = count_value(slots, heads, w, depth, 0) else {
        return false;
    };
    if saved.len() < 3 + 9 * k {
        return false;
    }
    put_byte(saved, 0, depth as u8);
    put_bytes(saved, 1, k as u64, 2);
    write_value(slots, heads, saved, w, depth, k, 0);
    true
}
