// The operations of the counted store on the two arrays that a caller lends, but for the release. Every public
// function is total: it works on arrays of any length and content, and a cell that is not there takes no write.
#![tactic(auto)]

ghost use Rattle.std.specs.Prelude.{◌≡◌, ◌+◌, ◌-◌, ◌*◌, ◌<◌, [], length, eqb};
ghost use Rattle.semantics.specs.Store.{cell, retained, acquired, appended, overwritten};
ghost use Rattle.semantics.specs.Words.{store_of};
ghost use Rattle.store_words.specs.Parts.{HasWords};
ghost use Rattle.store.specs.Acquiring.{acquired_outcome, next_cell, Remaining, appended_all};

// One reference more to a cell.
pub fn retain(slots: &[i64], heads: &mut [u32], c: usize)
    ensures { store_of slots.now heads.new
        ≡ retained c (store_of slots.now heads.old) }
{
    if store_words::is_cell(slots, heads, c) {
        heads[1 + 4 * c] = heads[1 + 4 * c].saturating_add(1);
    }
}

// A cell that was acquired, and how many free cells remain.
#[derive(Clone, Copy)]
pub struct Gained {
    pub cell: usize,
    pub left: u32,
}

// Acquires the free list's first cell, with no elements; so many cells were free.
#[tactic(auto, using(crate::proofs::Acquiring::of_empty))]
pub fn acquire_empty(slots: &mut [i64], heads: &mut [u32], depth: u32, free: u32) -> Option<Gained>
    ensures { (acquired_outcome result ≡ next_cell free (store_of slots.old heads.old))
        × (store_of slots.new heads.new
        ≡ acquired depth [] (store_of slots.old heads.old))
        × Remaining free (store_of slots.old heads.old) (acquired_outcome result)
        (store_of slots.new heads.new) }
{
    let c = *heads.first()? as usize;
    if !store_words::is_cell(slots, heads, c) {
        return None;
    }
    heads[0] = heads[4 + 4 * c];
    store_words::write_head(heads, c, 1, 0, depth, 0);
    store_words::clear_slots(slots, c);
    Some(Gained {
        cell: c,
        left: free.saturating_sub(1),
    })
}

// One element more in a cell that is there and has room.
pub fn append_within(slots: &mut [i64], heads: &mut [u32], c: usize, w: i64)
    requires { HasWords slots.old heads.old c }
    ensures { store_of slots.new heads.new
        ≡ appended c w (store_of slots.old heads.old) }
{
    let size = heads[2 + 4 * c];
    if size < 16 {
        slots[1 + 16 * c + size as usize] = w;
        heads[2 + 4 * c] = size + 1;
    }
}

// One element more in a cell that has room.
pub fn append(slots: &mut [i64], heads: &mut [u32], c: usize, w: i64)
    ensures { store_of slots.new heads.new
        ≡ appended c w (store_of slots.old heads.old) }
{
    if store_words::is_cell(slots, heads, c) {
        append_within(slots, heads, c, w);
    }
}

// Another word for an element of a cell that is there.
pub fn overwrite_within(slots: &mut [i64], heads: &[u32], c: usize, i: usize, w: i64)
    requires { HasWords slots.old heads.now c }
    ensures { store_of slots.new heads.now
        ≡ overwritten c i w (store_of slots.old heads.now) }
{
    if i < heads[2 + 4 * c] as usize && i < 16 {
        slots[1 + 16 * c + i] = w;
    }
}

// Whether a cell has one reference.
pub fn is_alone(slots: &[i64], heads: &[u32], c: usize) -> bool
    ensures { result ≡ eqb (cell (store_of slots.now heads.now) c).count 1 }
{
    store_words::is_cell(slots, heads, c) && heads[1 + 4 * c] == 1
}

// These elements more in a cell, as far as it has room.
fn append_all(slots: &mut [i64], heads: &mut [u32], c: usize, words: &[i64])
    ensures { store_of slots.new heads.new
        ≡ appended_all c words.now (store_of slots.old heads.old) }
{
    for &w in words {
        append(slots, heads, c, w);
    }
}

// Acquires the free list's first cell with these words, the first 16 of them, as elements of this depth; so many cells
// were free.
pub fn acquire(
    slots: &mut [i64],
    heads: &mut [u32],
    depth: u32,
    words: &[i64],
    free: u32,
) -> Option<Gained>
    ensures { (acquired_outcome result ≡ next_cell free (store_of slots.old heads.old))
        × (store_of slots.new heads.new
        ≡ acquired depth words.now (store_of slots.old heads.old))
        × Remaining free (store_of slots.old heads.old) (acquired_outcome result)
        (store_of slots.new heads.new) }
{
    let gained = acquire_empty(slots, heads, depth, free)?;
    append_all(slots, heads, gained.cell, words);
    Some(gained)
}
