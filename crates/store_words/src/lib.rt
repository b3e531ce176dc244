// The words of a store: reading the two arrays that a caller lends, `slots`, the totals first, and `heads`, the first
// free cell first, and writing the words of one cell. The readers are total: they work on arrays of any length and
// content, and a cell that is not there reads as a clear one.
#![tactic(auto)]

ghost use Rattle.std.specs.Prelude.{◌≡◌, ◌+◌, ◌*◌, ◌<◌, ◌≤◌, pos, length, set, get_or};
ghost use Rattle.semantics.specs.Store.{cell, cell_of, elements, one_if_used, cells_taken, free_cells};
ghost use Rattle.semantics.specs.Words.{store_of, shaped};
ghost use Rattle.store_words.specs.Parts.{Cleared, Holds, HasHead, HasSlots, HasWords, CellThere, with_head};

// How many whole cells the two arrays hold, at most 256.
#[tactic(auto, unfolding(semantics::specs::Words::cells_in))]
pub fn cells(slots: &[i64], heads: &[u32]) -> usize
    ensures { Holds slots.now heads.now result }
{
    let in_heads = heads.len().saturating_sub(1) / 4;
    let in_slots = slots.len().saturating_sub(1) / 16;
    in_heads.min(in_slots).min(256)
}

// Whether a cell is there.
#[tactic(auto, unfolding(semantics::specs::Words::cells_in))]
pub fn is_cell(slots: &[i64], heads: &[u32], c: usize) -> bool
    ensures { CellThere slots.now heads.now c result }
{
    c < 256 && 16 * c + 16 < slots.len() && 4 * c + 4 < heads.len()
}

// Whether the lengths fit one number of cells, from 1 to 256.
#[tactic(auto, unfolding(semantics::specs::Words::shaped))]
pub fn lengths_fit(slots: &[i64], heads: &[u32]) -> bool
    ensures { result ≡ shaped slots.now heads.now }
{
    let n = cells(slots, heads);
    n != 0 && slots.len() == 1 + 16 * n && heads.len() == 1 + 4 * n
}

// The cell that a word names; 256, which no cell is, for a negative one.
#[tactic(auto, unfolding(semantics::specs::Store::cell_of))]
pub fn named_cell(w: i64) -> usize
    ensures { result ≡ cell_of w }
{
    if w < 0 { 256 } else { w as usize }
}

// How many elements a cell has: its length, at most 16.
pub fn read_length(slots: &[i64], heads: &[u32], c: usize) -> usize
    ensures { result ≡ length (elements (cell (store_of slots.now heads.now) c)) }
{
    if !is_cell(slots, heads, c) {
        return 0;
    }
    (heads[2 + 4 * c] as usize).min(16)
}

// An element of a cell that is there, 0 past its length.
pub fn read_slot_within(slots: &[i64], heads: &[u32], c: usize, i: usize) -> i64
    requires { HasWords slots.now heads.now c }
    ensures { result ≡ get_or (elements (cell (store_of slots.now heads.now) c)) i (pos 0) }
{
    if 16 <= i || heads[2 + 4 * c] as usize <= i {
        return 0;
    }
    slots[1 + 16 * c + i]
}

// An element of a cell, 0 past its length.
pub fn read_slot(slots: &[i64], heads: &[u32], c: usize, i: usize) -> i64
    ensures { result ≡ get_or (elements (cell (store_of slots.now heads.now) c)) i (pos 0) }
{
    if !is_cell(slots, heads, c) {
        return 0;
    }
    read_slot_within(slots, heads, c, i)
}

// How many cells are in use.
pub fn cells_taken(slots: &[i64], heads: &[u32]) -> usize
    ensures { result ≡ cells_taken (store_of slots.now heads.now) }
{
    let n = cells(slots, heads);
    let mut taken: usize = 0;
    for c in 0..n {
        if heads[1 + 4 * c] != 0 {
            taken += 1;
        }
    }
    taken
}

// How many cells are free.
pub fn cells_free(slots: &[i64], heads: &[u32]) -> u32
    ensures { (result ≡ free_cells (store_of slots.now heads.now)) × (result ≤ 256) }
{
    (cells(slots, heads) - cells_taken(slots, heads)) as u32
}

// Writes the totals.
pub fn set_totals(slots: &mut [i64], w: i64)
    ensures { slots.new ≡ set slots.old 0 w }
{
    if let Some(totals) = slots.first_mut() {
        *totals = w;
    }
}

// Clears the sixteen slots of a cell that is there. (For the store's own crates.)
pub fn clear_slots(slots: &mut [i64], c: usize)
    requires { HasSlots slots.old c }
    ensures { Cleared slots.old c slots.new }
{
    slots[1 + 16 * c..17 + 16 * c].fill(0);
}

// Writes the four numbers of the head of a cell that is there. (For the store's own crates.)
pub fn write_head(heads: &mut [u32], c: usize, count: u32, size: u32, depth: u32, next: u32)
    requires { HasHead heads.old c }
    ensures { heads.new ≡ with_head heads.old c count size depth next }
{
    heads[1 + 4 * c] = count;
    heads[2 + 4 * c] = size;
    heads[3 + 4 * c] = depth;
    heads[4 + 4 * c] = next;
}
