// The test of a lent store, document 01's number 11. It goes once over all slots and gathers how many places name each
// cell; then it follows the free list, and compares cell by cell. It ends on anything: the free list is followed for as
// many steps as there are cells, and a name out of range is counted nowhere.
#![tactic(auto)]

ghost use Rattle.std.specs.Prelude.{◌≡◌, ◌+◌, ◌*◌, ◌<◌, ◌≤◌, length, get_or};
ghost use Rattle.semantics.specs.Basics.{all};
ghost use Rattle.semantics.specs.Store.{cell, named_by};
ghost use Rattle.semantics.specs.Words.{cells_in, slots_at, store_of};
ghost use Rattle.semantics.specs.Sound.{zeros_from, names_used, elements_used, free_from, end_from, sound_words};
ghost use Rattle.store_words.specs.Parts.{HasSlots, HasWords};
ghost use Rattle.store_check.specs.Holders.{tally_one, tally, held, Gathered};
ghost use Rattle.store_check.specs.Fitting.{HeadOf, head_fits, cell_fits, fits};

// A cell's head.
#[derive(Clone, Copy)]
struct Head {
    count: u32,
    size: usize,
    depth: u32,
    next: usize,
}

// Reads the head of a cell that is there.
fn head_of(slots: &[i64], heads: &[u32], c: usize) -> Head
    requires { HasWords slots.now heads.now c }
    ensures { HeadOf (cell (store_of slots.now heads.now) c) result }
{
    Head {
        count: heads[1 + 4 * c],
        size: heads[2 + 4 * c] as usize,
        depth: heads[3 + 4 * c],
        next: heads[4 + 4 * c] as usize,
    }
}

// One more for a cell; a full count stays, and a cell past the end has none.
fn count_one(counts: &mut [u32], c: usize)
    ensures { counts.new ≡ tally_one c counts.old }
{
    if c < counts.len() {
        counts[c] = counts[c].saturating_add(1);
    }
}

// Counts the cells that words name, where they are of depth 1 or more.
fn count_words(words: &[i64], depth: u32, counts: &mut [u32])
    ensures { counts.new ≡ tally (named_by depth words.now) counts.old }
{
    if depth == 0 {
        return;
    }
    for &w in words {
        count_one(counts, store_words::named_cell(w));
    }
}

// Counts the cells that a cell's elements name; a free cell names none.
fn count_cell(slots: &[i64], heads: &[u32], c: usize, counts: &mut [u32])
    requires { HasWords slots.now heads.now c }
    ensures { counts.new
        ≡ tally (held (cell (store_of slots.now heads.now) c)) counts.old }
{
    let h = head_of(slots, heads, c);
    if h.count == 0 {
        return;
    }
    let n = h.size.min(16);
    let start = 1 + 16 * c;
    count_words(&slots[start..start + n], h.depth, counts);
}

// Gathers each cell's holders, how many places name it: the totals, where they are an array, and the slots within the
// length of a cell in use. The promise holds whatever the lengths and depths are, and so wherever they are in range.
pub fn gather(slots: &[i64], heads: &[u32], depth: u32) -> [u32; 256]
    requires { 0 < length slots.now }
    ensures { Gathered depth (store_of slots.now heads.now) result }
{
    let mut counts = [0; 256];
    count_words(&slots[..1], depth, &mut counts);
    for c in 0..store_words::cells(slots, heads) {
        count_cell(slots, heads, c, &mut counts);
    }
    counts
}

// Follows the free list for at most as many steps as there are cells, counting each cell that it meets; where it leads.
fn follow_list(slots: &[i64], heads: &[u32], met: &mut [u32]) -> usize
    requires { 0 < length heads.now }
    ensures end { result ≡ end_from (store_of slots.now heads.now)
        (get_or heads.now 0 0) (cells_in slots.now heads.now) }
    ensures meets { met.new ≡ tally (free_from (store_of slots.now heads.now)
        (get_or heads.now 0 0) (cells_in slots.now heads.now)) met.old }
{
    let n = store_words::cells(slots, heads);
    let mut c = heads[0] as usize;
    for _ in 0..n {
        if n <= c {
            return c;
        }
        count_one(met, c);
        c = head_of(slots, heads, c).next;
    }
    c
}

// Whether a word names a cell in use, of this element depth.
fn names_cell(slots: &[i64], heads: &[u32], w: i64, depth: u32) -> bool
    ensures { result ≡ names_used (store_of slots.now heads.now) depth w }
{
    let c = store_words::named_cell(w);
    if store_words::cells(slots, heads) <= c {
        return false;
    }
    let h = head_of(slots, heads, c);
    h.count != 0 && h.depth == depth
}

// Whether each of these words does, of the depth below this; where this is 0 they are numbers.
fn all_name_cells(slots: &[i64], heads: &[u32], words: &[i64], depth: u32) -> bool
    ensures { result
        ≡ elements_used (store_of slots.now heads.now) depth words.now (length words.now) }
{
    if depth == 0 {
        return true;
    }
    for &w in words {
        if !names_cell(slots, heads, w, depth - 1) {
            return false;
        }
    }
    true
}

// Whether the slots of a cell are zero from one on.
fn zero_from(slots: &[i64], c: usize, from: usize) -> bool
    requires { HasSlots slots.now c }
    ensures { result ≡ zeros_from (slots_at slots.now c) from }
{
    for i in from..16 {
        if slots[1 + 16 * c + i] != 0 {
            return false;
        }
    }
    true
}

// Whether a head is as it should be, for a cell that the free list met so often and that has so many holders.
#[tactic(auto, unfolding(crate::specs::Fitting::head_fits))]
fn head_fits(h: Head, met: u32, holders: u32) -> bool
    ensures { result ≡ head_fits h.count h.size h.depth h.next met holders }
{
    if h.count == 0 {
        return h.size == 0 && h.depth == 0 && met == 1;
    }
    h.size <= 16 && h.depth <= 3 && h.next == 0 && met == 0 && h.count == holders
}

// Whether a cell is: its head, its slots past the length, and those within, of which a free cell has none.
fn cell_is_sound(slots: &[i64], heads: &[u32], c: usize, met: u32, holders: u32) -> bool
    requires { HasWords slots.now heads.now c }
    ensures { result ≡ cell_fits (store_of slots.now heads.now) c met holders }
{
    let h = head_of(slots, heads, c);
    if !head_fits(h, met, holders) {
        return false;
    }
    // without elements: a way out of its own, since a loop of known length is fast, and most cells of a large store are
    // free
    if h.size == 0 {
        return zero_from(slots, c, 0);
    }
    if !zero_from(slots, c, h.size) {
        return false;
    }
    let start = 1 + 16 * c;
    all_name_cells(slots, heads, &slots[start..start + h.size], h.depth)
}

// Whether each cell is.
fn cells_are_sound(slots: &[i64], heads: &[u32], met: &[u32], holders: &[u32]) -> bool
    requires { (length met.now ≡ 256) × (length holders.now ≡ 256) }
    ensures { result ≡ all (fits (store_of slots.now heads.now) met.now
        holders.now) 0 (cells_in slots.now heads.now) }
{
    for c in 0..store_words::cells(slots, heads) {
        if !cell_is_sound(slots, heads, c, met[c], holders[c]) {
            return false;
        }
    }
    true
}

// Whether a lent store is sound, with totals of this depth.
pub fn is_sound(slots: &[i64], heads: &[u32], depth: u32) -> bool
    ensures { result ≡ sound_words depth slots.now heads.now }
{
    if !store_words::lengths_fit(slots, heads) {
        return false;
    }
    let holders = gather(slots, heads, depth);
    let mut met = [0; 256];
    if follow_list(slots, heads, &mut met) != store_words::cells(slots, heads) {
        return false;
    }
    if !all_name_cells(slots, heads, &slots[..1], depth) {
        return false;
    }
    cells_are_sound(slots, heads, &met, &holders)
}
