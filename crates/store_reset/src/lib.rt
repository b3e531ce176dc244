// Setting a whole store: opening it, saving its words, and putting them back after a stop.
#![tactic(auto)]

ghost use Rattle.std.specs.Prelude.{◌≡◌, ◌+◌, ◌*◌, ◌<◌, ◌≤◌, pos, length, get_or};
ghost use Rattle.semantics.specs.Store.{cell, with_cell, relinked, zeroed, opened};
ghost use Rattle.semantics.specs.Words.{cells_in, store_of};
ghost use Rattle.store_words.specs.Parts.{HasWords};
ghost use Rattle.store_reset.specs.Resetting.{words_of, cell_linked, head_linked};

// Copies items as far as they go, and then puts one that stands for none.
fn copy_padded<T: Copy>(to: &mut [T], from: &[T], none: T)
    ensures { to.new ≡ words_of none (length to.old) from.now }
{
    for i in 0..to.len() {
        to[i] = words::get_or(from, i, none);
    }
}

// A cell of count 0 is cleared and put before the free cell `head`; the first free cell from it on.
fn relink_cell(slots: &mut [i64], heads: &mut [u32], c: usize, head: u32) -> u32
    requires { HasWords slots.old heads.old c }
    ensures { (result ≡ head_linked (get_or heads.old (1 + 4 * c) 0) c head)
        × (store_of slots.new heads.new
        ≡ with_cell (store_of slots.old heads.old) c
        (cell_linked (get_or heads.old (1 + 4 * c) 0)
        (cell (store_of slots.old heads.old) c) head)) }
{
    if heads[1 + 4 * c] != 0 {
        return head;
    }
    store_words::write_head(heads, c, 0, 0, 0, head);
    store_words::clear_slots(slots, c);
    c as u32
}

// The cells in use stay as they are; the others are cleared and linked upwards.
pub fn relink(slots: &mut [i64], heads: &mut [u32])
    ensures { store_of slots.new heads.new
        ≡ relinked (store_of slots.old heads.old) }
{
    let n = store_words::cells(slots, heads);
    let mut head = n as u32;
    for c in (0..n).rev() {
        head = relink_cell(slots, heads, c, head);
    }
    if let Some(first) = heads.first_mut() {
        *first = head;
    }
}

// Makes all words of a store zero.
pub fn zero_words(slots: &mut [i64], heads: &mut [u32])
    ensures { store_of slots.new heads.new
        ≡ zeroed (cells_in slots.old heads.old) }
{
    // (no `fill`: an edit that leaves a word would change more than a number)
    clearing::clear_from(slots, 0, 0);
    clearing::clear_from(heads, 0, 0);
}

// Opens a store: all words zero, all cells free and linked upwards; for totals that are an array the first cell is
// acquired as the empty one.
pub fn open_store(slots: &mut [i64], heads: &mut [u32], depth: u32)
    ensures { store_of slots.new heads.new
        ≡ opened (cells_in slots.old heads.old) depth }
{
    zero_words(slots, heads);
    relink(slots, heads);
    if depth == 0 {
        return;
    }
    store::acquire_empty(
        slots,
        heads,
        depth - 1,
        store_words::cells(slots, heads) as u32,
    );
}

// Keeps the words of an array for a stop, at the front of one that is no shorter.
pub fn save_words<T: Copy>(saved: &mut [T], words: &[T])
    requires { length words.now ≤ length saved.old }
    ensures { (none : T) → words_of none (length words.now) saved.new ≡ words.now }
{
    for i in 0..words.len() {
        saved[i] = words[i];
    }
}

// After a stop: the cells that were in use before it as they were, the others clear and linked upwards.
pub fn put_back(slots: &mut [i64], heads: &mut [u32], old_slots: &[i64], old_heads: &[u32])
    ensures { store_of slots.new heads.new
        ≡ relinked (store_of (words_of (pos 0) (length slots.old) old_slots.now)
        (words_of 0 (length heads.old) old_heads.now)) }
{
    copy_padded(slots, old_slots, 0);
    copy_padded(heads, old_heads, 0);
    relink(slots, heads);
}
