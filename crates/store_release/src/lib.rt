// The release of a cell of the counted store on the two arrays that a caller lends. It is total: it works on arrays of
// any length and content, and a cell that is not there takes no write.
#![tactic(auto)]

ghost use Rattle.std.specs.Prelude.{◌≡◌, ◌+◌, ◌*◌, ◌<◌, length};
ghost use Rattle.semantics.specs.Store.{freed};
ghost use Rattle.semantics.specs.Words.{slots_at, store_of};
ghost use Rattle.store_words.specs.Parts.{HasSlots, HasWords};
ghost use Rattle.store_release.specs.Releasing.{Releases};

// The sixteen slots of a cell.
fn slots_of(slots: &[i64], c: usize) -> [i64; 16]
    requires { HasSlots slots.now c }
    ensures { result ≡ slots_at slots.now c }
{
    let mut r = [0; 16];
    r.copy_from_slice(&slots[1 + 16 * c..17 + 16 * c]);
    r
}

// Clears a cell and puts it at the head of the free list.
fn free(slots: &mut [i64], heads: &mut [u32], c: usize)
    requires { HasWords slots.old heads.old c }
    ensures { store_of slots.new heads.new
        ≡ freed c (store_of slots.old heads.old) }
{
    let first = heads[0];
    let freed = c as u32;
    heads[0] = freed;
    store_words::write_head(heads, c, 0, 0, 0, first);
    store_words::clear_slots(slots, c);
}

// One reference fewer to a cell. The last one frees it, and then its elements are released, first to last; this goes
// down the given levels. How many cells were freed.
pub fn release(slots: &mut [i64], heads: &mut [u32], c: usize, levels: u32) -> u32
    ensures { Releases levels c (store_of slots.old heads.old)
        (store_of slots.new heads.new) result }
{
    if levels == 0 || !store_words::is_cell(slots, heads, c) {
        return 0;
    }
    let n = heads[1 + 4 * c];
    if n == 0 {
        return 0;
    }
    if 1 < n {
        heads[1 + 4 * c] = n - 1;
        return 0;
    }
    let size = (heads[2 + 4 * c] as usize).min(16);
    let depth = heads[3 + 4 * c];
    if depth == 0 {
        free(slots, heads, c);
        return 1;
    }
    let words = slots_of(slots, c);
    free(slots, heads, c);
    let mut freed: u32 = 1;
    for &word in &words[..size] {
        freed += release(slots, heads, store_words::named_cell(word), levels - 1);
    }
    freed
}
