// A value loaded from a saved file into a store: the entries are read in order, and an array's cell is acquired before
// those of its elements.
#![tactic(auto)]

ghost use Rattle.std.specs.Prelude.{◌≡◌, ◌+◌, ◌≤◌, ◌<◌};
ghost use Rattle.semantics.specs.Words.{store_of};
ghost use Rattle.saved_load.specs.Entries.{Ended, Filled, place, fill, elements_at, load_at};

// A value that was loaded: its word, the number of the entry after it and how many free cells remain.
#[derive(Clone, Copy)]
pub struct Loaded {
    pub word: i64,
    pub next: usize,
    pub free: u32,
}

// How many elements an entry's array has: one less than its mark.
fn elements_at(saved: &[u8], p: usize) -> u8
    requires { p ≤ 4096 }
    ensures { result ≡ elements_at saved.now 0 p }
{
    words::get_or(saved, 3 + p, 0).saturating_sub(1)
}

// The value of a depth from entry p on, in a file of k entries, or none where no cell was free; so many cells are free.
#[cycle(load_elements_load_value)]
pub fn load_value(
    saved: &[u8],
    k: usize,
    slots: &mut [i64],
    heads: &mut [u32],
    depth: u32,
    p: usize,
    free: u32,
) -> Option<Loaded>
    requires { k ≤ 4096 }
    ensures { Ended (load_at saved.now k depth
        (place p free (store_of slots.old heads.old)))
        result (store_of slots.new heads.new) }
{
    if k <= p {
        return None;
    }
    if depth == 0 {
        return Some(Loaded {
            word: words::signed_at(saved, 3 + k + 8 * p),
            next: p + 1,
            free,
        });
    }
    let gained = store::acquire_empty(slots, heads, depth - 1, free)?;
    load_elements(
        saved,
        k,
        slots,
        heads,
        depth - 1,
        p,
        gained.cell,
        gained.left,
    )
}

// The elements of the array of entry p, of a depth, put into the cell c; its word is given. So many cells are free.
#[cycle(load_elements_load_value)]
fn load_elements(
    saved: &[u8],
    k: usize,
    slots: &mut [i64],
    heads: &mut [u32],
    depth: u32,
    p: usize,
    c: usize,
    free: u32,
) -> Option<Loaded>
    requires { (k ≤ 4096) × (p < k) × (c < 256) }
    ensures { Filled c (fill (load_at saved.now k depth) c (elements_at saved.now 0 p)
        (place (p + 1) free (store_of slots.old heads.old)))
        result (store_of slots.new heads.new) }
{
    let mut next = p + 1;
    let mut left = free;
    for _ in 0..elements_at(saved, p) {
        let element = load_value(saved, k, slots, heads, depth, next, left)?;
        store::append(slots, heads, c, element.word);
        next = element.next;
        left = element.free;
    }
    Some(Loaded {
        word: c as i64,
        next,
        free: left,
    })
}
