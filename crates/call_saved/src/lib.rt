// The store's part of saving totals and of restoring them, with every lent word promised.
#![tactic(auto)]

ghost use Rattle.std.specs.Prelude.{◌≡◌, ◌≤◌};
ghost use Rattle.call_store.specs.Left.{left, SmallAnswer};
ghost use Rattle.call_saved.specs.Left.{restored_left, save_left, saved_left};

use answers::{Refusal, Stop};
use call_store::Answered;

// Opens a store with the totals of a saved file. Where the cells do not suffice all words are zero.
pub fn restore_words(
    slots: &mut [i64],
    heads: &mut [u32],
    saved: &[u8],
    depth: u32,
) -> Result<Answered, Refusal>
    ensures heads_after { left result slots.new heads.new
        ≡ restored_left depth saved.now slots.old heads.old }
    ensures small_answer { SmallAnswer result }
{
    if !store_words::lengths_fit(slots, heads) {
        return Err(Refusal::UnsoundStore);
    }
    if !saved_read::is_readable(saved, depth) {
        return Err(Refusal::BadSaveFile);
    }
    store_reset::open_store(slots, heads, 0);
    let k = words::short_at(saved, 1);
    let free = store_words::cells_free(slots, heads);
    let Some(loaded) = saved_load::load_value(saved, k, slots, heads, depth, 0, free) else {
        store_reset::zero_words(slots, heads);
        return Ok(Answered {
            number: Stop::OutOfCells as u8,
            lowest: 0,
            steps: 0,
            cells: 0,
        });
    };
    store_words::set_totals(slots, loaded.word);
    Ok(call_store::done(store_words::cells_taken(slots, heads)))
}

// Writes the totals of a sound store to a buffer, and zero past them; a refusal zeroes all of it.
pub fn save_words(
    slots: &[i64],
    heads: &[u32],
    saved: &mut [u8],
    depth: u32,
) -> Result<Answered, Refusal>
    requires { depth ≤ 4 }
    ensures saved_after { save_left result saved.new
        ≡ saved_left depth slots.now heads.now saved.old }
    ensures small_answer { SmallAnswer result }
{
    if !store_check::is_sound(slots, heads, depth) {
        saved.fill(0);
        return Err(Refusal::UnsoundStore);
    }
    if !saved_write::write_totals(slots, heads, saved, depth) {
        return Err(Refusal::BadSaveFile);
    }
    Ok(call_store::done(store_words::cells_taken(slots, heads)))
}
