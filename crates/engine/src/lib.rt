// The calls, each of which answers one packed number; crate engine_c exports them for C. Those for a script take its
// file and the two code arrays, and translate afresh; those for lent code take it in the two code arrays, judge it
// afresh, and write no word of it. The calls for a script share a match on the loading and no function of their own: a
// closure that is lent the store would have to say in its clauses what it leaves there.
#![tactic(auto)]

ghost use Rattle.semantics.specs.Calls.{engine_translate, engine_open, engine_check, engine_deliver};
ghost use Rattle.semantics.specs.SaveCalls.{engine_save, engine_restore};
ghost use Rattle.semantics_lent.specs.Calls.{engine_check_code, engine_deliver_code};
ghost use Rattle.engine.specs.Promises.{Translates, Replies, Saves};

use call_load::Ready;
use machine_code::TABLE_BYTES;

// Translates a script: its code in the two arrays, and its lines in the answer.
pub fn engine_translate(file: &[u8], kinds: &mut [u8], operands: &mut [i64]) -> u64
    ensures { Translates
        (engine_translate file.now kinds.old operands.old)
        result kinds.new operands.new }
{
    match call_load::load(file, kinds, operands) {
        Ok(Ready { lines, .. }) => words::pack(0, 0, lines as u64, 0),
        Err(answer) => answer,
    }
}

// Opens a store for a script.
pub fn engine_open(
    file: &[u8],
    kinds: &mut [u8],
    operands: &mut [i64],
    slots: &mut [i64],
    heads: &mut [u32],
) -> u64
    ensures { Replies
        (engine_open file.now kinds.old operands.old
        slots.old heads.old)
        result kinds.new operands.new slots.new heads.new }
{
    match call_load::load(file, kinds, operands) {
        Ok(Ready { depth, .. }) => {
            let ended = call_store::open_words(slots, heads, depth);
            call_store::tell(ended, kinds, operands)
        }
        Err(answer) => answer,
    }
}

// Checks the store of a script; its words stay as they are.
pub fn engine_check(
    file: &[u8],
    kinds: &mut [u8],
    operands: &mut [i64],
    slots: &[i64],
    heads: &[u32],
) -> u64
    ensures { Replies
        (engine_check file.now kinds.old operands.old
        slots.now heads.now)
        result kinds.new operands.new slots.now heads.now }
{
    match call_load::load(file, kinds, operands) {
        Ok(Ready { depth, .. }) => {
            let ended = call_store::check_words(slots, heads, depth);
            call_store::tell(ended, kinds, operands)
        }
        Err(answer) => answer,
    }
}

// Delivers readings to a script on its store, within a budget of steps. The machine is lent the code cut to its lines.
pub fn engine_deliver(
    file: &[u8],
    kinds: &mut [u8],
    operands: &mut [i64],
    slots: &mut [i64],
    heads: &mut [u32],
    readings: &[i64],
    budget: u64,
) -> u64
    ensures { Replies
        (engine_deliver file.now kinds.old operands.old
        slots.old heads.old readings.now budget)
        result kinds.new operands.new slots.new heads.new }
{
    let mut table = [0u8; TABLE_BYTES];
    match call_load::load_with(file, kinds, operands, &mut table) {
        Ok(Ready { lines, depth }) => {
            let ended = call_deliver::deliver_words(
                &kinds[..lines],
                &operands[..lines],
                &table,
                slots,
                heads,
                readings,
                depth,
                budget,
            );
            call_store::tell(ended, kinds, operands)
        }
        Err(answer) => answer,
    }
}

// Saves the totals of a script's store in a buffer, from which a restore takes them; the store stays as it is.
pub fn engine_save(
    file: &[u8],
    kinds: &mut [u8],
    operands: &mut [i64],
    slots: &[i64],
    heads: &[u32],
    saved: &mut [u8],
) -> u64
    ensures { Saves
        (engine_save file.now kinds.old operands.old
        slots.now heads.now saved.old)
        result kinds.new operands.new slots.now heads.now saved.new }
{
    match call_load::load(file, kinds, operands) {
        Ok(Ready { depth, .. }) => {
            let ended = call_saved::save_words(slots, heads, saved, depth);
            call_store::tell(ended, kinds, operands)
        }
        Err(answer) => {
            clearing::clear_from(saved, 0, 0);
            answer
        }
    }
}

// Opens a store for a script with the totals of a saved file.
pub fn engine_restore(
    file: &[u8],
    kinds: &mut [u8],
    operands: &mut [i64],
    slots: &mut [i64],
    heads: &mut [u32],
    saved: &[u8],
) -> u64
    ensures { Replies
        (engine_restore file.now kinds.old operands.old
        slots.old heads.old saved.now)
        result kinds.new operands.new slots.new heads.new }
{
    match call_load::load(file, kinds, operands) {
        Ok(Ready { depth, .. }) => {
            let ended = call_saved::restore_words(slots, heads, saved, depth);
            call_store::tell(ended, kinds, operands)
        }
        Err(answer) => answer,
    }
}

// Checks lent code for main of a depth: its lines in the answer, or the line at fault.
pub fn engine_check_code(kinds: &[u8], operands: &[i64], depth: u64) -> u64
    ensures { Translates
        (engine_check_code kinds.now operands.now depth)
        result kinds.now operands.now }
{
    call_code::check(kinds, operands, depth)
}

// Delivers readings by lent code, for main of a depth, on a store, within a budget of steps.
pub fn engine_deliver_code(
    kinds: &[u8],
    operands: &[i64],
    depth: u64,
    slots: &mut [i64],
    heads: &mut [u32],
    readings: &[i64],
    budget: u64,
) -> u64
    ensures { Replies
        (engine_deliver_code kinds.now operands.now depth
        slots.old heads.old readings.now budget)
        result kinds.now operands.now slots.new heads.new }
{
    call_code::deliver(kinds, operands, depth, slots, heads, readings, budget)
}
