// The calls of `engine` for C, by their C names: a static library. Each promises what the call that it passes on promises.
#![tactic(auto)]

ghost use Rattle.semantics.specs.Calls.{engine_translate, engine_open, engine_check, engine_deliver};
ghost use Rattle.semantics.specs.SaveCalls.{engine_save, engine_restore};
ghost use Rattle.semantics_lent.specs.Calls.{engine_check_code, engine_deliver_code};
ghost use Rattle.engine.specs.Promises.{Translates, Replies, Saves};

// Translates a script: its code in the two arrays, and its lines in the answer.
#[unsafe(no_mangle)]
pub extern "C" fn engine_translate(file: &[u8], kinds: &mut [u8], operands: &mut [i64]) -> u64
    ensures { Translates
        (engine_translate file.now kinds.old operands.old)
        result kinds.new operands.new }
{
    engine::engine_translate(file, kinds, operands)
}

// Opens a store for a script.
#[unsafe(no_mangle)]
pub extern "C" fn engine_open(
    file: &[u8],
    kinds: &mut [u8],
    operands: &mut [i64],
    slots: &mut [i64],
    heads: &mut [u32],
) -> u64
    ensures { Replies
        (engine_open file.now kinds.old operands.old
        slots.old heads.old)
        result kinds.new operands.new slots.new heads.new }
{
    engine::engine_open(file, kinds, operands, slots, heads)
}

// Checks the store of a script; its words stay as they are.
#[unsafe(no_mangle)]
pub extern "C" fn engine_check(
    file: &[u8],
    kinds: &mut [u8],
    operands: &mut [i64],
    slots: &[i64],
    heads: &[u32],
) -> u64
    ensures { Replies
        (engine_check file.now kinds.old operands.old
        slots.now heads.now)
        result kinds.new operands.new slots.now heads.now }
{
    engine::engine_check(file, kinds, operands, slots, heads)
}

// Delivers readings to a script on its store, within a budget of steps. The machine is lent the code cut to its lines.
#[unsafe(no_mangle)]
pub extern "C" fn engine_deliver(
    file: &[u8],
    kinds: &mut [u8],
    operands: &mut [i64],
    slots: &mut [i64],
    heads: &mut [u32],
    readings: &[i64],
    budget: u64,
) -> u64
    ensures { Replies
        (engine_deliver file.now kinds.old operands.old
        slots.old heads.old readings.now budget)
        result kinds.new operands.new slots.new heads.new }
{
    engine::engine_deliver(file, kinds, operands, slots, heads, readings, budget)
}

// Saves the totals of a script's store in a buffer, from which a restore takes them; the store stays as it is.
#[unsafe(no_mangle)]
pub extern "C" fn engine_save(
    file: &[u8],
    kinds: &mut [u8],
    operands: &mut [i64],
    slots: &[i64],
    heads: &[u32],
    saved: &mut [u8],
) -> u64
    ensures { Saves
        (engine_save file.now kinds.old operands.old
        slots.now heads.now saved.old)
        result kinds.new operands.new slots.now heads.now saved.new }
{
    engine::engine_save(file, kinds, operands, slots, heads, saved)
}

// Opens a store for a script with the totals of a saved file.
#[unsafe(no_mangle)]
pub extern "C" fn engine_restore(
    file: &[u8],
    kinds: &mut [u8],
    operands: &mut [i64],
    slots: &mut [i64],
    heads: &mut [u32],
    saved: &[u8],
) -> u64
    ensures { Replies
        (engine_restore file.now kinds.old operands.old
        slots.old heads.old saved.now)
        result kinds.new operands.new slots.new heads.new }
{
    engine::engine_restore(file, kinds, operands, slots, heads, saved)
}

// Checks lent code for main of a depth: its lines in the answer, or the line at fault.
#[unsafe(no_mangle)]
pub extern "C" fn engine_check_code(kinds: &[u8], operands: &[i64], depth: u64) -> u64
    ensures { Translates
        (engine_check_code kinds.now operands.now depth)
        result kinds.now operands.now }
{
    engine::engine_check_code(kinds, operands, depth)
}

// Delivers readings by lent code, for main of a depth, on a store, within a budget of steps.
#[unsafe(no_mangle)]
pub extern "C" fn engine_deliver_code(
    kinds: &[u8],
    operands: &[i64],
    depth: u64,
    slots: &mut [i64],
    heads: &mut [u32],
    readings: &[i64],
    budget: u64,
) -> u64
    ensures { Replies
        (engine_deliver_code kinds.now operands.now depth
        slots.old heads.old readings.now budget)
        result kinds.now operands.now slots.new heads.new }
{
    engine::engine_deliver_code(kinds, operands, depth, slots, heads, readings, budget)
}
