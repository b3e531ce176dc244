// The calls on lent code: what is judged, checked or worked is told in a packed answer, and no word of the code is
// written.
#![tactic(auto)]

ghost use Rattle.std.specs.Prelude.{◌≡◌};
ghost use Rattle.semantics_lent.specs.Calls.{judged_code, checking, engine_deliver_code};
ghost use Rattle.call_code.specs.Delivering.{Delivers, fault_at};

use answers::Refusal;
use lent_form::Fault;
use machine_code::{STARTS, TABLE_BYTES};

// The packed answer of code that does not pass: 29 and the line at fault.
fn refused(fault: Fault) -> u64
    ensures { result ≡ fault_at fault.line }
{
    words::pack(Refusal::BadCode.number() as u64, fault.line as u64, 0, 0)
}

// Checks lent code for main of a depth: its lines in the answer, or the line at fault.
pub fn check(kinds: &[u8], operands: &[i64], depth: u64) -> u64
    ensures { result ≡ checking (judged_code kinds.now operands.now depth) }
{
    let mut depths = [0u8; STARTS];
    match lent_judge::judge(kinds, operands, depth, &mut depths) {
        Ok(lines) => words::pack(0, 0, lines as u64, 0),
        Err(fault) => refused(fault),
    }
}

// Delivers readings by lent code, for main of a depth, on a store, within a budget of steps. The machine is lent the
// code cut to its lines.
pub fn deliver(
    kinds: &[u8],
    operands: &[i64],
    depth: u64,
    slots: &mut [i64],
    heads: &mut [u32],
    readings: &[i64],
    budget: u64,
) -> u64
    ensures { Delivers
        (engine_deliver_code kinds.now operands.now depth
        slots.old heads.old readings.now budget)
        result kinds.now operands.now slots.new heads.new }
{
    let mut table = [0u8; TABLE_BYTES];
    match lent_judge::judge(kinds, operands, depth, &mut table) {
        Ok(lines) => {
            let ended = call_deliver::deliver_words(
                &kinds[..lines],
                &operands[..lines],
                &table,
                slots,
                heads,
                readings,
                (depth % 256) as u32,
                budget,
            );
            call_store::answer(ended)
        }
        Err(fault) => refused(fault),
    }
}
