// The store's part of a delivery: refusals 10 and 11, the delivery itself, and every word of the two lent arrays.
#![tactic(auto)]

ghost use Rattle.std.specs.Prelude.{◌≡◌};
ghost use Rattle.semantics.specs.Calls.{request_fits};
ghost use Rattle.machine_code.specs.Reading.{Cut};
ghost use Rattle.call_deliver.specs.Delivered.{DeliversWords};

use answers::Refusal;
use call_store::Answered;
use machine_code::TABLE_BYTES;

// Whether there are at most 16 readings and 1,000,000 steps.
#[tactic(auto, unfolding(semantics::specs::Calls::request_fits))]
fn request_fits(readings: &[i64], budget: u64) -> bool
    ensures { result ≡ request_fits readings.now budget }
{
    readings.len() <= 16 && budget <= 1000000
}

// Works a delivery on the code of a script, cut to its lines, of which the table has the depths and the positions.
pub fn deliver_words(
    kinds: &[u8],
    operands: &[i64],
    table: &[u8; TABLE_BYTES],
    slots: &mut [i64],
    heads: &mut [u32],
    readings: &[i64],
    depth: u32,
    budget: u64,
) -> Result<Answered, Refusal>
    requires { Cut kinds.now operands.now }
    ensures { DeliversWords kinds.now operands.now table.now
        slots.old heads.old readings.now depth budget
        result slots.new heads.new }
{
    if !request_fits(readings, budget) {
        return Err(Refusal::BadRequest);
    }
    if !store_check::is_sound(slots, heads, depth) {
        return Err(Refusal::UnsoundStore);
    }
    let end = machine_delivery::deliver_on(
        kinds, operands, table, slots, heads, readings, depth, budget,
    );
    Ok(Answered {
        number: end.number(),
        lowest: end.lowest,
        steps: end.steps,
        cells: store_words::cells_taken(slots, heads),
    })
}
