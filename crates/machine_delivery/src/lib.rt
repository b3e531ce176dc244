// A delivery on the code of a script, cut to its lines, and a store: the readings' cell, main, the result in the
// totals' place; and after a stop the old store, linked anew.
#![tactic(auto)]

ghost use Rattle.std.specs.Prelude.{◌≡◌, true, ℕ, ◌<◌, ◌≤◌, pos, length};
ghost use Rattle.semantics.specs.Words.{store_of, shaped};
ghost use Rattle.machine_code.specs.Reading.{Cut};
ghost use Rattle.machine_spec.specs.Machine.{code};
ghost use Rattle.machine_spec.specs.Delivery.{retained_totals, released_totals, main_on, attempt_on, delivered_on};
ghost use Rattle.machine_delivery.specs.Promises.{stopped_number, Tries, DeliversOn};

use answers::Stop;
use machine_code::{MOST_LINES, TABLE_BYTES};
use machine_frames::{Cause, FRAME_WORDS, MAIN_FRAME};

// How many words a store of 16 cells has, and how many one of 256.
const FEW_SLOTS: usize = 257;

const FEW_HEADS: usize = 65;

const MOST_SLOTS: usize = 4097;

const MOST_HEADS: usize = 1025;

// How a delivery ends: why it was stopped, if it was, the least number of free cells over it, and the steps taken.
#[derive(Clone, Copy)]
pub struct Delivery {
    pub stopped: Option<Cause>,
    pub lowest: u32,
    pub steps: u64,
}

impl Delivery {
    // The number of its stop, or 0.
    pub fn number(self) -> u8
        ensures { result ≡ stopped_number self.stopped }
    {
        match self.stopped {
            Some(cause) => cause.number(),
            None => 0,
        }
    }
}

// The same before the clearing after a stop, with the steps left. It is no `Delivery`: one field would then mean the
// steps taken in one place and those left in another.
#[derive(Clone, Copy)]
pub struct Attempted {
    pub stopped: Option<Cause>,
    pub lowest: u32,
    pub steps: u64,
}

// One reference more to the totals, where they are an array.
fn retain_totals(slots: &[i64], heads: &mut [u32], depth: u32, old: i64)
    ensures { store_of slots.now heads.new
        ≡ retained_totals depth old (store_of slots.now heads.old) }
{
    if depth != 0 {
        store::retain(slots, heads, store_words::named_cell(old));
    }
}

// One reference fewer. No level is lower for it.
fn release_totals(slots: &mut [i64], heads: &mut [u32], depth: u32, old: i64)
    ensures { store_of slots.new heads.new
        ≡ released_totals depth old (store_of slots.old heads.old) }
{
    if depth != 0 {
        store_release::release(slots, heads, store_words::named_cell(old), 4);
    }
}

// Main on the totals and the readings' cell, beside which so many cells are free.
fn work_main(
    kinds: &[u8],
    operands: &[i64],
    table: &[u8; TABLE_BYTES],
    slots: &mut [i64],
    heads: &mut [u32],
    depth: u32,
    old: i64,
    readings: i64,
    free: u32,
    budget: u64,
) -> Attempted
    requires { (0 < length slots.old) × Cut kinds.now operands.now }
    ensures { (k : ℕ) → readings ≡ pos k → Tries
        (main_on (code kinds.now operands.now table.now) depth old k free budget
        (store_of slots.old heads.old))
        budget result slots.new heads.new }
{
    retain_totals(slots, heads, depth, old);
    let mut env = [0i64; FRAME_WORDS];
    machine_frames::set_level(&mut env, free);
    let head = machine_code::start_in(table, 0);
    let n = machine_code::name_at(operands, head) as usize;
    let x = machine_code::name_at(operands, head + 1);
    let y = machine_code::name_at(operands, head + 2);
    machine_frames::bind(&mut env, MAIN_FRAME, x, old);
    machine_frames::bind(&mut env, MAIN_FRAME, y, readings);
    machine_frames::set_function(&mut env, MAIN_FRAME, 0);
    let worked = machine::work_tree(
        &kinds,
        &operands,
        table,
        slots,
        heads,
        &mut env,
        budget,
        MOST_LINES,
        MAIN_FRAME,
        head + 1 + n,
    );
    let lowest = machine_frames::lowest(&env);
    match worked {
        Ok(given) => {
            store_words::set_totals(slots, given.value);
            release_totals(slots, heads, depth, old);
            Attempted {
                stopped: None,
                lowest,
                steps: given.steps,
            }
        }
        Err(halted) => Attempted {
            stopped: Some(halted.cause),
            lowest,
            steps: halted.steps,
        },
    }
}

// The delivery without the clearing after a stop.
fn attempt(
    kinds: &[u8],
    operands: &[i64],
    table: &[u8; TABLE_BYTES],
    slots: &mut [i64],
    heads: &mut [u32],
    readings: &[i64],
    depth: u32,
    budget: u64,
) -> Attempted
    requires { (0 < length slots.old) × Cut kinds.now operands.now }
    ensures { Tries
        (attempt_on (code kinds.now operands.now table.now)
        readings.now depth budget (store_of slots.old heads.old))
        budget result slots.new heads.new }
{
    let old = words::get_or(slots, 0, 0);
    let free = store_words::cells_free(slots, heads);
    let Some(gained) = store::acquire(slots, heads, 0, readings, free) else {
        return Attempted {
            stopped: Some(Cause::Stopped(Stop::OutOfCells)),
            lowest: free,
            steps: budget,
        };
    };
    let w = machine_frames::word_from(gained.cell);
    work_main(
        kinds,
        operands,
        table,
        slots,
        heads,
        depth,
        old,
        w,
        gained.left,
        budget,
    )
}

// A delivery of these readings, with totals of this depth; the store's words are kept for a stop in two arrays that are
// no shorter.
fn deliver_kept(
    kinds: &[u8],
    operands: &[i64],
    table: &[u8; TABLE_BYTES],
    slots: &mut [i64],
    heads: &mut [u32],
    readings: &[i64],
    depth: u32,
    budget: u64,
    old_slots: &mut [i64],
    old_heads: &mut [u32],
) -> Delivery
    requires { (0 < length slots.old) × (length slots.old ≤ length old_slots.old)
        × (length heads.old ≤ length old_heads.old) × Cut kinds.now operands.now }
    ensures { DeliversOn
        (delivered_on (code kinds.now operands.now table.now)
        readings.now depth budget (store_of slots.old heads.old))
        result slots.new heads.new }
{
    store_reset::save_words(old_slots, slots);
    store_reset::save_words(old_heads, heads);
    let r = attempt(
        kinds, operands, table, slots, heads, readings, depth, budget,
    );
    let stopped = r.stopped.is_some();
    if stopped {
        store_reset::put_back(slots, heads, old_slots, old_heads);
    }
    Delivery {
        stopped: r.stopped,
        lowest: r.lowest,
        steps: budget - r.steps,
    }
}

// The same, with arrays for 16 cells where these are enough, or else for 256.
pub fn deliver_on(
    kinds: &[u8],
    operands: &[i64],
    table: &[u8; TABLE_BYTES],
    slots: &mut [i64],
    heads: &mut [u32],
    readings: &[i64],
    depth: u32,
    budget: u64,
) -> Delivery
    requires { (shaped slots.old heads.old ≡ true) × Cut kinds.now operands.now }
    ensures { DeliversOn
        (delivered_on (code kinds.now operands.now table.now)
        readings.now depth budget (store_of slots.old heads.old))
        result slots.new heads.new }
{
    if slots.len() <= FEW_SLOTS {
        let mut few_slots = [0i64; FEW_SLOTS];
        let mut few_heads = [0u32; FEW_HEADS];
        return deliver_kept(
            kinds,
            operands,
            table,
            slots,
            heads,
            readings,
            depth,
            budget,
            &mut few_slots,
            &mut few_heads,
        );
    }
    let mut old_slots = [0i64; MOST_SLOTS];
    let mut old_heads = [0u32; MOST_HEADS];
    deliver_kept(
        kinds,
        operands,
        table,
        slots,
        heads,
        readings,
        depth,
        budget,
        &mut old_slots,
        &mut old_heads,
    )
}
