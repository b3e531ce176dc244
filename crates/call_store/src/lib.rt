// The store's part of opening and checking, with every word of the two lent arrays promised; and how the end of such a
// part is told.
#![tactic(auto)]

ghost use Rattle.std.specs.Prelude.{◌≡◌, ℕ, Ok};
ghost use Rattle.answers.specs.Numbers.{number_of};
ghost use Rattle.call_store.specs.Left.{answered, left, opened_left, checked_left, SmallAnswer};
ghost use Rattle.call_store.specs.Told.{answer_to, Tells};

use answers::Refusal;

// What the store's part of a call answers: the number of a stop or 0, the lowest level of a delivery, the steps and the
// cells taken. (The stop is its number here: that is what the packed answer for C holds, see `answer_to`.)
#[derive(Clone, Copy)]
pub struct Answered {
    pub number: u8,
    pub lowest: u32,
    pub steps: u64,
    pub cells: usize,
}

// The answer of a part that is no delivery and does not stop, with so many cells taken.
pub fn done(cells: usize) -> Answered
    ensures { Ok result ≡ answered 0 0 0 cells }
{
    Answered {
        number: 0,
        lowest: 0,
        steps: 0,
        cells,
    }
}

// Opens a store for totals of a depth; only the lengths are tested.
pub fn open_words(slots: &mut [i64], heads: &mut [u32], depth: u32) -> Result<Answered, Refusal>
    ensures heads_after { left result slots.new heads.new
        ≡ opened_left depth slots.old heads.old }
    ensures small_answer { SmallAnswer result }
{
    if !store_words::lengths_fit(slots, heads) {
        return Err(Refusal::UnsoundStore);
    }
    store_reset::open_store(slots, heads, depth);
    Ok(done(store_words::cells_taken(slots, heads)))
}

// Checks a store with totals of a depth.
pub fn check_words(slots: &[i64], heads: &[u32], depth: u32) -> Result<Answered, Refusal>
    ensures heads_value { left result slots.now heads.now
        ≡ checked_left depth slots.now heads.now }
    ensures small_answer { SmallAnswer result }
{
    if !store_check::is_sound(slots, heads, depth) {
        return Err(Refusal::UnsoundStore);
    }
    Ok(done(store_words::cells_taken(slots, heads)))
}

// Why a part of a call is refused, as far as its answer tells: by a number.
pub trait Told {
    ghost told: { Self → ℕ };

    // The number.
    fn told_number(self) -> u8
        ensures { result ≡ told self };
}

impl Told for Refusal {
    ghost told = { number_of };

    fn told_number(self) -> u8 {
        self.number()
    }
}

impl Told for u8 {
    ghost told = { λ number. number };

    fn told_number(self) -> u8 {
        self
    }
}

// The packed answer to how the store's part of a call ended.
#[tactic(auto, unfolding(semantics::specs::Calls::packed))]
pub fn answer<R: Told>(ended: Result<Answered, R>) -> u64
    ensures { result ≡ answer_to R.told ended }
{
    match ended {
        Ok(a) => words::pack(
            u64::from(a.number),
            u64::from(a.lowest),
            a.steps,
            a.cells as u64,
        ),
        Err(refusal) => u64::from(refusal.told_number()),
    }
}

// The same for a call that leaves a script's code: a refusal zeroes both code arrays.
pub fn tell<R: Told>(ended: Result<Answered, R>, kinds: &mut [u8], operands: &mut [i64]) -> u64
    ensures { Tells R.told ended kinds.old operands.old result
        kinds.new operands.new }
{
    if ended.is_err() {
        clearing::clear_code(kinds, operands);
    }
    answer(ended)
}
