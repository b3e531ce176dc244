// One store in the engine and its ledger beside it: opened and worked together, and compared after each call. The
// arrays are those of the greatest script and store; the engine is lent as much of them as there is. Its code arrays
// hold something else before each call.
use test_ledger::{Answer, BAD_REQUEST, MOST_CELLS, Store};
use test_values::memory::Memory;
use test_values::{Stop, VALUE_WORDS};

// The most lines of code.
const CODE_LINES: usize = 4096;

// A script file, and a store of some cells with its ledger.
#[derive(Drop)]
pub struct Both<'a> {
    pub file: &'a [u8],
    pub cells: usize,
    pub store: &'a mut Store,
    pub ledger: &'a mut Memory,
}

// What a delivery is given: so many of these readings, and a budget.
#[derive(Clone, Copy)]
pub struct Given {
    pub readings: [u64; VALUE_WORDS],
    pub count: usize,
    pub budget: u64,
}

impl Both<'_> {
    // The depth of the totals.
    pub fn totals_depth(&self) -> u64 {
        test_ledger::totals_depth(self.ledger)
    }

    // Opens the store and its ledger; false where the script is refused or the totals differ.
    pub fn open(&mut self) -> bool {
        let mut kinds = [170u8; CODE_LINES];
        let mut operands = [-170i64; CODE_LINES];
        let file = self.file;
        test_ledger::open(self.ledger, self.cells.min(MOST_CELLS) as u64);
        let answer = self.store.lend(self.cells, |slots, heads| {
            engine::engine_open(file, &mut kinds, &mut operands, slots, heads)
        });
        Answer::from(answer).number == 0 && self.store.has_totals(self.ledger)
    }

    // The engine's answer to a delivery.
    fn deliver_engine(&mut self, given: &Given) -> u64 {
        let mut kinds = [170u8; CODE_LINES];
        let mut operands = [-170i64; CODE_LINES];
        let mut numbers = [0i64; VALUE_WORDS];
        for (i, bits) in given.readings.iter().enumerate() {
            numbers[i] = bits.cast_signed();
        }
        let file = self.file;
        let budget = given.budget;
        let readings = &numbers[..given.count.min(VALUE_WORDS)];
        self.store.lend(self.cells, |slots, heads| {
            engine::engine_deliver(
                file,
                &mut kinds,
                &mut operands,
                slots,
                heads,
                readings,
                budget,
            )
        })
    }

    // The engine's answer to checking the store.
    fn check(&self) -> u64 {
        let mut kinds = [170u8; CODE_LINES];
        let mut operands = [-170i64; CODE_LINES];
        engine::engine_check(
            self.file,
            &mut kinds,
            &mut operands,
            self.store.slots(self.cells),
            self.store.heads(self.cells),
        )
    }

    // Whether the store is sound after a delivery with this answer, with as many taken cells as the delivery says, and
    // with all of them taken where none was free for the readings.
    fn is_sound(&self, answer: Answer) -> bool {
        let checked = Answer::from(self.check());
        if checked.number != 0 {
            return false;
        }
        if answer.number == BAD_REQUEST {
            return true;
        }
        let dry_at_once = answer.number == Stop::OutOfCells as u8 && answer.steps == 0;
        (!dry_at_once || answer.cells == self.cells as u64) && answer.cells == checked.cells
    }

    // Works a delivery in both; the number of the answer if all agrees.
    pub fn deliver(&mut self, given: &Given) -> Option<u8> {
        let packed = self.deliver_engine(given);
        let agrees = test_ledger::judge(
            self.ledger,
            &given.readings,
            given.count,
            given.budget,
            packed,
        );
        let answer = Answer::from(packed);
        let is_right = agrees && self.store.has_totals(self.ledger) && self.is_sound(answer);
        is_right.then_some(answer.number)
    }

    // Works a delivery in both, and one that stops with 22 to 28 after some steps once more with a step less: that is
    // 21, which comes before them. The number of the first answer if all agrees.
    pub fn deliver_twice(&mut self, given: &Given) -> Option<u8> {
        let number = self.deliver(given)?;
        let steps = self.ledger.taken;
        let stops = Stop::CallTooDeep as u8..=Stop::BadGuard as u8;
        if !stops.contains(&number) || steps == 0 {
            return Some(number);
        }
        let fewer = Given {
            budget: steps - 1,
            ..*given
        };
        let ends = self.deliver(&fewer)? == Stop::OutOfSteps as u8;
        ends.then_some(number)
    }
}
