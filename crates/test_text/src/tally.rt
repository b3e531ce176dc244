// How many calls the cases make, and how much of what each leaves is right: counted by call and by the number that the
// case wants, and printed.
ghost use Rattle.std.specs.Prelude.{◌<◌};

use std::fmt;

// The parts of a tally: the eight calls, and the stores that histories end with.
#[derive(Clone, Copy, PartialEq, Eq)]
pub enum Part {
    Translate,
    Open,
    Check,
    Deliver,
    Save,
    Restore,
    CheckCode,
    DeliverCode,
    Last,
}

impl Part {
    // Its place among the parts.
    fn index(self) -> usize
        ensures { result < 9 }
    {
        match self {
            Part::Translate => 0,
            Part::Open => 1,
            Part::Check => 2,
            Part::Deliver => 3,
            Part::Save => 4,
            Part::Restore => 5,
            Part::CheckCode => 6,
            Part::DeliverCode => 7,
            Part::Last => 8,
        }
    }
}

impl fmt::Display for Part {
    fn fmt<W: fmt::Write>(&self, f: &mut fmt::Formatter<W>) -> fmt::Result {
        f.write_str(match self {
            Part::Translate => "engine_translate",
            Part::Open => "engine_open",
            Part::Check => "engine_check",
            Part::Deliver => "engine_deliver",
            Part::Save => "engine_save",
            Part::Restore => "engine_restore",
            Part::CheckCode => "engine_check_code",
            Part::DeliverCode => "engine_deliver_code",
            Part::Last => "the stores that histories end with",
        })
    }
}

// What is counted of the calls of which one number is wanted. The words are those of the code arrays and stores that
// are right. A save has its buffer in the store's place, for it cannot change the store.
#[derive(Clone, Copy, PartialEq, Eq)]
struct Counts {
    calls: u64,
    answers: u64,
    codes: u64,
    code_words: u64,
    stores: u64,
    store_words: u64,
}

const NONE: Counts = Counts {
    calls: 0,
    answers: 0,
    codes: 0,
    code_words: 0,
    stores: 0,
    store_words: 0,
};

impl fmt::Display for Counts {
    fn fmt<W: fmt::Write>(&self, f: &mut fmt::Formatter<W>) -> fmt::Result {
        write!(
            f,
            "{} {} {} {} {} {}",
            self.calls, self.answers, self.codes, self.code_words, self.stores, self.store_words
        )
    }
}

// The counts of each part by number, and the part and the number that are counted next.
#[derive(Clone, Copy)]
pub struct Tally {
    counts: [[Counts; 32]; 9],
    part: Part,
    number: usize,
}

impl Tally {
    pub fn new() -> Self {
        Tally {
            counts: [[NONE; 32]; 9],
            part: Part::Translate,
            number: 0,
        }
    }

    // Turns to a part and a number: what comes next is counted there.
    pub fn turn_to(&mut self, part: Part, number: usize) {
        self.part = part;
        self.number = number;
    }

    // The counts that were turned to.
    fn counts(&mut self) -> &mut Counts {
        &mut self.counts[self.part.index()][self.number % 32]
    }

    // Counts a call, and whether its answer is right.
    pub fn count_call(&mut self, right: bool) {
        let counts = self.counts();
        counts.calls = counts.calls.wrapping_add(1);
        counts.answers = counts.answers.wrapping_add(u64::from(right));
    }

    // Counts a call's code arrays where they are right, with their words.
    pub fn count_code(&mut self, right: bool, words: usize) {
        if right {
            let counts = self.counts();
            counts.codes = counts.codes.wrapping_add(1);
            counts.code_words = counts.code_words.wrapping_add(words as u64);
        }
    }

    // Counts a call's store, or the buffer of a save, where it is right, with its words.
    pub fn count_store(&mut self, right: bool, words: usize) {
        if right {
            let counts = self.counts();
            counts.stores = counts.stores.wrapping_add(1);
            counts.store_words = counts.store_words.wrapping_add(words as u64);
        }
    }

    // Turns to the stores that histories of deliveries end with, and counts one more.
    pub fn count_last(&mut self) {
        self.turn_to(Part::Last, 0);
        let counts = self.counts();
        counts.calls = counts.calls.wrapping_add(1);
    }

    // Writes a part: a row for each number that occurs.
    fn write_part<W: fmt::Write>(&self, f: &mut fmt::Formatter<W>, part: Part) -> fmt::Result {
        writeln!(f, "{part}")?;
        for (number, counts) in self.counts[part.index()].iter().enumerate() {
            if counts.calls != 0 {
                writeln!(f, "{number} {counts}")?;
            }
        }
        Ok(())
    }
}

impl fmt::Display for Tally {
    fn fmt<W: fmt::Write>(&self, f: &mut fmt::Formatter<W>) -> fmt::Result {
        writeln!(
            f,
            "number, calls, and what is right: answers, codes, their words, stores (saved buffers), their words"
        )?;
        self.write_part(f, Part::Translate)?;
        self.write_part(f, Part::Open)?;
        self.write_part(f, Part::Check)?;
        self.write_part(f, Part::Deliver)?;
        self.write_part(f, Part::Save)?;
        self.write_part(f, Part::Restore)?;
        self.write_part(f, Part::CheckCode)?;
        self.write_part(f, Part::DeliverCode)?;
        self.write_part(f, Part::Last)
    }
}
