// What a run counts, and how it is printed.
use std::fmt;
use test_draft::Desk;

// The deliveries that agree, by the number of their answers, and those that differ; the scripts that were opened, those
// refused and those that come to level 64; the scripts by the depth of their totals, and the nodes by kind.
#[derive(Clone, Copy)]
pub struct Tally {
    numbers: [u64; 256],
    differing: u64,
    opened: u64,
    refused: u64,
    last_level: u64,
    depths: [u64; 8],
    kinds: [u64; 32],
}

// The numbers that answers to deliveries have, and those of the kinds of nodes.
const NUMBERS: [usize; 9] = [0, 10, 21, 22, 23, 24, 25, 26, 28];

const KINDS: [usize; 18] = [0, 1, 2, 3, 4, 5, 6, 7, 8, 9, 10, 11, 12, 13, 17, 18, 19, 20];

// Counts one more.
fn count_one(count: &mut u64) {
    *count = count.wrapping_add(1);
}

impl Tally {
    pub fn new() -> Self {
        Tally {
            numbers: [0; 256],
            differing: 0,
            opened: 0,
            refused: 0,
            last_level: 0,
            depths: [0; 8],
            kinds: [0; 32],
        }
    }

    // Counts a script that is opened, with totals of this depth.
    pub fn count_opened(&mut self, depth: u64) {
        count_one(&mut self.opened);
        count_one(&mut self.depths[(depth % 8) as usize]);
    }

    // Counts a script that is refused.
    pub fn count_refused(&mut self) {
        count_one(&mut self.refused);
    }

    // Counts a delivery: the number on which both agree, or that they differ.
    pub fn count_delivery(&mut self, number: Option<u8>) {
        match number {
            Some(number) => count_one(&mut self.numbers[usize::from(number)]),
            None => count_one(&mut self.differing),
        }
    }

    // Counts a draft: its nodes by kind, and whether it comes to the last level.
    pub fn count_draft(&mut self, draft: &Desk) {
        for node in draft.nodes() {
            count_one(&mut self.kinds[node.kind as usize % 32]);
        }
        if draft.reached_last_level {
            count_one(&mut self.last_level);
        }
    }
}

impl fmt::Display for Tally {
    fn fmt<W: fmt::Write>(&self, f: &mut fmt::Formatter<W>) -> fmt::Result {
        writeln!(f, "scripts opened: {}", self.opened)?;
        writeln!(f, "scripts refused: {}", self.refused)?;
        writeln!(f, "scripts that reach level 64: {}", self.last_level)?;
        writeln!(f, "scripts by the depth of the totals")?;
        for (depth, count) in self.depths[..5].iter().enumerate() {
            writeln!(f, "  {depth}: {count}")?;
        }
        writeln!(f, "nodes by kind")?;
        for kind in KINDS {
            writeln!(f, "  {kind}: {}", self.kinds[kind % 32])?;
        }
        writeln!(f, "deliveries that agree, by number")?;
        for number in NUMBERS {
            writeln!(f, "  {number}: {}", self.numbers[number % 256])?;
        }
        writeln!(f, "deliveries that differ: {}", self.differing)
    }
}
