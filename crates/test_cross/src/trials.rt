// Document 01's trials that its theorems leave: 16 and 17 readings with the printed script, and a call depth of 32 and
// of 33. Each is one delivery to a fresh store.
use super::both::{Both, Given};
use std::io;
use test_draft::Desk;
use test_ledger::Store;
use test_values::VALUE_WORDS;
use test_values::kinds::Kind;
use test_values::memory::Memory;
use test_values::rows::FILE_BYTES;

// The cells of a trial's store.
const CELLS: usize = 2;

// Printed in place of a number where the engine and the second interpreter differ. No answer has this number.
const DIFFERS: u8 = 32;

// The printed script: the first totals are the first reading, and later readings are added.
const PRINTED: [(Kind, u64); 18] = [
    (Kind::Function, 0x102),
    (Kind::Parameter, 0x100),
    (Kind::Parameter, 0x101),
    (Kind::If, 0),
    (Kind::Length, 0),
    (Kind::Name, 0),
    (Kind::Literal, 1),
    (Kind::Sum, 0),
    (Kind::Index, 0),
    (Kind::Name, 0),
    (Kind::Number, 0),
    (Kind::Index, 0),
    (Kind::Name, 1),
    (Kind::Number, 0),
    (Kind::Literal, 1),
    (Kind::Index, 0),
    (Kind::Name, 1),
    (Kind::Number, 0),
];

// Main calls a function with the first reading n, which calls itself n times: f(n) = if 0 < n then f(n - 1) else 0.
const NESTED: [(Kind, u64); 18] = [
    (Kind::Function, 2),
    (Kind::Parameter, 0),
    (Kind::Parameter, 0x101),
    (Kind::Call, 0x101),
    (Kind::Index, 0),
    (Kind::Name, 1),
    (Kind::Number, 0),
    (Kind::Function, 1),
    (Kind::Parameter, 0),
    (Kind::If, 0),
    (Kind::Less, 0),
    (Kind::Number, 0),
    (Kind::Name, 0),
    (Kind::Call, 0x101),
    (Kind::Difference, 0),
    (Kind::Name, 0),
    (Kind::Number, 1),
    (Kind::Number, 0),
];

// A delivery of so many readings, all the same, to a fresh store of a script of these nodes; the number on which the
// engine and the second interpreter agree.
fn number_of(nodes: &[(Kind, u64)], functions: usize, reading: u64, count: usize) -> Option<u8> {
    let mut desk = Desk::new(0);
    desk.functions = functions;
    for (kind, operand) in nodes {
        desk.write(*kind, *operand);
    }
    let mut file = [0u8; FILE_BYTES];
    let end = test_draft::file::write_file(&desk, &mut file);
    let mut store = Store::CLEAR;
    let mut ledger = Memory::CLEAR;
    ledger.read_script(&file);
    let mut both = Both {
        file: &file[..end],
        cells: CELLS,
        store: &mut store,
        ledger: &mut ledger,
    };
    if !both.open() {
        return None;
    }
    both.deliver(&Given {
        readings: [reading; VALUE_WORDS],
        count,
        budget: test_ledger::MOST_STEPS,
    })
}

// Prints what a trial is, and its number in both.
fn print_trial(rt: &impl Print, label: &str, number: Option<u8>) -> io::Result<()> {
    let number = number.unwrap_or(DIFFERS);
    println!(rt; "{label}: {number}")
}

// Runs all trials. Main is the first call, and the function with the reading n makes n + 1 more.
pub fn run_trials(rt: &impl Print) -> io::Result<()> {
    print_trial(rt, "16 readings", number_of(&PRINTED, 1, 7, 16))?;
    print_trial(rt, "17 readings", number_of(&PRINTED, 1, 7, 17))?;
    print_trial(rt, "call depth 32", number_of(&NESTED, 2, 30, 1))?;
    print_trial(rt, "call depth 33", number_of(&NESTED, 2, 31, 1))
}
