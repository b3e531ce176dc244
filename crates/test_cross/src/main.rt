// Runs the engine and a second interpreter on the same scripts and deliveries: document 01's remaining trials, and
// scripts made from seeds. It prints how many deliveries agree in each part of the answer and in the totals, by number.
#![tactic(auto)]

mod both;
mod tally;
mod trials;

use both::{Both, Given};
use std::io;
use tally::Tally;
use test_draft::Desk;
use test_generate::scripts;
use test_ledger::Store;
use test_values::VALUE_WORDS;
use test_values::memory::Memory;
use test_values::rows::FILE_BYTES;

// How many scripts are made, and how many deliveries each store gets.
const SCRIPTS: u64 = 400;

const DELIVERIES: u64 = 6;

// What the next delivery is given.
fn choose_given(desk: &mut Desk) -> Given {
    let mut readings = [0u64; VALUE_WORDS];
    let count = desk.choose_readings(&mut readings);
    let budget = desk.choose_budget();
    Given {
        readings,
        count,
        budget,
    }
}

// Some deliveries to a store that is opened for a script; the one that differs, if there is one.
fn run_store(both: &mut Both, desk: &mut Desk, tally: &mut Tally) -> Option<u64> {
    if !both.open() {
        tally.count_refused();
        return None;
    }
    tally.count_opened(both.totals_depth());
    for delivery in 0..DELIVERIES {
        let number = both.deliver_twice(&choose_given(desk));
        tally.count_delivery(number);
        if number.is_none() {
            return Some(delivery);
        }
    }
    None
}

// The script of a seed.
fn run_seed(rt: &impl Print, seed: u64, tally: &mut Tally) -> io::Result<()> {
    let mut file = [0u8; FILE_BYTES];
    let mut desk = scripts::make_script(seed);
    tally.count_draft(&desk);
    let end = test_draft::file::write_file(&desk, &mut file);
    let cells = desk.choose_cells();
    let mut store = Store::CLEAR;
    let mut ledger = Memory::CLEAR;
    ledger.read_script(&file);
    let mut both = Both {
        file: &file[..end],
        cells,
        store: &mut store,
        ledger: &mut ledger,
    };
    if let Some(delivery) = run_store(&mut both, &mut desk, tally) {
        println!(rt; "differs: seed {seed}, delivery {delivery}")?;
    }
    Ok(())
}

fn main(rt: HostRuntime) -> io::Result<()> {
    trials::run_trials(&rt)?;
    let mut tally = Tally::new();
    for seed in 0..SCRIPTS {
        run_seed(&rt, seed, &mut tally)?;
    }
    print!(rt; "{tally}")
}
