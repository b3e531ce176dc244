// Runs the cases of data/, the base's and those of orders 1 to 10, on the eight calls, and prints how many calls they
// make and how much of what each leaves is right. Then it prints the refusal of a file for each number from 1 to 9.
#![tactic(auto)]

mod calls;
mod checks;
mod codes;
mod deliveries;
mod refusals;
mod swaps;
mod translations;

use std::io;
use std::rt::Files;
use test_text::Tally;

// What the cases of a text are about. Those of `EarlierDeliver` were written before an answer to a delivery had its
// lowest level, and hold for all but its bits 8 to 23.
#[derive(Clone, Copy)]
enum Family {
    Translate,
    Check,
    EarlierDeliver,
    Deliver,
    Swap,
    Code,
}

// The files of data/, each with what its cases are about.
const FILES: [(Family, &str); 31] = [
    (Family::Translate, "translate.txt"),
    (Family::Translate, "translate_1.txt"),
    (Family::Translate, "translate_2.txt"),
    (Family::Translate, "translate_3.txt"),
    (Family::Translate, "translate_4.txt"),
    (Family::Translate, "translate_5.txt"),
    (Family::Translate, "translate_6.txt"),
    (Family::Translate, "translate_7.txt"),
    (Family::Translate, "translate_8.txt"),
    (Family::Translate, "translate_10.txt"),
    (Family::Check, "check.txt"),
    (Family::Check, "check_1.txt"),
    (Family::Check, "check_2.txt"),
    (Family::Check, "check_3.txt"),
    (Family::Check, "check_4.txt"),
    (Family::Check, "check_5.txt"),
    (Family::Check, "check_6.txt"),
    (Family::Check, "check_7.txt"),
    (Family::Check, "check_8.txt"),
    (Family::Check, "check_10.txt"),
    (Family::EarlierDeliver, "deliver.txt"),
    (Family::EarlierDeliver, "deliver_1.txt"),
    (Family::Deliver, "deliver_2.txt"),
    (Family::Deliver, "deliver_3.txt"),
    (Family::Deliver, "deliver_4.txt"),
    (Family::Deliver, "deliver_5.txt"),
    (Family::Deliver, "deliver_6.txt"),
    (Family::Deliver, "deliver_7.txt"),
    (Family::Deliver, "deliver_8.txt"),
    (Family::Swap, "swap_4.txt"),
    (Family::Code, "code_10.txt"),
];

// Runs a case.
fn run_case(family: Family, case: &[u8], tally: &mut Tally) {
    let mut bytes = [0u8; 9220];
    let count = test_text::file_of(case, &mut bytes);
    let file = &bytes[..count];
    match family {
        Family::Translate => translations::run_case(case, file, tally),
        Family::Check => checks::run_case(case, file, tally),
        Family::EarlierDeliver => deliveries::run_case(case, file, false, tally),
        Family::Deliver => deliveries::run_case(case, file, true, tally),
        Family::Swap => swaps::run_case(case, file, tally),
        Family::Code => codes::run_case(case, tally),
    }
}

// Runs each case of a text.
fn run_text(family: Family, text: &[u8], tally: &mut Tally) {
    // (a `while`: the place moves by a case)
    let mut at = 0;
    while at < text.len() {
        let end = test_text::case_end(text, at);
        run_case(family, &text[at..end], tally);
        at = end;
    }
}

// Runs each case of a file.
fn run_file<R: Files>(rt: &R, family: Family, name: &str, tally: &mut Tally) -> io::Result<()> {
    let mut text = [0u8; 200000];
    let count = test_text::read_text(rt, name, &mut text)?;
    run_text(family, &text[..count], tally);
    Ok(())
}

fn main(rt: HostRuntime) -> io::Result<()> {
    let mut tally = Tally::new();
    for (family, name) in FILES {
        run_file(&rt, family, name, &mut tally)?;
    }
    print!(rt; "{tally}")?;
    refusals::print_refusals(&rt)
}
