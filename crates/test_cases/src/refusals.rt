// The files of data/ that are refused, one for each number from 1 to 9, as `print_script` prints them.
use std::io;
use std::rt::Files;

// The files, by the names of their refusals.
const NAMES: [&str; 9] = [
    "truncated",
    "size_out_of_range",
    "malformed",
    "operand_out_of_range",
    "too_deep",
    "unknown_name",
    "type_mismatch",
    "too_many_names",
    "code_too_long",
];

// Prints what translating the file of this name gives.
fn print_file<R: Files + Print>(rt: &R, name: &str) -> io::Result<()> {
    let mut buffer = [0u8; 65536];
    let n = test_text::read_text(rt, name, &mut buffer)?;
    let mut kinds = [0u8; 4096];
    let mut operands = [0i64; 4096];
    let file = &buffer[..n];
    let answer = engine::engine_translate(file, &mut kinds, &mut operands);
    printing::print_translated(rt, file, answer, &kinds, &operands)
}

// Prints what translating each file gives.
pub fn print_refusals<R: Files + Print>(rt: &R) -> io::Result<()> {
    println!(rt; "printed")?;
    for name in NAMES {
        print_file(rt, name)?;
    }
    Ok(())
}
