// Prints what translating a script file gave: its code, or its refusal.
#![tactic(auto)]

use std::io;

// How many functions the file says that it has; 0 if it is too short to say so.
fn function_count(file: &[u8]) -> usize {
    if file.len() < 2 {
        return 0;
    }
    words::short_at(file, 0)
}

// Prints what translating the file gave, by the answer and the two code arrays: the number of functions and of code
// lines, then the code, a line each: kind and operand; or `refused`, number and node.
pub fn print_translated(
    rt: &impl Print,
    file: &[u8],
    answer: u64,
    kinds: &[u8; 4096],
    operands: &[i64; 4096],
) -> io::Result<()> {
    let parts = words::unpack(answer);
    if parts.number != 0 {
        return println!(rt; "refused {} {}", parts.number, parts.node);
    }
    println!(rt; "{} {}", function_count(file), parts.count)?;
    for (kind, operand) in kinds.iter().zip(operands).take(parts.count as usize) {
        println!(rt; "{kind} {operand}")?;
    }
    Ok(())
}
