// Reads a script file from standard input and prints its code, or its refusal.
#![tactic(auto)]

use std::io;

// An accepted file has at most 9,220 bytes, so one that the buffer cuts off is refused as it would be whole. No code
// has more than 4,096 lines.
fn main(rt: HostRuntime) -> io::Result<()> {
    let mut buffer = [0u8; 65536];
    let n = test_text::read_full(&mut rt.reader(), &mut buffer)?;
    let mut kinds = [0u8; 4096];
    let mut operands = [0i64; 4096];
    let file = &buffer[..n];
    let answer = engine::engine_translate(file, &mut kinds, &mut operands);
    printing::print_translated(&rt, file, answer, &kinds, &operands)
}
