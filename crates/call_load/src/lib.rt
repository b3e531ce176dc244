// Loading a script: refusals 1 to 9, or its code in the two lent arrays and what the machine needs beside it.
#![tactic(auto)]

ghost use Rattle.call_load.specs.Loading.{Loads, LoadsWith};

use answers::Refusal;
use script_read::{NO_FUNCTION, Place};

// How many lines the code has, and main's depth.
#[derive(Clone, Copy)]
pub struct Ready {
    pub lines: usize,
    pub depth: u32,
}

// The packed answer of code that does not fit: it has a number and no node.
const TOO_LONG: u64 = Refusal::CodeTooLong as u64;

// Judges a file and translates its script, or gives the packed answer of a refusal; the table gets the depths of the
// names, the functions' positions and those after trees. One array has where the functions stand in the file, and then
// where their code was written.
pub fn load_with(
    file: &[u8],
    kinds: &mut [u8],
    operands: &mut [i64],
    table: &mut [u8],
) -> Result<Ready, u64>
    ensures { LoadsWith file.now kinds.old operands.old table.old result
        kinds.new operands.new table.new }
{
    let mut starts = [NO_FUNCTION; 32];
    let accepted = match script::judge(file, &mut starts) {
        Ok(accepted) => accepted,
        Err(fault) => {
            clearing::clear_code(kinds, operands);
            let number = u64::from(fault.refusal.number());
            return Err(words::pack(number, fault.node as u64, 0, 0));
        }
    };
    let end = 4 + accepted.nodes;
    let file_kinds = &file[4..end];
    let file_operands = &file[end..];
    let depth = script_read::high_at(file_kinds, file_operands, 0, Place::Function);
    let lines = translate::translate_accepted(
        file_kinds,
        file_operands,
        &mut starts,
        accepted.functions,
        table,
        kinds,
        operands,
    )
    .ok_or(TOO_LONG)?;
    machine_table::fill(kinds, accepted.functions, lines, &starts, table);
    let depth = u32::from(depth);
    Ok(Ready { lines, depth })
}

// The same for a call that works no code.
pub fn load(file: &[u8], kinds: &mut [u8], operands: &mut [i64]) -> Result<Ready, u64>
    ensures { Loads file.now kinds.old operands.old result
        kinds.new operands.new }
{
    load_with(file, kinds, operands, &mut [])
}
