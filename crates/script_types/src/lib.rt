// Refusals 6 and 7 over a whole script: main's shape, and each function's parameters, body and result.
#![tactic(auto)]

ghost use Rattle.std.specs.Prelude.{◌≡◌, ◌+◌, ◌<◌};
ghost use Rattle.semantics.specs.Types.{main_shape};
ghost use Rattle.script_read.specs.Told.{read_of};
ghost use Rattle.script_rules.specs.Rules.{signature_at};
ghost use Rattle.script_depths.specs.Walk.{depths, typed_outcome};
ghost use Rattle.script_types.specs.Functions.{known_from, known_function, known_script};

use script_depths::{Typed, UNKNOWN};
use script_read::{Fault, Place};

// Whether main takes the totals and the readings, and gives new totals.
fn main_fits(kinds: &[u8], operands: &[u8]) -> bool
    ensures { result ≡ main_shape (signature_at kinds.now operands.now 0) }
{
    let result = script_read::high_at(kinds, operands, 0, Place::Function);
    script_read::low_at(kinds, operands, 0, Place::Function) == 2
        && script_read::high_at(kinds, operands, 1, Place::Parameter) == result
        && script_read::high_at(kinds, operands, 2, Place::Parameter) == 1
}

// So many parameters, whose depths go into the table, and then the body. No two have one name.
#[tactic(auto, using(crate::proofs::Laws::turns))]
fn type_parameters(
    kinds: &[u8],
    operands: &[u8],
    starts: &[usize; 32],
    table: &mut [u8; 256],
    at: usize,
    count: u8,
) -> Result<Typed, Fault>
    ensures { typed_outcome result ≡ known_from kinds.now operands.now starts.now count
        (depths table.old) at }
{
    let mut p = at;
    for _ in 0..count {
        let node = script_depths::fitting_node(kinds, operands, p, Place::Parameter)?;
        let x = node.low as usize;
        let d = table[x];
        if d != UNKNOWN {
            return Err(script_depths::mismatch(p));
        }
        table[x] = node.high;
        p += 1;
    }
    script_depths::type_body(kinds, operands, starts, table, p)
}

// A function: its body has the result's depth.
fn type_function(
    kinds: &[u8],
    operands: &[u8],
    starts: &[usize; 32],
    at: usize,
) -> Result<usize, Fault>
    ensures { read_of result ≡ known_function kinds.now operands.now starts.now at }
{
    let node = script_depths::fitting_node(kinds, operands, at, Place::Function)?;
    let mut table = [UNKNOWN; 256];
    let body = type_parameters(kinds, operands, starts, &mut table, at + 1, node.low)?;
    if body.depth != node.high {
        return Err(script_depths::mismatch(at));
    }
    Ok(body.next)
}

// All functions of a script: a node that breaks rule 7, or rule 6, is refused with 7.
pub fn type_script(
    kinds: &[u8],
    operands: &[u8],
    starts: &[usize; 32],
    functions: u8,
) -> Result<usize, Fault>
    ensures { read_of result ≡ known_script kinds.now operands.now starts.now functions }
{
    if !main_fits(kinds, operands) {
        return Err(script_depths::mismatch(0));
    }
    let mut p = 0;
    for _ in 0..functions {
        p = type_function(kinds, operands, starts, p)?;
    }
    Ok(p)
}
