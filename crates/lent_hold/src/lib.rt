// The holds of lent code, the third of the checker's walks: each function's tree, by the table of borrowed parameters.
#![tactic(auto)]

ghost use Rattle.std.specs.Prelude.{◌≡◌, not, ◌<◌, ◌≤◌, length, IfOk};
ghost use Rattle.semantics.specs.Kinds.{picked};
ghost use Rattle.semantics.specs.Borrow.{borrows};
ghost use Rattle.semantics_lent.specs.Hold.{arrays_in, hold_all, none_held};
ghost use Rattle.machine_code.specs.Reading.{Cut};
ghost use Rattle.lent_counts.specs.Counted.{counted, set_of};
ghost use Rattle.lent_atoms.specs.Told.{depths};
ghost use Rattle.lent_hold_lines.specs.Lines.{depths_of, borrowed_of, Below};
ghost use Rattle.lent_hold_trees.specs.Walk.{Ready};
ghost use Rattle.lent_hold.specs.Functions.{names_from, function_at, functions_at, said};

use lent_atoms::{gain, is_array};
use lent_form::Fault;
use lent_hold_lines::{Asked, Function};
use lent_hold_trees::walk_tree;

// How many levels of trees a function has at most.
const LEVELS: u64 = 64;

// The arrays among the parameters from a position on that a function borrows: they are lent as it begins.
fn lent_first(of: &Function, at: usize, count: u8) -> [bool; 256]
    requires { at < 65536 }
    ensures { (set_of result ≡ arrays_in (depths_of of.now)
        (picked (borrowed_of of.now of.now.number) 0 (names_from of.now.operands.now count at)))
        × (length result ≡ 256) }
{
    let mut lent = [false; 256];
    for i in (0..count as usize).rev() {
        let x = machine_code::name_at(of.operands, at + i);
        if plain_rows::is_borrowed(of.borrowed, of.number, i) && is_array(of.depths, of.number, x) {
            lent[x as usize] = true;
        }
    }
    lent
}

// The others hold one each, if they are arrays.
fn held_first(of: &Function, at: usize, count: u8) -> [u16; 256]
    requires { at < 65536 }
    ensures { (counted result ≡ hold_all (depths_of of.now)
        (picked (λ i. not (borrowed_of of.now of.now.number i)) 0 (names_from of.now.operands.now count at))
        none_held) × Below count result }
{
    let mut holds = [0u16; 256];
    for i in (0..count as usize).rev() {
        let x = machine_code::name_at(of.operands, at + i);
        if !plain_rows::is_borrowed(of.borrowed, of.number, i) {
            gain(of.depths, of.number, x, &mut holds);
        }
    }
    holds
}

// A function whose line is at a position: the line past its tree.
fn hold_function(of: &Function, at: usize) -> Result<usize, Fault>
    requires { (at ≤ 4096) × Ready of.now }
    ensures same { function_at of.now.kinds.now of.now.operands.now (borrowed_of of.now)
        (depths_of of.now) of.now.number at ≡ said result }
    ensures near { IfOk result (λ line. line ≤ 4096) }
{
    let count = machine_code::name_at(of.operands, at);
    let lent = lent_first(of, at + 1, count);
    let mut holds = held_first(of, at + 1, count);
    let none = [0u16; 256];
    let line = at + 1 + count as usize;
    walk_tree(
        of,
        LEVELS,
        line,
        &lent,
        None,
        Asked::Same(&none),
        &mut holds,
    )
}

// So many functions, main first, whose form, depths and scope were accepted: the line past them, or the line at fault.
// The table has the depths of their names.
pub fn hold(
    kinds: &[u8],
    operands: &[i64],
    functions: u8,
    table: &[u8],
    borrowed: &[[bool; 8]; 32],
) -> Result<usize, Fault>
    requires { Cut kinds.now operands.now × (length kinds.now ≤ 4096) }
    ensures { functions_at kinds.now operands.now (borrows borrowed.now)
        (depths table.now) functions 0 0 ≡ said result }
{
    let mut line = 0;
    for number in 0..functions {
        let of = Function {
            kinds,
            operands,
            number,
            depths: table,
            borrowed,
        };
        line = hold_function(&of, line)?;
    }
    Ok(line)
}
