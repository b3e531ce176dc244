// The depths and scopes of lent code, the second of the checker's three walks: functions and the whole code.
#![tactic(auto)]

ghost use Rattle.std.specs.Prelude.{◌≡◌, ◌+◌, ◌*◌, ◌≤◌, ◌<◌, length, replicate};
ghost use Rattle.semantics_lent.specs.Fit.{is_main};
ghost use Rattle.machine_code.specs.Reading.{Cut};
ghost use Rattle.lent_fit_lines.specs.Walk.{bound_of, Lines, signature_at};
ghost use Rattle.lent_fit.specs.Functions.{parameters_fit, function_fits, functions_fit, code_fits};
ghost use Rattle.lent_fit.specs.Functions.{told_function, Told, Lays};

use lent_fit_lines::{Fit, Wants, bind_new, first_at, second_at};
use lent_fit_trees::fit_tree;
use lent_form::Fault;

// How deep a function's trees stand.
const MOST_LEVELS: u64 = 64;

// The n parameters from a line on: the line behind them.
fn fit_parameters(
    operands: &[i64],
    bound: &mut [bool; 256],
    depths: &mut [u8; 256],
    at: usize,
    n: usize,
) -> Result<usize, Fault>
    requires { (at ≤ length operands.now) × (n ≤ 255) × (length operands.now ≤ 9223372036854775807) }
    ensures { Lines
        (parameters_fit operands.now n (bound_of bound.old depths.old) at)
        result bound.new depths.new }
{
    for p in at..at + n {
        if !bind_new(bound, depths, first_at(operands, p), second_at(operands, p)) {
            return Err(Fault { line: p });
        }
    }
    Ok(at + n)
}

// A function: the depths of its names.
fn fit_function(
    kinds: &[u8],
    operands: &[i64],
    starts: &[usize; 32],
    depths: &mut [u8; 256],
    at: usize,
) -> Result<Fit, Fault>
    requires { Cut kinds.now operands.now × (depths.old ≡ replicate 256 0) × (at < length kinds.now) }
    ensures { (function_fits kinds.now operands.now starts.now at
        ≡ told_function result depths.new) × (length depths.new ≡ 256) }
{
    let mut bound = [false; 256];
    let n = first_at(operands, at) as usize;
    let tree = fit_parameters(operands, &mut bound, depths, at + 1, n)?;
    let scope = bound;
    let result = second_at(operands, at);
    fit_tree(
        kinds,
        operands,
        starts,
        &mut bound,
        depths,
        scope,
        Wants::Exactly(result),
        tree,
        MOST_LEVELS,
    )
}

// Lays the depths of a function's names in the table.
fn lay(depths: &[u8; 256], f: usize, table: &mut [u8])
    requires { (f < 32) × (8192 ≤ length table.old) }
    ensures { Lays depths.now f table.old table.new }
{
    table[256 * f..256 * f + 256].copy_from_slice(depths);
}

// So many functions: the line behind them.
fn fit_functions(
    kinds: &[u8],
    operands: &[i64],
    starts: &[usize; 32],
    functions: usize,
    table: &mut [u8],
) -> Result<usize, Fault>
    requires { Cut kinds.now operands.now × (functions ≤ 32) × (8192 ≤ length table.old) }
    ensures { Told (functions_fit kinds.now operands.now starts.now functions 0)
        result table.old table.new }
{
    let mut p = 0;
    for f in 0..functions {
        if kinds.len() <= p {
            return Err(Fault { line: p });
        }
        let mut depths = [0u8; 256];
        p = fit_function(kinds, operands, starts, &mut depths, p)?.next;
        lay(&depths, f, table);
    }
    Ok(p)
}

// ---- the code

// Whether main, at line 0, has the shape for totals of depth d.
#[tactic(auto, using(crate::proofs::Laws::main_laws))]
fn is_main(operands: &[i64], d: u64) -> bool
    ensures { result ≡ is_main d (signature_at operands.now 0) }
{
    first_at(operands, 0) == 2
        && u64::from(second_at(operands, 1)) == d
        && second_at(operands, 2) == 1
        && u64::from(second_at(operands, 0)) == d
}

// The depths and scopes of code whose form was accepted, cut to its lines, for main of depth d: its lines, or the line
// at fault. The table gets the depths of the names of each function.
pub fn fit(
    kinds: &[u8],
    operands: &[i64],
    starts: &[usize; 32],
    functions: usize,
    d: u64,
    table: &mut [u8],
) -> Result<usize, Fault>
    requires { Cut kinds.now operands.now × (functions ≤ 32) × (8192 ≤ length table.old) }
    ensures { Told (code_fits kinds.now operands.now starts.now d functions)
        result table.old table.new }
{
    if !is_main(operands, d) {
        return Err(Fault { line: 0 });
    }
    fit_functions(kinds, operands, starts, functions, table)
}
