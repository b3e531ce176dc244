// Refusal 6: a node that names nothing known, or a parameter name that is repeated.
// One table of the 256 names is changed at a binding and put back after it.
#![tactic(auto)]

ghost use Rattle.std.specs.Prelude.{◌≡◌, ◌+◌, ◌<◌};
ghost use Rattle.script_read.specs.Told.{read_of, repeated, place_of};
ghost use Rattle.script_names.specs.Walk.{scope, binds, calls_none, names, then_bound, names_from};
ghost use Rattle.script_names.specs.Walk.{names_function, unknown_at, Fitting};

use answers::Refusal;
use script_read::{Fault, Node, Place};

// What a node binds in its last part: how many parts come before it, and two names, which are one where it binds one.
#[derive(Clone, Copy)]
struct Binding {
    before: u8,
    first: u8,
    second: u8,
}

// The fault of a node that names nothing known.
fn unknown(node: usize) -> Fault
    ensures { result ≡ unknown_at node }
{
    Fault {
        refusal: Refusal::UnknownName,
        node,
    }
}

// The node that stands at a place, or the fault where none fits.
fn fitting_node(kinds: &[u8], operands: &[u8], at: usize, place: Place) -> Result<Node, Fault>
    ensures { Fitting kinds.now operands.now (place_of place) at result }
{
    script_read::node_at(kinds, operands, at, place).map_err(|_| unknown(at))
}

// Whether a node of this kind binds names in its last part.
fn is_binding(kind: u8) -> bool
    ensures { result ≡ binds kind }
{
    kind == kinds::LET || script_read::is_loop(kind)
}

// Whether a node calls a function that is not there.
fn calls_none(functions: u8, kind: u8, f: u8) -> bool
    ensures { result ≡ calls_none functions kind f }
{
    kind == kinds::CALL && functions <= f
}

// A part, under the names that are known.
#[cycle(name_binding_name_part_name_parts)]
fn name_part(
    kinds: &[u8],
    operands: &[u8],
    functions: u8,
    known: &mut [bool; 256],
    at: usize,
    levels: u64,
) -> Result<usize, Fault>
    ensures { (read_of result ≡ names kinds.now operands.now functions levels (scope known.old) at)
        × (known.new ≡ known.old) }
{
    if levels == 0 {
        return Err(unknown(at));
    }
    let node = fitting_node(kinds, operands, at, Place::Part)?;
    let Node { kind, low, high } = node;
    if kind == kinds::NAME {
        return if known[low as usize] {
            Ok(at + 1)
        } else {
            Err(unknown(at))
        };
    }
    let count = script_read::parts_of(kind, low, high);
    if is_binding(kind) {
        let bound = Binding {
            before: count - 1,
            first: low,
            second: script_read::second_name(kind, low, high),
        };
        return name_binding(kinds, operands, functions, known, at + 1, bound, levels - 1);
    }
    if calls_none(functions, kind, low) {
        return Err(unknown(at));
    }
    name_parts(kinds, operands, functions, known, at + 1, count, levels - 1)
}

// The parts of a binding node, of which the last knows its names too. The name changed last is put back first: the two
// may be one.
#[cycle(name_binding_name_part_name_parts)]
fn name_binding(
    kinds: &[u8],
    operands: &[u8],
    functions: u8,
    known: &mut [bool; 256],
    at: usize,
    bound: Binding,
    levels: u64,
) -> Result<usize, Fault>
    ensures { (read_of result ≡ then_bound (names kinds.now operands.now functions levels) (scope known.old)
        bound.first bound.second
        (repeated bound.before (names kinds.now operands.now functions levels (scope known.old)) at))
        × (known.new ≡ known.old) }
{
    let body = name_parts(kinds, operands, functions, known, at, bound.before, levels)?;
    let i = bound.first as usize;
    let j = bound.second as usize;
    let old = known[i];
    known[i] = true;
    let hidden = known[j];
    known[j] = true;
    let outcome = name_part(kinds, operands, functions, known, body, levels);
    known[j] = hidden;
    known[i] = old;
    outcome
}

// So many parts, one after the other.
#[cycle(name_binding_name_part_name_parts)]
fn name_parts(
    kinds: &[u8],
    operands: &[u8],
    functions: u8,
    known: &mut [bool; 256],
    at: usize,
    count: u8,
    levels: u64,
) -> Result<usize, Fault>
    ensures { (read_of result ≡ repeated count (names kinds.now operands.now functions levels (scope known.old)) at)
        × (known.new ≡ known.old) }
{
    let mut p = at;
    for _ in 0..count {
        p = name_part(kinds, operands, functions, known, p, levels)?;
    }
    Ok(p)
}

// The parameters and the body of a function, under the names that are known.
fn name_parameters(
    kinds: &[u8],
    operands: &[u8],
    functions: u8,
    known: &mut [bool; 256],
    at: usize,
    count: u8,
) -> Result<usize, Fault>
    ensures { read_of result ≡ names_from kinds.now operands.now functions count (scope known.old) at }
{
    let mut p = at;
    for _ in 0..count {
        let node = fitting_node(kinds, operands, p, Place::Parameter)?;
        let x = node.low as usize;
        if known[x] {
            return Err(unknown(p));
        }
        known[x] = true;
        p += 1;
    }
    name_part(kinds, operands, functions, known, p, 64)
}

// A function, with no name known at first.
fn name_function(kinds: &[u8], operands: &[u8], functions: u8, at: usize) -> Result<usize, Fault>
    ensures { read_of result ≡ names_function kinds.now operands.now functions at }
{
    let node = fitting_node(kinds, operands, at, Place::Function)?;
    let mut known = [false; 256];
    name_parameters(kinds, operands, functions, &mut known, at + 1, node.low)
}

// All functions of a script: refusal 6.
pub fn name_script(kinds: &[u8], operands: &[u8], functions: u8) -> Result<usize, Fault>
    ensures { read_of result ≡ repeated functions (names_function kinds.now operands.now functions) 0 }
{
    let mut p = 0;
    for _ in 0..functions {
        p = name_function(kinds, operands, functions, p)?;
    }
    Ok(p)
}
