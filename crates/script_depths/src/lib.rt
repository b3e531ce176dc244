// Refusals 6 and 7 of a part: its depth, or a node that breaks one of the rules.
// One table of the depths of the 256 names is changed at a let or a loop and put back after it; a name that is not
// known has the entry UNKNOWN, which is no depth. A table is cleared for each function.
#![tactic(auto)]

ghost use Rattle.std.specs.Prelude.{◌≡◌, ◌+◌, ◌<◌, ◌≤◌, length, get_or};
ghost use Rattle.semantics.specs.File.{low_limits, high_limits};
ghost use Rattle.semantics.specs.Outcome.{done};
ghost use Rattle.script_read.specs.Told.{place_of};
ghost use Rattle.script_depths.specs.Walk.{depths, let_typed, start_typed, loop_ended, loop_typed, known_plain};
ghost use Rattle.script_depths.specs.Walk.{known_types, AtomTyped, typed_outcome, known_depth, mismatch_at, Fitting};

use answers::Refusal;
use script_read::{Atomic, Fault, Node, Place};

// The entry of a name that is not known. It is a number and no Option: `known_depth` states it, and an entry is one
// byte.
pub const UNKNOWN: u8 = 255;

// The depth of a part, and the node after it.
#[derive(Clone, Copy)]
pub struct Typed {
    pub depth: u8,
    pub next: usize,
}

// The fault of a node that breaks rule 7, or rule 6.
pub fn mismatch(node: usize) -> Fault
    ensures { result ≡ mismatch_at node }
{
    Fault {
        refusal: Refusal::TypeMismatch,
        node,
    }
}

// The node that stands at a place, or the fault where none fits. Inline, as `script_read::fitting_node`.
#[inline(always)]
pub fn fitting_node(kinds: &[u8], operands: &[u8], at: usize, place: Place) -> Result<Node, Fault>
    ensures { Fitting kinds.now operands.now (place_of place) at result }
{
    script_read::node_at(kinds, operands, at, place).map_err(|_| mismatch(at))
}

// The depth that a table has for a name, if the name is known.
#[tactic(auto, using(crate::proofs::Laws::entry))]
fn known(table: &[u8; 256], name: u8) -> Option<u8>
    ensures { result ≡ known_depth (depths table.now name) }
{
    let entry = table[name as usize];
    (entry != UNKNOWN).then_some(entry)
}

// A loop at node at, by the depths of its start and its array and by its body.
fn end_loop(at: usize, kind: u8, start: u8, array: u8, body: Typed) -> Result<Typed, Fault>
    ensures { typed_outcome result ≡ loop_ended at kind start array (done body.depth body.next) }
{
    let depth = script_rules::judge_loop(kind, start, array, body.depth).ok_or(mismatch(at))?;
    Ok(Typed {
        depth,
        next: body.next,
    })
}

// The depth of the atom at a node, with so many levels left, if one stands there whose depth is known.
fn atom_depth(
    kinds: &[u8],
    operands: &[u8],
    table: &[u8; 256],
    at: usize,
    levels: u64,
) -> Option<u8>
    ensures { AtomTyped kinds.now operands.now levels (depths table.now) at result }
{
    if levels == 0 {
        return None;
    }
    match script_read::atom_at(kinds, operands, at) {
        Atomic::Number => Some(0),
        Atomic::Name(x) => known(table, x),
        Atomic::Other => None,
    }
}

// A part, with so many levels left.
#[cycle(type_part)]
fn type_part(
    kinds: &[u8],
    operands: &[u8],
    starts: &[usize; 32],
    table: &mut [u8; 256],
    at: usize,
    levels: u64,
) -> Result<Typed, Fault>
    ensures { (typed_outcome result ≡ known_types kinds.now operands.now starts.now levels
        (depths table.old) at)
        × (table.new ≡ table.old) }
{
    if levels == 0 {
        return Err(mismatch(at));
    }
    let node = fitting_node(kinds, operands, at, Place::Part)?;
    match node.kind {
        kinds::NUMBER => Ok(Typed {
            depth: 0,
            next: at + 1,
        }),
        kinds::NAME => {
            let depth = known(table, node.low).ok_or(mismatch(at))?;
            Ok(Typed {
                depth,
                next: at + 1,
            })
        }
        kinds::LET => type_let(kinds, operands, starts, table, at + 1, node.low, levels - 1),
        kind if script_read::is_loop(kind) => {
            type_loop(kinds, operands, starts, table, at, node, levels - 1)
        }
        _ => type_plain(kinds, operands, starts, table, at, node, levels - 1),
    }
}

// A let's two parts, the first at node at.
#[cycle(type_part)]
fn type_let(
    kinds: &[u8],
    operands: &[u8],
    starts: &[usize; 32],
    table: &mut [u8; 256],
    at: usize,
    x: u8,
    levels: u64,
) -> Result<Typed, Fault>
    ensures { (typed_outcome result
        ≡ let_typed (known_types kinds.now operands.now starts.now levels)
        (depths table.old) x
        (known_types kinds.now operands.now starts.now levels
        (depths table.old) at))
        × (table.new ≡ table.old) }
{
    let bound = type_part(kinds, operands, starts, table, at, levels)?;
    let i = x as usize;
    let hidden = table[i];
    table[i] = bound.depth;
    let body = type_part(kinds, operands, starts, table, bound.next, levels);
    table[i] = hidden;
    body
}

// The start of a reduce at node at; a map and a filter have none: it counts as a number, and the array is there.
#[cycle(type_part)]
fn type_start(
    kinds: &[u8],
    operands: &[u8],
    starts: &[usize; 32],
    table: &mut [u8; 256],
    at: usize,
    kind: u8,
    levels: u64,
) -> Result<Typed, Fault>
    ensures { (typed_outcome result
        ≡ start_typed kind (known_types kinds.now operands.now starts.now levels
        (depths table.old)) at)
        × (table.new ≡ table.old) }
{
    if kind == kinds::REDUCE {
        type_part(kinds, operands, starts, table, at, levels)
    } else {
        Ok(Typed { depth: 0, next: at })
    }
}

// A loop at node at: its start, its array, and its body under the names of a pass. The name changed last is put back
// first: the two may be one.
#[cycle(type_part)]
fn type_loop(
    kinds: &[u8],
    operands: &[u8],
    starts: &[usize; 32],
    table: &mut [u8; 256],
    at: usize,
    node: Node,
    levels: u64,
) -> Result<Typed, Fault>
    requires { at < length kinds.now }
    ensures { (typed_outcome result
        ≡ loop_typed (known_types kinds.now operands.now starts.now levels)
        (depths table.old) at node.kind node.low node.high
        (start_typed node.kind (known_types kinds.now operands.now starts.now
        levels (depths table.old)) (at + 1)))
        × (table.new ≡ table.old) }
{
    let start = type_start(kinds, operands, starts, table, at + 1, node.kind, levels)?;
    let array = type_part(kinds, operands, starts, table, start.next, levels)?;
    if array.depth == 0 {
        return Err(mismatch(at));
    }
    let i = node.low as usize;
    let j = script_read::second_name(node.kind, node.low, node.high) as usize;
    let first = table[i];
    table[i] = start.depth;
    let second = table[j];
    table[j] = array.depth - 1;
    let body = type_part(kinds, operands, starts, table, array.next, levels);
    table[j] = second;
    table[i] = first;
    end_loop(at, node.kind, start.depth, array.depth, body?)
}

// Any other node at node at: all its parts, and then the rule of its kind.
#[cycle(type_part)]
fn type_plain(
    kinds: &[u8],
    operands: &[u8],
    starts: &[usize; 32],
    table: &mut [u8; 256],
    at: usize,
    node: Node,
    levels: u64,
) -> Result<Typed, Fault>
    requires { (at < length kinds.now)
        × (node.low ≤ get_or low_limits node.kind 0) × (node.high ≤ get_or high_limits node.kind 0) }
    ensures { (typed_outcome result ≡ known_plain kinds.now operands.now starts.now
        (known_types kinds.now operands.now starts.now levels
        (depths table.old)) at node.kind node.low node.high)
        × (table.new ≡ table.old) }
{
    let mut ds = [0u8; 16];
    let n = script_read::parts_of(node.kind, node.low, node.high) as usize;
    let mut p = at + 1;
    for i in 0..n {
        if let Some(depth) = atom_depth(kinds, operands, table, p, levels) {
            ds[i] = depth;
            p += 1;
        } else {
            let part = type_part(kinds, operands, starts, table, p, levels)?;
            ds[i] = part.depth;
            p = part.next;
        }
    }
    let depth = script_rules::judge(kinds, operands, starts, node, &ds).ok_or(mismatch(at))?;
    Ok(Typed { depth, next: p })
}

// The body of a function, under the depths of its parameters.
pub fn type_body(
    kinds: &[u8],
    operands: &[u8],
    starts: &[usize; 32],
    table: &mut [u8; 256],
    at: usize,
) -> Result<Typed, Fault>
    ensures { typed_outcome result ≡ known_types kinds.now operands.now starts.now 64
        (depths table.old) at }
{
    type_part(kinds, operands, starts, table, at, 64)
}
