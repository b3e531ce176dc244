// The depths and scopes of lent code, the second of the checker's three walks: trees, and lines with their trees.
#![tactic(auto)]

ghost use Rattle.std.specs.Prelude.{◌<◌, length};
ghost use Rattle.machine_code.specs.Reading.{Cut};
ghost use Rattle.lent_fit_lines.specs.Walk.{set_of, bound_of, Lines};
ghost use Rattle.lent_fit_trees.specs.Trees.{Trees, if_fits, loop_fits, line_fits, tree_fits};

use lent_fit_lines::opening::{loop_atoms, loop_depth, loop_wants, loops, open_if, open_loop};
use lent_fit_lines::{Fit, Wants, bind, binds, first_at, fit_end, fit_plain};
use lent_form::Fault;

// A tree in which some names may be used, with so many levels of trees left.
#[cycle(fit_trees)]
pub fn fit_tree(
    kinds: &[u8],
    operands: &[i64],
    starts: &[usize; 32],
    bound: &mut [bool; 256],
    depths: &mut [u8; 256],
    scope: [bool; 256],
    wants: Wants,
    at: usize,
    levels: u64,
) -> Result<Fit, Fault>
    requires { Cut kinds.now operands.now }
    ensures { Trees
        (tree_fits kinds.now operands.now starts.now levels wants (set_of scope)
        (bound_of bound.old depths.old) at)
        result bound.new depths.new }
{
    if levels == 0 {
        return Err(Fault { line: at });
    }
    let mut s = scope;
    let mut p = at;
    for _ in 0..machine_code::MOST_LINES {
        if kinds.len() <= p {
            return Err(Fault { line: p });
        }
        let kind = kinds[p];
        if kind == kinds::END {
            return fit_end(kinds, operands, depths, &s, wants, p);
        }
        let next = fit_line(
            kinds,
            operands,
            starts,
            bound,
            depths,
            s,
            kind,
            p,
            levels - 1,
        )?;
        if binds(kind) {
            s[first_at(operands, p) as usize] = true;
        }
        p = next;
    }
    Err(Fault { line: p })
}

// A line with its trees.
#[cycle(fit_trees)]
fn fit_line(
    kinds: &[u8],
    operands: &[i64],
    starts: &[usize; 32],
    bound: &mut [bool; 256],
    depths: &mut [u8; 256],
    scope: [bool; 256],
    kind: u8,
    at: usize,
    levels: u64,
) -> Result<usize, Fault>
    requires { Cut kinds.now operands.now × (at < length kinds.now) }
    ensures { Lines
        (line_fits kinds.now operands.now starts.now
        (tree_fits kinds.now operands.now starts.now levels) kind (set_of scope)
        (bound_of bound.old depths.old) at)
        result bound.new depths.new }
{
    if kind == kinds::IF {
        fit_if(kinds, operands, starts, bound, depths, scope, at, levels)
    } else if loops(kind) {
        fit_loop(
            kinds, operands, starts, bound, depths, scope, kind, at, levels,
        )
    } else {
        fit_plain(kinds, operands, starts, bound, depths, &scope, kind, at)
    }
}

// An if.
#[cycle(fit_trees)]
fn fit_if(
    kinds: &[u8],
    operands: &[i64],
    starts: &[usize; 32],
    bound: &mut [bool; 256],
    depths: &mut [u8; 256],
    scope: [bool; 256],
    at: usize,
    levels: u64,
) -> Result<usize, Fault>
    requires { Cut kinds.now operands.now × (at < length kinds.now) }
    ensures { Lines
        (if_fits kinds.now operands.now starts.now
        (tree_fits kinds.now operands.now starts.now levels) (set_of scope)
        (bound_of bound.old depths.old) at)
        result bound.new depths.new }
{
    if !open_if(kinds, operands, bound, depths, &scope, at) {
        return Err(Fault { line: at });
    }
    let first = fit_tree(
        kinds,
        operands,
        starts,
        bound,
        depths,
        scope,
        Wants::Any,
        at + 2,
        levels,
    )?;
    let wants = Wants::Exactly(first.depth);
    let second = fit_tree(
        kinds, operands, starts, bound, depths, scope, wants, first.next, levels,
    )?;
    bind(bound, depths, first_at(operands, at), second.depth);
    Ok(second.next)
}

// A loop.
#[cycle(fit_trees)]
fn fit_loop(
    kinds: &[u8],
    operands: &[i64],
    starts: &[usize; 32],
    bound: &mut [bool; 256],
    depths: &mut [u8; 256],
    scope: [bool; 256],
    kind: u8,
    at: usize,
    levels: u64,
) -> Result<usize, Fault>
    requires { Cut kinds.now operands.now × (at < length kinds.now) }
    ensures { Lines
        (loop_fits kinds.now operands.now starts.now
        (tree_fits kinds.now operands.now starts.now levels) kind (set_of scope)
        (bound_of bound.old depths.old) at)
        result bound.new depths.new }
{
    let mut s = scope;
    let fault = Fault { line: at };
    let first = open_loop(kinds, operands, bound, depths, &mut s, kind, at).ok_or(fault)?;
    let wants = loop_wants(kind, first);
    let below = at + 1 + loop_atoms(kind);
    let tree = fit_tree(
        kinds, operands, starts, bound, depths, s, wants, below, levels,
    )?;
    let depth = loop_depth(kind, first, tree.depth).ok_or(Fault { line: tree.next })?;
    bind(bound, depths, first_at(operands, at), depth);
    Ok(tree.next)
}
