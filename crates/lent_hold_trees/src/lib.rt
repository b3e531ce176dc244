// The trees of lent code by the rule for holds, the third of the checker's walks: down the lines of a tree, and into
// the trees of its lines. Form, depths and scope are right already.
#![tactic(auto)]

ghost use Rattle.std.specs.Prelude.{◌≡◌, ◌+◌, ◌<◌, length};
ghost use Rattle.semantics.specs.Kinds.{loop_hands, element_name, carried_name};
ghost use Rattle.semantics_lent.specs.Hold.{spend, hold_all, arrays_in};
ghost use Rattle.lent_counts.specs.Counted.{counted, set_of};
ghost use Rattle.lent_atoms.specs.Told.{meant, told};
ghost use Rattle.lent_hold_lines.specs.Lines.{depths_of, borrowed_of, waiting, Below, Passed, Ended, asked};
ghost use Rattle.lent_hold_trees.specs.Walk.{kind_of, names_of, atoms_of, name_of, array_of, may_read, lent_with};
ghost use Rattle.lent_hold_trees.specs.Walk.{aside_of, if_at, loop_at, line_at_by, tree_at, Ready};

use kinds::Atom;
use lent_atoms::{gain, hand_over, is_array};
use lent_form::Fault;
use lent_hold_lines::{Asked, Function, Next, pending, walk_end, walk_leaf};
use machine_code::{Line, Loop};

// ---- the parts of a loop

// What a loop hands over as it begins: a reduce's start, or the array of a map in its cell; whether it may be.
#[tactic(auto, using(crate::proofs::Loops::hands_none))]
fn hand_loop(of: &Function, l: Loop, holds: &mut [u16; 256]) -> bool
    ensures { (spend (depths_of of.now) (loop_hands (kind_of l) (atoms_of l))
        (counted holds.old) ≡ told result holds.new) × (length holds.new ≡ 256) }
{
    match l {
        Loop::Map(..) | Loop::Filter(..) => true,
        Loop::Reduce(_, _, a, _) | Loop::Rewrite(_, a) => {
            hand_over(of.depths, of.number, a, holds)
        }
    }
}

// An atom's name, if it is an array.
fn array_name(of: &Function, a: Atom) -> Option<u8>
    ensures { result ≡ name_of (depths_of of.now) (meant a) }
{
    match a {
        Atom::Name(x) if is_array(of.depths, of.number, x) => Some(x),
        _ => None,
    }
}

// The array that a loop reads, if it reads one.
fn array_read(of: &Function, l: Loop) -> Option<u8>
    ensures { result ≡ array_of (depths_of of.now) l }
{
    match l {
        Loop::Map(_, a) | Loop::Filter(_, a) | Loop::Reduce(_, _, _, a) => array_name(of, a),
        Loop::Rewrite(..) => None,
    }
}

// Whether it may be read.
fn may_read(array: Option<u8>, lent: &[bool; 256], holds: &[u16; 256]) -> bool
    ensures { result ≡ may_read array (set_of lent.now) (counted holds.now) }
{
    match array {
        Some(x) => lent[x as usize] || 0 < holds[x as usize],
        None => true,
    }
}

// How many rows a loop has before its tree.
fn rows_before(l: Loop) -> usize
    ensures { (result ≡ 1 + length (atoms_of l)) × (result < 4) }
{
    match l {
        Loop::Map(..) | Loop::Filter(..) | Loop::Rewrite(..) => 2,
        Loop::Reduce(..) => 3,
    }
}

// The name of a pass that is pending as its tree begins, if it is an array.
fn pending_in(of: &Function, l: Loop) -> Option<u8>
    ensures { waiting result ≡ arrays_in (depths_of of.now) (element_name (kind_of l) (names_of l)) }
{
    match l {
        Loop::Map(x, _) | Loop::Filter(x, _) | Loop::Rewrite(x, _) | Loop::Reduce(_, x, _, _) => {
            pending(of, x)
        }
    }
}

// The names that are lent in the tree of a loop over an array.
#[tactic(auto, using(crate::proofs::Loops::lends_laws))]
fn lent_inside(array: Option<u8>, lent: &[bool; 256]) -> [bool; 256]
    ensures { (set_of result ≡ lent_with array (set_of lent.now)) × (length result ≡ 256) }
{
    let mut inner = *lent;
    if let Some(x) = array {
        inner[x as usize] = true;
    }
    inner
}

// The holds around the tree of a loop over an array: one of the array's is set aside, if it is not lent already.
#[tactic(auto, using(crate::proofs::Loops::aside_laws))]
fn held_outside(array: Option<u8>, lent: &[bool; 256], holds: &[u16; 256]) -> [u16; 256]
    ensures { (counted result ≡ aside_of array (set_of lent.now) (counted holds.now))
        × (length result ≡ 256) }
{
    let mut outer = *holds;
    if let Some(x) = array
        && !lent[x as usize]
        && 0 < outer[x as usize]
    {
        outer[x as usize] -= 1;
    }
    outer
}

// The holds as a pass begins: what is carried into it holds one.
fn held_inside(of: &Function, l: Loop, outer: &[u16; 256]) -> [u16; 256]
    requires { Below 4095 outer.now }
    ensures { (counted result ≡ hold_all (depths_of of.now) (carried_name (kind_of l) (names_of l))
        (counted outer.now)) × (length result ≡ 256) }
{
    let mut begun = *outer;
    if let Loop::Reduce(x, _, _, _) = l {
        gain(of.depths, of.number, x, &mut begun);
    }
    begun
}

// ---- trees

// An if: its first tree leaves no hold on a name bound in it, and its second the holds of the first.
#[cycle(trees)]
fn walk_if(
    of: &Function,
    levels: u64,
    at: usize,
    x: u8,
    lent: &[bool; 256],
    holds: &mut [u16; 256],
) -> Result<Next, Fault>
    requires { (at + 1 < length of.now.kinds.now) × (Ready of.now × Below at holds.old) }
    ensures { Passed (if_at (depths_of of.now)
        (tree_at of.now.kinds.now of.now.operands.now (borrowed_of of.now) (depths_of of.now) levels)
        x (set_of lent.now) (counted holds.old) at) result holds.new }
{
    let mut first = *holds;
    let second = walk_tree(
        of,
        levels,
        at + 2,
        lent,
        None,
        Asked::NoneBound(holds),
        &mut first,
    )?;
    let line = walk_tree(of, levels, second, lent, None, Asked::Same(&first), holds)?;
    *holds = first;
    gain(of.depths, of.number, x, holds);
    Ok(Next {
        line,
        pending: None,
    })
}

// A loop, which its tree is lent the array of.
#[cycle(trees)]
fn walk_loop(
    of: &Function,
    levels: u64,
    at: usize,
    x: u8,
    l: Loop,
    lent: &[bool; 256],
    holds: &mut [u16; 256],
) -> Result<Next, Fault>
    requires { (at + 1 < length of.now.kinds.now) × (Ready of.now × Below at holds.old) }
    ensures { Passed (loop_at (depths_of of.now)
        (tree_at of.now.kinds.now of.now.operands.now (borrowed_of of.now) (depths_of of.now) levels)
        x l (set_of lent.now) (counted holds.old) at) result holds.new }
{
    let array = array_read(of, l);
    if !hand_loop(of, l, holds) || !may_read(array, lent, holds) {
        return Err(Fault { line: at });
    }
    let inner = lent_inside(array, lent);
    let outer = held_outside(array, lent, holds);
    let mut begun = held_inside(of, l, &outer);
    let line = walk_tree(
        of,
        levels,
        at + rows_before(l),
        &inner,
        pending_in(of, l),
        Asked::Same(&outer),
        &mut begun,
    )?;
    gain(of.depths, of.number, x, holds);
    Ok(Next {
        line,
        pending: None,
    })
}

// A line that is no end.
#[cycle(trees)]
fn walk_line(
    of: &Function,
    levels: u64,
    at: usize,
    l: Line,
    lent: &[bool; 256],
    pending: Option<u8>,
    holds: &mut [u16; 256],
) -> Result<Next, Fault>
    requires { (at + 1 < length of.now.kinds.now) × (Ready of.now × Below at holds.old) }
    ensures { Passed (line_at_by of.now.kinds.now of.now.operands.now (borrowed_of of.now)
        (depths_of of.now)
        (tree_at of.now.kinds.now of.now.operands.now (borrowed_of of.now) (depths_of of.now) levels)
        l (set_of lent.now) (waiting pending) (counted holds.old) at) result holds.new }
{
    match l {
        Line::If(x, _) => walk_if(of, levels, at, x, lent, holds),
        Line::Loop(x, k) => walk_loop(of, levels, at, x, k, lent, holds),
        _ => walk_leaf(of, at, l, lent, pending, holds),
    }
}

// A tree from a line on, with so many levels of trees left: the line after it. At its end line the holds are as asked.
#[cycle(trees)]
pub fn walk_tree(
    of: &Function,
    levels: u64,
    at: usize,
    lent: &[bool; 256],
    pending: Option<u8>,
    wanted: Asked,
    holds: &mut [u16; 256],
) -> Result<usize, Fault>
    requires { Ready of.now × Below at holds.old }
    ensures { Ended (tree_at of.now.kinds.now of.now.operands.now (borrowed_of of.now) (depths_of of.now)
        levels (set_of lent.now) (waiting pending) (counted holds.old)
        (asked wanted.entry (set_of lent.now)) at) result holds.new }
{
    if levels == 0 {
        return Err(Fault { line: at });
    }
    let mut here = Next { line: at, pending };
    for _ in 0..machine_code::MOST_LINES {
        if !machine_code::two_rows(of.kinds, of.operands, here.line) {
            return Err(Fault { line: here.line });
        }
        let l = machine_code::read_line(of.kinds, of.operands, here.line);
        if let Line::End(a) = l {
            return walk_end(of, here.line, a, lent, wanted, holds);
        }
        here = walk_line(of, levels - 1, here.line, l, lent, here.pending, holds)?;
    }
    Err(Fault { line: here.line })
}
