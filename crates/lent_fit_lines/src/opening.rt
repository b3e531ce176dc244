// Lines with trees, in the second walk: what is tested and bound before a line's trees, and a loop's depth behind its
// tree.
ghost use Rattle.std.specs.Prelude.{◌≡◌, false, not, [], ◌∷◌, ◌+◌, ◌<◌, length, get_or};
ghost use Rattle.semantics.specs.Kinds.{rewriting};
ghost use Rattle.semantics_lent.specs.Fit.{with_name, with_names, all_new};
ghost use Rattle.semantics.specs.Live.{◌∪◌, just};
ghost use Rattle.machine_code.specs.Reading.{Cut, atom_at};
ghost use Rattle.script_rules.specs.Rules.{judged_outcome, rule_outcome};
ghost use Rattle.lent_fit_lines.specs.Walk.{set_of, bound_of, meant, Opened, first_at, second_at, third_at};
ghost use Rattle.lent_fit_lines.specs.Walk.{atoms_from, if_opens, loops, loop_of, loop_count, pass_names};
ghost use Rattle.lent_fit_lines.specs.Walk.{names_depths, goes_over, PassOpened, LoopOpened, loop_wants};
ghost use Rattle.lent_fit_lines.specs.Walk.{loop_judged};

use crate::{Wants, bind_new, depth_of, first_at, gather, second_at, third_at, usable};

// Opens an if: its guard is a number that may be used, and its name is new.
pub fn open_if(
    kinds: &[u8],
    operands: &[i64],
    bound: &mut [bool; 256],
    depths: &mut [u8; 256],
    scope: &[bool; 256],
    at: usize,
) -> bool
    requires { Cut kinds.now operands.now × (at < length kinds.now) }
    ensures { Opened
        (if_opens (set_of scope.now) (bound_of bound.old depths.old)
        (meant (atom_at kinds.now operands.now (at + 1))) (first_at operands.now at))
        (with_name (first_at operands.now at) 0 (bound_of bound.old depths.old))
        result bound.new depths.new }
{
    let a = machine_code::atom_at(kinds, operands, at + 1);
    usable(scope, a)
        && depth_of(depths, a) == 0
        && bind_new(bound, depths, first_at(operands, at), 0)
}

// Whether a kind is a loop's.
pub fn loops(kind: u8) -> bool
    ensures { result ≡ loops kind }
{
    matches!(
        kind,
        kinds::MAP | kinds::FILTER | kinds::REDUCE | kinds::REWRITE
    )
}

// How many atoms a loop has: a reduce has its start before its array.
pub fn loop_atoms(kind: u8) -> usize
    ensures { result ≡ loop_count (loop_of kind) }
{
    if kind == kinds::REDUCE { 2 } else { 1 }
}

// Whether a loop may go over an array of a depth.
fn goes_over(kind: u8, array: u8) -> bool
    ensures { result ≡ goes_over (loop_of kind) array }
{
    match kind {
        kinds::REWRITE => array == 1,
        _ => 0 < array,
    }
}

// Binds a name of a pass, which may be used in the tree: whether it is new.
fn open_name(
    bound: &mut [bool; 256],
    depths: &mut [u8; 256],
    scope: &mut [bool; 256],
    x: u8,
    d: u8,
) -> bool
    ensures { PassOpened (not (get_or bound.old x false))
        (with_name x d (bound_of bound.old depths.old))
        (set_of scope.old ∪ just (x ∷ []))
        result bound.new depths.new scope.new }
{
    scope[x as usize] = true;
    bind_new(bound, depths, x, d)
}

// Binds the names of a pass, which may be used in the tree: whether they are new.
fn open_pass(
    operands: &[i64],
    bound: &mut [bool; 256],
    depths: &mut [u8; 256],
    scope: &mut [bool; 256],
    kind: u8,
    at: usize,
    first: u8,
    element: u8,
) -> bool
    ensures { PassOpened
        (all_new
        (pass_names (loop_of kind) (second_at operands.now at) (third_at operands.now at))
        (set_of bound.old))
        (with_names
        (pass_names (loop_of kind) (second_at operands.now at) (third_at operands.now at))
        (names_depths (loop_of kind) first element) (bound_of bound.old depths.old))
        (set_of scope.old
        ∪ just (pass_names (loop_of kind) (second_at operands.now at) (third_at operands.now at)))
        result bound.new depths.new scope.new }
{
    let y = second_at(operands, at);
    if kind == kinds::REDUCE {
        open_name(bound, depths, scope, y, first)
            && open_name(bound, depths, scope, third_at(operands, at), element)
    } else {
        open_name(bound, depths, scope, y, element)
    }
}

// Opens a loop: what it goes over is an array that may be used, and its names are new. The depth of its first atom.
pub fn open_loop(
    kinds: &[u8],
    operands: &[i64],
    bound: &mut [bool; 256],
    depths: &mut [u8; 256],
    scope: &mut [bool; 256],
    kind: u8,
    at: usize,
) -> Option<u8>
    requires { Cut kinds.now operands.now × (at < length kinds.now) }
    ensures { LoopOpened (loop_of kind)
        (set_of scope.old) (bound_of bound.old depths.old)
        (atoms_from kinds.now operands.now (loop_count (loop_of kind)) (at + 1))
        (first_at operands.now at)
        (pass_names (loop_of kind) (second_at operands.now at) (third_at operands.now at))
        result bound.new depths.new scope.new }
{
    let n = loop_atoms(kind);
    let ds = gather(kinds, operands, scope, depths, at + 1, n)?;
    let array = ds[n - 1];
    if !goes_over(kind, array) || !bind_new(bound, depths, first_at(operands, at), 0) {
        return None;
    }
    let first = ds[0];
    open_pass(operands, bound, depths, scope, kind, at, first, array - 1).then_some(first)
}

// What depth a loop's tree is to give, by that of the loop's first atom.
pub fn loop_wants(kind: u8, first: u8) -> Wants
    ensures { result ≡ loop_wants (loop_of kind) first }
{
    match kind {
        kinds::REWRITE | kinds::FILTER => Wants::Exactly(0),
        kinds::REDUCE => Wants::Exactly(first),
        _ => Wants::Under(4),
    }
}

// The depth of a map that rewrites an array of a depth.
fn rewrite_depth(array: u8, d: u8) -> Option<u8>
    ensures { judged_outcome result ≡ rule_outcome (loop_judged rewriting array d) }
{
    (array == 1 && d == 0).then_some(1)
}

// A loop's depth, by those of its first atom and of its tree.
pub fn loop_depth(kind: u8, first: u8, d: u8) -> Option<u8>
    ensures { judged_outcome result ≡ rule_outcome (loop_judged (loop_of kind) first d) }
{
    match kind {
        kinds::REWRITE => rewrite_depth(first, d),
        kinds::FILTER => script_rules::judge_loop(kinds::FILTER, 0, first, d),
        kinds::REDUCE => script_rules::judge_loop(kinds::REDUCE, first, 0, d),
        _ => script_rules::judge_array(d),
    }
}
