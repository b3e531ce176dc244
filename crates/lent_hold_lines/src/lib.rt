// The lines of lent code that have no tree, by the rule for holds: the third of the checker's walks. A line hands some
// of its atoms over, reads the others, and then its name holds one; its counts are those of all names of a function.
#![tactic(auto)]

mod atoms;

ghost use Rattle.std.specs.Prelude.{◌≡◌, [], ◌∷◌, ◌<◌, map, length, Some, None};
ghost use Rattle.semantics_lent.specs.Hold.{readable, arrays_in};
ghost use Rattle.machine_code.specs.Reading.{Cut};
ghost use Rattle.lent_counts.specs.Counted.{counted, set_of};
ghost use Rattle.lent_atoms.specs.Told.{meant};
ghost use Rattle.lent_hold_lines.specs.Lines.{depths_of, borrowed_of, waiting, Below, Passed, Ended, asked};
ghost use Rattle.lent_hold_lines.specs.Lines.{read_at, index_at, hand_at, may_retain, retain_at, release_at, end_at};
ghost use Rattle.lent_hold_lines.specs.Lines.{leaf_at};

use atoms::{count_atoms, hand_atoms, read_atoms};
use kinds::Atom;
use lent_atoms::{gain, hand_over, is_array, may_read};
use lent_form::Fault;
use machine_code::Line;

// A function of lent code: the rows of all functions, its number among them, the depths of names by function, and the
// table of borrowed parameters.
#[derive(Clone, Copy)]
pub struct Function<'a> {
    pub kinds: &'a [u8],
    pub operands: &'a [i64],
    pub number: u8,
    pub depths: &'a [u8],
    pub borrowed: &'a [[bool; 8]; 32],
}

// The line after a line, with the name that is pending there.
#[derive(Clone, Copy)]
pub struct Next {
    pub line: usize,
    pub pending: Option<u8>,
}

// What is asked of the holds at a tree's end: none on a name bound in it, by the holds before it; or the same as these.
#[derive(Clone, Copy)]
pub enum Asked<'a> {
    NoneBound(&'a [u16; 256]),
    Same(&'a [u16; 256]),
}

// The pending name, where x would be if it is an array.
pub fn pending(of: &Function, x: u8) -> Option<u8>
    ensures { waiting result ≡ arrays_in (depths_of of.now) (x ∷ []) }
{
    is_array(of.depths, of.number, x).then_some(x)
}

// Whether some atoms may be read.
fn may_read_all(of: &Function, lent: &[bool; 256], holds: &[u16; 256], atoms: &[Atom]) -> bool
    ensures { result ≡ readable (depths_of of.now) (set_of lent.now)
        (counted holds.now) (map meant atoms.now) }
{
    atoms
        .iter()
        .all(|a| may_read(of.depths, of.number, lent, holds, *a))
}

// ---- lines

// A line of atoms that are read.
#[tactic(auto, using(crate::proofs::Ways::read_laws))]
fn walk_reading(
    of: &Function,
    at: usize,
    x: u8,
    atoms: &[Atom],
    lent: &[bool; 256],
    holds: &mut [u16; 256],
) -> Result<Next, Fault>
    requires { (at < 4096) × ((length atoms.now < 17) × Below at holds.old) }
    ensures { Passed (read_at (depths_of of.now) x (length atoms.now)
        (readable (depths_of of.now) (set_of lent.now) (counted holds.old) (map meant atoms.now))
        (counted holds.old) at) result holds.new }
{
    if !may_read_all(of, lent, holds, atoms) {
        return Err(Fault { line: at });
    }
    gain(of.depths, of.number, x, holds);
    Ok(Next {
        line: at + 1 + atoms.len(),
        pending: None,
    })
}

// An index, whose result is pending, if it is an array.
#[tactic(auto, using(crate::proofs::Ways::index_laws))]
fn walk_index(
    of: &Function,
    at: usize,
    x: u8,
    atoms: &[Atom],
    lent: &[bool; 256],
    holds: &[u16; 256],
) -> Result<Next, Fault>
    requires { at < 4096 }
    ensures { Passed (index_at (depths_of of.now) x
        (readable (depths_of of.now) (set_of lent.now) (counted holds.now) (map meant atoms.now))
        (counted holds.now) at) result holds.now }
{
    if !may_read_all(of, lent, holds, atoms) {
        return Err(Fault { line: at });
    }
    Ok(Next {
        line: at + 3,
        pending: pending(of, x),
    })
}

// A call, or a literal.
fn walk_handing(
    of: &Function,
    at: usize,
    x: u8,
    callee: Option<u8>,
    lent: &[bool; 256],
    holds: &mut [u16; 256],
) -> Result<Next, Fault>
    requires { (at < 4096) × (Cut of.now.kinds.now of.now.operands.now × Below at holds.old) }
    ensures { Passed (hand_at of.now.kinds.now of.now.operands.now (borrowed_of of.now)
        (depths_of of.now) x callee (set_of lent.now) (counted holds.old) at)
        result holds.new }
{
    if !hand_atoms(of, callee, at + 1, holds) || !read_atoms(of, callee, at + 1, lent, holds) {
        return Err(Fault { line: at });
    }
    let n = count_atoms(of, at + 1);
    gain(of.depths, of.number, x, holds);
    Ok(Next {
        line: at + 1 + n,
        pending: None,
    })
}

// Whether a name may be retained: it is pending, lent or holds one.
fn may_retain(x: u8, pending: Option<u8>, lent: &[bool; 256], holds: &[u16; 256]) -> bool
    ensures { result ≡ may_retain (waiting pending) (set_of lent.now) (counted holds.now) x }
{
    pending == Some(x) || lent[x as usize] || 0 < holds[x as usize]
}

// A name is retained.
#[tactic(auto, using(crate::proofs::Ways::retain_laws))]
fn walk_retain(
    at: usize,
    x: u8,
    pending: Option<u8>,
    lent: &[bool; 256],
    holds: &mut [u16; 256],
) -> Result<Next, Fault>
    requires { (at < 4096) × Below at holds.old }
    ensures { Passed (retain_at x (set_of lent.now) (waiting pending) (counted holds.old) at)
        result holds.new }
{
    if !may_retain(x, pending, lent, holds) {
        return Err(Fault { line: at });
    }
    holds[x as usize] += 1;
    Ok(Next {
        line: at + 1,
        pending: None,
    })
}

// A name is released: it holds one.
#[tactic(auto, using(crate::proofs::Ways::release_laws))]
fn walk_release(at: usize, x: u8, holds: &mut [u16; 256]) -> Result<Next, Fault>
    requires { at < 4096 }
    ensures { Passed (release_at x (counted holds.old) at)
        result holds.new }
{
    let n = holds[x as usize];
    if n == 0 {
        return Err(Fault { line: at });
    }
    holds[x as usize] = n - 1;
    Ok(Next {
        line: at + 1,
        pending: None,
    })
}

// A line that has no tree.
#[tactic(auto, unfolding(crate::specs::Lines::leaf_at))]
pub fn walk_leaf(
    of: &Function,
    at: usize,
    l: Line,
    lent: &[bool; 256],
    pending: Option<u8>,
    holds: &mut [u16; 256],
) -> Result<Next, Fault>
    requires { (at < 4096) × (Cut of.now.kinds.now of.now.operands.now × Below at holds.old) }
    ensures { Passed (leaf_at of.now.kinds.now of.now.operands.now (borrowed_of of.now)
        (depths_of of.now) l (set_of lent.now) (waiting pending) (counted holds.old) at)
        result holds.new }
{
    match l {
        Line::Operation(_, x, a, b) | Line::Replicate(x, a, b) => {
            walk_reading(of, at, x, &[a, b], lent, holds)
        }
        Line::Length(x, a) | Line::Iota(x, a) => walk_reading(of, at, x, &[a], lent, holds),
        Line::Index(x, a, b) => walk_index(of, at, x, &[a, b], lent, holds),
        Line::Call(x, g) => walk_handing(of, at, x, Some(g), lent, holds),
        Line::Literal(x, _) => walk_handing(of, at, x, None, lent, holds),
        Line::Retain(x) => walk_retain(at, x, pending, lent, holds),
        Line::Release(x) => walk_release(at, x, holds),
        Line::If(..) | Line::Loop(..) | Line::End(_) => Err(Fault { line: at }),
    }
}

// Whether a tree may end with these holds.
fn may_end(lent: &[bool; 256], wanted: Asked, holds: &[u16; 256]) -> bool
    ensures { result ≡ asked wanted.entry (set_of lent.now) (counted holds.now) }
{
    match wanted {
        Asked::NoneBound(before) => lent_counts::none_bound(lent, before, holds),
        Asked::Same(counts) => lent_counts::same_counts(counts, holds),
    }
}

// An end line: its atom is handed over, and then the holds are as they should be. The line after it.
#[tactic(auto, using(crate::proofs::Ways::end_laws))]
pub fn walk_end(
    of: &Function,
    at: usize,
    a: Atom,
    lent: &[bool; 256],
    wanted: Asked,
    holds: &mut [u16; 256],
) -> Result<usize, Fault>
    requires { at < 4096 }
    ensures { Ended (end_at (depths_of of.now) (meant a) (counted holds.old)
        (asked wanted.entry (set_of lent.now)) at)
        result holds.new }
{
    if !hand_over(of.depths, of.number, a, holds) || !may_end(lent, wanted, holds) {
        return Err(Fault { line: at });
    }
    Ok(at + 2)
}
