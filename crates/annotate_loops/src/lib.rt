// The rows of loops: those after a loop, its own, and those that open its tree.
#![tactic(auto, using(annotate_rows::proofs::Rows::lower))]

ghost use Rattle.std.specs.Prelude.{◌≡◌, [], ◌∷◌, map, ◌+◌, ◌*◌, ◌≤◌};
ghost use Rattle.semantics.specs.Kinds.{loop_kind, loop_hands, packed_names};
ghost use Rattle.semantics.specs.Code.{row, atom_row};
ghost use Rattle.semantics.specs.Annotate.{handed_again};
ghost use Rattle.plain_rows.specs.Plain.{set_of, meant, loop_of, of_loop};
ghost use Rattle.plain_rows.specs.Parts.{depth_in, retain_rows, pass_opening};
ghost use Rattle.plain_rows.specs.Marks.{marks_of};
ghost use Rattle.annotate_rows.specs.Wrote.{Wrote, Room};
ghost use Rattle.annotate_loops.specs.Loops.{second_of, read_of, opening_of, closing_of};

use annotate_rows::uses::put_used;
use annotate_rows::{put_atom, put_release, put_retain, put_row, release_pair, retain_atom};
use kinds::Atom;
use plain_rows::Line;

pub mod rewrites;

// The array that a loop reads, or a number where it is handed over.
fn read_of(kind: u8, a: Atom, b: Atom) -> Atom
    ensures { meant result ≡ read_of (loop_of kind) (meant a) (meant b) }
{
    match kind {
        kinds::REDUCE => b,
        kinds::REWRITE => Atom::Number(0),
        _ => a,
    }
}

// The second atom of a loop, or a number where it has none.
pub fn second_of(kind: u8, b: Atom) -> Atom
    ensures { meant result ≡ second_of (loop_of kind) (meant b) }
{
    if kind == kinds::REDUCE {
        b
    } else {
        Atom::Number(0)
    }
}

// The releases after the loop at row p: of the outer names that it uses, and of its own.
pub fn close_loop(
    ks: &mut [u8],
    os: &mut [i64],
    depths: &[u8; 256],
    cur: &[u16; 256],
    l: Line,
    p: usize,
    live: &[bool; 256],
    w: usize,
) -> usize
    requires { (p ≤ 4096) × Room ks.old os.old w }
    ensures { Wrote ks.old os.old ks.new os.new w result
        (closing_of (depth_in depths.now) p (marks_of cur.now)
        (set_of live.now) l) }
{
    match l {
        Line::Loop {
            name,
            kind,
            first,
            second,
            ..
        } => {
            let v = put_release(ks, os, depths, name, live, w);
            let array = read_of(kind, first, second);
            let row = p + 1 + plain_rows::loop_size(kind);
            put_used(ks, os, depths, cur, row, name as usize, array, live, v)
        }
        _ => w,
    }
}

// Opens a pass: the element is retained, and then the names that are not live are released, lowest first.
fn open_pass(
    ks: &mut [u8],
    os: &mut [i64],
    depths: &[u8; 256],
    kind: u8,
    y: u8,
    z: u8,
    live: &[bool; 256],
    w: usize,
) -> usize
    requires { Room ks.old os.old w }
    ensures { Wrote ks.old os.old ks.new os.new w result
        (pass_opening (depth_in depths.now) (loop_of kind) (of_loop (loop_of kind) y z)
        (set_of live.now)) }
{
    if kind == kinds::REDUCE {
        let v = release_pair(ks, os, depths, z, y, live, w);
        put_retain(ks, os, depths, z, v)
    } else {
        let v = put_release(ks, os, depths, y, live, w);
        put_retain(ks, os, depths, y, v)
    }
}

// The operand of a loop's row: its name, and the names of a pass.
fn loop_operand(x: u8, kind: u8, y: u8, z: u8) -> u32
    ensures { result ≡ x + 256 * packed_names (of_loop (loop_of kind) y z) }
{
    let third = if kind == kinds::REDUCE { z } else { 0 };
    u32::from_le_bytes([x, y, third, 0])
}

// The kind of a loop's row.
fn loop_kind(kind: u8) -> u8
    ensures { result ≡ loop_kind (loop_of kind) }
{
    match kind {
        kinds::FILTER | kinds::REDUCE | kinds::REWRITE => kind,
        _ => kinds::MAP,
    }
}

// A loop's row of operand n, and its atoms.
fn put_own(ks: &mut [u8], os: &mut [i64], kind: u8, n: u32, a: Atom, b: Atom, w: usize) -> usize
    requires { Room ks.old os.old w }
    ensures { Wrote ks.old os.old ks.new os.new w result
        (row (loop_kind (loop_of kind)) n ∷ map atom_row (of_loop (loop_of kind) (meant a) (meant b))) }
{
    let u = if kind == kinds::REDUCE {
        put_atom(ks, os, w, b)
    } else {
        w
    };
    let v = put_atom(ks, os, u, a);
    put_row(ks, os, v, loop_kind(kind), n)
}

// A loop's own rows and those that open its tree, at whose start the names are live.
pub fn open_loop(
    ks: &mut [u8],
    os: &mut [i64],
    depths: &[u8; 256],
    l: Line,
    live: &[bool; 256],
    w: usize,
) -> usize
    requires { Room ks.old os.old w }
    ensures { Wrote ks.old os.old ks.new os.new w result
        (opening_of (depth_in depths.now) (set_of live.now) l) }
{
    match l {
        Line::Loop {
            name,
            kind,
            first_name,
            second_name,
            first,
            second,
        } => {
            let v = open_pass(ks, os, depths, kind, first_name, second_name, live, w);
            let n = loop_operand(name, kind, first_name, second_name);
            put_own(ks, os, kind, n, first, second, v)
        }
        _ => w,
    }
}

// The retain of what a loop is handed, a reduce's start or an array to be rewritten, if it is an array used later.
pub fn retain_handed(
    ks: &mut [u8],
    os: &mut [i64],
    depths: &[u8; 256],
    kind: u8,
    a: Atom,
    later: &[bool; 256],
    w: usize,
) -> usize
    requires { Room ks.old os.old w }
    ensures { Wrote ks.old os.old ks.new os.new w result
        (retain_rows (handed_again (depth_in depths.now) (loop_hands (loop_of kind) (meant a ∷ []))
        (set_of later.now))) }
{
    match kind {
        kinds::REDUCE | kinds::REWRITE => retain_atom(ks, os, depths, a, later, w),
        _ => w,
    }
}
