// The rows of lines without trees and of a tree's end, written towards the front of the lent arrays.
#![tactic(auto, using(annotate_rows::proofs::Rows::lower))]

ghost use Rattle.std.specs.Prelude.{◌≡◌, ◌&&◌, [], ◌∷◌, map, ◌+◌, ◌-◌, ◌≤◌, ltb};
ghost use Rattle.semantics.specs.Basics.{with_if};
ghost use Rattle.semantics.specs.Kinds.{Borrowing, leaf_kind, is_pending};
ghost use Rattle.semantics.specs.Code.{row, atom_row};
ghost use Rattle.semantics.specs.Live.{only, is, ◌∪◌};
ghost use Rattle.semantics.specs.Annotate.{atom_depth, dying, handed_again};
ghost use Rattle.plain_rows.specs.Plain.{set_of, meant, atoms_at, unary_of, binary_of};
ghost use Rattle.plain_rows.specs.Parts.{depth_in, retain_rows, release_rows, leaf_part, handing, ending};
ghost use Rattle.annotate_rows.specs.Wrote.{Wrote, Room};

use annotate_rows::{
    depth_at, put_atom, put_release, put_releases, put_retain, put_row, release_both, retain_atom,
};
use kinds::Atom;

pub mod calls;

// The retains of the m atoms from a row on, all handed over. Each atom is live for those before it.
fn put_retains(
    ks: &mut [u8],
    os: &mut [i64],
    depths: &[u8; 256],
    operands: &[u8],
    rows: &plain_rows::Rows,
    at: usize,
    m: u8,
    later: &mut [bool; 256],
    w: usize,
) -> usize
    requires { (at ≤ 4096) × Room ks.old os.old w }
    ensures { Wrote ks.old os.old ks.new os.new w result
        (retain_rows (handed_again (depth_in depths.now)
        (atoms_at operands.now rows.now at m) (set_of later.old))) }
{
    let mut v = w;
    for i in (0..m as usize).rev() {
        let place = plain_rows::row_at(rows, at + i);
        let a = plain_rows::atom_of(operands, place);
        v = retain_atom(ks, os, depths, a, later, v);
        plain_rows::add(later, a);
    }
    v
}

// The m atoms from a row on.
pub fn put_atoms(
    ks: &mut [u8],
    os: &mut [i64],
    operands: &[u8],
    rows: &plain_rows::Rows,
    at: usize,
    m: u8,
    w: usize,
) -> usize
    requires { (at ≤ 4096) × Room ks.old os.old w }
    ensures { Wrote ks.old os.old ks.new os.new w result
        (map atom_row (atoms_at operands.now rows.now at m)) }
{
    let mut v = w;
    for i in (0..m as usize).rev() {
        let place = plain_rows::row_at(rows, at + i);
        v = put_atom(ks, os, v, plain_rows::atom_of(operands, place));
    }
    v
}

// The depth of an atom; a number has 0.
fn depth_of_atom(depths: &[u8; 256], a: Atom) -> u8
    ensures { result ≡ atom_depth (depth_in depths.now) (meant a) }
{
    match a {
        Atom::Number(_) => 0,
        Atom::Name(x) => depth_at(depths, x as usize),
    }
}

// Releases, lowest first, of a name and of the names of two atoms.
fn put_reads(
    ks: &mut [u8],
    os: &mut [i64],
    depths: &[u8; 256],
    x: u8,
    a: Atom,
    b: Atom,
    live: &[bool; 256],
    w: usize,
) -> usize
    requires { Room ks.old os.old w }
    ensures { Wrote ks.old os.old ks.new os.new w result
        (release_rows (dying (depth_in depths.now) (is (meant a) ∪ is (meant b) ∪ only x)
        (set_of live.now))) }
{
    if depth_of_atom(depths, b) == 0 {
        return release_both(ks, os, depths, x, a, live, w);
    }
    let mut used = [false; 256];
    used[x as usize] = true;
    plain_rows::add(&mut used, b);
    plain_rows::add(&mut used, a);
    put_releases(ks, os, depths, 256, &used, live, w)
}

// The kind of a line that reads two atoms.
fn binary_kind(kind: u8) -> u8
    ensures { result ≡ leaf_kind (binary_of kind) }
{
    match kind {
        kinds::SUM | kinds::DIFFERENCE | kinds::INDEX | kinds::REPLICATE => kind,
        _ => kinds::LESS,
    }
}

// A retain of what an index gives, if it is an array.
fn retain_indexed(
    ks: &mut [u8],
    os: &mut [i64],
    depths: &[u8; 256],
    x: u8,
    kind: u8,
    w: usize,
) -> usize
    requires { Room ks.old os.old w }
    ensures { Wrote ks.old os.old ks.new os.new w result
        (retain_rows (with_if (is_pending (binary_of kind) && ltb 0 (depth_in depths.now x)) x [])) }
{
    if kind == kinds::INDEX {
        put_retain(ks, os, depths, x, w)
    } else {
        w
    }
}

// A line that reads two atoms.
pub fn put_binary(
    ks: &mut [u8],
    os: &mut [i64],
    depths: &[u8; 256],
    x: u8,
    kind: u8,
    a: Atom,
    b: Atom,
    after: &[bool; 256],
    w: usize,
) -> usize
    requires { Room ks.old os.old w }
    ensures { (B : Borrowing) →
        Wrote ks.old os.old ks.new os.new w result
        (leaf_part B (depth_in depths.now) x (binary_of kind) (meant a ∷ (meant b ∷ []))
        (set_of after.now)) }
{
    let s = put_reads(ks, os, depths, x, a, b, after, w);
    let t = retain_indexed(ks, os, depths, x, kind, s);
    let u = put_atom(ks, os, t, b);
    let v = put_atom(ks, os, u, a);
    put_row(ks, os, v, binary_kind(kind), x as u32)
}

// The kind of a line that reads one atom.
fn unary_kind(kind: u8) -> u8
    ensures { result ≡ leaf_kind (unary_of kind) }
{
    if kind == kinds::IOTA {
        kinds::IOTA
    } else {
        kinds::LENGTH
    }
}

// A line that reads one atom.
pub fn put_unary(
    ks: &mut [u8],
    os: &mut [i64],
    depths: &[u8; 256],
    x: u8,
    kind: u8,
    a: Atom,
    after: &[bool; 256],
    w: usize,
) -> usize
    requires { Room ks.old os.old w }
    ensures { (B : Borrowing) →
        Wrote ks.old os.old ks.new os.new w result
        (leaf_part B (depth_in depths.now) x (unary_of kind) (meant a ∷ [])
        (set_of after.now)) }
{
    let u = release_both(ks, os, depths, x, a, after, w);
    let v = put_atom(ks, os, u, a);
    put_row(ks, os, v, unary_kind(kind), x as u32)
}

// A literal: a row of the kind and the number n, and the m atoms from a row on, all handed over.
pub fn put_handing(
    ks: &mut [u8],
    os: &mut [i64],
    depths: &[u8; 256],
    operands: &[u8],
    rows: &plain_rows::Rows,
    at: usize,
    x: u8,
    m: u8,
    kind: u8,
    n: u32,
    after: &[bool; 256],
    w: usize,
) -> usize
    requires { (at ≤ 4096) × Room ks.old os.old w }
    ensures { Wrote ks.old os.old ks.new os.new w result
        (handing (depth_in depths.now) x (row kind n)
        (atoms_at operands.now rows.now at m) (set_of after.now)) }
{
    let s = put_release(ks, os, depths, x, after, w);
    let t = put_atoms(ks, os, operands, rows, at, m, s);
    let u = put_row(ks, os, t, kind, n);
    let mut later = *after;
    put_retains(ks, os, depths, operands, rows, at, m, &mut later, u)
}

// A tree's end, whose atom is handed over.
pub fn put_end(
    ks: &mut [u8],
    os: &mut [i64],
    depths: &[u8; 256],
    a: Atom,
    after: &[bool; 256],
    w: usize,
) -> usize
    requires { Room ks.old os.old w }
    ensures { Wrote ks.old os.old ks.new os.new w result
        (ending (depth_in depths.now) (meant a) (set_of after.now)) }
{
    let u = put_atom(ks, os, w, a);
    let v = put_row(ks, os, u, kinds::END, 0);
    retain_atom(ks, os, depths, a, after, v)
}
