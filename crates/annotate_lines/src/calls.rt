// The rows of a call: it reads the arguments that its function borrows, and hands over the others.
ghost use Rattle.std.specs.Prelude.{◌≡◌, not, ◌+◌, ◌<◌, ◌≤◌, get_or};
ghost use Rattle.semantics.specs.Kinds.{call, leaf_hands, leaf_reads};
ghost use Rattle.semantics.specs.Live.{only, among};
ghost use Rattle.semantics.specs.Borrow.{borrows};
ghost use Rattle.semantics.specs.Annotate.{dying, handed_again};
ghost use Rattle.plain_rows.specs.Plain.{set_of, meant, placed, atoms_at};
ghost use Rattle.plain_rows.specs.Parts.{depth_in, retain_rows, release_rows, leaf_part};
ghost use Rattle.annotate_rows.specs.Wrote.{Wrote, Room};
ghost use Rattle.annotate_lines.specs.Calls.{counted, higher, highest, place_of};

use crate::put_atoms;
use annotate_rows::{put_row, release_one, retain_atom};
use kinds::Atom;

// The atom of a row, if it counts; else the number 0.
fn counted_at(operands: &[u8], rows: &plain_rows::Rows, at: usize, counts: bool) -> Atom
    ensures { meant result ≡ counted counts (meant (placed operands.now (get_or rows.now at 0))) }
{
    if counts {
        plain_rows::atom_of(operands, plain_rows::row_at(rows, at))
    } else {
        Atom::Number(0)
    }
}

// Joins a set with the names that a call reads.
fn join_read(
    operands: &[u8],
    rows: &plain_rows::Rows,
    table: &[[bool; 8]; 32],
    f: u8,
    at: usize,
    m: u8,
    live: &mut [bool; 256],
)
    requires { at ≤ 4096 }
    ensures { set_of live.new ≡ among (leaf_reads (borrows table.now) (call f)
        (atoms_at operands.now rows.now at m)) (set_of live.old) }
{
    for i in (0..m as usize).rev() {
        let a = counted_at(operands, rows, at + i, plain_rows::is_borrowed(table, f, i));
        plain_rows::add(live, a);
    }
}

// The name of an atom, if it is below a bound and above the highest so far; else that one.
fn higher(a: Atom, bound: usize, found: Option<u8>) -> Option<u8>
    ensures { place_of result ≡ higher (meant a) bound (place_of found) }
{
    match a {
        Atom::Name(y) if (y as usize) < bound && found < Some(y) => Some(y),
        _ => found,
    }
}

// The highest name below a bound, of x and those that a call reads.
fn highest_read(
    operands: &[u8],
    rows: &plain_rows::Rows,
    table: &[[bool; 8]; 32],
    f: u8,
    at: usize,
    m: u8,
    x: u8,
    bound: usize,
) -> Option<u8>
    requires { at ≤ 4096 }
    ensures { place_of result ≡ highest x bound (leaf_reads (borrows table.now) (call f)
        (atoms_at operands.now rows.now at m)) }
{
    let mut name = higher(Atom::Name(x), bound, None);
    for i in (0..m as usize).rev() {
        let a = counted_at(operands, rows, at + i, plain_rows::is_borrowed(table, f, i));
        name = higher(a, bound, name);
    }
    name
}

// Releases, lowest first, of x and of the names that a call reads, where they are arrays and not live.
fn release_read(
    ks: &mut [u8],
    os: &mut [i64],
    depths: &[u8; 256],
    operands: &[u8],
    rows: &plain_rows::Rows,
    table: &[[bool; 8]; 32],
    f: u8,
    at: usize,
    m: u8,
    x: u8,
    live: &[bool; 256],
    w: usize,
) -> usize
    requires { (at ≤ 4096) × Room ks.old os.old w }
    ensures { Wrote ks.old os.old ks.new os.new w result
        (release_rows (dying (depth_in depths.now)
        (among (leaf_reads (borrows table.now) (call f)
        (atoms_at operands.now rows.now at m)) (only x)) (set_of live.now))) }
{
    let mut v = w;
    let mut next = highest_read(operands, rows, table, f, at, m, x, 256);
    // (a `while`: each name that is read says which comes next)
    while let Some(name) = next {
        let y = name as usize;
        v = release_one(ks, os, depths, true, live[y], y, v);
        next = highest_read(operands, rows, table, f, at, m, x, y);
    }
    v
}

// The retains of the arguments that a call hands over. Each is live for those before it. The loop is that of
// `put_retains` over other atoms, which given by a closure would want a contract longer than the loop.
fn retain_owned(
    ks: &mut [u8],
    os: &mut [i64],
    depths: &[u8; 256],
    operands: &[u8],
    rows: &plain_rows::Rows,
    table: &[[bool; 8]; 32],
    f: u8,
    at: usize,
    m: u8,
    later: &mut [bool; 256],
    w: usize,
) -> usize
    requires { (at ≤ 4096) × Room ks.old os.old w }
    ensures { Wrote ks.old os.old ks.new os.new w result
        (retain_rows (handed_again (depth_in depths.now)
        (leaf_hands (borrows table.now) (call f)
        (atoms_at operands.now rows.now at m)) (set_of later.old))) }
{
    let mut v = w;
    for i in (0..m as usize).rev() {
        let a = counted_at(
            operands,
            rows,
            at + i,
            !plain_rows::is_borrowed(table, f, i),
        );
        v = retain_atom(ks, os, depths, a, later, v);
        plain_rows::add(later, a);
    }
    v
}

// A call of function f with the m atoms from a row on. What it reads counts as live for what it hands over.
pub fn put_call(
    ks: &mut [u8],
    os: &mut [i64],
    depths: &[u8; 256],
    operands: &[u8],
    rows: &plain_rows::Rows,
    table: &[[bool; 8]; 32],
    at: usize,
    x: u8,
    f: u8,
    m: u8,
    after: &[bool; 256],
    w: usize,
) -> usize
    requires { (at ≤ 4096) × Room ks.old os.old w }
    ensures { Wrote ks.old os.old ks.new os.new w result
        (leaf_part (borrows table.now) (depth_in depths.now) x (call f)
        (atoms_at operands.now rows.now at m) (set_of after.now)) }
{
    let s = release_read(ks, os, depths, operands, rows, table, f, at, m, x, after, w);
    let t = put_atoms(ks, os, operands, rows, at, m, s);
    let u = put_row(ks, os, t, kinds::CALL, u32::from_le_bytes([x, f, 0, 0]));
    let mut later = *after;
    join_read(operands, rows, table, f, at, m, &mut later);
    retain_owned(
        ks, os, depths, operands, rows, table, f, at, m, &mut later, u,
    )
}
