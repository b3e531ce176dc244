// The names that a tree uses from outside, read from the rows of last uses.
ghost use Rattle.std.specs.Prelude.{◌≡◌, ◌<◌, ◌≤◌};
ghost use Rattle.semantics.specs.Live.{◌∪◌, ◌∖◌, is};
ghost use Rattle.semantics.specs.Annotate.{dying};
ghost use Rattle.plain_rows.specs.Plain.{meant, set_of};
ghost use Rattle.plain_rows.specs.Parts.{below, depth_in, release_rows};
ghost use Rattle.plain_rows.specs.Marks.{marks_of};
ghost use Rattle.plain_rows.specs.Walk.{since};
ghost use Rattle.annotate_rows.specs.Wrote.{Wrote, Room};

use crate::release_one;
use kinds::Atom;

// Whether the last use of a name lies past a row.
pub fn is_since(cur: &[u16; 256], row: usize, i: usize) -> bool
    requires { i < 256 }
    ensures { result ≡ since row (marks_of cur.now) i }
{
    row < cur[i] as usize
}

// Whether a name is an atom's.
fn is_name(a: Atom, i: usize) -> bool
    ensures { result ≡ is (meant a) i }
{
    matches!(a, Atom::Name(x) if x as usize == i)
}

// Releases, lowest first, of the names below n that are a's or used past a row, arrays and not live. The loop is
// that of `put_releases` with another test, which given as a closure would want a contract longer than the loop.
pub fn put_used(
    ks: &mut [u8],
    os: &mut [i64],
    depths: &[u8; 256],
    cur: &[u16; 256],
    row: usize,
    n: usize,
    a: Atom,
    live: &[bool; 256],
    w: usize,
) -> usize
    requires { (n ≤ 256) × Room ks.old os.old w }
    ensures { Wrote ks.old os.old ks.new os.new w result
        (release_rows (dying (depth_in depths.now)
        (below n (is (meant a) ∪ since row (marks_of cur.now))) (set_of live.now))) }
{
    let mut at = w;
    for i in (0..n).rev() {
        let used = is_name(a, i) || is_since(cur, row, i);
        at = release_one(ks, os, depths, used, live[i], i, at);
    }
    at
}

// The names live after a loop's tree: those below x used past a row, joined with those live after the loop less x.
pub fn pass_names(cur: &[u16; 256], row: usize, x: u8, live: &mut [bool; 256])
    ensures { set_of live.new ≡ below x (since row (marks_of cur.now)) ∪ set_of live.old ∖ x }
{
    live[x as usize] = false;
    for i in 0..x as usize {
        live[i] |= is_since(cur, row, i);
    }
}
