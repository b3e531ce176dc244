// Writes annotated rows straight into the two lent arrays, towards their front.
// A place w says that the rows from position w - 1 on are written; at place 0 a row did not fit. It is a number and
// no Option: a row before place 0 or 1 leaves the arrays as they are, so no writer asks whether the one before fitted.
#![tactic(auto)]

ghost use Rattle.std.specs.Prelude.{◌≡◌, ◌&&◌, not, [], ◌∷◌, ◌-◌, ◌<◌, ◌≤◌, ltb};
ghost use Rattle.semantics.specs.Basics.{with_if};
ghost use Rattle.semantics.specs.Code.{row, atom_row};
ghost use Rattle.semantics.specs.Live.{only, is, ◌∪◌};
ghost use Rattle.semantics.specs.Annotate.{dying};
ghost use Rattle.plain_rows.specs.Plain.{set_of, meant};
ghost use Rattle.plain_rows.specs.Parts.{below, depth_in, handed_one, retain_rows, release_rows};
ghost use Rattle.annotate_rows.specs.Wrote.{Wrote, Room};

use kinds::Atom;

pub mod uses;

// Writes a row before place w; the answer is its place.
fn put_back(ks: &mut [u8], os: &mut [i64], w: usize, kind: u8, operand: i64) -> usize
    requires { Room ks.old os.old w }
    ensures { Wrote ks.old os.old ks.new os.new w result
        (record { kind = kind; operand = operand } ∷ []) }
{
    if w < 2 {
        return 0;
    }
    ks[w - 2] = kind;
    os[w - 2] = operand;
    w - 1
}

// A row whose operand is a natural number.
pub fn put_row(ks: &mut [u8], os: &mut [i64], w: usize, kind: u8, n: u32) -> usize
    requires { Room ks.old os.old w }
    ensures { Wrote ks.old os.old ks.new os.new w result
        (row kind n ∷ []) }
{
    put_back(ks, os, w, kind, n as i64)
}

// The row of an atom.
pub fn put_atom(ks: &mut [u8], os: &mut [i64], w: usize, a: Atom) -> usize
    requires { Room ks.old os.old w }
    ensures { Wrote ks.old os.old ks.new os.new w result (atom_row
        (meant a) ∷ []) }
{
    match a {
        Atom::Number(z) => put_back(ks, os, w, kinds::NUMBER, z),
        Atom::Name(x) => put_row(ks, os, w, kinds::NAME, x as u32),
    }
}

// The depth of a name.
pub fn depth_at(depths: &[u8; 256], x: usize) -> u8
    requires { x < 256 }
    ensures { result ≡ depth_in depths.now x }
{
    depths[x]
}

// A release of x, if it is used, an array and not live.
pub fn release_one(
    ks: &mut [u8],
    os: &mut [i64],
    depths: &[u8; 256],
    used: bool,
    live: bool,
    x: usize,
    w: usize,
) -> usize
    requires { (x < 256) × Room ks.old os.old w }
    ensures { Wrote ks.old os.old ks.new os.new w result
        (release_rows (with_if (used && (ltb 0 (depth_in depths.now x) && not live)) x [])) }
{
    if used && 0 < depth_at(depths, x) && !live {
        put_row(ks, os, w, kinds::RELEASE, x as u32)
    } else {
        w
    }
}

// Releases, lowest first, of the names below n that are used, arrays and not live.
pub fn put_releases(
    ks: &mut [u8],
    os: &mut [i64],
    depths: &[u8; 256],
    n: usize,
    used: &[bool; 256],
    live: &[bool; 256],
    w: usize,
) -> usize
    requires { (n ≤ 256) × Room ks.old os.old w }
    ensures { Wrote ks.old os.old ks.new os.new w result
        (release_rows (dying (depth_in depths.now) (below n (set_of used.now))
        (set_of live.now))) }
{
    let mut at = w;
    for i in (0..n).rev() {
        at = release_one(ks, os, depths, used[i], live[i], i, at);
    }
    at
}

// A release of one name, if it is an array and not live.
pub fn put_release(
    ks: &mut [u8],
    os: &mut [i64],
    depths: &[u8; 256],
    x: u8,
    live: &[bool; 256],
    w: usize,
) -> usize
    requires { Room ks.old os.old w }
    ensures { Wrote ks.old os.old ks.new os.new w result
        (release_rows (dying (depth_in depths.now) (only x) (set_of live.now))) }
{
    let i = x as usize;
    release_one(ks, os, depths, true, live[i], i, w)
}

// Releases, lowest first, of two names.
pub fn release_pair(
    ks: &mut [u8],
    os: &mut [i64],
    depths: &[u8; 256],
    x: u8,
    y: u8,
    live: &[bool; 256],
    w: usize,
) -> usize
    requires { Room ks.old os.old w }
    ensures { Wrote ks.old os.old ks.new os.new w result
        (release_rows (dying (depth_in depths.now) (only y ∪ only x) (set_of live.now))) }
{
    if x == y {
        return put_release(ks, os, depths, x, live, w);
    }
    let v = put_release(ks, os, depths, x.max(y), live, w);
    put_release(ks, os, depths, x.min(y), live, v)
}

// Releases, lowest first, of a name and of an atom's name.
pub fn release_both(
    ks: &mut [u8],
    os: &mut [i64],
    depths: &[u8; 256],
    x: u8,
    a: Atom,
    live: &[bool; 256],
    w: usize,
) -> usize
    requires { Room ks.old os.old w }
    ensures { Wrote ks.old os.old ks.new os.new w result
        (release_rows (dying (depth_in depths.now) (is (meant a) ∪ only x)
        (set_of live.now))) }
{
    match a {
        Atom::Number(_) => put_release(ks, os, depths, x, live, w),
        Atom::Name(y) => release_pair(ks, os, depths, x, y, live, w),
    }
}

// A retain of x, if it is an array.
pub fn put_retain(ks: &mut [u8], os: &mut [i64], depths: &[u8; 256], x: u8, w: usize) -> usize
    requires { Room ks.old os.old w }
    ensures { Wrote ks.old os.old ks.new os.new w result
        (retain_rows (with_if (ltb 0 (depth_in depths.now x)) x [])) }
{
    if 0 < depth_at(depths, x as usize) {
        put_row(ks, os, w, kinds::RETAIN, x as u32)
    } else {
        w
    }
}

// A retain of an atom that is handed over, if it is an array that is used later.
pub fn retain_atom(
    ks: &mut [u8],
    os: &mut [i64],
    depths: &[u8; 256],
    a: Atom,
    later: &[bool; 256],
    w: usize,
) -> usize
    requires { Room ks.old os.old w }
    ensures { Wrote ks.old os.old ks.new os.new w result
        (retain_rows (handed_one (depth_in depths.now) (meant a) (set_of later.now))) }
{
    match a {
        Atom::Name(x) if later[x as usize] => put_retain(ks, os, depths, x, w),
        _ => w,
    }
}
