// The rows of the names' last uses, kept up while code is walked backwards, and live sets beside them.
#![tactic(auto)]

ghost use Rattle.std.specs.Prelude.{◌≡◌, ◌+◌, ◌-◌, ◌<◌, ◌≤◌, Bool, false, List, length, set};
ghost use Rattle.semantics.specs.Live.{◌∪◌, ◌∖◌, is, among};
ghost use Rattle.plain_rows.specs.Plain.{meant, set_of, atoms_at};
ghost use Rattle.plain_rows.specs.Marks.{marks_of};
ghost use Rattle.plain_rows.specs.Walk.{then_end, unmarked, unmarked_all};
ghost use Rattle.annotate_marks.specs.Took.{Took};

use kinds::Atom;

// Two less, or 0.
pub fn less_two(q: usize) -> usize
    ensures { result ≡ q - 2 }
{
    q.saturating_sub(2)
}

// The end line of the first tree of an if at row p.
pub fn then_end_at(notes: &plain_rows::Notes, p: usize) -> usize
    requires { p ≤ 4096 }
    ensures end { result ≡ then_end notes.now p }
    ensures bound { result ≤ 4096 }
{
    let middle = plain_rows::note_at(notes, p + 2);
    if middle < 4098 { less_two(middle) } else { 0 }
}

// The use of an atom's name at row r is taken back, and the name is live.
pub fn take_use(
    notes: &plain_rows::Notes,
    cur: &mut [u16; 256],
    r: usize,
    a: Atom,
    live: &mut [bool; 256],
)
    requires { r < 65536 }
    ensures { Took (is (meant a) ∪ set_of live.old)
        (unmarked notes.now r (meant a) (marks_of cur.old)) live.new cur.new }
{
    if let Atom::Name(x) = a {
        cur[x as usize] = plain_rows::mark_at(notes, r);
        live[x as usize] = true;
    }
}

// The uses of the m atoms from row `at` on are taken back, and their names are live.
fn take_atoms(
    operands: &[u8],
    rows: &plain_rows::Rows,
    notes: &plain_rows::Notes,
    cur: &mut [u16; 256],
    at: usize,
    m: u8,
    live: &mut [bool; 256],
)
    requires { at ≤ 4097 }
    ensures { Took (among (atoms_at operands.now rows.now at m) (set_of live.old))
        (unmarked_all notes.now at (atoms_at operands.now rows.now at m)
        (marks_of cur.old)) live.new cur.new }
{
    for i in (0..m as usize).rev() {
        let place = plain_rows::row_at(rows, at + i);
        let a = plain_rows::atom_of(operands, place);
        take_use(notes, cur, at + i, a, live);
    }
}

// A line at row p that binds x and uses two atoms.
pub fn take_pair(
    notes: &plain_rows::Notes,
    cur: &mut [u16; 256],
    p: usize,
    x: u8,
    a: Atom,
    b: Atom,
    live: &mut [bool; 256],
)
    requires { p ≤ 4096 }
    ensures { Took (is (meant a) ∪ is (meant b) ∪ set_of live.old ∖ x)
        (unmarked notes.now (p + 1) (meant a)
        (unmarked notes.now (p + 2) (meant b) (marks_of cur.old))) live.new cur.new }
{
    live[x as usize] = false;
    take_use(notes, cur, p + 2, b, live);
    take_use(notes, cur, p + 1, a, live);
}

// A line at row p that binds x and uses the m atoms after its row.
pub fn take_handed(
    operands: &[u8],
    rows: &plain_rows::Rows,
    notes: &plain_rows::Notes,
    cur: &mut [u16; 256],
    p: usize,
    x: u8,
    m: u8,
    live: &mut [bool; 256],
)
    requires { p ≤ 4096 }
    ensures { Took (among (atoms_at operands.now rows.now (p + 1) m) (set_of live.old ∖ x))
        (unmarked_all notes.now (p + 1)
        (atoms_at operands.now rows.now (p + 1) m) (marks_of cur.old))
        live.new cur.new }
{
    live[x as usize] = false;
    take_atoms(operands, rows, notes, cur, p + 1, m, live);
}
