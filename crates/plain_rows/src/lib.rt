// Plain code: the A-normal form before its annotation, packed in one array of rows with notes beside it.
// Sets of names, which are changed in place.
#![tactic(auto)]

ghost use Rattle.std.specs.Prelude.{◌≡◌, true, false, ◌||◌, ◌+◌, ◌*◌, ◌<◌, length, get_or, set};
ghost use Rattle.semantics.specs.Live.{◌∪◌, ◌∖◌, is, only, empty};
ghost use Rattle.semantics.specs.Borrow.{borrows};
ghost use Rattle.plain_rows.specs.Plain.{number_at, placed, line_of, line_at, loop_of, loop_size};
ghost use Rattle.plain_rows.specs.Plain.{meant, set_of};

use kinds::Atom;

// How many rows there is room for: more than any function has.
pub const ROWS: usize = 2048;

// The rows of a function, and the note beside each.
pub type Rows = [u32; ROWS];

pub type Notes = [u16; ROWS];

// A line without its trees, and the name that it binds. A call and a literal have how many atoms follow in the code; a
// loop has the names of a pass and its atoms, of which only a reduce has the second ones.
#[derive(Clone, Copy)]
pub enum Line {
    Unary {
        name: u8,
        kind: u8,
        atom: Atom,
    },
    Binary {
        name: u8,
        kind: u8,
        first: Atom,
        second: Atom,
    },
    Call {
        name: u8,
        function: u8,
        count: u8,
    },
    Literal {
        name: u8,
        depth: u8,
        count: u8,
    },
    If {
        name: u8,
        guard: Atom,
    },
    Loop {
        name: u8,
        kind: u8,
        first_name: u8,
        second_name: u8,
        first: Atom,
        second: Atom,
    },
}

// The row at a position, or 0 past the end.
pub fn row_at(rows: &Rows, at: usize) -> u32
    ensures { result ≡ get_or rows.now at 0 }
{
    words::get_or(rows, at, 0)
}

// The note at a position, or the position past the end.
pub fn note_at(notes: &Notes, at: usize) -> usize
    ensures { result ≡ get_or notes.now at at }
{
    notes.get(at).map_or(at, |note| *note as usize)
}

// A note as it is kept, or the position past the end.
pub fn mark_at(notes: &Notes, at: usize) -> u16
    requires { at < 65536 }
    ensures { result ≡ get_or notes.now at at }
{
    words::get_or(notes, at, at as u16)
}

// The number of a node of the file, or 0 past the end.
#[tactic(auto, using(crate::proofs::Rows::number_there, crate::proofs::Rows::number_missing))]
pub fn number_at(operands: &[u8], node: usize) -> i64
    requires { node < 4294967296 }
    ensures { result ≡ number_at operands.now node }
{
    if 8 * node + 8 <= operands.len() {
        words::signed_at(operands, 8 * node)
    } else {
        0
    }
}

// The atom of a place: below 256 a name, from there on the number of a node.
#[tactic(auto, unfolding(crate::specs::Plain::placed))]
pub fn atom_of(operands: &[u8], place: u32) -> Atom
    ensures { result ≡ placed operands.now place }
{
    if place < 256 {
        Atom::Name(place as u8)
    } else {
        Atom::Number(number_at(operands, (place - 256) as usize))
    }
}

// The line of a kind, with the other numbers of its row and the two atoms after it.
fn line_of(kind: u8, x: u8, y: u8, m: u8, a: Atom, b: Atom) -> Line
    ensures { result ≡ line_of kind x y m a b }
{
    match kind {
        kinds::CALL => Line::Call {
            name: x,
            function: y,
            count: m,
        },
        kinds::LITERAL => Line::Literal {
            name: x,
            depth: y,
            count: m,
        },
        kinds::LENGTH | kinds::IOTA => Line::Unary {
            name: x,
            kind,
            atom: a,
        },
        kinds::IF => Line::If { name: x, guard: a },
        kinds::MAP | kinds::FILTER | kinds::REDUCE => Line::Loop {
            name: x,
            kind,
            first_name: y,
            second_name: m,
            first: a,
            second: b,
        },
        _ => Line::Binary {
            name: x,
            kind,
            first: a,
            second: b,
        },
    }
}

// The line that begins at a row.
#[tactic(auto, unfolding(crate::specs::Plain::line_at))]
pub fn line_at(operands: &[u8], rows: &Rows, at: usize) -> Line
    requires { at < 4096 }
    ensures { result ≡ line_at operands.now rows.now at }
{
    let [kind, x, y, m] = row_at(rows, at).to_le_bytes();
    let a = atom_of(operands, row_at(rows, at + 1));
    let b = atom_of(operands, row_at(rows, at + 2));
    line_of(kind, x, y, m, a, b)
}

// How many atoms a loop has, and names of a pass; a reduce has two.
pub fn loop_size(kind: u8) -> usize
    ensures { result ≡ loop_size (loop_of kind) }
{
    if kind == kinds::REDUCE { 2 } else { 1 }
}

// Whether function f borrows its argument at place i; past the table it does not.
pub fn is_borrowed(table: &[[bool; 8]; 32], f: u8, i: usize) -> bool
    ensures { result ≡ borrows table.now f i }
{
    let f = f as usize;
    f < table.len() && words::get_or(&table[f], i, false)
}

// Joins a set with the name of an atom.
pub fn add(set: &mut [bool; 256], a: Atom)
    ensures { set_of set.new ≡ is (meant a) ∪ set_of set.old }
{
    if let Atom::Name(n) = a {
        set[n as usize] = true;
    }
}

// Joins a set with another.
pub fn join(set: &mut [bool; 256], other: &[bool; 256])
    ensures { set_of set.new ≡ set_of set.old ∪ set_of other.now }
{
    for (i, x) in set.iter_mut().enumerate() {
        *x |= other[i];
    }
}
