// The positions behind the depths of the table: where the functions begin, and where the tree at each row ends.
#![tactic(auto)]

ghost use Rattle.std.specs.Prelude.{◌≡◌, ◌+◌, ◌≤◌, ◌<◌, length, set};
ghost use Rattle.machine_table.specs.Positions.{with_position, trees_of, ends_from, end_of};
ghost use Rattle.machine_table.specs.Positions.{position_of, starts_from, filled};

// Writes a byte where there is such a place.
fn put(table: &mut [u8], i: usize, byte: u8)
    ensures { table.new ≡ set table.old i byte }
{
    if i < table.len() {
        table[i] = byte;
    }
}

// Writes a position at a place, low byte first.
fn put_position(table: &mut [u8], place: usize, position: usize)
    requires { place < 65536 }
    ensures { table.new ≡ with_position table.old place position }
{
    put(table, place, (position % 256) as u8);
    put(table, place + 1, (position / 256 % 256) as u8);
}

// How many trees a line of a kind has behind its atoms.
fn trees_of(kind: u8) -> u8
    ensures { result ≡ trees_of kind }
{
    match kind {
        kinds::IF => 2,
        kinds::MAP | kinds::FILTER | kinds::REDUCE | kinds::REWRITE => 1,
        _ => 0,
    }
}

// The position after the tree that begins at a row, by the row's kind and the positions after the trees behind it.
fn end_of(kind: u8, table: &[u8], at: usize) -> usize
    requires { at < 4096 }
    ensures { result ≡ end_of kind table.now at }
{
    if kind == kinds::END {
        return at + 2;
    }
    let mut next = machine_code::end_in(table, at + 1);
    for _ in 0..trees_of(kind) {
        next = machine_code::end_in(table, next);
    }
    next
}

// Writes the position after the tree that begins at each of the first rows, from the last of them to the first.
fn fill_ends(kinds: &[u8], rows: usize, table: &mut [u8])
    requires { (rows ≤ length kinds.now) × (rows ≤ 4096) }
    ensures { table.new ≡ ends_from rows kinds.now table.old }
{
    for at in (0..rows).rev() {
        let end = end_of(kinds[at], table, at);
        put_position(table, machine_code::ENDS + 2 * at, end);
    }
}

// Where function f begins in the code, by the places where the functions were written before it came to the front.
fn position_of(places: &[usize; 32], f: usize) -> usize
    requires { f < 32 }
    ensures { result ≡ position_of places.now f }
{
    places[f].saturating_sub(places[0])
}

// Writes the position of the line of each function.
fn fill_starts(kinds: &[u8], functions: usize, places: &[usize; 32], table: &mut [u8])
    requires { functions ≤ 32 }
    ensures { table.new ≡ starts_from functions kinds.now places.now 0
        table.old }
{
    for f in 0..functions {
        let p = position_of(places, f);
        if kinds.len() <= p {
            return;
        }
        put_position(table, machine_code::STARTS + 2 * f, p);
    }
}

// Writes both, for the code of so many functions and rows, by the places where the functions were written; a table that
// is too short for them is left as it is.
#[tactic(auto, unfolding(crate::specs::Positions::filled))]
pub fn fill(kinds: &[u8], functions: usize, rows: usize, places: &[usize; 32], table: &mut [u8])
    requires { (functions ≤ 32) × ((rows ≤ length kinds.now) × (rows ≤ 4096)) }
    ensures { table.new ≡ filled functions rows kinds.now places.now
        table.old }
{
    if table.len() < machine_code::TABLE_BYTES {
        return;
    }
    fill_ends(kinds, rows, table);
    fill_starts(kinds, functions, places, table);
}
