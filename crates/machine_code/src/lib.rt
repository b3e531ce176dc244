// Reading the code: atoms, lines, and the table of a script's functions and of the positions after its trees.
// What stands past the end of an array is 0. Lines and atoms are read from arrays that are cut to the code's lines.
#![tactic(auto)]

ghost use Rattle.std.specs.Prelude.{◌≡◌, ◌+◌, ◌-◌, ◌*◌, ◌<◌, pos, length, get_or};
ghost use Rattle.machine_code.specs.Reading.{low_bits, Cut, name_at, atom_at, line_at, is_atom, two_rows};
ghost use Rattle.machine_code.specs.Reading.{depth_in, start_in, end_in};

use kinds::Atom;

// A loop without its tree: the names of a pass, and the atoms. A reduce has the name of its running value before the
// element's, and its start before its array. A rewrite is a map in the cell of its array.
#[derive(Clone, Copy)]
pub enum Loop {
    Map(u8, Atom),
    Filter(u8, Atom),
    Reduce(u8, u8, Atom, Atom),
    Rewrite(u8, Atom),
}

// A line without its trees; it begins with the name that it binds, an operation's with its kind.
// The atoms of a call and a literal stay in the code. A row of any other kind reads as an operation.
#[derive(Clone, Copy)]
pub enum Line {
    Operation(u8, u8, Atom, Atom),
    Call(u8, u8),
    Literal(u8, u8),
    Index(u8, Atom, Atom),
    Length(u8, Atom),
    Iota(u8, Atom),
    Replicate(u8, Atom, Atom),
    If(u8, Atom),
    Loop(u8, Loop),
    Retain(u8),
    Release(u8),
    End(Atom),
}

// How many lines code has at most.
pub const MOST_LINES: u64 = 4096;

// The table of a script's functions and trees: how many bytes it has, and where the positions of the functions' lines
// and those after trees begin behind the depths of names.
pub const TABLE_BYTES: usize = 16448;

pub const STARTS: usize = 8192;

pub const ENDS: usize = 8256;

// The low 24 bits of a word: up to three bytes that an operand has.
pub fn low_bits(w: i64) -> u64
    ensures { result ≡ low_bits w }
{
    (w & 16777215) as u64
}

// The low byte of a row's operand: the name of an atom or a parameter, or how many parameters a function has.
pub fn name_at(operands: &[i64], at: usize) -> u8
    ensures { result ≡ name_at operands.now at }
{
    (low_bits(words::get_or(operands, at, 0)) % 256) as u8
}

// The same at a position within the code.
pub fn name_within(operands: &[i64], at: usize) -> u8
    requires { at < length operands.now }
    ensures { result ≡ name_at operands.now at }
{
    (low_bits(operands[at]) % 256) as u8
}

// The atom at a position; past the end it is name 0.
#[tactic(auto, unfolding(crate::specs::Reading::atom_at))]
pub fn atom_at(kinds: &[u8], operands: &[i64], at: usize) -> Atom
    requires { Cut kinds.now operands.now }
    ensures { result ≡ atom_at kinds.now operands.now at }
{
    if at < kinds.len() {
        atom_within(kinds, operands, at)
    } else {
        Atom::Name(0)
    }
}

// Whether an atom stands at a position.
pub fn atom_stands(kinds: &[u8], at: usize) -> bool
    ensures { result ≡ is_atom (get_or kinds.now at 0) }
{
    matches!(words::get_or(kinds, at, 0), kinds::NUMBER | kinds::NAME)
}

// The atom at a position within the code.
#[tactic(auto, unfolding(crate::specs::Reading::atom_at))]
pub fn atom_within(kinds: &[u8], operands: &[i64], at: usize) -> Atom
    requires { (at < length kinds.now) × (at < length operands.now) }
    ensures { result ≡ atom_at kinds.now operands.now at }
{
    if kinds[at] == kinds::NUMBER {
        Atom::Number(operands[at])
    } else {
        Atom::Name((low_bits(operands[at]) % 256) as u8)
    }
}

// Whether two rows are within the code from a position on, as they are where a line of a tree begins.
#[tactic(auto, using(crate::proofs::Reading::rows_within))]
pub fn two_rows(kinds: &[u8], operands: &[i64], at: usize) -> bool
    requires { Cut kinds.now operands.now }
    ensures { result ≡ two_rows kinds.now operands.now at }
{
    at < kinds.len() - 1
}

// The line that begins at a position, where its first two rows are within the code. The machine alone calls it, so that
// it is compiled into the machine's loop: with a second caller it was a function of its own, and a delivery took 1.7
// times as many instructions.
#[tactic(auto, unfolding(crate::specs::Reading::line_at))]
pub fn line_at(kinds: &[u8], operands: &[i64], at: usize) -> Line
    requires { (at + 1 < length kinds.now) × Cut kinds.now operands.now }
    ensures { result ≡ line_at kinds.now operands.now at }
{
    let kind = kinds[at];
    let a = atom_within(kinds, operands, at + 1);
    if kind == kinds::END {
        return Line::End(a);
    }
    let n = low_bits(operands[at]);
    let x = (n % 256) as u8;
    if kind < 7 {
        return Line::Operation(kind, x, a, atom_at(kinds, operands, at + 2));
    }
    let y = (n / 256 % 256) as u8;
    match kind {
        kinds::CALL => Line::Call(x, y),
        kinds::LITERAL => Line::Literal(x, (n / 65536 % 256) as u8),
        kinds::INDEX => Line::Index(x, a, atom_at(kinds, operands, at + 2)),
        kinds::LENGTH => Line::Length(x, a),
        kinds::IF => Line::If(x, a),
        kinds::MAP => Line::Loop(x, Loop::Map(y, a)),
        kinds::RETAIN => Line::Retain(x),
        kinds::RELEASE => Line::Release(x),
        kinds::IOTA => Line::Iota(x, a),
        kinds::REPLICATE => Line::Replicate(x, a, atom_at(kinds, operands, at + 2)),
        kinds::FILTER => Line::Loop(x, Loop::Filter(y, a)),
        kinds::REDUCE => Line::Loop(
            x,
            Loop::Reduce(
                y,
                (n / 65536 % 256) as u8,
                a,
                atom_at(kinds, operands, at + 2),
            ),
        ),
        kinds::REWRITE => Line::Loop(x, Loop::Rewrite(y, a)),
        _ => Line::Operation(kind, x, a, atom_at(kinds, operands, at + 2)),
    }
}

// The same for all others.
#[tactic(auto, unfolding(crate::specs::Reading::line_at))]
pub fn read_line(kinds: &[u8], operands: &[i64], at: usize) -> Line
    requires { (at + 1 < length kinds.now) × Cut kinds.now operands.now }
    ensures { result ≡ line_at kinds.now operands.now at }
{
    let kind = kinds[at];
    let n = low_bits(operands[at]);
    let a = atom_within(kinds, operands, at + 1);
    let b = atom_at(kinds, operands, at + 2);
    let x = (n % 256) as u8;
    let y = (n / 256 % 256) as u8;
    let z = (n / 65536 % 256) as u8;
    match kind {
        kinds::CALL => Line::Call(x, y),
        kinds::LITERAL => Line::Literal(x, z),
        kinds::INDEX => Line::Index(x, a, b),
        kinds::LENGTH => Line::Length(x, a),
        kinds::IF => Line::If(x, a),
        kinds::MAP => Line::Loop(x, Loop::Map(y, a)),
        kinds::RETAIN => Line::Retain(x),
        kinds::RELEASE => Line::Release(x),
        kinds::END => Line::End(a),
        kinds::IOTA => Line::Iota(x, a),
        kinds::REPLICATE => Line::Replicate(x, a, b),
        kinds::FILTER => Line::Loop(x, Loop::Filter(y, a)),
        kinds::REDUCE => Line::Loop(x, Loop::Reduce(y, z, a, b)),
        kinds::REWRITE => Line::Loop(x, Loop::Rewrite(y, a)),
        _ => Line::Operation(kind, x, a, b),
    }
}

// The depth of a name of a function.
#[tactic(auto, unfolding(crate::specs::Reading::depth_in))]
pub fn depth_in(table: &[u8], f: u8, x: u8) -> u32
    ensures { result ≡ depth_in table.now f x }
{
    words::get_or(table, 256 * (f as usize) + x as usize, 0) as u32
}

// The element depth of an array by its name: one less than the name's depth.
pub fn element_depth(table: &[u8], f: u8, x: u8) -> u32
    ensures { result ≡ depth_in table.now f x - 1 }
{
    let d = depth_in(table, f, x);
    if d == 0 { 0 } else { d - 1 }
}

// The position that two bytes of the table are, low byte first.
fn position_at(table: &[u8], place: usize) -> usize
    requires { place < 18446744073709551615 }
    ensures value { result ≡ get_or table.now place 0 + 256 * get_or table.now (place + 1) 0 }
    ensures small { result < 65536 }
{
    words::get_or(table, place, 0) as usize + 256 * words::get_or(table, place + 1, 0) as usize
}

// The position of a function's own line.
#[tactic(auto, unfolding(crate::specs::Reading::start_in))]
pub fn start_in(table: &[u8], f: u8) -> usize
    ensures { (result ≡ start_in table.now f) × (result < 65536) }
{
    let at = STARTS + 2 * (f as usize);
    position_at(table, at)
}

// The position after the tree that begins at a position.
#[tactic(auto, unfolding(crate::specs::Reading::end_in))]
pub fn end_in(table: &[u8], at: usize) -> usize
    ensures { (result ≡ end_in table.now at) × (result < 65536) }
{
    if table.len() / 2 <= at {
        return 0;
    }
    let place = ENDS + 2 * at;
    position_at(table, place)
}
