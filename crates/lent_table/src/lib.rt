// The table of borrowed parameters of lent code, reworked until a round changes nothing. A parameter is owned if its
// function spends or retains it, or hands it over at an owned place.
#![tactic(auto)]

ghost use Rattle.std.specs.Prelude.{◌≡◌, not, ◌&&◌, ◌<◌, ◌≤◌, min, eqb, length};
ghost use Rattle.semantics.specs.Basics.{tabulate};
ghost use Rattle.semantics.specs.Borrow.{borrows};
ghost use Rattle.lent_spent.specs.Scan.{set_of};
ghost use Rattle.lent_table.specs.Rounds.{Shaped, start_at, end_at, parameter_in, spent_by, stays, reworked_at};
ghost use Rattle.lent_table.specs.Rounds.{table_at};

// How many lines code has at most, and how many rounds change an entry of a table, with the one that changes none.
const MOST_LINES: usize = 4096;

const ROUNDS: u64 = 257;

// Lent code: its rows, and how many functions it has with the line of each, main first.
#[derive(Clone, Copy)]
struct Code<'a> {
    kinds: &'a [u8],
    operands: &'a [i64],
    starts: &'a [usize; 32],
    functions: usize,
}

// The line of function f.
fn start_at(code: &Code, f: usize) -> usize
    ensures { (result ≡ start_at code.now.starts.now f) × (result ≤ 4096) }
{
    // (The borrow checker does not cover a field's array that is lent as a slice.)
    let starts = code.starts;
    words::get_or(starts, f, MOST_LINES).min(MOST_LINES)
}

// The line behind function f.
fn end_at(code: &Code, f: usize) -> usize
    requires { (length code.now.kinds.now ≤ 4096) × (f < 32) }
    ensures { (result ≡ end_at code.now.starts.now code.now.functions (length code.now.kinds.now) f)
        × (result ≤ 4096) }
{
    if f + 1 < code.functions {
        start_at(code, f + 1)
    } else {
        code.kinds.len()
    }
}

// The names that the tree of function f spends or retains.
fn spent_by(code: &Code, borrowed: &[[bool; 8]; 32], f: usize) -> [bool; 256]
    requires { (length code.now.kinds.now ≤ 4096) × (f < 32) }
    ensures { (set_of result ≡ spent_by code.now.kinds.now code.now.operands.now code.now.starts.now
        code.now.functions borrowed.now f) × (length result ≡ 256) }
{
    if code.functions <= f {
        return [false; 256];
    }
    let at = start_at(code, f);
    let count = machine_code::name_at(code.operands, at) as usize;
    let to = end_at(code, f);
    lent_spent::spent_in(code.kinds, code.operands, borrowed, at + 1 + count, to)
}

// Whether the parameter at place i of a function, whose line is at a position, is spent.
fn is_spent(operands: &[i64], spent: &[bool; 256], at: usize, i: usize) -> bool
    requires { (at ≤ 4096) × (i < 8) }
    ensures { result ≡ parameter_in operands.now (set_of spent.now) at i }
{
    i < machine_code::name_at(operands, at) as usize
        && spent[machine_code::name_at(operands, at + 1 + i) as usize]
}

// Whether an entry of a function, whose line is at a position, stays: where these names are spent.
fn stays_so(
    operands: &[i64],
    borrowed: &[[bool; 8]; 32],
    spent: &[bool; 256],
    at: usize,
    f: u8,
    i: usize,
) -> bool
    requires { (at ≤ 4096) × (i < 8) }
    ensures { result ≡ (borrows borrowed.now f i && (not (eqb f 0)
        && not (parameter_in operands.now (set_of spent.now) at i))) }
{
    plain_rows::is_borrowed(borrowed, f, i) && f != 0 && !is_spent(operands, spent, at, i)
}

// The row of function f after a round.
fn rework_row(code: &Code, borrowed: &[[bool; 8]; 32], f: usize) -> [bool; 8]
    requires { (length code.now.kinds.now ≤ 4096) × (f < 32) }
    ensures { result ≡ tabulate 0 8 (stays code.now.kinds.now code.now.operands.now code.now.starts.now
        code.now.functions borrowed.now f) }
{
    let spent = spent_by(code, borrowed, f);
    let at = start_at(code, f);
    let mut row = [false; 8];
    for (i, entry) in row.iter_mut().enumerate() {
        *entry = stays_so(code.operands, borrowed, &spent, at, f as u8, i);
    }
    row
}

// How many rows so many functions have: main's always, and no more than there are.
fn rows_of(functions: usize) -> usize
    ensures { (0 < result) × (result ≤ 32) × (min 32 functions ≤ result) }
{
    functions.clamp(1, 32)
}

// One round. The rows past the last function stay.
fn rework(code: &Code, borrowed: &[[bool; 8]; 32]) -> [[bool; 8]; 32]
    requires { (length code.now.kinds.now ≤ 4096) × Shaped borrowed.now }
    ensures { result ≡ reworked_at code.now.kinds.now code.now.operands.now code.now.starts.now
        code.now.functions borrowed.now }
{
    let mut t = *borrowed;
    t[0] = [false; 8];
    for f in 1..rows_of(code.functions) {
        t[f] = rework_row(code, borrowed, f);
    }
    t
}

// The table of so many functions, main first, whose lines are these, in code cut to at most 4,096 lines.
pub fn borrow_table(
    kinds: &[u8],
    operands: &[i64],
    starts: &[usize; 32],
    functions: usize,
) -> [[bool; 8]; 32]
    requires { length kinds.now ≤ 4096 }
    ensures { (result ≡ table_at kinds.now operands.now starts.now functions)
        × Shaped result }
{
    let code = Code {
        kinds,
        operands,
        starts,
        functions,
    };
    let mut t = [[true; 8]; 32];
    for _ in 0..ROUNDS {
        let u = rework(&code, &t);
        if u == t {
            return t;
        }
        t = u;
    }
    t
}
