// A line of lent code with its atoms: whether its operand is in range, how many atoms it wants and how many stand
// behind it, and how many trees follow.
ghost use Rattle.std.specs.Prelude.{◌≡◌, ◌<◌, length};
ghost use Rattle.semantics_lent.specs.Form.{paired, arities_of};
ghost use Rattle.lent_form.specs.Told.{limits_of, natural, within, run_from, fault_at, atoms_read, arity_in};
ghost use Rattle.lent_form.specs.Told.{wanted, trees_behind, line_told, head_told, Lined, Ready};

use crate::{Fault, Head, Line, Wants};

// The greatest parts of a line's operand by its kind: first + 256 * second + 65,536 * third.
#[tactic(auto, unfolding(crate::specs::Told::limits_of))]
fn limits(kind: u8) -> u64
    ensures { result ≡ limits_of kind }
{
    match kind {
        kinds::FUNCTION => 8 + 256 * 4,
        kinds::PARAMETER => 255 + 256 * 4,
        kinds::CALL => 255 + 256 * 31,
        kinds::LITERAL => 255 + 256 * 16 + 65536 * 3,
        kinds::MAP | kinds::FILTER | kinds::REWRITE => 255 + 256 * 255,
        kinds::REDUCE => 255 + 256 * 255 + 65536 * 255,
        kinds::NAME
        | kinds::SUM
        | kinds::DIFFERENCE
        | kinds::LESS
        | kinds::INDEX
        | kinds::LENGTH
        | kinds::IF => 255,
        kinds::RETAIN | kinds::RELEASE | kinds::IOTA | kinds::REPLICATE => 255,
        _ => 0,
    }
}

// A word as a number; a negative one is past every limit.
pub fn natural(w: i64) -> u64
    ensures { result ≡ natural w }
{
    if w < 0 { 9223372036854775808 } else { w as u64 }
}

// Whether each of an operand's parts is within its limit.
pub fn within(n: u64, most: u64) -> bool
    ensures { result ≡ within n most }
{
    n % 256 <= most % 256 && n / 256 % 256 <= most / 256 % 256 && n / 65536 <= most / 65536
}

// Where the atoms from a line on end; none, where a name among them is out of range.
fn run_of_atoms(kinds: &[u8], operands: &[i64], at: usize) -> Option<usize>
    requires { Lined kinds.now operands.now }
    ensures { result ≡ run_from (paired kinds.now operands.now) at }
{
    for p in at..kinds.len() {
        match kinds[p] {
            kinds::NUMBER => {}
            kinds::NAME => {
                if 255 < natural(operands[p]) {
                    return None;
                }
            }
            _ => return Some(p),
        }
    }
    Some(at.max(kinds.len()))
}

// Where a line wants so many atoms and other ones stand behind it: the line itself is at fault, but for the last one of
// code that goes on.
fn fault_of(lines: usize, over: bool, at: usize, few: bool, end: usize) -> usize
    ensures { result ≡ fault_at lines over at few end }
{
    if few && over && end == lines {
        lines
    } else {
        at
    }
}

// Passes a line with its atoms: the line behind them.
#[tactic(auto, using(crate::proofs::Lines::read_so))]
fn pass_atoms(
    kinds: &[u8],
    operands: &[i64],
    over: bool,
    at: usize,
    wants: Wants,
) -> Result<usize, Fault>
    requires { (at < length kinds.now) × Lined kinds.now operands.now }
    ensures { result ≡ atoms_read (paired kinds.now operands.now) over at wants }
{
    let fault = Fault { line: at };
    let end = run_of_atoms(kinds, operands, at + 1).ok_or(fault)?;
    match wants {
        Wants::Exactly(n) => {
            let wanted = at + 1 + n as usize;
            if end == wanted {
                Ok(end)
            } else {
                Err(Fault {
                    line: fault_of(kinds.len(), over, at, end < wanted, end),
                })
            }
        }
        Wants::Any => Ok(end),
        Wants::Wrong => Err(fault),
    }
}

// How many atoms a call of a function wants, by the table.
#[tactic(auto, unfolding(crate::specs::Told::arity_in))]
fn arity(arities: &[Wants; 32], f: usize) -> Wants
    ensures { result ≡ arity_in arities.now f }
{
    if f < 32 { arities[f] } else { Wants::Wrong }
}

// How many atoms a line of a tree wants, by its kind and its operand.
#[tactic(auto, unfolding(crate::specs::Told::wanted))]
fn wanted(kind: u8, n: u64, arities: &[Wants; 32]) -> Wants
    ensures { result ≡ wanted kind n arities.now }
{
    let second = n / 256 % 256;
    match kind {
        kinds::RETAIN | kinds::RELEASE => Wants::Exactly(0),
        kinds::LENGTH | kinds::IF | kinds::MAP | kinds::END => Wants::Exactly(1),
        kinds::IOTA | kinds::FILTER | kinds::REWRITE => Wants::Exactly(1),
        kinds::SUM | kinds::DIFFERENCE | kinds::LESS | kinds::INDEX => Wants::Exactly(2),
        kinds::REPLICATE | kinds::REDUCE => Wants::Exactly(2),
        kinds::LITERAL => Wants::Exactly(second as u8),
        kinds::CALL => arity(arities, second as usize),
        _ => Wants::Wrong,
    }
}

// How many trees follow a line of a kind; none, where it ends its tree.
#[tactic(auto, unfolding(crate::specs::Told::trees_behind))]
fn trees_behind(kind: u8) -> Option<u8>
    ensures { result ≡ trees_behind kind }
{
    match kind {
        kinds::END => None,
        kinds::IF => Some(2),
        kinds::MAP | kinds::FILTER | kinds::REDUCE | kinds::REWRITE => Some(1),
        _ => Some(0),
    }
}

// A line of a tree, with its atoms.
#[tactic(auto, using(crate::proofs::Lines::line_laws))]
pub fn form_line(
    kinds: &[u8],
    operands: &[i64],
    arities: &[Wants; 32],
    over: bool,
    at: usize,
) -> Result<Line, Fault>
    requires { (at < length kinds.now) × Ready kinds.now operands.now arities.now }
    ensures { result ≡ line_told (paired kinds.now operands.now)
        (arities_of (paired kinds.now operands.now)) over at }
{
    let kind = kinds[at];
    let n = natural(operands[at]);
    if !within(n, limits(kind)) {
        return Err(Fault { line: at });
    }
    let next = pass_atoms(kinds, operands, over, at, wanted(kind, n, arities))?;
    Ok(Line {
        next,
        trees: trees_behind(kind),
    })
}

// A line of a function or of a parameter, which has no atoms.
#[tactic(auto, using(crate::proofs::Lines::head_laws))]
pub fn form_head(
    kinds: &[u8],
    operands: &[i64],
    over: bool,
    at: usize,
    kind: u8,
) -> Result<Head, Fault>
    requires { Lined kinds.now operands.now }
    ensures { result ≡ head_told (paired kinds.now operands.now) over kind at }
{
    if kinds.len() <= at || kinds[at] != kind {
        return Err(Fault { line: at });
    }
    let n = natural(operands[at]);
    if !within(n, limits(kind)) {
        return Err(Fault { line: at });
    }
    let next = pass_atoms(kinds, operands, over, at, Wants::Exactly(0))?;
    Ok(Head {
        first: (n % 256) as u8,
        next,
    })
}
