// The form of lent code, the first of the checker's three walks: kinds, operands, numbers of atoms and nesting.
// The arrays are cut to the lines that are looked at, and `over` says whether the code goes on past them.
#![tactic(auto)]

mod reading;

ghost use Rattle.std.specs.Prelude.{◌≡◌, ◌<◌, length};
ghost use Rattle.semantics_lent.specs.Form.{paired, arities_of, arity_of, parts_of, used, code_form, form};
ghost use Rattle.lent_form.specs.Told.{natural, within, Lined, Ready, Walked, tree_passed, parameter_passed};
ghost use Rattle.lent_form.specs.Told.{function_passed, repeated, said, Known, wants_of};
ghost use Rattle.lent_form.specs.Starts.{Answers};

// A line at which lent code is at fault. Each of the three walks ends at the first.
#[derive(Clone, Copy)]
pub struct Fault {
    pub line: usize,
}

// How many lines and functions the code has.
#[derive(Clone, Copy)]
pub struct Formed {
    pub lines: usize,
    pub functions: usize,
}

// How many atoms a line wants: so many, or any number for a call of a function whose line is out of range; or the line
// is none that may stand in a tree.
#[derive(Clone, Copy)]
pub enum Wants {
    Exactly(u8),
    Any,
    Wrong,
}

// A line of a tree: the line behind it and its atoms, and how many trees follow; none, where it ends its tree.
#[derive(Clone, Copy)]
pub struct Line {
    pub next: usize,
    pub trees: Option<u8>,
}

// The line of a function or of a parameter: the first part of its operand, and the line behind it.
#[derive(Clone, Copy)]
pub struct Head {
    pub first: u8,
    pub next: usize,
}

// How many lines code has at most, and how deep its trees stand.
const MOST_LINES: usize = 4096;

const MOST_LEVELS: u64 = 64;

// A tree, with so many levels of trees left: the line behind it.
fn form_tree(
    kinds: &[u8],
    operands: &[i64],
    arities: &[Wants; 32],
    over: bool,
    at: usize,
    levels: u64,
) -> Result<usize, Fault>
    requires { Ready kinds.now operands.now arities.now }
    ensures { Walked (length kinds.now)
        (λ n. tree_passed kinds.now operands.now over n levels) at result }
{
    if levels == 0 {
        return Err(Fault { line: at });
    }
    let mut p = at;
    // (a `while`: each line, with its trees, says where the next is)
    while p < kinds.len() {
        let line = reading::form_line(kinds, operands, arities, over, p)?;
        let Some(trees) = line.trees else {
            return Ok(line.next);
        };
        p = line.next;
        for _ in 0..trees {
            p = form_tree(kinds, operands, arities, over, p, levels - 1)?;
        }
    }
    Err(Fault { line: p })
}

// So many parameters: the line behind them.
fn form_parameters(
    kinds: &[u8],
    operands: &[i64],
    over: bool,
    at: usize,
    count: u8,
) -> Result<usize, Fault>
    requires { Lined kinds.now operands.now }
    ensures { said result ≡ repeated count (parameter_passed kinds.now operands.now over) at }
{
    let mut p = at;
    for _ in 0..count {
        p = reading::form_head(kinds, operands, over, p, kinds::PARAMETER)?.next;
    }
    Ok(p)
}

// A function, which is its line, its parameters and its tree: the line behind it.
fn form_function(
    kinds: &[u8],
    operands: &[i64],
    arities: &[Wants; 32],
    over: bool,
    at: usize,
) -> Result<usize, Fault>
    requires { Ready kinds.now operands.now arities.now }
    ensures { said result ≡ function_passed kinds.now operands.now over at }
{
    let head = reading::form_head(kinds, operands, over, at, kinds::FUNCTION)?;
    let tree = form_parameters(kinds, operands, over, head.next, head.first)?;
    form_tree(kinds, operands, arities, over, tree, MOST_LEVELS)
}

// The functions, main first. The table gets the line of each.
fn form_functions(
    kinds: &[u8],
    operands: &[i64],
    arities: &[Wants; 32],
    over: bool,
    starts: &mut [usize; 32],
) -> Result<Formed, Fault>
    requires { Ready kinds.now operands.now arities.now }
    ensures { Answers
        (code_form (paired kinds.now operands.now)
        (arities_of (paired kinds.now operands.now)) over 0) result starts.new }
{
    let mut p = 0;
    for f in 0..32 {
        starts[f] = p;
        p = form_function(kinds, operands, arities, over, p)?;
        if kinds.len() <= p && !over {
            return Ok(Formed {
                lines: p,
                functions: f + 1,
            });
        }
    }
    Err(Fault { line: p })
}

// How many atoms a call of a function wants, by its line's operand.
fn arity_in(operand: i64) -> Wants
    ensures { result ≡ wants_of (arity_of (parts_of 0 operand)) }
{
    let n = reading::natural(operand);
    if reading::within(n, 8 + 256 * 4) {
        Wants::Exactly((n % 256) as u8)
    } else {
        Wants::Any
    }
}

// How many atoms calls of the first 32 functions want: function i has the i-th line of kind 0.
fn arities_of(kinds: &[u8], operands: &[i64]) -> [Wants; 32]
    requires { Lined kinds.now operands.now }
    ensures { Known result (arities_of (paired kinds.now operands.now)) }
{
    let mut arities = [Wants::Wrong; 32];
    let mut f = 0;
    for p in 0..kinds.len() {
        if kinds[p] == kinds::FUNCTION {
            if f == 32 {
                break;
            }
            arities[f] = arity_in(operands[p]);
            f += 1;
        }
    }
    arities
}

// How many words are looked at in one go where closing zeros are passed over.
const BLOCK: usize = 16;

// How many places an array has up to its last word that is not zero. The first loop does not count: it goes back over
// blocks of zeros, of which arrays with room for the longest code have many. A block is looked at to its end, and so
// many words at a time.
fn used<T: Copy + PartialEq>(words: &[T], zero: T) -> usize
    ensures { result ≡ used (λ w. T.eq w zero) words.now }
{
    let mut end = words.len();
    while BLOCK <= end {
        let block = &words[end - BLOCK..end];
        let mut none = true;
        for word in block {
            none &= *word == zero;
        }
        if !none {
            break;
        }
        end -= BLOCK;
    }
    for i in (0..end).rev() {
        if words[i] != zero {
            return i + 1;
        }
    }
    0
}

// The form of two arrays of any lengths and contents. The table gets the line of each function of code that is
// accepted.
pub fn form(kinds: &[u8], operands: &[i64], starts: &mut [usize; 32]) -> Result<Formed, Fault>
    ensures { Answers (form kinds.now operands.now) result starts.new }
{
    let all = used(kinds, 0).max(used(operands, 0));
    let room = MOST_LINES.min(kinds.len()).min(operands.len());
    let lines = room.min(all);
    let cut_kinds = &kinds[..lines];
    let cut_operands = &operands[..lines];
    let arities = arities_of(cut_kinds, cut_operands);
    form_functions(cut_kinds, cut_operands, &arities, room < all, starts)
}
