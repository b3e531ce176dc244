// The depths and scopes of lent code, the second of the checker's three walks: lines without trees, and what is tested
// before a line's trees. One table has the depths of a function's names and another says which are bound; a third, of
// each tree, which may be used. Rows of any content are read; the form was accepted before.
#![tactic(auto)]

pub mod opening;

ghost use Rattle.std.specs.Prelude.{◌≡◌, false, not, ◌+◌, ◌≤◌, ◌<◌, length, get_or, take};
ghost use Rattle.semantics.specs.Types.{same, call_rule};
ghost use Rattle.semantics.specs.Annotate.{atom_depth};
ghost use Rattle.semantics_lent.specs.Fit.{with_name, in_scope};
ghost use Rattle.machine_code.specs.Reading.{Cut, atom_at};
ghost use Rattle.script_rules.specs.Rules.{judged_outcome, rule_outcome};
ghost use Rattle.lent_fit_lines.specs.Walk.{set_of, depths_of, bound_of, meant, meets, Opened, Lines, bits_at};
ghost use Rattle.lent_fit_lines.specs.Walk.{first_at, second_at, third_at, depths_from, signature_at, atoms_from};
ghost use Rattle.lent_fit_lines.specs.Walk.{start_of, Gathered, literal_within, count_at, rule_at, binds, noted};
ghost use Rattle.lent_fit_lines.specs.Walk.{leaf_fits, plain_fits, ended};

use kinds::Atom;
use lent_form::Fault;

// What stands for the line of a function where there is none: it is past all code, where every reader finds 0, as in
// the definition `start_of`. An Option would be tested at each reader for that 0.
const NO_FUNCTION: usize = 4096;

// A tree: its depth and the next line.
#[derive(Clone, Copy)]
pub struct Fit {
    pub depth: u8,
    pub next: usize,
}

// What depth a tree is to give, as is tested at its end line.
#[derive(Clone, Copy)]
pub enum Wants {
    Any,
    Exactly(u8),
    Under(u8),
}

fn meets(wants: Wants, d: u8) -> bool
    ensures { result ≡ meets wants d }
{
    match wants {
        Wants::Any => true,
        Wants::Exactly(e) => e == d,
        Wants::Under(e) => d < e,
    }
}

// Whether an atom is a number, or a name that may be used.
fn usable(scope: &[bool; 256], a: Atom) -> bool
    ensures { result ≡ in_scope (set_of scope.now) (meant a) }
{
    match a {
        Atom::Number(_) => true,
        Atom::Name(x) => scope[x as usize],
    }
}

// The depth of an atom.
fn depth_of(depths: &[u8; 256], a: Atom) -> u8
    ensures { result ≡ atom_depth (depths_of depths.now) (meant a) }
{
    match a {
        Atom::Number(_) => 0,
        Atom::Name(x) => depths[x as usize],
    }
}

// The depths of n atoms from a line on; none, where one of them may not be used. There is no heap: the array has room
// for the most atoms of a line, and goes on with its number, as the rules of `script_rules` take both.
fn gather(
    kinds: &[u8],
    operands: &[i64],
    scope: &[bool; 256],
    depths: &[u8; 256],
    at: usize,
    n: usize,
) -> Option<[u8; 16]>
    requires { Cut kinds.now operands.now × (at ≤ length kinds.now) × (n ≤ 16) }
    ensures { Gathered (set_of scope.now) (depths_of depths.now)
        (atoms_from kinds.now operands.now n at) n result }
{
    let mut ds = [0u8; 16];
    for i in 0..n {
        let a = machine_code::atom_at(kinds, operands, at + i);
        if !usable(scope, a) {
            return None;
        }
        ds[i] = depth_of(depths, a);
    }
    Some(ds)
}

// Binds a name.
pub fn bind(bound: &mut [bool; 256], depths: &mut [u8; 256], x: u8, d: u8)
    ensures { (bound_of bound.new depths.new
        ≡ with_name x d (bound_of bound.old depths.old))
        × (length bound.new ≡ 256) × (length depths.new ≡ 256) }
{
    bound[x as usize] = true;
    depths[x as usize] = d;
}

// Binds a name that is not yet bound: whether it was not.
pub fn bind_new(bound: &mut [bool; 256], depths: &mut [u8; 256], x: u8, d: u8) -> bool
    ensures { Opened (not (get_or bound.old x false))
        (with_name x d (bound_of bound.old depths.old))
        result bound.new depths.new }
{
    if bound[x as usize] {
        return false;
    }
    bind(bound, depths, x, d);
    true
}

// The bytes of the operand at a line.
fn bits_at(operands: &[i64], at: usize) -> u64
    ensures { (result ≡ bits_at operands.now at) × (result < 16777216) }
{
    machine_code::low_bits(words::get_or(operands, at, 0))
}

// The operand's first, second and third byte. One function with the byte's number would be no plainer:
// `part_at(operands, p, 1)` in place of `second_at(operands, p)`.
#[tactic(auto, unfolding(crate::specs::Walk::first_at))]
pub fn first_at(operands: &[i64], at: usize) -> u8
    ensures { result ≡ first_at operands.now at }
{
    (bits_at(operands, at) % 256) as u8
}

#[tactic(auto, unfolding(crate::specs::Walk::second_at))]
pub fn second_at(operands: &[i64], at: usize) -> u8
    ensures { result ≡ second_at operands.now at }
{
    (bits_at(operands, at) / 256 % 256) as u8
}

#[tactic(auto, unfolding(crate::specs::Walk::third_at))]
fn third_at(operands: &[i64], at: usize) -> u8
    ensures { result ≡ third_at operands.now at }
{
    (bits_at(operands, at) / 65536) as u8
}

// The line of a function; past the code's lines where there is none.
fn start_of(starts: &[usize; 32], f: u8) -> usize
    ensures { result ≡ start_of starts.now f }
{
    words::get_or(starts, f as usize, NO_FUNCTION)
}

// Whether the depths of the n parameters from a line on are the first n depths.
fn parameters_match(operands: &[i64], at: usize, ds: &[u8; 16], n: usize) -> bool
    requires { (n ≤ 16) × (at ≤ length operands.now) }
    ensures { result ≡ same (depths_from operands.now n at) (take n ds.now) }
{
    for i in 0..n {
        if second_at(operands, at + i) != ds[i] {
            return false;
        }
    }
    true
}

// How many atoms a line without trees has.
#[tactic(auto, unfolding(crate::specs::Walk::count_at))]
fn atoms_of(operands: &[i64], starts: &[usize; 32], kind: u8, at: usize) -> u8
    ensures { result ≡ count_at operands.now starts.now kind at }
{
    match kind {
        kinds::CALL => first_at(operands, start_of(starts, second_at(operands, at))),
        kinds::LITERAL => second_at(operands, at),
        kinds::LENGTH | kinds::IOTA => 1,
        _ => 2,
    }
}

// A call's depth, by those of its n atoms: as many as the function has parameters.
#[tactic(auto, using(crate::proofs::Lines::call_laws))]
fn call_depth(operands: &[i64], start: usize, ds: &[u8; 16], n: usize) -> Option<u8>
    requires { (n ≤ 16) × (n ≡ first_at operands.now start) }
    ensures { judged_outcome result ≡ rule_outcome
        (call_rule (signature_at operands.now start) (take n ds.now)) }
{
    if operands.len() <= start {
        return Some(0);
    }
    parameters_match(operands, start + 1, ds, n).then_some(second_at(operands, start))
}

// A literal's depth, by those of its n atoms and by that of its elements.
fn literal_depth(ds: &[u8; 16], n: usize, d: u8) -> Option<u8>
    requires { n ≤ 16 }
    ensures { judged_outcome result ≡ rule_outcome (literal_within d (take n ds.now)) }
{
    if 3 < d {
        None
    } else {
        script_rules::judge_all(ds, n, d, d + 1)
    }
}

// The depth of a line without trees, by those of its n atoms.
#[tactic(auto, unfolding(crate::specs::Walk::rule_at, crate::specs::Walk::count_at))]
fn leaf_depth(
    operands: &[i64],
    starts: &[usize; 32],
    kind: u8,
    at: usize,
    ds: &[u8; 16],
    n: usize,
) -> Option<u8>
    requires { (n ≤ 16) × (n ≡ count_at operands.now starts.now kind at) }
    ensures { judged_outcome result ≡ rule_outcome
        (rule_at operands.now starts.now kind at (take n ds.now)) }
{
    match kind {
        kinds::CALL => call_depth(operands, start_of(starts, second_at(operands, at)), ds, n),
        kinds::LITERAL => literal_depth(ds, n, third_at(operands, at)),
        kinds::INDEX => script_rules::judge_index(ds[0], ds[1]),
        kinds::LENGTH => script_rules::judge_length(ds[0]),
        kinds::IOTA => script_rules::judge_all(ds, 1, 0, 1),
        kinds::REPLICATE => script_rules::judge_replicate(ds[0], ds[1]),
        _ => script_rules::judge_all(ds, 2, 0, 0),
    }
}

// A line without trees that binds a name.
#[tactic(auto, using(crate::proofs::Lines::leaf_laws))]
fn fit_leaf(
    kinds: &[u8],
    operands: &[i64],
    starts: &[usize; 32],
    bound: &mut [bool; 256],
    depths: &mut [u8; 256],
    scope: &[bool; 256],
    kind: u8,
    at: usize,
) -> Result<usize, Fault>
    requires { Cut kinds.now operands.now × (at < length kinds.now) }
    ensures { Lines
        (leaf_fits kinds.now operands.now starts.now kind
        (set_of scope.now) (bound_of bound.old depths.old) at)
        result bound.new depths.new }
{
    let fault = Fault { line: at };
    let n = atoms_of(operands, starts, kind, at) as usize;
    if 16 < n {
        return Err(fault);
    }
    let ds = gather(kinds, operands, scope, depths, at + 1, n).ok_or(fault)?;
    let d = leaf_depth(operands, starts, kind, at, &ds, n).ok_or(fault)?;
    if bind_new(bound, depths, first_at(operands, at), d) {
        Ok(at + 1 + n)
    } else {
        Err(fault)
    }
}

// A retain or a release: of an array that may be used.
fn fit_note(
    operands: &[i64],
    depths: &[u8; 256],
    scope: &[bool; 256],
    at: usize,
) -> Result<usize, Fault>
    requires { at ≤ length operands.now }
    ensures { result ≡ noted (set_of scope.now) (depths_of depths.now)
        (first_at operands.now at) at }
{
    let x = first_at(operands, at) as usize;
    if scope[x] && depths[x] != 0 {
        Ok(at + 1)
    } else {
        Err(Fault { line: at })
    }
}

// Whether a line binds a name.
pub fn binds(kind: u8) -> bool
    ensures { result ≡ binds kind }
{
    !matches!(kind, kinds::RETAIN | kinds::RELEASE)
}

// A line without trees.
#[tactic(auto, using(crate::proofs::Lines::plain_laws))]
pub fn fit_plain(
    kinds: &[u8],
    operands: &[i64],
    starts: &[usize; 32],
    bound: &mut [bool; 256],
    depths: &mut [u8; 256],
    scope: &[bool; 256],
    kind: u8,
    at: usize,
) -> Result<usize, Fault>
    requires { Cut kinds.now operands.now × (at < length kinds.now) }
    ensures { Lines
        (plain_fits kinds.now operands.now starts.now kind
        (set_of scope.now) (bound_of bound.old depths.old) at)
        result bound.new depths.new }
{
    if binds(kind) {
        fit_leaf(kinds, operands, starts, bound, depths, scope, kind, at)
    } else {
        fit_note(operands, depths, scope, at)
    }
}

// An end line.
pub fn fit_end(
    kinds: &[u8],
    operands: &[i64],
    depths: &[u8; 256],
    scope: &[bool; 256],
    wants: Wants,
    at: usize,
) -> Result<Fit, Fault>
    requires { Cut kinds.now operands.now × (at < length kinds.now) }
    ensures { result ≡ ended wants (set_of scope.now) (depths_of depths.now)
        (meant (atom_at kinds.now operands.now (at + 1))) at }
{
    let a = machine_code::atom_at(kinds, operands, at + 1);
    let depth = depth_of(depths, a);
    if usable(scope, a) && meets(wants, depth) {
        Ok(Fit {
            depth,
            next: at + 2,
        })
    } else {
        Err(Fault { line: at })
    }
}
