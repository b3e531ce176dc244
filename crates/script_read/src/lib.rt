// The reader: the nodes of a script file in prefix order, refusals 1 to 5.
#![tactic(auto)]

ghost use Rattle.std.specs.Prelude.{◌≡◌, false, ◌&&◌, ◌+◌, ◌/◌, ◌%◌, ◌≤◌, length, get_or};
ghost use Rattle.semantics.specs.File.{at_part, look, part_count, part, parameter, function, script};
ghost use Rattle.semantics.specs.File.{read_file, between};
ghost use Rattle.script_read.specs.Told.{place_of, limits_at, limits_told, node_outcome, fitting_outcome, parted};
ghost use Rattle.script_read.specs.Told.{told, read_of, low_at, high_at};
ghost use Rattle.script_read.specs.Told.{repeated, marked, loops, second_name, AtomSeen, Passes};
ghost use Rattle.script_read.specs.Starts.{Blank, Started_by};

use answers::Refusal;

// Where a node stands.
#[derive(Clone, Copy)]
pub enum Place {
    Function,
    Parameter,
    Part,
}

// A node: its kind and the two parts of its operand (low + 256 * high).
#[derive(Clone, Copy)]
pub struct Node {
    pub kind: u8,
    pub low: u8,
    pub high: u8,
}

// What is wrong with a node.
#[derive(Clone, Copy)]
pub enum Misfit {
    WrongKind,
    WrongOperand,
}

// Why a file is refused, and the node at fault.
#[derive(Clone, Copy)]
pub struct Fault {
    pub refusal: Refusal,
    pub node: usize,
}

// A node that is an atom: a number, or a name; or any other node.
#[derive(Clone, Copy)]
pub enum Atomic {
    Number,
    Name(u8),
    Other,
}

// The entry of a function that is not there, in a table of the functions' nodes: it is past every file. It is a number,
// and no Option: `Started` states it, and the one test whether an entry is in the file finds it too.
pub const NO_FUNCTION: usize = 1024;

// The greatest parts that a node's operand may have.
#[derive(Clone, Copy)]
struct Bounds {
    low: u8,
    high: u8,
}

// The limits of a part's kind, if it may stand there. An arm for each kind, in place of `|` patterns: these compile to
// tests where the arms are a table, and took 1.05 times the reader's instructions.
fn part_limits(kind: u8) -> Option<Bounds>
    ensures { limits_told result ≡ limits_at at_part kind }
{
    let (low, high) = match kind {
        kinds::NUMBER => (0, 0),
        kinds::NAME => (255, 0),
        kinds::SUM => (0, 0),
        kinds::DIFFERENCE => (0, 0),
        kinds::LESS => (0, 0),
        kinds::LET => (255, 0),
        kinds::CALL => (31, 8),
        kinds::LITERAL => (16, 3),
        kinds::INDEX => (0, 0),
        kinds::LENGTH => (0, 0),
        kinds::IF => (0, 0),
        kinds::MAP => (255, 0),
        kinds::IOTA => (0, 0),
        kinds::REPLICATE => (0, 0),
        kinds::FILTER => (255, 0),
        kinds::REDUCE => (255, 255),
        _ => return None,
    };
    Some(Bounds { low, high })
}

// The same of a node that stands at a place. Kind and limits are one test: a node is looked at in few instructions.
fn limits_at(place: Place, kind: u8) -> Option<Bounds>
    ensures { limits_told result ≡ limits_at (place_of place) kind }
{
    match place {
        Place::Function if kind == kinds::FUNCTION => Some(Bounds { low: 8, high: 4 }),
        Place::Parameter if kind == kinds::PARAMETER => Some(Bounds { low: 255, high: 4 }),
        Place::Function | Place::Parameter => None,
        Place::Part => part_limits(kind),
    }
}

// The kind of a node; past the end 255, which is no kind, as in the definition `node_at`.
fn kind_at(kinds: &[u8], at: usize) -> u8
    ensures { result ≡ get_or kinds.now at 255 }
{
    kinds.get(at).copied().unwrap_or(255)
}

// The node that stands at a place.
pub fn node_at(kinds: &[u8], operands: &[u8], at: usize, place: Place) -> Result<Node, Misfit>
    ensures { node_outcome result at
        ≡ parted (look kinds.now operands.now (place_of place) at) }
{
    let kind = kind_at(kinds, at);
    let Some(most) = limits_at(place, kind) else {
        return Err(Misfit::WrongKind);
    };
    if kind == kinds::NUMBER {
        return Ok(Node {
            kind,
            low: 0,
            high: 0,
        });
    }
    let n = words::nth_word(operands, at);
    let low = n % 256;
    let high = n / 256;
    if u64::from(most.low) < low || u64::from(most.high) < high {
        return Err(Misfit::WrongOperand);
    }
    Ok(Node {
        kind,
        low: low as u8,
        high: high as u8,
    })
}

// The same, or the fault of a script in which no node fits there. Inline: as a call it took 1.4 times the reader's
// instructions.
#[inline(always)]
fn fitting_node(kinds: &[u8], operands: &[u8], at: usize, place: Place) -> Result<Node, Fault>
    ensures { fitting_outcome result at
        ≡ parted (look kinds.now operands.now (place_of place) at) }
{
    node_at(kinds, operands, at, place).map_err(|misfit| Fault {
        refusal: match misfit {
            Misfit::WrongKind => Refusal::Malformed,
            Misfit::WrongOperand => Refusal::OperandOutOfRange,
        },
        node: at,
    })
}

// The lower part of the operand of a node at a place; 0 where there is none.
pub fn low_at(kinds: &[u8], operands: &[u8], at: usize, place: Place) -> u8
    ensures { result ≡ low_at kinds.now operands.now (place_of place) at }
{
    node_at(kinds, operands, at, place).map_or(0, |node| node.low)
}

// The upper part of the operand of a node at a place; 0 where there is none.
pub fn high_at(kinds: &[u8], operands: &[u8], at: usize, place: Place) -> u8
    ensures { result ≡ high_at kinds.now operands.now (place_of place) at }
{
    node_at(kinds, operands, at, place).map_or(0, |node| node.high)
}

// How many parts a node has; a call and a literal say it themselves.
#[tactic(auto, unfolding(semantics::specs::File::part_count))]
pub fn parts_of(kind: u8, low: u8, high: u8) -> u8
    ensures { result ≡ part_count kind low high }
{
    match kind {
        kinds::CALL => high,
        kinds::LITERAL => low,
        kinds::LENGTH | kinds::IOTA => 1,
        kinds::SUM | kinds::DIFFERENCE | kinds::LESS | kinds::LET | kinds::INDEX => 2,
        kinds::MAP | kinds::FILTER | kinds::REPLICATE => 2,
        kinds::IF | kinds::REDUCE => 3,
        _ => 0,
    }
}

// Whether a node of this kind is a loop: its last part is its body, worked once a pass.
pub fn is_loop(kind: u8) -> bool
    ensures { result ≡ loops kind }
{
    matches!(kind, kinds::MAP | kinds::FILTER | kinds::REDUCE)
}

// The second name that a node binds in its last part, which hides an equal first; the first again where there is one.
pub fn second_name(kind: u8, low: u8, high: u8) -> u8
    ensures { result ≡ second_name kind low high }
{
    if kind == kinds::REDUCE { high } else { low }
}

// A part, with so many levels left.
#[cycle(read_part_read_parts)]
pub fn read_part(kinds: &[u8], operands: &[u8], at: usize, levels: u64) -> Result<usize, Fault>
    ensures { read_of result ≡ told (part kinds.now operands.now levels at) }
{
    let node = fitting_node(kinds, operands, at, Place::Part)?;
    if levels == 0 {
        return Err(Fault {
            refusal: Refusal::TooDeep,
            node: at,
        });
    }
    let count = parts_of(node.kind, node.low, node.high);
    read_parts(kinds, operands, at + 1, count, levels - 1)
}

// The atom at a node, if one stands there that fits: it is one node, and is looked at in few instructions.
pub fn atom_at(kinds: &[u8], operands: &[u8], at: usize) -> Atomic
    ensures { AtomSeen kinds.now operands.now at result }
{
    match kind_at(kinds, at) {
        kinds::NUMBER => Atomic::Number,
        kinds::NAME => {
            let name = words::nth_word(operands, at);
            if name < 256 {
                Atomic::Name(name as u8)
            } else {
                Atomic::Other
            }
        }
        _ => Atomic::Other,
    }
}

// Whether an atom that fits stands at a node, with so many levels left.
fn is_atom(kinds: &[u8], operands: &[u8], at: usize, levels: u64) -> bool
    ensures { Passes kinds.now operands.now levels at result }
{
    levels != 0 && !matches!(atom_at(kinds, operands, at), Atomic::Other)
}

// So many parts, one after the other. An atom is one node, and needs no call.
#[cycle(read_part_read_parts)]
fn read_parts(
    kinds: &[u8],
    operands: &[u8],
    at: usize,
    count: u8,
    levels: u64,
) -> Result<usize, Fault>
    ensures { read_of result ≡ repeated count (λ p. told (part kinds.now operands.now levels p)) at }
{
    let mut p = at;
    for _ in 0..count {
        if is_atom(kinds, operands, p, levels) {
            p += 1;
        } else {
            p = read_part(kinds, operands, p, levels)?;
        }
    }
    Ok(p)
}

// So many parameters, each of one node.
fn read_parameters(kinds: &[u8], operands: &[u8], at: usize, count: u8) -> Result<usize, Fault>
    ensures { read_of result ≡ repeated count (λ p. told (parameter kinds.now operands.now p)) at }
{
    let mut p = at;
    for _ in 0..count {
        fitting_node(kinds, operands, p, Place::Parameter)?;
        p += 1;
    }
    Ok(p)
}

// A function: its parameters and its body, at level 1.
fn read_function(kinds: &[u8], operands: &[u8], at: usize) -> Result<usize, Fault>
    ensures { read_of result ≡ told (function kinds.now operands.now at) }
{
    let node = fitting_node(kinds, operands, at, Place::Function)?;
    let body = read_parameters(kinds, operands, at + 1, node.low)?;
    read_part(kinds, operands, body, 64)
}

// A table in which no function has a node.
fn clear(starts: &mut [usize; 32])
    ensures { Blank starts.new }
{
    *starts = [NO_FUNCTION; 32];
}

// The functions of a script, with nothing left over. The table gets the node of each function.
fn read_script(
    kinds: &[u8],
    operands: &[u8],
    functions: usize,
    starts: &mut [usize; 32],
) -> Result<usize, Fault>
    requires { functions ≤ 32 }
    ensures { (read_of result ≡ told (script kinds.now operands.now functions 0))
        × (starts.new ≡ marked functions (λ p. told (function kinds.now operands.now p)) 0 0 starts.old) }
{
    let mut p = 0;
    for i in 0..functions {
        starts[i] = p;
        p = read_function(kinds, operands, p)?;
    }
    if p < kinds.len() {
        return Err(Fault {
            refusal: Refusal::Malformed,
            node: p,
        });
    }
    Ok(p)
}

// Whether a header's sizes are in range.
fn sizes_fit(functions: usize, nodes: usize) -> bool
    ensures { result ≡ (between 1 32 functions && between 1 1024 nodes) }
{
    (1..=32).contains(&functions) && (1..=1024).contains(&nodes)
}

// A file: refusals 1 to 5. Its part from byte 4 and its part from 4 + N go on as separate slices. The table gets the
// node of each function of a file that is read to its end.
pub fn read_file(bytes: &[u8], starts: &mut [usize; 32]) -> Result<usize, Fault>
    ensures { (read_of result ≡ told (read_file bytes.now))
        × Started_by (read_file bytes.now) starts.new }
{
    if bytes.len() < 4 {
        return Err(Fault {
            refusal: Refusal::Truncated,
            node: 0,
        });
    }
    let functions = words::short_at(bytes, 0);
    let nodes = words::short_at(bytes, 2);
    if !sizes_fit(functions, nodes) {
        return Err(Fault {
            refusal: Refusal::SizeOutOfRange,
            node: 0,
        });
    }
    if bytes.len() != 4 + 9 * nodes {
        return Err(Fault {
            refusal: Refusal::Truncated,
            node: 0,
        });
    }
    let end = 4 + nodes;
    let kinds = &bytes[4..end];
    let operands = &bytes[end..];
    clear(starts);
    read_script(kinds, operands, functions, starts)
}
