// The rules of depths: what a node has by the depths of its parts, if it breaks no rule.
#![tactic(auto)]

ghost use Rattle.std.specs.Prelude.{◌≡◌, [], ◌∷◌, ◌≤◌, length, get_or, take};
ghost use Rattle.semantics.specs.File.{low_limits, high_limits, part_count};
ghost use Rattle.semantics.specs.Types.{all_are, same, some_if, index_rule, length_rule, replicate_rule, if_rule};
ghost use Rattle.script_rules.specs.Rules.{depths_from, there, called, known_signature, rule_of, array_rule};
ghost use Rattle.script_rules.specs.Rules.{loop_ruled, judged_outcome, rule_outcome};

use script_read::{Node, Place};

// The depth of a node whose first n parts are to have the depth d. Here and below: None where a node breaks its rule.
pub fn judge_all(ds: &[u8; 16], n: usize, d: u8, depth: u8) -> Option<u8>
    requires { n ≤ 16 }
    ensures { judged_outcome result ≡ rule_outcome (some_if (all_are d (take n ds.now)) depth) }
{
    ds[..n].iter().all(|e| *e == d).then_some(depth)
}

// Whether the depths of the n parameters from node at on are the first n depths.
fn parameters_match(kinds: &[u8], operands: &[u8], at: usize, ds: &[u8; 16], n: usize) -> bool
    requires { (n ≤ 16) × (at ≤ length kinds.now) }
    ensures { result ≡ same (depths_from kinds.now operands.now n at) (take n ds.now) }
{
    for (i, d) in ds[..n].iter().enumerate() {
        if script_read::high_at(kinds, operands, at + i, Place::Parameter) != *d {
            return false;
        }
    }
    true
}

// A call's depth: the function's head is at start, if it is there, and the call has n parts.
fn judge_call(kinds: &[u8], operands: &[u8], start: usize, ds: &[u8; 16], n: u8) -> Option<u8>
    requires { n ≤ 16 }
    ensures { judged_outcome result ≡ rule_outcome
        (called (there kinds.now operands.now start) (take n ds.now)) }
{
    if start < kinds.len()
        && script_read::low_at(kinds, operands, start, Place::Function) == n
        && parameters_match(kinds, operands, start + 1, ds, n as usize)
    {
        Some(script_read::high_at(kinds, operands, start, Place::Function))
    } else {
        None
    }
}

// The depth of an element, by those of the array and of the place.
pub fn judge_index(a: u8, b: u8) -> Option<u8>
    ensures { judged_outcome result ≡ rule_outcome (index_rule (a ∷ b ∷ [])) }
{
    if a != 0 && b == 0 { Some(a - 1) } else { None }
}

// The depth of a length, by that of the array.
pub fn judge_length(a: u8) -> Option<u8>
    ensures { judged_outcome result ≡ rule_outcome (length_rule (a ∷ [])) }
{
    (a != 0).then_some(0)
}

// The depth of an array whose elements have the depth d.
pub fn judge_array(d: u8) -> Option<u8>
    ensures { judged_outcome result ≡ rule_outcome (array_rule d) }
{
    if d < 4 { Some(d + 1) } else { None }
}

// The depth of a replicate, by those of the count and of the value.
pub fn judge_replicate(a: u8, b: u8) -> Option<u8>
    ensures { judged_outcome result ≡ rule_outcome (replicate_rule (a ∷ b ∷ [])) }
{
    if a == 0 { judge_array(b) } else { None }
}

// The depth of an if, by those of the guard and of the two branches.
fn judge_if(a: u8, b: u8, c: u8) -> Option<u8>
    ensures { judged_outcome result ≡ rule_outcome (if_rule (a ∷ b ∷ c ∷ [])) }
{
    if a == 0 && b == c { Some(b) } else { None }
}

// The depth of a node by the depths of its parts; not for numbers, names, lets and loops.
pub fn judge(
    kinds: &[u8],
    operands: &[u8],
    starts: &[usize; 32],
    node: Node,
    ds: &[u8; 16],
) -> Option<u8>
    requires { (node.low ≤ get_or low_limits node.kind 0)
        × (node.high ≤ get_or high_limits node.kind 0) }
    ensures { judged_outcome result ≡ rule_outcome
        (rule_of (known_signature kinds.now operands.now starts.now)
        node.kind node.low node.high
        (take (part_count node.kind node.low node.high) ds.now)) }
{
    let Node { kind, low, high } = node;
    match kind {
        kinds::CALL => judge_call(kinds, operands, starts[low as usize], ds, high),
        kinds::LITERAL => judge_all(ds, low as usize, high, high + 1),
        kinds::INDEX => judge_index(ds[0], ds[1]),
        kinds::LENGTH => judge_length(ds[0]),
        kinds::IF => judge_if(ds[0], ds[1], ds[2]),
        kinds::IOTA => judge_all(ds, 1, 0, 1),
        kinds::REPLICATE => judge_replicate(ds[0], ds[1]),
        _ => judge_all(ds, script_read::parts_of(kind, low, high) as usize, 0, 0),
    }
}

// The depth of a loop, by those of its start, of the array and of the body. A filter's start is told as a number, which
// its body has to be.
pub fn judge_loop(kind: u8, start: u8, array: u8, body: u8) -> Option<u8>
    ensures { judged_outcome result ≡ rule_outcome (loop_ruled kind start array body) }
{
    match kind {
        kinds::MAP => judge_array(body),
        _ if body != start => None,
        kinds::FILTER => Some(array),
        _ => Some(start),
    }
}
