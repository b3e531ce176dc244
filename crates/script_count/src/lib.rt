// Refusal 8: the first function with over 256 new names, in one pass over the kinds.
#![tactic(auto)]

ghost use Rattle.std.specs.Prelude.{◌≡◌, ◌+◌, ◌<◌, length, get_or};
ghost use Rattle.script_count.specs.Count.{new_names, crowd_ends, start_after, counted_on, crowd};
ghost use Rattle.script_count.specs.Count.{counted_outcome, crowd_outcome};

// How many new names a node of this kind takes.
#[tactic(auto, using(crate::proofs::Laws::no_name))]
fn new_names(kind: u8) -> u8
    ensures { result ≡ get_or new_names kind 0 }
{
    match kind {
        kinds::PARAMETER
        | kinds::SUM
        | kinds::DIFFERENCE
        | kinds::LESS
        | kinds::CALL
        | kinds::LITERAL
        | kinds::INDEX
        | kinds::LENGTH
        | kinds::IF
        | kinds::IOTA
        | kinds::REPLICATE => 1,
        kinds::MAP | kinds::FILTER => 2,
        kinds::REDUCE => 3,
        _ => 0,
    }
}

// Whether a function with too many names ends before a node of this kind.
fn crowd_ends(kind: u8, count: u64) -> bool
    ensures { result ≡ crowd_ends kind count }
{
    kind == kinds::FUNCTION && 256 < count
}

// The present function's node, after the node at p.
fn start_after(kind: u8, p: usize, start: usize) -> usize
    ensures { result ≡ start_after kind p start }
{
    if kind == kinds::FUNCTION { p } else { start }
}

// The present function's new names, after a node of this kind; over 256 the count stands still.
fn count_after(kind: u8, count: u64) -> u64
    ensures { result ≡ counted_on kind count }
{
    if kind == kinds::FUNCTION {
        0
    } else if 256 < count {
        count
    } else {
        count + u64::from(new_names(kind))
    }
}

// The node of the first function with too many new names, if there is one.
#[tactic(auto, using(crate::proofs::Laws::passing))]
pub fn count_script(kinds: &[u8]) -> Option<usize>
    ensures { counted_outcome result
        ≡ crowd_outcome (crowd kinds.now (length kinds.now) 0 0 0) }
{
    let mut start = 0;
    let mut count = 0;
    for (p, &kind) in kinds.iter().enumerate() {
        if crowd_ends(kind, count) {
            return Some(start);
        }
        start = start_after(kind, p, start);
        count = count_after(kind, count);
    }
    (256 < count).then_some(start)
}
