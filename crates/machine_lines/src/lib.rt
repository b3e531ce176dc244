// The lines that work no tree, on a memory of two store arrays and the array of frames. `calls` is the call depth left,
// 31 in main.
#![tactic(auto)]

mod arrays;

ghost use Rattle.std.specs.Prelude.{◌≡◌, ◌<◌, length};
ghost use Rattle.semantics.specs.Number.{exact};
ghost use Rattle.semantics.specs.Words.{store_of};
ghost use Rattle.words.specs.Words.{exact_outcome, checked};
ghost use Rattle.machine_code.specs.Reading.{Cut};
ghost use Rattle.machine_frames.specs.Work.{left, memory, shown, Ends};
ghost use Rattle.machine_lines.specs.Lines.{operation_of, operation_line, index_line, length_line, leaf};

use answers::Stop;
use kinds::Atom;
use machine_code::Line;
use machine_frames::{Done, FRAME_WORDS, Halted};

// The exact result of an operation, if it is in 64 bits.
#[tactic(auto, using(crate::proofs::Lines::less_fits))]
fn operate(kind: u8, a: i64, b: i64) -> Option<i64>
    ensures { exact_outcome result ≡ checked (exact (operation_of kind) a b) }
{
    match kind {
        kinds::SUM => words::exact_sum(a, b),
        kinds::DIFFERENCE => words::exact_difference(a, b),
        _ => Some(words::is_less(a, b)),
    }
}

// A sum, a difference or a comparison.
fn work_operation(
    env: &mut [i64; FRAME_WORDS],
    calls: usize,
    kind: u8,
    x: u8,
    a: Atom,
    b: Atom,
    next: usize,
    steps: u64,
) -> Result<Done, Halted>
    requires { calls < 32 }
    ensures { left (shown result) env.new ≡ operation_line calls kind x a b next steps env.old }
{
    if steps == 0 {
        return machine_frames::halt(Stop::OutOfSteps, steps);
    }
    let v = machine_frames::word_of(env, calls, a);
    let w = machine_frames::word_of(env, calls, b);
    let Some(z) = operate(kind, v, w) else {
        return machine_frames::halt(Stop::Overflow, steps - 1);
    };
    machine_frames::bind(env, calls, x, z);
    machine_frames::go_on(z, next, steps - 1)
}

// An element of an array.
fn work_index(
    slots: &[i64],
    heads: &[u32],
    env: &mut [i64; FRAME_WORDS],
    calls: usize,
    x: u8,
    a: Atom,
    b: Atom,
    next: usize,
    steps: u64,
) -> Result<Done, Halted>
    requires { calls < 32 }
    ensures { left (shown result) env.new
        ≡ index_line (store_of slots.now heads.now) calls x a b next steps env.old }
{
    if steps == 0 {
        return machine_frames::halt(Stop::OutOfSteps, steps);
    }
    let cell = store_words::named_cell(machine_frames::word_of(env, calls, a));
    let w = machine_frames::word_of(env, calls, b);
    if w < 0 || store_words::read_length(slots, heads, cell) <= w as usize {
        return machine_frames::halt(Stop::IndexOutOfRange, steps - 1);
    }
    let v = store_words::read_slot(slots, heads, cell, w as usize);
    machine_frames::bind(env, calls, x, v);
    machine_frames::go_on(v, next, steps - 1)
}

// The length of an array.
fn work_length(
    slots: &[i64],
    heads: &[u32],
    env: &mut [i64; FRAME_WORDS],
    calls: usize,
    x: u8,
    a: Atom,
    next: usize,
    steps: u64,
) -> Result<Done, Halted>
    requires { calls < 32 }
    ensures { left (shown result) env.new
        ≡ length_line (store_of slots.now heads.now) calls x a next steps env.old }
{
    if steps == 0 {
        return machine_frames::halt(Stop::OutOfSteps, steps);
    }
    let cell = store_words::named_cell(machine_frames::word_of(env, calls, a));
    let n = machine_frames::word_from(store_words::read_length(slots, heads, cell));
    machine_frames::bind(env, calls, x, n);
    machine_frames::go_on(n, next, steps - 1)
}

// A line that works no tree.
pub fn work_leaf(
    kinds: &[u8],
    operands: &[i64],
    table: &[u8],
    slots: &mut [i64],
    heads: &mut [u32],
    env: &mut [i64; FRAME_WORDS],
    l: Line,
    calls: usize,
    at: usize,
    steps: u64,
) -> Result<Done, Halted>
    requires { (at < length kinds.now) × (calls < 32) × Cut kinds.now operands.now }
    ensures { Ends (leaf kinds.now operands.now table.now calls at steps
        (memory (store_of slots.old heads.old) env.old) l)
        (shown result) slots.new heads.new env.new }
{
    match l {
        Line::Operation(kind, x, a, b) => work_operation(env, calls, kind, x, a, b, at + 3, steps),
        Line::Literal(x, d) => arrays::work_literal(
            kinds, operands, slots, heads, env, calls, x, d, at, steps,
        ),
        Line::Index(x, a, b) => work_index(slots, heads, env, calls, x, a, b, at + 3, steps),
        Line::Length(x, a) => work_length(slots, heads, env, calls, x, a, at + 2, steps),
        Line::Iota(x, a) => arrays::work_iota(slots, heads, env, calls, x, a, at + 2, steps),
        Line::Replicate(x, a, b) => arrays::work_replicate(
            table,
            slots,
            heads,
            env,
            calls,
            x,
            a,
            b,
            at + 3,
            steps,
        ),
        Line::Retain(x) => {
            let cell = store_words::named_cell(machine_frames::word_of(env, calls, Atom::Name(x)));
            store::retain(slots, heads, cell);
            machine_frames::go_on(0, at + 1, steps)
        }
        Line::Release(x) => {
            let cell = store_words::named_cell(machine_frames::word_of(env, calls, Atom::Name(x)));
            let freed = store_release::release(slots, heads, cell, 4);
            machine_frames::raise_level(env, freed);
            machine_frames::go_on(0, at + 1, steps)
        }
        _ => machine_frames::lost(steps),
    }
}
