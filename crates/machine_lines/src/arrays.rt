// The lines that make an array: a literal's elements are its atoms, an iota's count from 0, a replicate's are copies of
// a word.
ghost use Rattle.std.specs.Prelude.{◌≡◌, true, false, ◌<◌, ◌≤◌, pos, length, get_or};
ghost use Rattle.semantics.specs.Machine.{is_count};
ghost use Rattle.semantics.specs.Words.{store_of};
ghost use Rattle.store.specs.Acquiring.{appended_all};
ghost use Rattle.machine_code.specs.Reading.{Cut};
ghost use Rattle.machine_frames.specs.Frames.{word_of, words_at, element_depth};
ghost use Rattle.machine_frames.specs.Work.{memory, shown, Ends};
ghost use Rattle.machine_lines.specs.Lines.{Appended, elements_by, retained_times, retained_copies};
ghost use Rattle.machine_lines.specs.Lines.{literal_line, array_made, array_line};

use answers::Stop;
use kinds::Atom;
use machine_frames::{Done, FRAME_WORDS, Halted};

// How many elements an array has at most.
const MOST_ELEMENTS: usize = 16;

// Appends the words of the atoms that stand from a position on, at most 16, to a cell; how many they are.
fn append_atoms(
    kinds: &[u8],
    operands: &[i64],
    slots: &mut [i64],
    heads: &mut [u32],
    env: &[i64; FRAME_WORDS],
    calls: usize,
    c: usize,
    at: usize,
) -> usize
    requires { (at ≤ length kinds.now) × (calls < 32) × Cut kinds.now operands.now }
    ensures { Appended (words_at 16 kinds.now operands.now calls env.now at) c result
        (store_of slots.old heads.old) (store_of slots.new heads.new) }
{
    for n in 0..MOST_ELEMENTS {
        if !machine_code::atom_stands(kinds, at + n) {
            return n;
        }
        let a = machine_code::atom_at(kinds, operands, at + n);
        let w = machine_frames::word_of(env, calls, a);
        store::append(slots, heads, c, w);
    }
    MOST_ELEMENTS
}

// A new array of the atoms that follow the line.
pub fn work_literal(
    kinds: &[u8],
    operands: &[i64],
    slots: &mut [i64],
    heads: &mut [u32],
    env: &mut [i64; FRAME_WORDS],
    calls: usize,
    x: u8,
    depth: u8,
    at: usize,
    steps: u64,
) -> Result<Done, Halted>
    requires { (at < length kinds.now) × (calls < 32) × Cut kinds.now operands.now }
    ensures { Ends (literal_line kinds.now operands.now calls x depth at steps
        (memory (store_of slots.old heads.old) env.old))
        (shown result) slots.new heads.new env.new }
{
    if steps == 0 {
        return machine_frames::halt(Stop::OutOfSteps, steps);
    }
    let depth = depth as u32;
    let Some(gained) = store::acquire_empty(slots, heads, depth, machine_frames::level(env)) else {
        return machine_frames::halt(Stop::OutOfCells, steps - 1);
    };
    let n = append_atoms(
        kinds,
        operands,
        slots,
        heads,
        env,
        calls,
        gained.cell,
        at + 1,
    );
    machine_frames::note_level(env, gained.left);
    let w = machine_frames::word_from(gained.cell);
    machine_frames::bind(env, calls, x, w);
    machine_frames::go_on(w, at + 1 + n, steps - 1)
}

// Whether an array can have so many elements.
fn is_count(n: i64) -> bool
    ensures { result ≡ is_count n }
{
    n >= 0 && n <= 16
}

// The element at a position: the position itself, or a copy. `counting` and `w` are no Option: `make_array` hands `w`
// on to `retain_copies` whichever it is, so an Option would be taken apart there once more.
fn element(counting: bool, w: i64, n: usize, i: usize) -> i64
    requires { (i < n) × (n < 17) }
    ensures { result ≡ get_or (elements_by counting w n) i (pos 0) }
{
    if counting {
        machine_frames::word_from(i)
    } else {
        w
    }
}

// Appends so many elements to a cell.
fn append_elements(slots: &mut [i64], heads: &mut [u32], c: usize, counting: bool, w: i64, n: usize)
    requires { n < 17 }
    ensures { store_of slots.new heads.new
        ≡ appended_all c (elements_by counting w n) (store_of slots.old heads.old) }
{
    for i in 0..n {
        store::append(slots, heads, c, element(counting, w, n, i));
    }
}

// So many references more to a cell.
fn retain_times(slots: &[i64], heads: &mut [u32], c: usize, n: usize)
    ensures { store_of slots.now heads.new
        ≡ retained_times n c (store_of slots.now heads.old) }
{
    for _ in 0..n {
        store::retain(slots, heads, c);
    }
}

// The references that copies of a word of a depth are.
fn retain_copies(slots: &[i64], heads: &mut [u32], depth: u32, w: i64, n: usize)
    ensures { store_of slots.now heads.new
        ≡ retained_copies depth w n (store_of slots.now heads.old) }
{
    if depth != 0 {
        retain_times(slots, heads, store_words::named_cell(w), n);
    }
}

// A new array of a count of elements of a depth: the step, the count, the cell, and the references that copies are.
fn make_array(
    slots: &mut [i64],
    heads: &mut [u32],
    env: &mut [i64; FRAME_WORDS],
    counting: bool,
    w: i64,
    depth: u32,
    count: i64,
    steps: u64,
) -> Result<Done, Halted>
    ensures { Ends (array_made counting w depth count steps
        (memory (store_of slots.old heads.old) env.old))
        (shown result) slots.new heads.new env.new }
{
    if steps == 0 {
        return machine_frames::halt(Stop::OutOfSteps, steps);
    }
    if !is_count(count) {
        return machine_frames::halt(Stop::BadCount, steps - 1);
    }
    let n = count as usize;
    let Some(gained) = store::acquire_empty(slots, heads, depth, machine_frames::level(env)) else {
        return machine_frames::halt(Stop::OutOfCells, steps - 1);
    };
    machine_frames::note_level(env, gained.left);
    append_elements(slots, heads, gained.cell, counting, w, n);
    retain_copies(slots, heads, depth, w, n);
    machine_frames::go_on(machine_frames::word_from(gained.cell), 0, steps - 1)
}

// An array that counts from 0.
pub fn work_iota(
    slots: &mut [i64],
    heads: &mut [u32],
    env: &mut [i64; FRAME_WORDS],
    calls: usize,
    x: u8,
    a: Atom,
    next: usize,
    steps: u64,
) -> Result<Done, Halted>
    requires { calls < 32 }
    ensures { Ends (array_line calls x next true (pos 0) 0 (word_of calls env.old a) steps
        (memory (store_of slots.old heads.old) env.old))
        (shown result) slots.new heads.new env.new }
{
    let n = machine_frames::word_of(env, calls, a);
    let made = make_array(slots, heads, env, true, 0, 0, n, steps);
    machine_frames::bind_result(env, calls, x, made, next)
}

// An array of copies of a word.
pub fn work_replicate(
    table: &[u8],
    slots: &mut [i64],
    heads: &mut [u32],
    env: &mut [i64; FRAME_WORDS],
    calls: usize,
    x: u8,
    a: Atom,
    b: Atom,
    next: usize,
    steps: u64,
) -> Result<Done, Halted>
    requires { calls < 32 }
    ensures { Ends (array_line calls x next false (word_of calls env.old b)
        (element_depth table.now calls x env.old) (word_of calls env.old a) steps
        (memory (store_of slots.old heads.old) env.old))
        (shown result) slots.new heads.new env.new }
{
    let n = machine_frames::word_of(env, calls, a);
    let w = machine_frames::word_of(env, calls, b);
    let depth = machine_frames::element_depth(table, env, calls, x);
    let made = make_array(slots, heads, env, false, w, depth, n, steps);
    machine_frames::bind_result(env, calls, x, made, next)
}
