// The machine: workers for a tree, a line and the passes of a loop that call each other. What falls is the steps left,
// and where no step is taken the lines left. `calls` is the call depth left. The code's slices are cut to its lines,
// and lent by a reference to each: a frame then has no copy of them. Why the arrays that are written, and the numbers,
// are lent one by one: docs/DECISIONS.md C3.
#![tactic(auto)]

ghost use Rattle.std.specs.Prelude.{◌≡◌, ◌<◌, length};
ghost use Rattle.semantics.specs.Words.{store_of};
ghost use Rattle.machine_code.specs.Reading.{Cut};
ghost use Rattle.machine_frames.specs.Work.{memory, shown};
ghost use Rattle.machine_lines.specs.Lines.{kind_of, first_name, second_name, atoms_of};
ghost use Rattle.machine_loops.specs.Loops.{Usable};
ghost use Rattle.machine_spec.specs.Machine.{code, Ended, if_line, call_line, loop_line, looped, passes_on};
ghost use Rattle.machine_spec.specs.Machine.{line_on, tree_on, call_on};

use answers::Stop;
use kinds::Atom;
use machine_code::{Line, Loop, MOST_LINES, TABLE_BYTES};
use machine_frames::{Done, FRAME_WORDS, Halted};
use machine_loops::Passes;

// Works the tree at a position.
#[cycle(workers)]
pub fn work_tree(
    kinds: &&[u8],
    operands: &&[i64],
    table: &[u8; TABLE_BYTES],
    slots: &mut [i64],
    heads: &mut [u32],
    env: &mut [i64; FRAME_WORDS],
    steps: u64,
    lines: u64,
    calls: usize,
    at: usize,
) -> Result<Done, Halted>
    requires { (calls < 32) × Cut kinds.now.now operands.now.now }
    ensures { Ended (tree_on lines
        (call_on calls (code kinds.now.now operands.now.now table.now))
        (code kinds.now.now operands.now.now table.now) calls at steps
        (memory (store_of slots.old heads.old) env.old))
        steps (shown result) slots.new heads.new env.new }
{
    let mut p = at;
    let mut s = steps;
    for left in (0..lines).rev() {
        if !machine_code::two_rows(*kinds, *operands, p) {
            return machine_frames::lost(s);
        }
        let l = machine_code::line_at(*kinds, *operands, p);
        if let Line::End(a) = l {
            let w = machine_frames::word_of(env, calls, a);
            return machine_frames::go_on(w, p + 2, s);
        }
        match work_line(
            kinds, operands, table, slots, heads, env, s, left, calls, p, l,
        ) {
            Ok(given) => {
                p = given.next;
                s = given.steps;
            }
            // field by field: a copy of the whole keeps the bytes between its fields too, in each frame
            Err(Halted { cause, steps }) => return Err(Halted { cause, steps }),
        }
    }
    machine_frames::lost(s)
}

// Works a line that stands at a position.
#[cycle(workers)]
fn work_line(
    kinds: &&[u8],
    operands: &&[i64],
    table: &[u8; TABLE_BYTES],
    slots: &mut [i64],
    heads: &mut [u32],
    env: &mut [i64; FRAME_WORDS],
    steps: u64,
    lines: u64,
    calls: usize,
    at: usize,
    l: Line,
) -> Result<Done, Halted>
    requires { (at < length kinds.now.now) × (calls < 32) × Cut kinds.now.now operands.now.now }
    ensures { Ended (line_on
        (tree_on lines
        (call_on calls (code kinds.now.now operands.now.now table.now))
        (code kinds.now.now operands.now.now table.now) calls)
        (call_on calls (code kinds.now.now operands.now.now table.now))
        (code kinds.now.now operands.now.now table.now) calls at steps
        (memory (store_of slots.old heads.old) env.old) l)
        steps (shown result) slots.new heads.new env.new }
{
    match l {
        Line::If(x, g) => work_if(
            kinds, operands, table, slots, heads, env, steps, lines, calls, at, x, g,
        ),
        Line::Call(x, g) => work_call(
            kinds, operands, table, slots, heads, env, steps, calls, at, x, g,
        ),
        Line::Loop(x, l) => work_loop(
            kinds, operands, table, slots, heads, env, steps, lines, calls, at, x, l,
        ),
        _ => machine_lines::work_leaf(
            *kinds, *operands, table, slots, heads, env, l, calls, at, steps,
        ),
    }
}

// Works one tree of an if, whose guard is 1 or 0.
#[cycle(workers)]
fn work_if(
    kinds: &&[u8],
    operands: &&[i64],
    table: &[u8; TABLE_BYTES],
    slots: &mut [i64],
    heads: &mut [u32],
    env: &mut [i64; FRAME_WORDS],
    steps: u64,
    lines: u64,
    calls: usize,
    at: usize,
    x: u8,
    g: Atom,
) -> Result<Done, Halted>
    requires { (at < length kinds.now.now) × (calls < 32) × Cut kinds.now.now operands.now.now }
    ensures { Ended (if_line
        (tree_on lines
        (call_on calls (code kinds.now.now operands.now.now table.now))
        (code kinds.now.now operands.now.now table.now) calls)
        table.now calls x g at steps
        (memory (store_of slots.old heads.old) env.old))
        steps (shown result) slots.new heads.new env.new }
{
    if steps == 0 {
        return machine_frames::halt(Stop::OutOfSteps, steps);
    }
    let guard = machine_frames::word_of(env, calls, g);
    if !machine_frames::guards::is_answer(guard) {
        return machine_frames::halt(Stop::BadGuard, steps - 1);
    }
    let start = machine_frames::guards::branch_start(table, guard, at + 2);
    let given = work_tree(
        kinds,
        operands,
        table,
        slots,
        heads,
        env,
        steps - 1,
        lines,
        calls,
        start,
    )?;
    let next = machine_frames::guards::branch_end(table, guard, given.next);
    machine_frames::bind(env, calls, x, given.value);
    machine_frames::go_on(given.value, next, given.steps)
}

// Works the tree of a function that is called.
#[cycle(workers)]
fn work_call(
    kinds: &&[u8],
    operands: &&[i64],
    table: &[u8; TABLE_BYTES],
    slots: &mut [i64],
    heads: &mut [u32],
    env: &mut [i64; FRAME_WORDS],
    steps: u64,
    calls: usize,
    at: usize,
    x: u8,
    g: u8,
) -> Result<Done, Halted>
    requires { (at < length kinds.now.now) × (calls < 32) × Cut kinds.now.now operands.now.now }
    ensures { Ended (call_line
        (call_on calls (code kinds.now.now operands.now.now table.now))
        (code kinds.now.now operands.now.now table.now) calls x g at steps
        (memory (store_of slots.old heads.old) env.old))
        steps (shown result) slots.new heads.new env.new }
{
    if steps == 0 {
        return machine_frames::halt(Stop::OutOfSteps, steps);
    }
    if calls == 0 {
        return machine_frames::halt(Stop::CallTooDeep, steps - 1);
    }
    let below = calls - 1;
    let head = machine_code::start_in(table, g);
    let n = machine_code::name_at(*operands, head) as usize;
    machine_frames::pass_arguments(*kinds, *operands, env, calls, at + 1, head + 1, n);
    machine_frames::set_function(env, below, g);
    let given = work_tree(
        kinds,
        operands,
        table,
        slots,
        heads,
        env,
        steps - 1,
        MOST_LINES,
        below,
        head + 1 + n,
    )?;
    machine_frames::bind(env, calls, x, given.value);
    machine_frames::go_on(given.value, at + 1 + n, given.steps)
}

// Works a loop: what it begins with, its passes, and what it ends with.
#[cycle(workers)]
fn work_loop(
    kinds: &&[u8],
    operands: &&[i64],
    table: &[u8; TABLE_BYTES],
    slots: &mut [i64],
    heads: &mut [u32],
    env: &mut [i64; FRAME_WORDS],
    steps: u64,
    lines: u64,
    calls: usize,
    at: usize,
    x: u8,
    l: Loop,
) -> Result<Done, Halted>
    requires { (at < length kinds.now.now) × (calls < 32) × Cut kinds.now.now operands.now.now }
    ensures { Ended (loop_line
        (tree_on lines
        (call_on calls (code kinds.now.now operands.now.now table.now))
        (code kinds.now.now operands.now.now table.now) calls)
        (code kinds.now.now operands.now.now table.now) calls x (kind_of l)
        (first_name l) (second_name l) (atoms_of l) at steps
        (memory (store_of slots.old heads.old) env.old))
        steps (shown result) slots.new heads.new env.new }
{
    if steps == 0 {
        return machine_frames::halt(Stop::OutOfSteps, steps);
    }
    let Some(passes) = machine_loops::begin_loop(table, slots, heads, env, calls, x, l) else {
        return machine_frames::halt(Stop::OutOfCells, steps - 1);
    };
    let start = at + machine_loops::rows_before(l);
    let r = work_pass(
        kinds,
        operands,
        table,
        slots,
        heads,
        env,
        steps - 1,
        lines,
        calls,
        start,
        passes,
    );
    let next = machine_code::end_in(table, start);
    machine_loops::end_loop(slots, heads, env, calls, x, passes, r, next)
}

// Works a loop's tree, at a position, once for each element. What a pass carries on is carried into the next.
#[cycle(workers)]
fn work_pass(
    kinds: &&[u8],
    operands: &&[i64],
    table: &[u8; TABLE_BYTES],
    slots: &mut [i64],
    heads: &mut [u32],
    env: &mut [i64; FRAME_WORDS],
    steps: u64,
    lines: u64,
    calls: usize,
    at: usize,
    l: Passes,
) -> Result<Done, Halted>
    requires { (calls < 32) × Cut kinds.now.now operands.now.now
        × Usable slots.old heads.old l }
    ensures { Ended (passes_on (looped l.way
        (tree_on lines
        (call_on calls (code kinds.now.now operands.now.now table.now))
        (code kinds.now.now operands.now.now table.now) calls at)
        calls l.first l.second l.from) l.count l.carried 0 steps
        (memory (store_of slots.old heads.old) env.old))
        steps (shown result) slots.new heads.new env.new }
{
    let mut v = l.carried;
    let mut s = steps;
    for i in 0..l.count {
        if s == 0 {
            return machine_frames::halt(Stop::OutOfSteps, s);
        }
        machine_loops::begin_pass(slots, heads, env, calls, l, v, i);
        let given = work_tree(
            kinds,
            operands,
            table,
            slots,
            heads,
            env,
            s - 1,
            lines,
            calls,
            at,
        )?;
        let carried = machine_loops::end_pass(slots, heads, env, calls, l, v, i, given.value);
        let Some(u) = carried else {
            return machine_frames::halt(Stop::BadGuard, given.steps);
        };
        v = u;
        s = given.steps;
    }
    machine_frames::go_on(v, 0, s)
}
