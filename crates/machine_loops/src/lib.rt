// The parts of a loop outside its tree: what it begins with, what a pass begins with, what a pass carries on to the
// next, and what it ends with. A map, a filter and a reduce differ in nothing else.
#![tactic(auto)]

ghost use Rattle.std.specs.Prelude.{◌≡◌, map, ◌+◌, ◌<◌, pos, get_or, length};
ghost use Rattle.semantics.specs.Store.{cell, cell_of, elements};
ghost use Rattle.semantics.specs.Words.{store_of};
ghost use Rattle.semantics.specs.Machine.{looped_over};
ghost use Rattle.machine_frames.specs.Frames.{place, word_of, element_depth};
ghost use Rattle.machine_frames.specs.Work.{memory, shown, Ends};
ghost use Rattle.machine_lines.specs.Lines.{kind_of, first_name, second_name, atoms_of};
ghost use Rattle.machine_loops.specs.Loops.{way_of, begun_frames, retained_if, kept};
ghost use Rattle.machine_loops.specs.Loops.{loop_ended, loop_bound, Within, ResultWithin, NewCarries, Carries};
ghost use Rattle.machine_loops.specs.Loops.{CarriesOn, Begins};

use kinds::Atom;
use machine_code::Loop;
use machine_frames::{Done, FRAME_WORDS, Halted};

// What a pass does with the word that its tree gave: a map appends it to the result; a filter appends the element if
// the word is 1 and not if it is 0, and retains it first where it is an array; a reduce hands it on; a map in the cell
// of its array overwrites the element. Where that cell had another reference the map fills a new one, and its array is
// released after the passes.
#[derive(Clone, Copy)]
pub enum Way {
    Fill(bool),
    Keep(bool),
    Hand,
    Overwrite,
}

// The passes of a loop: what each does with the word that its tree gave, the names of the running value and of the
// element, the cell that they go over and how many they are, and what is carried into the first. Where there is no
// running value both names are the element's.
#[derive(Clone, Copy)]
pub struct Passes {
    pub way: Way,
    pub first: u8,
    pub second: u8,
    pub from: usize,
    pub count: usize,
    pub carried: i64,
}

// The word of the array that a loop goes over.
fn array_word(env: &[i64; FRAME_WORDS], calls: usize, l: Loop) -> i64
    requires { calls < 32 }
    ensures { result ≡ looped_over (kind_of l) (map (word_of calls env.now) (atoms_of l)) }
{
    match l {
        Loop::Map(_, a) | Loop::Filter(_, a) | Loop::Reduce(_, _, _, a) | Loop::Rewrite(_, a) => {
            machine_frames::word_of(env, calls, a)
        }
    }
}

// The name of the running value.
fn first_name(l: Loop) -> u8
    ensures { result ≡ first_name l }
{
    match l {
        Loop::Map(p, _) | Loop::Filter(p, _) | Loop::Reduce(p, _, _, _) | Loop::Rewrite(p, _) => p,
    }
}

// The name of the element.
fn second_name(l: Loop) -> u8
    ensures { result ≡ second_name l }
{
    match l {
        Loop::Map(p, _) | Loop::Filter(p, _) | Loop::Reduce(_, p, _, _) | Loop::Rewrite(p, _) => p,
    }
}

// What a pass over a cell does, by the depth of the elements of the result and by what is carried into the first.
fn way_of(l: Loop, depth: u32, from: usize, carried: i64) -> Way
    ensures { result ≡ way_of (kind_of l) depth from carried }
{
    match l {
        Loop::Map(_, _) => Way::Fill(false),
        Loop::Filter(_, _) => Way::Keep(depth != 0),
        Loop::Reduce(_, _, _, _) => Way::Hand,
        Loop::Rewrite(_, _) => {
            if store_words::named_cell(carried) == from {
                Way::Overwrite
            } else {
                Way::Fill(true)
            }
        }
    }
}

// How many rows a loop's line has before its tree.
pub fn rows_before(l: Loop) -> usize
    ensures { (result ≡ 1 + length (atoms_of l)) × (result < 4) }
{
    match l {
        Loop::Map(_, _) | Loop::Filter(_, _) | Loop::Rewrite(_, _) => 2,
        Loop::Reduce(_, _, _, _) => 3,
    }
}

// A new cell of this element depth for the result, if one is free: the word that names it.
fn acquire_result(
    slots: &mut [i64],
    heads: &mut [u32],
    env: &mut [i64; FRAME_WORDS],
    depth: u32,
) -> Option<i64>
    ensures { NewCarries depth
        (memory (store_of slots.old heads.old) env.old)
        slots.new heads.new env.new result }
{
    let gained = store::acquire_empty(slots, heads, depth, machine_frames::level(env))?;
    machine_frames::note_level(env, gained.left);
    Some(machine_frames::word_from(gained.cell))
}

// What is carried into the first pass, a word unless no cell is free for the result: a reduce's start, an array that is
// to be rewritten, if nothing else refers to it, or a new cell.
fn carry_first(
    slots: &mut [i64],
    heads: &mut [u32],
    env: &mut [i64; FRAME_WORDS],
    calls: usize,
    l: Loop,
    depth: u32,
) -> Option<i64>
    requires { calls < 32 }
    ensures { Carries (kind_of l) depth (map (word_of calls env.old) (atoms_of l))
        (memory (store_of slots.old heads.old) env.old)
        slots.new heads.new env.new result }
{
    match l {
        Loop::Reduce(_, _, a, _) => Some(machine_frames::word_of(env, calls, a)),
        Loop::Rewrite(_, a) => {
            let w = machine_frames::word_of(env, calls, a);
            if store::is_alone(slots, heads, store_words::named_cell(w)) {
                Some(w)
            } else {
                acquire_result(slots, heads, env, depth)
            }
        }
        _ => acquire_result(slots, heads, env, depth),
    }
}

// Begins a loop whose result is bound to a name: its passes, unless no cell is free for the result.
pub fn begin_loop(
    table: &[u8],
    slots: &mut [i64],
    heads: &mut [u32],
    env: &mut [i64; FRAME_WORDS],
    calls: usize,
    x: u8,
    l: Loop,
) -> Option<Passes>
    requires { calls < 32 }
    ensures { Begins (kind_of l) (first_name l) (second_name l)
        (element_depth table.now calls x env.old)
        (map (word_of calls env.old) (atoms_of l))
        (memory (store_of slots.old heads.old) env.old)
        slots.new heads.new env.new result }
{
    let first = first_name(l);
    let second = second_name(l);
    let from = store_words::named_cell(array_word(env, calls, l));
    let count = store_words::read_length(slots, heads, from);
    let depth = machine_frames::element_depth(table, env, calls, x);
    let carried = carry_first(slots, heads, env, calls, l, depth)?;
    let way = way_of(l, depth, from, carried);
    Some(Passes {
        way,
        first,
        second,
        from,
        count,
        carried,
    })
}

// Begins pass i, into which v is carried: binds its names.
pub fn begin_pass(
    slots: &[i64],
    heads: &[u32],
    env: &mut [i64; FRAME_WORDS],
    calls: usize,
    l: Passes,
    v: i64,
    i: usize,
)
    requires { (calls < 32) × Within slots.now heads.now l.from }
    ensures { env.new ≡ begun_frames calls l.first l.second v
        (get_or (elements (cell (store_of slots.now heads.now) l.from)) i (pos 0))
        env.old }
{
    let w = store_words::read_slot_within(slots, heads, l.from, i);
    machine_frames::bind(env, calls, l.first, v);
    machine_frames::bind(env, calls, l.second, w);
}

// One reference more to the cell that a word names, if asked for.
fn retain_if(slots: &[i64], heads: &mut [u32], arrays: bool, w: i64)
    ensures { store_of slots.now heads.new
        ≡ retained_if arrays (cell_of w) (store_of slots.now heads.old) }
{
    if arrays {
        store::retain(slots, heads, store_words::named_cell(w));
    }
}

// Keeps an element in a cell that is there, unless the tree gave 0.
fn keep(slots: &mut [i64], heads: &mut [u32], arrays: bool, c: usize, w: i64, r: i64)
    requires { Within slots.old heads.old c }
    ensures { store_of slots.new heads.new
        ≡ kept arrays c w r (store_of slots.old heads.old) }
{
    if r != 0 {
        retain_if(slots, heads, arrays, w);
        store::append_within(slots, heads, c, w);
    }
}

// Ends pass i, into which v was carried and whose tree gave r: what it carries on, a word unless a filter's tree gave
// another than 1 and 0. A filter reads the element by the first name, which is the element's too.
pub fn end_pass(
    slots: &mut [i64],
    heads: &mut [u32],
    env: &[i64; FRAME_WORDS],
    calls: usize,
    l: Passes,
    v: i64,
    i: usize,
    r: i64,
) -> Option<i64>
    requires { (calls < 32) × ResultWithin l.way slots.old heads.old (cell_of l.carried) }
    ensures { CarriesOn l.way (cell_of l.carried) v i
        (get_or env.now (place calls l.first) (pos 0)) r
        (store_of slots.old heads.old) (store_of slots.new heads.new) result }
{
    let into = store_words::named_cell(l.carried);
    match l.way {
        Way::Fill(_) => {
            store::append_within(slots, heads, into, r);
            Some(v)
        }
        Way::Keep(arrays) => {
            if !machine_frames::guards::is_answer(r) {
                return None;
            }
            let w = machine_frames::word_of(env, calls, Atom::Name(l.first));
            keep(slots, heads, arrays, into, w, r);
            Some(v)
        }
        Way::Hand => Some(r),
        Way::Overwrite => {
            store::overwrite_within(slots, heads, into, i, r);
            Some(v)
        }
    }
}

// Releases the array of a loop after its passes, if the way says so.
fn release_array(slots: &mut [i64], heads: &mut [u32], env: &mut [i64; FRAME_WORDS], l: Passes)
    ensures { memory (store_of slots.new heads.new) env.new
        ≡ loop_ended l.way l.from
        (memory (store_of slots.old heads.old) env.old) }
{
    if let Way::Fill(true) = l.way {
        let freed = store_release::release(slots, heads, l.from, 4);
        machine_frames::raise_level(env, freed);
    }
}

// Ends a loop whose passes ended with r: binds what they gave to a name, and the code goes on at a position.
pub fn end_loop(
    slots: &mut [i64],
    heads: &mut [u32],
    env: &mut [i64; FRAME_WORDS],
    calls: usize,
    x: u8,
    l: Passes,
    r: Result<Done, Halted>,
    next: usize,
) -> Result<Done, Halted>
    requires { calls < 32 }
    ensures { Ends (loop_bound l.way l.from calls x next (shown r)
        (memory (store_of slots.old heads.old) env.old))
        (shown result) slots.new heads.new env.new }
{
    let given = r?;
    release_array(slots, heads, env, l);
    machine_frames::bind(env, calls, x, given.value);
    machine_frames::go_on(given.value, next, given.steps)
}
