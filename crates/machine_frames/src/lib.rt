// The frames and how work ends. The frames are one array: 256 words for each call in progress, main's last, a word for
// each with the number of its function, and two words for levels: how many cells are free, and the least number that
// was. `calls` is the call depth left, 31 in main. Why the frames are one array, lent by a reference to it and
// not as a slice (time and stack, both measured): docs/DECISIONS.md C28.
#![tactic(auto)]

pub mod guards;

ghost use Rattle.std.specs.Prelude.{◌≡◌, ◌+◌, ◌-◌, ◌≤◌, ◌<◌, pos, length, set};
ghost use Rattle.machine_code.specs.Reading.{Cut};
ghost use Rattle.machine_frames.specs.Frames.{frame_words, place, word_of, arguments_within, put_named};
ghost use Rattle.machine_frames.specs.Frames.{function_place, function_of, element_depth, level_of, lowest_of};
ghost use Rattle.machine_frames.specs.Frames.{levelled, noted, raised};
ghost use Rattle.machine_frames.specs.Work.{out, left, bound_result, no_line, cause_number, shown};
ghost use Rattle.answers.specs.Numbers.{stop_number};

use answers::Stop;
use kinds::Atom;

// How many words the frames have.
pub const FRAME_WORDS: usize = 8226;

// The call depth that is left to main, and so the number of its frame.
pub const MAIN_FRAME: usize = 31;

// How many words a frame has, one for each name.
const NAMES: usize = 256;

// The place of the number of the function that is worked in the first frame; those of the others follow.
const FUNCTIONS: usize = 8192;

// The places of the number of free cells, and of the least such number.
const LEVEL: usize = 8224;

const LOWEST: usize = 8225;

// What work gives that goes on: its value, the position where the code goes on, the steps left.
#[derive(Clone, Copy)]
pub struct Done {
    pub value: i64,
    pub next: usize,
    pub steps: u64,
}

// Why work halts: a stop, or it comes to no line that it can do, as the code of an accepted script never does.
#[derive(Clone, Copy)]
pub enum Cause {
    Stopped(Stop),
    NoLine,
}

impl Cause {
    // The number of the stop, or one that no stop has.
    pub fn number(self) -> u8
        ensures { result ≡ cause_number self }
    {
        match self {
            Cause::Stopped(stop) => stop.number(),
            Cause::NoLine => 99,
        }
    }
}

// How work halts: why, and the steps left.
#[derive(Clone, Copy)]
pub struct Halted {
    pub cause: Cause,
    pub steps: u64,
}

// A stop.
pub fn halt(stop: Stop, steps: u64) -> Result<Done, Halted>
    ensures { shown result ≡ out (stop_number stop) (pos 0) 0 steps }
{
    Err(Halted {
        cause: Cause::Stopped(stop),
        steps,
    })
}

// Work that comes to no line that it can do.
pub fn lost(steps: u64) -> Result<Done, Halted>
    ensures { shown result ≡ out no_line (pos 0) 0 steps }
{
    Err(Halted {
        cause: Cause::NoLine,
        steps,
    })
}

// Work that goes on.
pub fn go_on(value: i64, next: usize, steps: u64) -> Result<Done, Halted>
    ensures { shown result ≡ out 0 value next steps }
{
    Ok(Done { value, next, steps })
}

// The place of a name's word among the frames.
pub fn place(calls: usize, x: u8) -> usize
    requires { calls < 32 }
    ensures { (result ≡ place calls x) × (result < frame_words) }
{
    NAMES * calls + x as usize
}

// The word of an atom.
pub fn word_of(env: &[i64; FRAME_WORDS], calls: usize, a: Atom) -> i64
    requires { calls < 32 }
    ensures { result ≡ word_of calls env.now a }
{
    match a {
        Atom::Number(z) => z,
        Atom::Name(x) => env[place(calls, x)],
    }
}

// Binds a name.
pub fn bind(env: &mut [i64; FRAME_WORDS], calls: usize, x: u8, w: i64)
    requires { calls < 32 }
    ensures { env.new ≡ set env.old (place calls x) w }
{
    env[place(calls, x)] = w;
}

// Binds the word of work that did not halt to a name, with the code going on at a position.
pub fn bind_result(
    env: &mut [i64; FRAME_WORDS],
    calls: usize,
    x: u8,
    r: Result<Done, Halted>,
    next: usize,
) -> Result<Done, Halted>
    requires { calls < 32 }
    ensures { left (shown result) env.new ≡ bound_result calls x next (shown r) env.old }
{
    let given = r?;
    bind(env, calls, x, given.value);
    go_on(given.value, next, given.steps)
}

// The number of the function that is worked in a frame.
pub fn function_of(env: &[i64; FRAME_WORDS], calls: usize) -> u8
    requires { calls < 32 }
    ensures { result ≡ function_of calls env.now }
{
    (machine_code::low_bits(env[FUNCTIONS + calls]) % 256) as u8
}

// The element depth of an array by its name, in the function that is worked.
pub fn element_depth(table: &[u8], env: &[i64; FRAME_WORDS], calls: usize, x: u8) -> u32
    requires { calls < 32 }
    ensures { result ≡ element_depth table.now calls x env.now }
{
    machine_code::element_depth(table, function_of(env, calls), x)
}

// Says which function is worked in a frame.
pub fn set_function(env: &mut [i64; FRAME_WORDS], calls: usize, f: u8)
    requires { calls < 32 }
    ensures { env.new ≡ set env.old (function_place calls) (pos f) }
{
    env[FUNCTIONS + calls] = f as i64;
}

// How many cells are free.
pub fn level(env: &[i64; FRAME_WORDS]) -> u32
    ensures { (result ≡ level_of env.now) × (result < 16777216) }
{
    machine_code::low_bits(env[LEVEL]) as u32
}

// The least number of free cells so far.
pub fn lowest(env: &[i64; FRAME_WORDS]) -> u32
    ensures { (result ≡ lowest_of env.now) × (result < 16777216) }
{
    machine_code::low_bits(env[LOWEST]) as u32
}

// Says how many cells are free, as never fewer were.
pub fn set_level(env: &mut [i64; FRAME_WORDS], n: u32)
    ensures { env.new ≡ levelled n env.old }
{
    env[LEVEL] = n as i64;
    env[LOWEST] = n as i64;
}

// Says how many cells are free after an acquire.
#[tactic(auto, using(crate::proofs::Levels::noted_lower, crate::proofs::Levels::noted_higher))]
pub fn note_level(env: &mut [i64; FRAME_WORDS], n: u32)
    ensures { env.new ≡ noted n env.old }
{
    let least = lowest(env);
    env[LEVEL] = n as i64;
    if n < least {
        env[LOWEST] = n as i64;
    }
}

// Says that a release freed so many cells.
#[tactic(auto, using(crate::proofs::Levels::raised_by))]
pub fn raise_level(env: &mut [i64; FRAME_WORDS], freed: u32)
    requires { freed ≤ 256 }
    ensures { env.new ≡ raised freed env.old }
{
    let n = level(env);
    env[LEVEL] = (n + freed) as i64;
}

// A small number as a word.
pub fn word_from(n: usize) -> i64
    requires { n < 9223372036854775808 }
    ensures { result ≡ pos n }
{
    n as i64
}

// Copies the words of so many atoms from a position on, at most 8, to the frame of the next call, which lies before
// that of the call in progress: each to the name that its parameter's line has, from another position on. It copies
// none where not all of these rows are within the code, which those of a call in accepted code are; so the loop tests
// no position.
pub fn pass_arguments(
    kinds: &[u8],
    operands: &[i64],
    env: &mut [i64; FRAME_WORDS],
    calls: usize,
    at: usize,
    names: usize,
    count: usize,
)
    requires { (at ≤ length kinds.now) × (names ≤ 65536) × (count < 256) × (0 < calls) × (calls < 32)
        × Cut kinds.now operands.now }
    ensures { env.new ≡ put_named operands.now (calls - 1)
        (arguments_within count names kinds.now operands.now calls env.old at) names
        env.old }
{
    if kinds.len() < at + count || kinds.len() < names + count {
        return;
    }
    for i in 0..count.min(8) {
        let a = machine_code::atom_within(kinds, operands, at + i);
        let w = word_of(env, calls, a);
        let x = machine_code::name_within(operands, names + i);
        env[NAMES * calls + x as usize - NAMES] = w;
    }
}
