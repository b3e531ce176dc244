// The translation of an accepted script: its code at the front of two lent arrays, and zeros past it.
#![tactic(auto)]

ghost use Rattle.std.specs.Prelude.{◌≡◌, ◌++◌, ◌+◌, ◌-◌, ◌≤◌, pos, length, take, drop, replicate};
ghost use Rattle.semantics.specs.File.{script};
ghost use Rattle.semantics.specs.Calls.{room};
ghost use Rattle.flatten_functions.specs.Script.{Translatable};
ghost use Rattle.translate_script.specs.Depths.{Depths_by};
ghost use Rattle.translate_script.specs.Places.{Places_by};
ghost use Rattle.translate.specs.Left.{laid_outcome, Leaves};

// Brings the n items that stand from `at` on to the front, and blanks what is behind them.
fn settle<T: Copy>(items: &mut [T], at: usize, n: usize, blank: T)
    requires { at + n ≤ length items.old }
    ensures { items.new ≡ take n (drop at items.old) ++ replicate (length items.old - n) blank }
{
    items.copy_within(at..at + n, 0);
    clearing::clear_from(items, n, blank);
}

// How many lines code has at most.
const MOST_LINES: usize = 4096;

// Translates an accepted script: the file's kinds, its operands, where its functions stand and how many they are. The
// table gets the depths of the names. The rows are written before the end of the part that both arrays have, and then
// brought to the front; `starts` gets the places where the functions were written. The answer is how many lines there
// are, if they fit.
pub fn translate_accepted(
    kinds: &[u8],
    operands: &[u8],
    starts: &mut [usize; 32],
    functions: usize,
    table: &mut [u8],
    ks: &mut [u8],
    os: &mut [i64],
) -> Option<usize>
    requires { Translatable kinds.now operands.now functions starts.old }
    ensures leaves { Leaves (script kinds.now operands.now functions 0)
        ks.old os.old
        (record { answer = laid_outcome result; kinds = ks.new; operands = os.new }) }
    ensures depths_by { Depths_by (script kinds.now operands.now functions 0)
        table.old table.new }
    ensures places_by { Places_by (script kinds.now operands.now functions 0)
        (room ks.old os.old + 1) starts.old starts.new }
{
    let most = MOST_LINES.min(ks.len().min(os.len()));
    let Some(at) = translate_script::script_code(
        kinds,
        operands,
        starts,
        functions,
        table,
        ks,
        os,
        most + 1,
    ) else {
        clearing::clear_code(ks, os);
        return None;
    };
    let n = most - at;
    settle(ks, at, n, 0);
    settle(os, at, n, 0);
    Some(n)
}
