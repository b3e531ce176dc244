// The reader and checker: a script file is accepted, or refused with a number from 1 to 8 and a node.
#![tactic(auto)]

ghost use Rattle.std.specs.Prelude.{◌≡◌, ◌+◌, length};
ghost use Rattle.semantics.specs.File.{script, read_file};
ghost use Rattle.script_read.specs.Starts.{Started_by};
ghost use Rattle.script.specs.Verdicts.{Readable, verdict_outcome, checked_as, Judges};

use answers::Refusal;
use script_read::Fault;

// How many functions and nodes an accepted file has.
#[derive(Clone, Copy)]
pub struct Accepted {
    pub functions: usize,
    pub nodes: usize,
}

// Refusals 6 to 8 of nodes that the reader takes, each over the whole file. One walk asks for names and depths at once;
// only where it finds a fault are the names gone over alone, since a node that breaks rule 6 comes first.
fn check(
    kinds: &[u8],
    operands: &[u8],
    functions: usize,
    starts: &[usize; 32],
) -> Result<Accepted, Fault>
    requires { Readable kinds.now operands.now functions
        × Started_by (script kinds.now operands.now functions 0) starts.now }
    ensures { verdict_outcome result ≡ checked_as functions (length kinds.now)
        (script kinds.now operands.now functions 0) }
{
    let count = functions as u8;
    if let Err(fault) = script_types::type_script(kinds, operands, starts, count) {
        // no `?`: the proof would name its arm by the call, and an edit that tells another fault add a call
        if let Err(unknown) = script_names::name_script(kinds, operands, count) {
            return Err(unknown);
        }
        return Err(fault);
    }
    if let Some(node) = script_count::count_script(kinds) {
        return Err(Fault {
            refusal: Refusal::TooManyNames,
            node,
        });
    }
    let nodes = kinds.len();
    Ok(Accepted { functions, nodes })
}

// Judges a file. The kinds are its part from byte 4, the operands its part from 4 + N. The table gets the node of each
// function of an accepted file.
pub fn judge(file: &[u8], starts: &mut [usize; 32]) -> Result<Accepted, Fault>
    ensures { Judges file.now result
        × Started_by (read_file file.now) starts.new }
{
    script_read::read_file(file, starts)?;
    let functions = words::short_at(file, 0);
    let nodes = words::short_at(file, 2);
    let end = 4 + nodes;
    let kinds = &file[4..end];
    let operands = &file[end..];
    check(kinds, operands, functions, starts)
}
