// The plain code of the functions of a script: what their parameters mean, and where their trees stand.
#![tactic(auto)]

ghost use Rattle.std.specs.Prelude.{◌≡◌, ◌≤◌, replicate};
ghost use Rattle.semantics.specs.File.{script};
ghost use Rattle.script_read.specs.Told.{Parts};
ghost use Rattle.flatten_functions.specs.Read.{parameters_at, Binds, Unbound, Fitting, FunctionLaid};
ghost use Rattle.flatten_functions.specs.Script.{Translatable, Resulting_by};

use flatten_rows::Spot;
use flatten_rows::atoms::NO_PLACE;
use script_read::Place;

// The parameters from a node on are the new names from 0 on: the place of each written name, and the depth of each new
// name, in two tables where no name is bound yet.
fn bind_parameters(
    kinds: &[u8],
    operands: &[u8],
    at: usize,
    count: u8,
    places: &mut [u16; 256],
    depths: &mut [u8; 256],
)
    requires parts { Parts kinds.now operands.now × ((at ≤ 1024) × (count ≤ 8)) }
    requires unbound { Unbound places.old depths.old }
    ensures { Binds operands.now (parameters_at kinds.now operands.now at count) 0 places.new depths.new }
{
    for i in (0..count as usize).rev() {
        let x = script_read::low_at(kinds, operands, at + i, Place::Parameter);
        places[x as usize] = i as u16;
        depths[i] = script_read::high_at(kinds, operands, at + i, Place::Parameter);
    }
}

// Lays the tree of the function at a node from row 0 on, whatever the rows held: its last uses and the depths of its
// names go into tables of zeros. The answer is the row after the tree.
pub fn lay_function(
    kinds: &[u8],
    operands: &[u8],
    results: &[u8; 32],
    at: usize,
    rows: &mut plain_rows::Rows,
    notes: &mut plain_rows::Notes,
    last: &mut [u16; 256],
    depths: &mut [u8; 256],
) -> usize
    requires fitting { Fitting kinds.now operands.now results.now at }
    requires last_value { (last.old ≡ replicate 256 0) × (depths.old ≡ replicate 256 0) }
    ensures { FunctionLaid kinds.now operands.now results.now at
        rows.new notes.new last.new depths.new result }
{
    let count = script_read::low_at(kinds, operands, at, Place::Function);
    let n = count as usize;
    let mut places = [NO_PLACE; 256];
    bind_parameters(kinds, operands, at + 1, count, &mut places, depths);
    let spot = Spot {
        node: at + 1 + n,
        n,
        p: 0,
    };
    let tree = flatten::lay_tree(
        kinds,
        operands,
        results,
        &mut places,
        last,
        rows,
        notes,
        depths,
        spot,
        64,
    );
    tree.after.p
}

// The depths of the functions' results.
pub fn results_of(kinds: &[u8], operands: &[u8], starts: &[usize; 32], functions: usize) -> [u8; 32]
    requires { Translatable kinds.now operands.now functions starts.now }
    ensures { Resulting_by (script kinds.now operands.now functions 0) result }
{
    let mut results = [0u8; 32];
    for i in 0..functions {
        results[i] = script_read::high_at(kinds, operands, starts[i], Place::Function);
    }
    results
}
