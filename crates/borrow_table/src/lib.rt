// The table of borrowed parameters of a script.
#![tactic(auto)]

mod rounds;
mod scan;

ghost use Rattle.std.specs.Prelude.{◌≡◌, length};
ghost use Rattle.semantics.specs.File.{script};
ghost use Rattle.flatten_functions.specs.Script.{Translatable, Resulting_by};
ghost use Rattle.borrow_table.specs.Table.{Borrowed_by};

use scan::Links;

// The table of borrowed parameters. Each function but main is laid in two arrays, whatever they held, and read once;
// what they hand over and pass on is then worked out.
pub fn borrow_table(
    kinds: &[u8],
    operands: &[u8],
    starts: &[usize; 32],
    functions: usize,
    results: &[u8; 32],
    rows: &mut plain_rows::Rows,
    notes: &mut plain_rows::Notes,
) -> [[bool; 8]; 32]
    requires translatable { Translatable kinds.now operands.now functions starts.now }
    requires resulting_by { Resulting_by (script kinds.now operands.now functions 0) results.now }
    ensures borrowed_by { Borrowed_by (script kinds.now operands.now functions 0) result }
    ensures rows_len_2 { (length rows.new ≡ 2048) × (length notes.new ≡ 2048) }
{
    let mut first = [[true; 8]; 32];
    first[0] = [false; 8];
    if functions < 2 {
        return first;
    }
    let mut links = Links {
        list: [0; 1024],
        count: 0,
    };
    for f in 1..functions {
        let mut last = [0u16; 256];
        let mut depths = [0u8; 256];
        let q = flatten_functions::lay_function(
            kinds,
            operands,
            results,
            starts[f],
            rows,
            notes,
            &mut last,
            &mut depths,
        );
        first[f] = scan::gather(rows, q, f, &mut links);
    }
    rounds::work_out(first, &links, notes)
}
