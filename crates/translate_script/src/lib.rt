// The code of a script, written backwards from its last function to its first, and the depths of its names.
#![tactic(auto)]

ghost use Rattle.std.specs.Prelude.{◌≡◌, ◌+◌, ◌*◌, ◌<◌, ◌≤◌, length, get_or, replicate};
ghost use Rattle.semantics.specs.File.{script};
ghost use Rattle.semantics.specs.Annotate.{parameter_rows};
ghost use Rattle.script_read.specs.Told.{Parts};
ghost use Rattle.plain_rows.specs.Parts.{depth_in};
ghost use Rattle.annotate_rows.specs.Wrote.{Wrote, Room};
ghost use Rattle.flatten_functions.specs.Read.{parameters_at, read_function, depths_by, Fitting};
ghost use Rattle.flatten_functions.specs.Script.{Translatable};
ghost use Rattle.translate_script.specs.Rows.{owned_of, head_rows, rows_by};
ghost use Rattle.translate_script.specs.Script.{Coded_by};
ghost use Rattle.translate_script.specs.Depths.{Noted, Depths_by};
ghost use Rattle.translate_script.specs.Places.{Places_by};

use script_read::Place;

// The rows of the parameters from a node on.
fn put_parameters(
    ks: &mut [u8],
    os: &mut [i64],
    kinds: &[u8],
    operands: &[u8],
    at: usize,
    count: u8,
    mut w: usize,
) -> usize
    requires { Parts kinds.now operands.now × ((at ≤ 1024) × ((count ≤ 8) × Room ks.old os.old w)) }
    ensures { Wrote ks.old os.old ks.new os.new w result
        (parameter_rows (parameters_at kinds.now operands.now at count) 0) }
{
    for i in (0..count as usize).rev() {
        let d = script_read::high_at(kinds, operands, at + i, Place::Parameter);
        w = annotate_rows::put_row(
            ks,
            os,
            w,
            kinds::PARAMETER,
            u32::from_le_bytes([i as u8, d, 0, 0]),
        );
    }
    w
}

// The rows of the function at a node before those of its tree.
fn put_head(
    ks: &mut [u8],
    os: &mut [i64],
    kinds: &[u8],
    operands: &[u8],
    at: usize,
    w: usize,
) -> usize
    requires { Parts kinds.now operands.now × ((at < 1024) × Room ks.old os.old w) }
    ensures { Wrote ks.old os.old ks.new os.new w result
        (head_rows (read_function kinds.now operands.now at)) }
{
    let count = script_read::low_at(kinds, operands, at, Place::Function);
    let result = script_read::high_at(kinds, operands, at, Place::Function);
    let v = put_parameters(ks, os, kinds, operands, at + 1, count, w);
    let n = u32::from_le_bytes([count, result, 0, 0]);
    annotate_rows::put_row(ks, os, v, kinds::FUNCTION, n)
}

// The depths of the names of function f, but 0 for those of its n parameters that it borrows.
fn owned_depths(depths: &[u8; 256], borrowing: &[[bool; 8]; 32], f: usize, n: usize) -> [u8; 256]
    requires { (f < 32) × (n ≤ 8) }
    ensures { depth_in result ≡ owned_of borrowing.now f n (depth_in depths.now) }
{
    let mut owned = *depths;
    for i in 0..n {
        if plain_rows::is_borrowed(borrowing, f as u8, i) {
            owned[i] = 0;
        }
    }
    owned
}

// Writes the rows of function f, at a node, before place w, and the depths of its names in a table of zeros. Its plain
// code goes into two arrays, whatever they held.
fn function_code(
    kinds: &[u8],
    operands: &[u8],
    results: &[u8; 32],
    borrowing: &[[bool; 8]; 32],
    f: usize,
    at: usize,
    rows: &mut plain_rows::Rows,
    notes: &mut plain_rows::Notes,
    depths: &mut [u8; 256],
    ks: &mut [u8],
    os: &mut [i64],
    w: usize,
) -> usize
    requires fitting { Fitting kinds.now operands.now results.now at × (Room ks.old os.old w × (f < 32)) }
    requires depths_value { depths.old ≡ replicate 256 0 }
    ensures wrote { Wrote ks.old os.old ks.new os.new w result
        (rows_by (λ f. get_or results.now f 0) borrowing.now f
        (read_function kinds.now operands.now at)) }
    ensures depths_after { depth_in depths.new ≡ depths_by (λ f. get_or results.now f 0)
        (read_function kinds.now operands.now at) }
    ensures rows_len_2 { (length rows.new ≡ 2048) × (length notes.new ≡ 2048) }
{
    let count = script_read::low_at(kinds, operands, at, Place::Function);
    let n = count as usize;
    let mut last = [0u16; 256];
    let p = flatten_functions::lay_function(
        kinds, operands, results, at, rows, notes, &mut last, depths,
    );
    let owned = owned_depths(depths, borrowing, f, n);
    let mut v = w;
    let live = annotate::walk_tree(
        ks,
        os,
        operands,
        rows,
        notes,
        &mut last,
        &owned,
        borrowing,
        p - 2,
        65,
        &mut v,
        [false; 256],
    );
    let all = [true; 256];
    let u = annotate_rows::put_releases(ks, os, &owned, n, &all, &live, v);
    put_head(ks, os, kinds, operands, at, u)
}

// Notes the depths of the names of function f in a table that has 256 bytes for each of 32 functions; a shorter one is
// left as it is.
fn note_depths(table: &mut [u8], f: usize, depths: &[u8; 256])
    requires { f < 32 }
    ensures { Noted f depths.now table.old table.new }
{
    if 8192 <= table.len() {
        let first = 256 * f;
        table[first..first + 256].copy_from_slice(depths);
    }
}

// Writes the code of a script before place w of the two code arrays, and the depths of its names in a table; the answer
// is the position of the first row, if the code is not too long. Before, `starts` has where the functions stand in the
// file; after, the places of their first rows.
pub fn script_code(
    kinds: &[u8],
    operands: &[u8],
    starts: &mut [usize; 32],
    functions: usize,
    table: &mut [u8],
    ks: &mut [u8],
    os: &mut [i64],
    w: usize,
) -> Option<usize>
    requires { Translatable kinds.now operands.now functions starts.old × Room ks.old os.old w }
    ensures coded_by { Coded_by (script kinds.now operands.now functions 0)
        ks.old os.old ks.new os.new w result }
    ensures depths_by { Depths_by (script kinds.now operands.now functions 0)
        table.old table.new }
    ensures places_by { Places_by (script kinds.now operands.now functions 0)
        w starts.old starts.new }
{
    let results = flatten_functions::results_of(kinds, operands, starts, functions);
    let mut rows = [0u32; plain_rows::ROWS];
    let mut notes = [0u16; plain_rows::ROWS];
    let borrowing = borrow_table::borrow_table(
        kinds, operands, starts, functions, &results, &mut rows, &mut notes,
    );
    let mut v = w;
    for i in (0..functions).rev() {
        let mut depths = [0u8; 256];
        v = function_code(
            kinds,
            operands,
            &results,
            &borrowing,
            i,
            starts[i],
            &mut rows,
            &mut notes,
            &mut depths,
            ks,
            os,
            v,
        );
        starts[i] = v;
        note_depths(table, i, &depths);
    }
    v.checked_sub(1)
}
