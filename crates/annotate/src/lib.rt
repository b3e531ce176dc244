// The annotation: one walk of the plain code backwards, tree by tree, that writes annotated rows straight into the lent
// arrays. `cur` holds the row of each name's last use before the present one: what a tree uses is read from it.
#![tactic(auto, using(annotate_rows::proofs::Rows::lower))]

ghost use Rattle.std.specs.Prelude.{◌≡◌, true, ◌+◌, ◌-◌, ◌<◌, ◌≤◌};
ghost use Rattle.semantics.specs.Borrow.{borrows};
ghost use Rattle.plain_rows.specs.Plain.{plain, meant};
ghost use Rattle.plain_rows.specs.Parts.{depth_in};
ghost use Rattle.plain_rows.specs.Walk.{tree_walk, if_trees};
ghost use Rattle.annotate_rows.specs.Wrote.{Room};
ghost use Rattle.annotate.specs.Walks.{Walks, is_loop, loop_tree_of};

use annotate_lines::put_end;
use annotate_loops::rewrites::written_line;
use annotate_loops::{close_loop, open_loop, retain_handed, second_of};
use annotate_marks::{less_two, take_use, then_end_at};
use annotate_rows::uses::{pass_names, put_used};
use annotate_rows::{put_atom, put_release, put_releases, put_row};
use kinds::Atom;
use leaf::walk_leaf;
use plain_rows::Line;

mod leaf;

// A line stands from row p to before row q, in a tree with so many levels of trees below.
#[derive(Clone, Copy)]
struct Span {
    p: usize,
    q: usize,
    levels: u64,
}

// The tree whose end line is at row e: its rows, and the names live before it.
#[cycle(walk)]
pub fn walk_tree(
    ks: &mut [u8],
    os: &mut [i64],
    operands: &[u8],
    rows: &plain_rows::Rows,
    notes: &plain_rows::Notes,
    cur: &mut [u16; 256],
    depths: &[u8; 256],
    table: &[[bool; 8]; 32],
    e: usize,
    levels: u64,
    at: &mut usize,
    after: [bool; 256],
) -> [bool; 256]
    requires { (e ≤ 4096) × Room ks.old os.old at.old }
    ensures { Walks
        (tree_walk (plain operands.now rows.now notes.now)
        (borrows table.now) (depth_in depths.now) levels e)
        after cur.old ks.old os.old at.old
        result cur.new ks.new os.new at.new }
{
    let a = plain_rows::atom_of(operands, plain_rows::row_at(rows, e + 1));
    let mut live = after;
    *at = put_end(ks, os, depths, a, &live, *at);
    take_use(notes, cur, e + 1, a, &mut live);
    if levels == 0 {
        return live;
    }
    let mut q = e;
    'lines: for _ in 0..4096_usize {
        let p = plain_rows::note_at(notes, q);
        if q <= p {
            break;
        }
        let here = Span {
            p,
            q,
            levels: levels - 1,
        };
        let l = plain_rows::line_at(operands, rows, p);
        match l {
            Line::If { name, guard } => {
                *at = put_release(ks, os, depths, name, &live, *at);
                live[name as usize] = false;
                walk_if(
                    ks, os, operands, rows, notes, cur, depths, table, name, guard, here, at,
                    &mut live,
                );
            }
            Line::Loop { .. } => {
                let written = written_line(depths, cur, l, p, &live);
                *at = close_loop(ks, os, depths, cur, written, p, &live, *at);
                walk_loop(
                    ks, os, operands, rows, notes, cur, depths, table, written, here, at, &mut live,
                );
            }
            _ => walk_leaf(
                ks, os, operands, rows, notes, cur, depths, table, l, p, at, &mut live,
            ),
        }
        q = p;
    }
    live
}

// An if's trees, its second and its first, and its own rows. A branch opens by releasing what only the other one uses.
#[cycle(walk)]
fn walk_if(
    ks: &mut [u8],
    os: &mut [i64],
    operands: &[u8],
    rows: &plain_rows::Rows,
    notes: &plain_rows::Notes,
    cur: &mut [u16; 256],
    depths: &[u8; 256],
    table: &[[bool; 8]; 32],
    x: u8,
    g: Atom,
    here: Span,
    at: &mut usize,
    live: &mut [bool; 256],
)
    requires first { here.p < 4096 }
    requires last { here.q ≤ 4096 }
    requires room { Room ks.old os.old at.old }
    ensures { Walks
        (if_trees (plain operands.now rows.now notes.now)
        (borrows table.now) (depth_in depths.now)
        (tree_walk (plain operands.now rows.now notes.now)
        (borrows table.now) (depth_in depths.now) here.levels) here.p here.q x (meant g))
        live.old cur.old ks.old os.old at.old
        live.new cur.new ks.new os.new at.new }
{
    let Span { p, q, levels } = here;
    let n = x as usize;
    let second = walk_tree(
        ks,
        os,
        operands,
        rows,
        notes,
        cur,
        depths,
        table,
        less_two(q),
        levels,
        at,
        *live,
    );
    *at = put_used(ks, os, depths, cur, p + 2, n, Atom::Number(0), &second, *at);
    let first = walk_tree(
        ks,
        os,
        operands,
        rows,
        notes,
        cur,
        depths,
        table,
        then_end_at(notes, p),
        levels,
        at,
        *live,
    );
    let opened = put_releases(ks, os, depths, n, &second, &first, *at);
    let guarded = put_atom(ks, os, opened, g);
    *at = put_row(ks, os, guarded, kinds::IF, x as u32);
    *live = first;
    plain_rows::join(live, &second);
    take_use(notes, cur, p + 1, g, live);
}

// A loop's tree and its own rows. Another pass may come, so what the tree uses from outside is live after it.
#[cycle(walk)]
fn walk_loop(
    ks: &mut [u8],
    os: &mut [i64],
    operands: &[u8],
    rows: &plain_rows::Rows,
    notes: &plain_rows::Notes,
    cur: &mut [u16; 256],
    depths: &[u8; 256],
    table: &[[bool; 8]; 32],
    l: Line,
    here: Span,
    at: &mut usize,
    live: &mut [bool; 256],
)
    requires line { is_loop l ≡ true }
    requires first { here.p < 4096 }
    requires last { here.q ≤ 4096 }
    requires room { Room ks.old os.old at.old }
    ensures { Walks
        (loop_tree_of (plain operands.now rows.now notes.now)
        (borrows table.now) (depth_in depths.now)
        (tree_walk (plain operands.now rows.now notes.now)
        (borrows table.now) (depth_in depths.now) here.levels) here.p here.q l)
        live.old cur.old ks.old os.old at.old
        live.new cur.new ks.new os.new at.new }
{
    let Line::Loop {
        name,
        kind,
        first,
        second,
        ..
    } = l
    else {
        unreachable!()
    };
    let Span { p, q, levels } = here;
    let row = p + 1 + plain_rows::loop_size(kind);
    pass_names(cur, row, name, live);
    let pass = *live;
    let before = walk_tree(
        ks,
        os,
        operands,
        rows,
        notes,
        cur,
        depths,
        table,
        less_two(q),
        levels,
        at,
        pass,
    );
    let opened = open_loop(ks, os, depths, l, &before, *at);
    take_use(notes, cur, p + 2, second_of(kind, second), live);
    *at = retain_handed(ks, os, depths, kind, first, live, opened);
    take_use(notes, cur, p + 1, first, live);
}
