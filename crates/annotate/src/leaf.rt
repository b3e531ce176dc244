// A line without trees, walked backwards.
ghost use Rattle.std.specs.Prelude.{◌≡◌, true, ◌+◌, ◌*◌, ◌<◌};
ghost use Rattle.semantics.specs.Borrow.{borrows};
ghost use Rattle.plain_rows.specs.Plain.{plain};
ghost use Rattle.plain_rows.specs.Parts.{depth_in};
ghost use Rattle.plain_rows.specs.Walk.{line_walk};
ghost use Rattle.annotate_rows.specs.Wrote.{Room};
ghost use Rattle.annotate.specs.Walks.{Walks, is_leaf, no_tree};

use annotate_lines::calls::put_call;
use annotate_lines::{put_binary, put_handing, put_unary};
use annotate_marks::{take_handed, take_pair};
use kinds::Atom;
use plain_rows::Line;

// The line at row p: its rows, and the names live before it.
pub fn walk_leaf(
    ks: &mut [u8],
    os: &mut [i64],
    operands: &[u8],
    rows: &plain_rows::Rows,
    notes: &plain_rows::Notes,
    cur: &mut [u16; 256],
    depths: &[u8; 256],
    table: &[[bool; 8]; 32],
    l: Line,
    p: usize,
    at: &mut usize,
    live: &mut [bool; 256],
)
    requires leaf { is_leaf l ≡ true }
    requires row { p < 4096 }
    requires room { Room ks.old os.old at.old }
    ensures { Walks
        (line_walk (plain operands.now rows.now notes.now)
        (borrows table.now) (depth_in depths.now) no_tree p 0 l)
        live.old cur.old ks.old os.old at.old
        live.new cur.new ks.new os.new at.new }
{
    let w = *at;
    match l {
        Line::Unary { name, kind, atom } => {
            *at = put_unary(ks, os, depths, name, kind, atom, live, w);
            take_pair(notes, cur, p, name, atom, Atom::Number(0), live);
        }
        Line::Binary {
            name,
            kind,
            first,
            second,
        } => {
            *at = put_binary(ks, os, depths, name, kind, first, second, live, w);
            take_pair(notes, cur, p, name, first, second, live);
        }
        Line::Call {
            name,
            function,
            count,
        } => {
            *at = put_call(
                ks,
                os,
                depths,
                operands,
                rows,
                table,
                p + 1,
                name,
                function,
                count,
                live,
                w,
            );
            take_handed(operands, rows, notes, cur, p, name, count, live);
        }
        Line::Literal { name, depth, count } => {
            let n = u32::from_le_bytes([name, count, depth, 0]);
            *at = put_handing(
                ks,
                os,
                depths,
                operands,
                rows,
                p + 1,
                name,
                count,
                kinds::LITERAL,
                n,
                live,
                w,
            );
            take_handed(operands, rows, notes, cur, p, name, count, live);
        }
        Line::If { .. } | Line::Loop { .. } => unreachable!(),
    }
}
