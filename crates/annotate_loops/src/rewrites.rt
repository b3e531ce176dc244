// Maps that rewrite their array: the line that is written for a loop, read from the live names and the last uses.
ghost use Rattle.std.specs.Prelude.{◌≡◌, [], ◌∷◌, ◌≤◌};
ghost use Rattle.semantics.specs.Kinds.{loop_kind};
ghost use Rattle.plain_rows.specs.Plain.{set_of, meant, loop_of};
ghost use Rattle.plain_rows.specs.Parts.{below, depth_in, is_rewritten, written_as};
ghost use Rattle.plain_rows.specs.Marks.{marks_of};
ghost use Rattle.plain_rows.specs.Walk.{since};
ghost use Rattle.annotate_loops.specs.Loops.{written_line};

use annotate_rows::depth_at;
use annotate_rows::uses::is_since;
use kinds::Atom;
use plain_rows::Line;

// Whether a name is below x and used past a row.
fn is_outer(cur: &[u16; 256], row: usize, x: u8, y: u8) -> bool
    ensures { result ≡ below x (since row (marks_of cur.now)) y }
{
    y < x && is_since(cur, row, y as usize)
}

// Whether a map that binds x rewrites its array: numbers, for numbers, neither live afterwards nor used in its tree.
fn is_rewritten(
    depths: &[u8; 256],
    cur: &[u16; 256],
    row: usize,
    x: u8,
    array: Atom,
    live: &[bool; 256],
) -> bool
    ensures { result ≡ is_rewritten (depth_in depths.now) x (meant array ∷ [])
        (below x (since row (marks_of cur.now))) (set_of live.now) }
{
    match array {
        Atom::Number(_) => false,
        Atom::Name(y) => {
            depth_at(depths, y as usize) == 1
                && depth_at(depths, x as usize) == 1
                && !live[y as usize]
                && !is_outer(cur, row, x, y)
        }
    }
}

// The kind that is written for a loop that binds x, whose tree's uses lie past a row.
fn written_kind(
    depths: &[u8; 256],
    cur: &[u16; 256],
    row: usize,
    x: u8,
    kind: u8,
    a: Atom,
    live: &[bool; 256],
) -> u8
    ensures { result ≡ loop_kind (written_as (depth_in depths.now) x (loop_of kind) (meant a ∷ [])
        (below x (since row (marks_of cur.now))) (set_of live.now)) }
{
    match kind {
        kinds::FILTER | kinds::REDUCE | kinds::REWRITE => kind,
        _ if is_rewritten(depths, cur, row, x, a, live) => kinds::REWRITE,
        _ => kinds::MAP,
    }
}

// The line that is written for the loop at row p.
pub fn written_line(
    depths: &[u8; 256],
    cur: &[u16; 256],
    l: Line,
    p: usize,
    live: &[bool; 256],
) -> Line
    requires { p ≤ 4096 }
    ensures { result ≡ written_line (depth_in depths.now) p (marks_of cur.now)
        (set_of live.now) l }
{
    match l {
        Line::Loop {
            name,
            kind,
            first_name,
            second_name,
            first,
            second,
        } => {
            let row = p + 1 + plain_rows::loop_size(kind);
            let written = written_kind(depths, cur, row, name, kind, first, live);
            Line::Loop {
                name,
                kind: written,
                first_name,
                second_name,
                first,
                second,
            }
        }
        _ => l,
    }
}
