// How many parts a node has, and what is laid without a descent: an atom and a leaf's line.
ghost use Rattle.std.specs.Prelude.{◌≡◌, ◌+◌, ◌<◌, ◌≤◌, get_or, set};
ghost use Rattle.semantics.specs.File.{part_count};
ghost use Rattle.plain_rows.specs.Plain.{packed_row};
ghost use Rattle.flatten_rows.specs.Laid.{noted, LineLaid, firsts, place_depth, line_depth};
ghost use Rattle.flatten_rows.specs.Source.{parts_before, second_part};
ghost use Rattle.flatten_rows.specs.Made.{out};

use flatten_rows::{Head, Out, Spot};
use script_read::Node;

// The second number of a line: a call's function, a literal's element depth.
fn second_part(kind: u8, low: u8, high: u8) -> u8
    ensures { result ≡ second_part kind low high }
{
    match kind {
        kinds::CALL => low,
        kinds::LITERAL => high,
        _ => 0,
    }
}

// How many parts a node has before its tree, if it is a loop's, or all in all.
pub fn parts_before(kind: u8, low: u8, high: u8) -> usize
    ensures { result ≡ parts_before kind low high }
{
    if script_read::is_loop(kind) {
        plain_rows::loop_size(kind)
    } else {
        script_read::parts_of(kind, low, high) as usize
    }
}

// An atom that is one node and has no lines.
pub fn atom_out(place: u16, spot: Spot) -> Out
    requires { spot.node < 1024 }
    ensures { result ≡ out place (spot.node + 1) spot.n spot.p }
{
    Out {
        place,
        after: Spot {
            node: spot.node + 1,
            ..spot
        },
    }
}

// A leaf's line after its parts, whose places stand in a table.
pub fn lay_leaf(
    results: &[u8; 32],
    last: &mut [u16; 256],
    rows: &mut plain_rows::Rows,
    notes: &mut plain_rows::Notes,
    depths: &mut [u8; 256],
    shape: Node,
    spot: Spot,
    atoms: &[u16; 16],
) -> Out
    requires { ((spot.n < 256) × (spot.p + 1 + part_count shape.kind shape.low shape.high < 2048))
        × ((part_count shape.kind shape.low shape.high ≤ 16)
        × ((second_part shape.kind shape.low shape.high < 32)
        × (shape.kind ≡ 18 → place_depth depths.old (get_or atoms.now 1 0) ≤ 3))) }
    ensures value { (result ≡ out spot.n spot.node (spot.n + 1)
        (spot.p + 1 + part_count shape.kind shape.low shape.high))
        × (notes.new ≡ set (noted notes.old last.old (spot.p + 1)
        (firsts atoms.now 0 (part_count shape.kind shape.low shape.high))) result.after.p spot.p) }
    ensures line_laid { LineLaid rows.old notes.old last.old rows.new
        (noted notes.old last.old (spot.p + 1)
        (firsts atoms.now 0 (part_count shape.kind shape.low shape.high))) last.new
        spot.p (packed_row shape.kind spot.n (second_part shape.kind shape.low shape.high)
        (part_count shape.kind shape.low shape.high))
        (firsts atoms.now 0 (part_count shape.kind shape.low shape.high)) }
    ensures depths_after { depths.new ≡ set depths.old spot.n
        (line_depth results.now depths.old shape.kind
        (second_part shape.kind shape.low shape.high) (get_or atoms.now 0 0)
        (get_or atoms.now 1 0)) }
{
    let kind = shape.kind;
    let n = spot.n;
    let second = second_part(kind, shape.low, shape.high);
    let third = script_read::parts_of(kind, shape.low, shape.high);
    depths[n] = flatten_rows::depth_of_line(results, depths, kind, second, atoms);
    let head = Head {
        kind,
        name: n as u8,
        second,
        third,
    };
    let end = flatten_rows::lay_line(rows, notes, last, spot.p, head, third as usize, atoms);
    Out {
        place: n as u16,
        after: Spot {
            node: spot.node,
            n: n + 1,
            p: end,
        },
    }
}
