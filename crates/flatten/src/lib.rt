// The A-normal form: a descent over the nodes that lays plain rows, notes and the depths of new names.
// The table of places is changed at a let and a loop, and put back after it.
#![tactic(auto)]

mod parts;
mod trees;

ghost use Rattle.std.specs.Prelude.{◌≡◌, ◌+◌, get_or};
ghost use Rattle.semantics.specs.Syntax.{size};
ghost use Rattle.flatten_rows.specs.Laid.{meanings};
ghost use Rattle.flatten_rows.specs.Source.{tree_at, compound, let_from, two_after, NodeFits};
ghost use Rattle.flatten_rows.specs.Made.{state, Given, Ready, Compounded, Made, TreeMade};

use flatten_rows::atoms::NO_PLACE;
use flatten_rows::{Head, Out, Spot};
use script_read::{Node, Place};

// The tree at a node, with so many levels left.
#[cycle(descent)]
pub fn lay_part(
    kinds: &[u8],
    operands: &[u8],
    results: &[u8; 32],
    places: &mut [u16; 256],
    last: &mut [u16; 256],
    rows: &mut plain_rows::Rows,
    notes: &mut plain_rows::Notes,
    depths: &mut [u8; 256],
    spot: Spot,
    levels: u64,
) -> Out
    requires { (Given kinds.now operands.now places.old)
        × (Ready (λ f. get_or results.now f 0) (meanings operands.now places.old)
        (state rows.old notes.old depths.old last.old)
        ((tree_at kinds.now operands.now levels) spot.node)
        (spot.node + size ((tree_at kinds.now operands.now levels) spot.node)) spot.n spot.p) }
    ensures made { Made operands.now (λ f. get_or results.now f 0)
        ((tree_at kinds.now operands.now levels) spot.node)
        (meanings operands.now places.old)
        (state rows.old notes.old depths.old last.old)
        (state rows.new notes.new depths.new last.new)
        spot.n spot.p levels
        (spot.node + size ((tree_at kinds.now operands.now levels) spot.node)) result }
    ensures places_unchanged { places.new ≡ places.old }
{
    if levels == 0 {
        return parts::atom_out(NO_PLACE, spot);
    }
    match script_read::node_at(kinds, operands, spot.node, Place::Part) {
        Ok(shape) => lay_node(
            kinds, operands, results, places, last, rows, notes, depths, shape, spot, levels,
        ),
        Err(_) => parts::atom_out(NO_PLACE, spot),
    }
}

// The tree at a node that fits: an atom, a let, an if, or what has a line of its own after its parts.
#[cycle(descent)]
fn lay_node(
    kinds: &[u8],
    operands: &[u8],
    results: &[u8; 32],
    places: &mut [u16; 256],
    last: &mut [u16; 256],
    rows: &mut plain_rows::Rows,
    notes: &mut plain_rows::Notes,
    depths: &mut [u8; 256],
    shape: Node,
    spot: Spot,
    levels: u64,
) -> Out
    requires node_fits { NodeFits kinds.now operands.now levels spot.node shape.kind shape.low shape.high }
    requires given { (Given kinds.now operands.now places.old)
        × (Ready (λ f. get_or results.now f 0) (meanings operands.now places.old)
        (state rows.old notes.old depths.old last.old)
        ((tree_at kinds.now operands.now levels) spot.node)
        (spot.node + size ((tree_at kinds.now operands.now levels) spot.node)) spot.n spot.p) }
    ensures made { Made operands.now (λ f. get_or results.now f 0)
        ((tree_at kinds.now operands.now levels) spot.node)
        (meanings operands.now places.old)
        (state rows.old notes.old depths.old last.old)
        (state rows.new notes.new depths.new last.new)
        spot.n spot.p levels
        (spot.node + size ((tree_at kinds.now operands.now levels) spot.node)) result }
    ensures places_unchanged { places.new ≡ places.old }
{
    let inner = Spot {
        node: spot.node + 1,
        ..spot
    };
    match shape.kind {
        kinds::NUMBER => parts::atom_out((256 + spot.node) as u16, spot),
        kinds::NAME => parts::atom_out(places[shape.low as usize], spot),
        kinds::LET => lay_let(
            kinds,
            operands,
            results,
            places,
            last,
            rows,
            notes,
            depths,
            shape.low,
            inner,
            levels - 1,
        ),
        kinds::IF => trees::lay_if(
            kinds,
            operands,
            results,
            places,
            last,
            rows,
            notes,
            depths,
            inner,
            levels - 1,
        ),
        _ => lay_compound(
            kinds,
            operands,
            results,
            places,
            last,
            rows,
            notes,
            depths,
            shape,
            spot,
            levels - 1,
        ),
    }
}

// A leaf or a loop, at whose node it stands: its parts, and then its line.
#[cycle(descent)]
fn lay_compound(
    kinds: &[u8],
    operands: &[u8],
    results: &[u8; 32],
    places: &mut [u16; 256],
    last: &mut [u16; 256],
    rows: &mut plain_rows::Rows,
    notes: &mut plain_rows::Notes,
    depths: &mut [u8; 256],
    shape: Node,
    spot: Spot,
    levels: u64,
) -> Out
    requires compounded { Compounded shape.kind shape.low shape.high }
    requires given { (Given kinds.now operands.now places.old)
        × (Ready (λ f. get_or results.now f 0) (meanings operands.now places.old)
        (state rows.old notes.old depths.old last.old)
        (compound (tree_at kinds.now operands.now levels) shape.kind shape.low shape.high (spot.node + 1))
        (spot.node + size (compound (tree_at kinds.now operands.now levels) shape.kind shape.low
        shape.high (spot.node + 1))) spot.n spot.p) }
    ensures made { Made operands.now (λ f. get_or results.now f 0)
        (compound (tree_at kinds.now operands.now levels) shape.kind shape.low shape.high
        (spot.node + 1))
        (meanings operands.now places.old)
        (state rows.old notes.old depths.old last.old)
        (state rows.new notes.new depths.new last.new)
        spot.n spot.p (levels + 1)
        (spot.node + size (compound (tree_at kinds.now operands.now levels) shape.kind
        shape.low shape.high (spot.node + 1))) result }
    ensures places_unchanged { places.new ≡ places.old }
{
    let count = parts::parts_before(shape.kind, shape.low, shape.high);
    let mut atoms = [0u16; 16];
    let mut at = Spot {
        node: spot.node + 1,
        ..spot
    };
    for i in 0..count {
        let part = match flatten_rows::atoms::atom_place(kinds, operands, places, at.node, levels) {
            Some(place) => parts::atom_out(place, at),
            None => lay_part(
                kinds, operands, results, places, last, rows, notes, depths, at, levels,
            ),
        };
        atoms[i] = part.place;
        at = part.after;
    }
    if script_read::is_loop(shape.kind) {
        trees::lay_pass(
            kinds, operands, results, places, last, rows, notes, depths, shape, at, &atoms, levels,
        )
    } else {
        parts::lay_leaf(results, last, rows, notes, depths, shape, at, &atoms)
    }
}

// A let: its first part is laid once, and its name then means that part's atom.
#[cycle(descent)]
fn lay_let(
    kinds: &[u8],
    operands: &[u8],
    results: &[u8; 32],
    places: &mut [u16; 256],
    last: &mut [u16; 256],
    rows: &mut plain_rows::Rows,
    notes: &mut plain_rows::Notes,
    depths: &mut [u8; 256],
    x: u8,
    spot: Spot,
    levels: u64,
) -> Out
    requires { (Given kinds.now operands.now places.old)
        × (Ready (λ f. get_or results.now f 0) (meanings operands.now places.old)
        (state rows.old notes.old depths.old last.old)
        (let_from (tree_at kinds.now operands.now levels) x spot.node)
        (two_after (tree_at kinds.now operands.now levels) spot.node) spot.n spot.p) }
    ensures made { Made operands.now (λ f. get_or results.now f 0)
        (let_from (tree_at kinds.now operands.now levels) x spot.node)
        (meanings operands.now places.old)
        (state rows.old notes.old depths.old last.old)
        (state rows.new notes.new depths.new last.new)
        spot.n spot.p (levels + 1)
        (two_after (tree_at kinds.now operands.now levels) spot.node) result }
    ensures places_unchanged { places.new ≡ places.old }
{
    let first = lay_part(
        kinds, operands, results, places, last, rows, notes, depths, spot, levels,
    );
    let i = x as usize;
    let old = places[i];
    places[i] = first.place;
    let second = lay_part(
        kinds,
        operands,
        results,
        places,
        last,
        rows,
        notes,
        depths,
        first.after,
        levels,
    );
    places[i] = old;
    second
}

// A tree of its own from a row on, closed by its end line.
#[cycle(descent)]
pub fn lay_tree(
    kinds: &[u8],
    operands: &[u8],
    results: &[u8; 32],
    places: &mut [u16; 256],
    last: &mut [u16; 256],
    rows: &mut plain_rows::Rows,
    notes: &mut plain_rows::Notes,
    depths: &mut [u8; 256],
    spot: Spot,
    levels: u64,
) -> Out
    requires { (Given kinds.now operands.now places.old)
        × (Ready (λ f. get_or results.now f 0) (meanings operands.now places.old)
        (state rows.old notes.old depths.old last.old)
        ((tree_at kinds.now operands.now levels) spot.node)
        (spot.node + size ((tree_at kinds.now operands.now levels) spot.node)) spot.n spot.p) }
    ensures tree_made { TreeMade operands.now (λ f. get_or results.now f 0)
        ((tree_at kinds.now operands.now levels) spot.node)
        (meanings operands.now places.old)
        (state rows.old notes.old depths.old last.old)
        (state rows.new notes.new depths.new last.new)
        spot.n spot.p levels
        (spot.node + size ((tree_at kinds.now operands.now levels) spot.node)) result }
    ensures places_unchanged { places.new ≡ places.old }
{
    let r = lay_part(
        kinds, operands, results, places, last, rows, notes, depths, spot, levels,
    );
    let head = Head {
        kind: kinds::END,
        name: 0,
        second: 0,
        third: 0,
    };
    let p = r.after.p;
    flatten_rows::lay_head(rows, notes, last, p, head, r.place);
    Out {
        place: r.place,
        after: Spot {
            p: p + 2,
            ..r.after
        },
    }
}
