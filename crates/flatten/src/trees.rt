// What is laid with trees of its own after its first atoms: a loop and an if.
ghost use Rattle.std.specs.Prelude.{◌≡◌, true, ◌+◌, get_or};
ghost use Rattle.semantics.specs.Syntax.{size};
ghost use Rattle.semantics.specs.Code.{line};
ghost use Rattle.semantics.specs.Normal.{fresh};
ghost use Rattle.plain_rows.specs.Plain.{is_looping, loop_of, loop_size};
ghost use Rattle.flatten_rows.specs.Laid.{meanings, firsts, placed_all};
ghost use Rattle.flatten_rows.specs.Source.{tree_at, if_from, three_after, laid_rows};
ghost use Rattle.flatten_rows.specs.Made.{state, out, Given, Ready, PassReady, loop_line, Adds, Made};

use flatten_rows::{Out, Spot};
use script_read::Node;

// A loop's line after its parts, whose places stand in a table: its row, and its tree, in which the written names of a
// pass mean its new names.
#[cycle(descent)]
pub fn lay_pass(
    kinds: &[u8],
    operands: &[u8],
    results: &[u8; 32],
    places: &mut [u16; 256],
    last: &mut [u16; 256],
    rows: &mut plain_rows::Rows,
    notes: &mut plain_rows::Notes,
    depths: &mut [u8; 256],
    shape: Node,
    spot: Spot,
    atoms: &[u16; 16],
    levels: u64,
) -> Out
    requires kind_value { is_looping shape.kind ≡ true }
    requires given { (Given kinds.now operands.now places.old)
        × (PassReady (λ f. get_or results.now f 0) (meanings operands.now places.old)
        (state rows.old notes.old depths.old last.old) (loop_of shape.kind) shape.low shape.high
        (placed_all operands.now (firsts atoms.now 0 (loop_size (loop_of shape.kind))))
        (tree_at kinds.now operands.now levels spot.node)
        (spot.node + size (tree_at kinds.now operands.now levels spot.node)) spot.n spot.p) }
    ensures value { result ≡ out spot.n
        (spot.node + size (tree_at kinds.now operands.now levels spot.node))
        (spot.n + 1 + loop_size (loop_of shape.kind)
        + fresh (tree_at kinds.now operands.now levels spot.node))
        (spot.p + 1 + loop_size (loop_of shape.kind)
        + laid_rows (tree_at kinds.now operands.now levels spot.node) + 2) }
    ensures adds { Adds operands.now (λ f. get_or results.now f 0)
        (line (loop_line (loop_of shape.kind) shape.low shape.high
        (meanings operands.now places.old) spot.n
        (placed_all operands.now (firsts atoms.now 0 (loop_size (loop_of shape.kind))))
        (tree_at kinds.now operands.now levels spot.node)))
        (state rows.old notes.old depths.old last.old)
        (state rows.new notes.new depths.new last.new)
        spot.p (spot.p + 1 + loop_size (loop_of shape.kind)
        + laid_rows (tree_at kinds.now operands.now levels spot.node) + 2) (levels + 1) }
    ensures places_unchanged { places.new ≡ places.old }
{
    let kind = shape.kind;
    let inner = flatten_rows::open_loop(rows, notes, last, depths, kind, spot, atoms);
    let old = flatten_rows::bind_pass(places, kind, shape.low, shape.high, spot.n);
    let tree = super::lay_tree(
        kinds, operands, results, places, last, rows, notes, depths, inner, levels,
    );
    flatten_rows::unbind_pass(places, kind, shape.low, shape.high, old);
    let depth = flatten_rows::depth_of_loop(depths, kind, atoms[0], tree.place);
    flatten_rows::close_line(notes, depths, spot.n, spot.p, tree, depth)
}

// An if: its guard, its head, and its two trees.
#[cycle(descent)]
pub fn lay_if(
    kinds: &[u8],
    operands: &[u8],
    results: &[u8; 32],
    places: &mut [u16; 256],
    last: &mut [u16; 256],
    rows: &mut plain_rows::Rows,
    notes: &mut plain_rows::Notes,
    depths: &mut [u8; 256],
    spot: Spot,
    levels: u64,
) -> Out
    requires { (Given kinds.now operands.now places.old)
        × (Ready (λ f. get_or results.now f 0) (meanings operands.now places.old)
        (state rows.old notes.old depths.old last.old)
        (if_from (tree_at kinds.now operands.now levels) spot.node)
        (three_after (tree_at kinds.now operands.now levels) spot.node) spot.n spot.p) }
    ensures made { Made operands.now (λ f. get_or results.now f 0)
        (if_from (tree_at kinds.now operands.now levels) spot.node)
        (meanings operands.now places.old)
        (state rows.old notes.old depths.old last.old)
        (state rows.new notes.new depths.new last.new)
        spot.n spot.p (levels + 1)
        (three_after (tree_at kinds.now operands.now levels) spot.node) result }
    ensures places_unchanged { places.new ≡ places.old }
{
    let guard = super::lay_part(
        kinds, operands, results, places, last, rows, notes, depths, spot, levels,
    );
    let first = flatten_rows::open_if(rows, notes, last, guard);
    let own = super::lay_tree(
        kinds, operands, results, places, last, rows, notes, depths, first, levels,
    );
    flatten_rows::put_middle(notes, first.p, own.after.p);
    let other = super::lay_tree(
        kinds, operands, results, places, last, rows, notes, depths, own.after, levels,
    );
    let depth = flatten_rows::depth_of(depths, own.place);
    flatten_rows::close_line(notes, depths, guard.after.n, guard.after.p, other, depth)
}
