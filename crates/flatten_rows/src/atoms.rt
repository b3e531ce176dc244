// Atoms, which need no descent.
ghost use Rattle.std.specs.Prelude.{IfSome};
ghost use Rattle.flatten_rows.specs.Source.{tree_at};
ghost use Rattle.flatten_rows.specs.Made.{Given, AtomPlaced};

use script_read::Atomic;

// The place that no atom has. It is a number and no Option: a table keeps a place in two bytes, and `nowhere` and
// `Unbound` state it.
pub const NO_PLACE: u16 = 65535;

// The place of the atom at a node: of its number, or what its name means; none where no atom is found.
pub fn atom_place(
    kinds: &[u8],
    operands: &[u8],
    places: &[u16; 256],
    node: usize,
    levels: u64,
) -> Option<u16>
    requires { Given kinds.now operands.now places.now }
    ensures { IfSome result (λ place. AtomPlaced operands.now places.now
        (tree_at kinds.now operands.now levels node) place) }
{
    if levels == 0 {
        return None;
    }
    match script_read::atom_at(kinds, operands, node) {
        Atomic::Number => Some((256 + node) as u16),
        Atomic::Name(x) => Some(places[x as usize]),
        Atomic::Other => None,
    }
}
