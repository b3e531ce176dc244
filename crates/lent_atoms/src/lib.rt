// What a line of lent code does to the counts of references: its atoms are handed over or read, its name holds one.
#![tactic(auto)]

ghost use Rattle.std.specs.Prelude.{◌≡◌, [], ◌∷◌, ◌<◌, length, get_or};
ghost use Rattle.semantics.specs.Annotate.{is_array};
ghost use Rattle.semantics_lent.specs.Hold.{hold_also, spend, readable};
ghost use Rattle.lent_counts.specs.Counted.{counted, set_of};
ghost use Rattle.lent_atoms.specs.Told.{meant, depths, told};

use kinds::Atom;

// Whether a name of function f is an array.
#[tactic(auto, using(crate::proofs::Laws::depth_known))]
pub fn is_array(table: &[u8], f: u8, x: u8) -> bool
    ensures { result ≡ is_array (depths table.now f) x }
{
    0 < machine_code::depth_in(table, f, x)
}

// A name holds one more, if it is an array.
#[tactic(auto, using(crate::proofs::Laws::gain_laws))]
pub fn gain(table: &[u8], f: u8, x: u8, holds: &mut [u16; 256])
    requires { get_or holds.old x 0 < 65535 }
    ensures { (counted holds.new
        ≡ hold_also (depths table.now f) x (counted holds.old))
        × (length holds.new ≡ 256) }
{
    if is_array(table, f, x) {
        holds[x as usize] += 1;
    }
}

// An atom is handed over: whether it may be.
#[tactic(auto, using(crate::proofs::Laws::spend_laws))]
pub fn hand_over(table: &[u8], f: u8, a: Atom, holds: &mut [u16; 256]) -> bool
    ensures { (spend (depths table.now f) (meant a ∷ []) (counted holds.old)
        ≡ told result holds.new) × (length holds.new ≡ 256) }
{
    if let Atom::Name(x) = a
        && is_array(table, f, x)
    {
        let n = holds[x as usize];
        if n == 0 {
            return false;
        }
        holds[x as usize] = n - 1;
    }
    true
}

// Whether an atom may be read.
pub fn may_read(table: &[u8], f: u8, lent: &[bool; 256], holds: &[u16; 256], a: Atom) -> bool
    ensures { result ≡ readable (depths table.now f) (set_of lent.now)
        (counted holds.now) (meant a ∷ []) }
{
    match a {
        Atom::Number(_) => true,
        Atom::Name(x) => !is_array(table, f, x) || lent[x as usize] || 0 < holds[x as usize],
    }
}
