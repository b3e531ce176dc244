// The atoms of a call or a literal from a line on: some are handed over, and the others are read.
ghost use Rattle.std.specs.Prelude.{◌≡◌, not, ◌<◌, length};
ghost use Rattle.semantics.specs.Kinds.{picked};
ghost use Rattle.semantics.specs.Borrow.{borrows};
ghost use Rattle.semantics_lent.specs.Hold.{spend, readable};
ghost use Rattle.machine_code.specs.Reading.{Cut};
ghost use Rattle.lent_counts.specs.Counted.{counted, set_of};
ghost use Rattle.lent_atoms.specs.Told.{told};
ghost use Rattle.lent_hold_lines.specs.Lines.{depths_of, borrowed_of, atoms_from, is_read};

use crate::Function;
use lent_atoms::{hand_over, may_read};

// How many atoms stand from a line on, at most 16.
pub fn count_atoms(of: &Function, at: usize) -> usize
    requires { at < 65536 }
    ensures { result ≡ length (atoms_from of.now.kinds.now of.now.operands.now 16 at) }
{
    for n in 0..16 {
        if !machine_code::atom_stands(of.kinds, at + n) {
            return n;
        }
    }
    16
}

// Whether the atom at place i is read: of a call's those at borrowed places.
fn is_read(borrowed: &[[bool; 8]; 32], callee: Option<u8>, i: usize) -> bool
    ensures { result ≡ is_read (borrows borrowed.now) callee i }
{
    match callee {
        Some(g) => plain_rows::is_borrowed(borrowed, g, i),
        None => false,
    }
}

// The atoms of a call, or of a literal, from a line on: those that are not read are handed over; whether they may be.
pub fn hand_atoms(of: &Function, callee: Option<u8>, at: usize, holds: &mut [u16; 256]) -> bool
    requires { (at < 65536) × Cut of.now.kinds.now of.now.operands.now }
    ensures holds_value { spend (depths_of of.now)
        (picked (λ i. not (is_read (borrowed_of of.now) callee i)) 0
        (atoms_from of.now.kinds.now of.now.operands.now 16 at))
        (counted holds.old) ≡ told result holds.new }
    ensures holds_len { length holds.new ≡ 256 }
{
    for i in 0..16 {
        if !machine_code::atom_stands(of.kinds, at + i) {
            break;
        }
        if is_read(of.borrowed, callee, i) {
            continue;
        }
        let a = machine_code::atom_at(of.kinds, of.operands, at + i);
        if !hand_over(of.depths, of.number, a, holds) {
            return false;
        }
    }
    true
}

// Whether those that are read may be.
pub fn read_atoms(
    of: &Function,
    callee: Option<u8>,
    at: usize,
    lent: &[bool; 256],
    holds: &[u16; 256],
) -> bool
    requires { (at < 65536) × Cut of.now.kinds.now of.now.operands.now }
    ensures { result ≡ readable (depths_of of.now) (set_of lent.now)
        (counted holds.now) (picked (is_read (borrowed_of of.now) callee) 0
        (atoms_from of.now.kinds.now of.now.operands.now 16 at)) }
{
    for i in 0..16 {
        if !machine_code::atom_stands(of.kinds, at + i) {
            break;
        }
        if !is_read(of.borrowed, callee, i) {
            continue;
        }
        let a = machine_code::atom_at(of.kinds, of.operands, at + i);
        if !may_read(of.depths, of.number, lent, holds, a) {
            return false;
        }
    }
    true
}
