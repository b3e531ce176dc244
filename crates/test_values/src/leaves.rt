// The nodes that need no more than the values of their parts: operations, literals, indices, lengths, iotas and
// replicates.
use super::kinds::Kind;
use super::memory::Memory;
use super::{MOST_ELEMENTS, Stop, Values, Worked, numbers};

// Whether a node's count, where it has one, is one that an array can have; the bits of a negative count are above it.
fn has_count(kind: Kind, count: u64) -> bool {
    match kind {
        Kind::Iota | Kind::Replicate => count <= MOST_ELEMENTS as u64,
        _ => true,
    }
}

impl Memory {
    // The result of a node.
    fn result_of(&mut self, node: usize, values: &Values) -> Worked {
        let kind = self.kind(node);
        let first = values[0].bits;
        let second = values[1];
        match kind {
            Kind::Literal => {
                self.make_array(values, usize::from(self.low(node)), 0 < self.high(node))
            }
            Kind::Iota => self.iota(first as usize),
            Kind::Replicate => self.replicate(first as usize, second),
            Kind::Index | Kind::Length => self.read(kind, first, second.bits),
            _ => numbers::operate(kind, first, second.bits),
        }
    }

    // Works a node on the values of its parts, which are roots: its step, then its count, its cell and its result.
    pub fn work_leaf(&mut self, node: usize, values: &Values) -> Worked {
        self.step()?;
        if !has_count(self.kind(node), values[0].bits) {
            return Err(Stop::BadCount);
        }
        if self.shape(node).takes_cell {
            self.take()?;
        }
        self.result_of(node, values)
    }
}
