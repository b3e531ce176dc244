// The depths of a script's parts, found in the written nodes: 0 for a number, and for an array one more than that of
// its elements. A value does not say its depth, since an array may be empty.
use super::kinds::Kind;
use super::memory::Memory;
use super::rows::MOST_NODES;

// One deeper.
fn above(depth: u64) -> u64 {
    depth.wrapping_add(1)
}

// One less deep: the depth of an array's elements.
fn below(depth: u64) -> u64 {
    depth.saturating_sub(1)
}

impl Memory {
    // The depth of a node's value, as far as it is found.
    pub fn depth(&self, node: usize) -> u64 {
        self.row(node).depth
    }

    // The depth of a part of a node.
    pub fn part_depth(&self, node: usize, part: usize) -> u64 {
        self.depth(self.part(node, part))
    }

    // The depth that a node's operand says, of its value or of its elements.
    fn said_depth(&self, node: usize) -> u64 {
        u64::from(self.high(node))
    }

    // The depth of what a reduce binds to a name: its second name, an element, hides an equal first.
    fn pass_depth(&self, reduce: usize, name: u8) -> u64 {
        if self.high(reduce) == name {
            below(self.part_depth(reduce, 1))
        } else {
            self.part_depth(reduce, 0)
        }
    }

    // The depth of what a name is bound to.
    fn name_depth(&self, node: usize) -> u64 {
        let binder = self.binder(node);
        match self.kind(binder) {
            Kind::Parameter => self.said_depth(binder),
            Kind::Let => self.part_depth(binder, 0),
            Kind::Reduce => self.pass_depth(binder, self.low(node)),
            _ => below(self.part_depth(binder, 0)),
        }
    }

    // The depth of a node, by those of other nodes as far as they are found.
    fn depth_of(&self, node: usize) -> u64 {
        match self.kind(node) {
            Kind::Name => self.name_depth(node),
            Kind::Let | Kind::If => self.part_depth(node, 1),
            Kind::Call => self.said_depth(self.callee(node)),
            Kind::Literal => above(self.said_depth(node)),
            Kind::Index => below(self.part_depth(node, 0)),
            Kind::Map | Kind::Replicate => above(self.part_depth(node, 1)),
            Kind::Iota => 1,
            Kind::Filter | Kind::Reduce => self.part_depth(node, 0),
            _ => 0,
        }
    }

    // Finds the depths of a script of so many nodes, once through; whether one is not what it was.
    fn find_once(&mut self, nodes: usize) -> bool {
        let mut changed = false;
        for node in (0..nodes).rev() {
            let depth = self.depth_of(node);
            changed |= depth != self.depth(node);
            self.rows[node % MOST_NODES].depth = depth;
        }
        changed
    }

    // Finds the depths of a script of so many nodes. Each time through finds one more for good, or is the last.
    pub fn find_depths(&mut self, nodes: usize) {
        for _ in 0..nodes {
            if !self.find_once(nodes) {
                return;
            }
        }
    }
}
