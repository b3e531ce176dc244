// Which names are used later. A name that stands in a script is a use, unless its value only goes to a let whose own
// name has no use: such a let needs nothing.
use super::kinds::Kind;
use super::memory::Memory;

// The levels of a function's body.
pub const MOST_LEVELS: usize = 64;

impl Memory {
    // Whether a node binds a name at a later node, which is in its body.
    pub fn binds(&self, binder: usize, node: usize, name: u8) -> bool {
        let is_named = match self.kind(binder) {
            Kind::Let | Kind::Map | Kind::Filter => self.low(binder) == name,
            Kind::Reduce => self.low(binder) == name || self.high(binder) == name,
            _ => false,
        };
        is_named && self.body(binder) <= node && node < self.end(binder)
    }

    // Whether a node is a use of a name that no node from `start` on binds there.
    fn is_use_from(&self, start: usize, node: usize) -> bool {
        if self.kind(node) != Kind::Name || !self.is_noted(node) {
            return false;
        }
        let name = self.low(node);
        for binder in start..node {
            if self.binds(binder, node, name) {
                return false;
            }
        }
        true
    }

    // Whether the body of a let has a use of its name.
    fn has_use(&self, binder: usize) -> bool {
        let name = self.low(binder);
        let body = self.body(binder);
        for node in body..self.end(binder) {
            if self.low(node) == name && self.is_use_from(body, node) {
                return true;
            }
        }
        false
    }

    // The part that gives the value of a node on: the last of those around the node that is not the body of a let.
    pub fn giving_part(&self, node: usize) -> usize {
        let mut part = node;
        for _ in 0..MOST_LEVELS {
            let parent = self.parent(part);
            if self.kind(parent) != Kind::Let || part != self.body(parent) {
                return part;
            }
            part = parent;
        }
        part
    }

    // Whether the value of a node goes to more than a let that needs nothing. The uses among later nodes are noted.
    fn is_needed(&self, node: usize) -> bool {
        let parent = self.parent(self.giving_part(node));
        self.kind(parent) != Kind::Let || self.has_use(parent)
    }

    // Notes the uses of a script of so many nodes, from the last node back.
    pub fn note_uses(&mut self, nodes: usize) {
        for node in (0..nodes).rev() {
            if self.kind(node) == Kind::Name && self.is_needed(node) {
                self.note(node);
            }
        }
    }

    // Makes roots of what names are bound to that a node's parts from `start` on use.
    pub fn push_uses(&mut self, call: usize, parent: usize, start: usize) {
        for node in start..self.end(parent) {
            if self.is_use_from(parent, node) {
                self.push(self.name(call, self.low(node)));
            }
        }
    }
}
