// Which parameters are only read, found in the written nodes. A value that a name is bound to is handed over where the
// name gives it to a literal, to the start of a reduce, to the result of a branch, a body or a function, or to a
// parameter that is handed over itself. A parameter is noted once one of its names hands it over; main's are from the
// start. What is not noted in the end is only read: for the time of a call it stays with the caller.
use super::kinds::Kind;
use super::memory::Memory;
use super::uses::MOST_LEVELS;

impl Memory {
    // Whether a call hands over one of its parts: whether that parameter is noted.
    fn is_passed(&self, call: usize, part: usize) -> bool {
        let mut argument = self.part(call, 0);
        let mut parameter = self.part(self.callee(call), 0);
        for _ in 0..self.shape(call).first {
            if argument == part {
                return self.is_noted(parameter);
            }
            argument = self.end(argument);
            parameter = self.end(parameter);
        }
        true
    }

    // Whether the value of a node is handed over. A let hands its value over where its name does.
    fn is_handed(&self, node: usize) -> bool {
        let part = self.giving_part(node);
        let parent = self.parent(part);
        match self.kind(parent) {
            Kind::Function | Kind::Literal => true,
            Kind::Let => self.is_noted(parent),
            Kind::Call => self.is_passed(parent, part),
            Kind::If => part != self.part(parent, 0),
            Kind::Map | Kind::Filter => part == self.body(parent),
            Kind::Reduce => part != self.part(parent, 1),
            _ => false,
        }
    }

    // The parameter of a function that has a name; the function's own node where none has.
    fn parameter_of(&self, function: usize, name: u8) -> usize {
        let mut parameter = self.part(function, 0);
        for _ in 0..self.low(function) {
            if self.low(parameter) == name {
                return parameter;
            }
            parameter = self.end(parameter);
        }
        function
    }

    // The node that binds the name that stands at a node: the innermost around it, or a parameter.
    pub fn binder(&self, node: usize) -> usize {
        let name = self.low(node);
        let mut around = self.parent(node);
        for _ in 0..MOST_LEVELS {
            if self.kind(around) == Kind::Function {
                return self.parameter_of(around, name);
            }
            if self.binds(around, node, name) {
                return around;
            }
            around = self.parent(around);
        }
        around
    }

    // Notes what the names of a script of so many nodes hand over, once through; whether there is more than before.
    fn note_once(&mut self, nodes: usize) -> bool {
        let mut more = false;
        for node in (0..nodes).rev() {
            if self.kind(node) == Kind::Name && self.is_handed(node) {
                let binder = self.binder(node);
                more |= !self.is_noted(binder);
                self.note(binder);
            }
        }
        more
    }

    // Notes all that the names of a script of so many nodes hand over. Each time through notes one node more, or is the
    // last.
    pub fn note_handed(&mut self, nodes: usize) {
        self.note(self.part(0, 0));
        self.note(self.part(0, 1));
        for _ in 0..nodes {
            if !self.note_once(nodes) {
                return;
            }
        }
    }

    // Hands over the last roots, which are the arguments of a call of a function with so many parameters: those
    // of noted parameters are no roots of the caller's any more.
    pub fn hand_over(&mut self, function: usize, parameters: usize) {
        let mut parameter = self.part(function, 0);
        for i in 0..parameters {
            if self.is_noted(parameter) {
                self.take_out(parameters - i);
            }
            parameter = self.end(parameter);
        }
    }
}
