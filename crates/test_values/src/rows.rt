// A script file as rows, one for each node.
ghost use Rattle.std.specs.Prelude.{◌+◌, ◌*◌, ◌<◌, ◌≤◌};

use super::kinds::{Kind, Shape};
use super::memory::Memory;
use super::{Value, Values, kinds};

// The bytes of the longest script file, and the most nodes that it has.
pub const FILE_BYTES: usize = 9220;

pub const MOST_NODES: usize = 1024;

// The row of a node.
#[derive(Clone, Copy)]
pub struct Row {
    pub kind: Kind,
    pub operand: u64,
    // The node after its part, and the node that it is a part of.
    pub end: usize,
    pub parent: usize,
    // Of a name that it is used where it stands (see `uses`), and of a node that binds a name that what it binds is
    // handed over (see `handing`).
    pub is_noted: bool,
    // The depth of its value (see `depths`).
    pub depth: u64,
}

pub const NO_ROW: Row = Row {
    kind: Kind::Other,
    operand: 0,
    end: 0,
    parent: 0,
    is_noted: false,
    depth: 0,
};

// Two bytes, low byte first.
fn size_at(file: &[u8; FILE_BYTES], i: usize) -> usize
    requires { i ≤ 2 }
{
    usize::from(file[i]) + 256 * usize::from(file[i + 1])
}

// Eight bytes, low byte first: the bits of an operand.
fn bits_at(file: &[u8; FILE_BYTES], i: usize) -> u64
    requires { i ≤ 9212 }
{
    let mut bytes = [0u8; 8];
    bytes.copy_from_slice(&file[i..i + 8]);
    u64::from_le_bytes(bytes)
}

// How many nodes the file has.
pub fn node_count(file: &[u8; FILE_BYTES]) -> usize
    ensures { result ≤ 1024 }
{
    size_at(file, 2).min(MOST_NODES)
}

impl Memory {
    // The row of a node.
    pub fn row(&self, node: usize) -> Row {
        self.rows[node % MOST_NODES]
    }

    // The kind of a node.
    pub fn kind(&self, node: usize) -> Kind {
        self.row(node).kind
    }

    // The operand of a node, as its bits.
    pub fn operand(&self, node: usize) -> u64 {
        self.row(node).operand
    }

    // The low byte of a node's operand.
    pub fn low(&self, node: usize) -> u8 {
        kinds::low(self.operand(node))
    }

    // The byte above it.
    pub fn high(&self, node: usize) -> u8 {
        kinds::high(self.operand(node))
    }

    // The shape of a node.
    pub fn shape(&self, node: usize) -> Shape
        ensures first { result.first < 256 }
    {
        let row = self.row(node);
        row.kind.shape(row.operand)
    }

    // The node after the part that begins at a node.
    pub fn end(&self, node: usize) -> usize {
        self.row(node).end
    }

    // The node that a node is a part of.
    pub fn parent(&self, node: usize) -> usize {
        self.row(node).parent
    }

    // Whether a node is noted.
    pub fn is_noted(&self, node: usize) -> bool {
        self.row(node).is_noted
    }

    // Notes a node.
    pub fn note(&mut self, node: usize) {
        self.rows[node % MOST_NODES].is_noted = true;
    }

    // The node after so many parts.
    fn end_after(&self, node: usize, parts: usize) -> usize {
        let mut part = node;
        for _ in 0..parts {
            part = self.end(part);
        }
        part
    }

    // A part of a node, counted from 0.
    pub fn part(&self, node: usize, part: usize) -> usize {
        self.end_after(node % MOST_NODES + 1, part)
    }

    // The body of a let or a loop.
    pub fn body(&self, node: usize) -> usize {
        self.part(node, self.shape(node).first)
    }

    // The name that a let or a loop binds; of a reduce's two names the second, which is the element's.
    pub fn bound_name(&self, node: usize) -> u8 {
        if self.kind(node) == Kind::Reduce {
            self.high(node)
        } else {
            self.low(node)
        }
    }

    // The part of an if that its guard takes.
    pub fn branch(&self, node: usize, guard: u64) -> usize {
        self.part(node, if guard == 0 { 2 } else { 1 })
    }

    // The function that a node calls.
    pub fn callee(&self, node: usize) -> usize {
        self.end_after(0, usize::from(self.low(node)))
    }

    // Binds the parameters of the function at a node to values, in a call; the node of its body.
    pub fn bind_parameters(&mut self, function: usize, call: usize, values: &Values) -> usize {
        let mut parameter = self.part(function, 0);
        for i in 0..usize::from(self.low(function)) {
            let bound = Value {
                bits: values[i % values.len()].bits,
                is_array: 0 < self.high(parameter),
            };
            self.bind(call, self.low(parameter), bound);
            parameter = self.end(parameter);
        }
        parameter
    }

    // Makes a node the parent of its parts, which begin after it; the node after them.
    fn adopt(&mut self, node: usize, parts: usize) -> usize
        requires { node < 1024 }
    {
        let mut part = node + 1;
        for _ in 0..parts {
            self.rows[part % MOST_NODES].parent = node;
            part = self.end(part);
        }
        part
    }

    // Fills in the row of a node; those of later nodes are there.
    fn read_row(&mut self, file: &[u8; FILE_BYTES], nodes: usize, node: usize)
        requires { (nodes ≤ 1024) × (node < 1024) }
    {
        let kind = Kind::from(file[4 + node]);
        let operand = bits_at(file, 4 + nodes + 8 * node);
        let end = self.adopt(node, kind.shape(operand).parts);
        let parent = self.parent(node);
        self.rows[node] = Row {
            kind,
            operand,
            end,
            parent,
            is_noted: false,
            depth: 0,
        };
    }

    // The rows of a script file; from the last node back, since a part ends where its own last part ends.
    pub fn read_rows(&mut self, file: &[u8; FILE_BYTES]) {
        let nodes = node_count(file);
        for node in (0..nodes).rev() {
            self.read_row(file, nodes, node);
        }
    }
}
