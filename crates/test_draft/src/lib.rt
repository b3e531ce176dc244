// The draft of a script that is made from a seed, on a desk: the seed, what is known of each name, the functions'
// signatures, an agenda of what is still to be written, and the nodes written so far.
#![tactic(auto)]

pub mod file;
pub mod requests;

ghost use Rattle.std.specs.Prelude.{◌<◌, ◌≤◌, length};

use test_values::kinds::Kind;
use test_values::rows::MOST_NODES;

// How many names, functions and parameters there are at the most, and how many items the agenda has room for.
const NAMES: usize = 256;

pub const MOST_FUNCTIONS: usize = 32;

pub const MOST_PARAMETERS: usize = 8;

const MOST_ITEMS: usize = 2048;

// The sequence that a seed starts: each number is the last one times a factor, modulo a prime.
const PRIME: u64 = 2147483647;

const FACTOR: u64 = 48271;

// A node that is written.
#[derive(Clone, Copy)]
pub struct Node {
    pub kind: Kind,
    pub operand: u64,
}

const NO_NODE: Node = Node {
    kind: Kind::Other,
    operand: 0,
};

// A function's signature: how many parameters it takes, the depth of what it gives, whether it calls itself, and the
// depths of its parameters.
#[derive(Clone, Copy)]
pub struct Signature {
    pub count: usize,
    pub result: u8,
    pub is_recursive: bool,
    pub depths: [u8; MOST_PARAMETERS],
}

pub const NO_SIGNATURE: Signature = Signature {
    count: 0,
    result: 0,
    is_recursive: false,
    depths: [0; MOST_PARAMETERS],
};

// How many levels a part has, its own among them. On a spine one part goes as deep as it may.
#[derive(Clone, Copy)]
pub struct Room {
    pub levels: u64,
    pub spine: bool,
}

// What an item of the agenda asks for: a part of a depth in some room, another depth of a name (or that it is not
// known), or a node that is fixed.
#[derive(Clone, Copy)]
pub enum Item {
    Part { depth: u8, room: Room },
    Binding { name: u8, depth: Option<u8> },
    Node(Node),
}

#[derive(Clone, Copy)]
pub struct Desk {
    seed: u64,
    // The depths of names, where they are known.
    known: [Option<u8>; NAMES],
    pub signatures: [Signature; MOST_FUNCTIONS],
    // How many functions there are, and the one that is written.
    pub functions: usize,
    pub function: usize,
    // The node after which only leaves are written, and whether a spine came to its last level.
    pub limit: usize,
    pub reached_last_level: bool,
    agenda: [Item; MOST_ITEMS],
    items: usize,
    nodes: [Node; MOST_NODES],
    node_count: usize,
}

impl Desk {
    // A desk on which the sequence starts from a seed; it would stay at 0, so it never starts there.
    pub fn new(seed: u64) -> Self {
        Desk {
            seed: seed % (PRIME - 1) + 1,
            known: [None; NAMES],
            signatures: [NO_SIGNATURE; MOST_FUNCTIONS],
            functions: 0,
            function: 0,
            limit: 0,
            reached_last_level: false,
            agenda: [Item::Node(NO_NODE); MOST_ITEMS],
            items: 0,
            nodes: [NO_NODE; MOST_NODES],
            node_count: 0,
        }
    }

    // The next number of the sequence, below n.
    pub fn choose(&mut self, n: u64) -> u64
        requires { 0 < n }
        ensures { result < n }
    {
        self.seed = self.seed % PRIME * FACTOR % PRIME;
        self.seed / 8 % n
    }

    // Whether the next number of the sequence, below n, is 0.
    pub fn chance(&mut self, n: u64) -> bool
        requires { 0 < n }
    {
        self.choose(n) == 0
    }

    // The depth of a name, if it is known.
    pub fn known(&self, name: u8) -> Option<u8> {
        self.known[usize::from(name)]
    }

    // Sets what is known of a name.
    pub fn set_known(&mut self, name: u8, depth: Option<u8>) {
        self.known[usize::from(name)] = depth;
    }

    // A function's signature.
    pub fn signature(&self, function: usize) -> Signature {
        self.signatures[function % MOST_FUNCTIONS]
    }

    // Puts an item on top of the agenda.
    pub fn push(&mut self, item: Item) {
        if self.items < MOST_ITEMS {
            self.agenda[self.items] = item;
            self.items += 1;
        }
    }

    // Takes the agenda's top item, if there is one.
    pub fn pop(&mut self) -> Option<Item> {
        if self.items == 0 {
            return None;
        }
        self.items -= 1;
        Some(self.agenda[self.items % MOST_ITEMS])
    }

    // Writes a node.
    pub fn write(&mut self, kind: Kind, operand: u64) {
        if self.node_count < MOST_NODES {
            self.nodes[self.node_count] = Node { kind, operand };
            self.node_count += 1;
        }
    }

    // How many nodes are written.
    pub fn written(&self) -> usize
        ensures { result ≤ 1024 }
    {
        self.node_count.min(MOST_NODES)
    }

    // The nodes that are written.
    pub fn nodes(&self) -> &[Node]
        ensures { length result.now ≤ 1024 }
    {
        &self.nodes[..self.written()]
    }
}
