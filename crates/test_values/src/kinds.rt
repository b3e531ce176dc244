// The kinds of nodes, and what each is. A kind that a script may have beyond these is a case here, its shape, a
// function that works it and its arm in `work_node` or `result_of`.
ghost use Rattle.std.specs.Prelude.{◌<◌};

// The kinds by their numbers. The numbers from 14 to 16 are of code lines alone.
#[derive(Clone, Copy, PartialEq, Eq)]
pub enum Kind {
    Function = 0,
    Parameter = 1,
    Number = 2,
    Name = 3,
    Sum = 4,
    Difference = 5,
    Less = 6,
    Let = 7,
    Call = 8,
    Literal = 9,
    Index = 10,
    Length = 11,
    If = 12,
    Map = 13,
    Iota = 17,
    Replicate = 18,
    Filter = 19,
    Reduce = 20,
    // No kind of a script.
    Other = 31,
}

impl From<u8> for Kind {
    fn from(number: u8) -> Kind {
        match number {
            0 => Kind::Function,
            1 => Kind::Parameter,
            2 => Kind::Number,
            3 => Kind::Name,
            4 => Kind::Sum,
            5 => Kind::Difference,
            6 => Kind::Less,
            7 => Kind::Let,
            8 => Kind::Call,
            9 => Kind::Literal,
            10 => Kind::Index,
            11 => Kind::Length,
            12 => Kind::If,
            13 => Kind::Map,
            17 => Kind::Iota,
            18 => Kind::Replicate,
            19 => Kind::Filter,
            20 => Kind::Reduce,
            _ => Kind::Other,
        }
    }
}

// The low byte of an operand.
pub fn low(operand: u64) -> u8 {
    (operand % 256) as u8
}

// The byte above it.
pub fn high(operand: u64) -> u8 {
    (operand / 256 % 256) as u8
}

// The shape of a node: how many parts it has, how many of them are worked before its step, and whether it takes a cell.
// The parts of a function are its parameters and its body; the body of a let and of a loop is the part after those that
// are worked first.
#[derive(Clone, Copy)]
pub struct Shape {
    pub parts: usize,
    pub first: usize,
    pub takes_cell: bool,
}

impl Kind {
    // The shape of a node of this kind with this operand.
    pub fn shape(self, operand: u64) -> Shape
        ensures parts { result.parts < 257 }
        ensures first { result.first < 256 }
    {
        let low = usize::from(low(operand));
        let high = usize::from(high(operand));
        let (parts, first, takes_cell) = match self {
            Kind::Function => (low + 1, 0, false),
            Kind::Sum | Kind::Difference | Kind::Less | Kind::Index => (2, 2, false),
            Kind::Let => (2, 1, false),
            Kind::Call => (high, high, false),
            Kind::Literal => (low, low, true),
            Kind::Length => (1, 1, false),
            Kind::If => (3, 1, false),
            Kind::Map | Kind::Filter => (2, 1, true),
            Kind::Iota => (1, 1, true),
            Kind::Replicate => (2, 2, true),
            Kind::Reduce => (3, 2, false),
            _ => (0, 0, false),
        };
        Shape {
            parts,
            first,
            takes_cell,
        }
    }
}
