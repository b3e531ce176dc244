// The numbers of the service display, by name.
#![tactic(auto)]

ghost use Rattle.std.specs.Prelude.{◌≡◌};
ghost use Rattle.answers.specs.Numbers.{number_of, stop_number};

// Why a file, a request or a store is refused.
#[derive(Clone, Copy, PartialEq, Eq)]
pub enum Refusal {
    Truncated = 1,
    SizeOutOfRange = 2,
    Malformed = 3,
    OperandOutOfRange = 4,
    TooDeep = 5,
    UnknownName = 6,
    TypeMismatch = 7,
    TooManyNames = 8,
    CodeTooLong = 9,
    BadRequest = 10,
    UnsoundStore = 11,
    BadSaveFile = 27,
    BadCode = 29,
}

impl Refusal {
    // The number that the display shows.
    pub fn number(self) -> u8
        ensures { result ≡ number_of self }
    {
        self as u8
    }
}

// Why a delivery stops.
#[derive(Clone, Copy, PartialEq, Eq)]
pub enum Stop {
    OutOfSteps = 21,
    CallTooDeep = 22,
    IndexOutOfRange = 23,
    Overflow = 24,
    OutOfCells = 25,
    BadCount = 26,
    BadGuard = 28,
}

impl Stop {
    // Its number in the service display.
    pub fn number(self) -> u8
        ensures { result ≡ stop_number self }
    {
        self as u8
    }
}
