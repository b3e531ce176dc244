// The atoms of code lines; and the kinds of nodes and of code lines, by the numbers of documents 01 and 02.
#![tactic(auto)]

// An atom: a number or a name.
#[derive(Clone, Copy)]
pub enum Atom {
    Number(i64),
    Name(u8),
}

// The kinds of nodes, most of which code lines have too. They are numbers, and no enum: the bytes of a script file and
// of the code table, which C lends (`engine_translate`, `engine_deliver_code`), are matched as they stand there.
pub const FUNCTION: u8 = 0;

pub const PARAMETER: u8 = 1;

pub const NUMBER: u8 = 2;

pub const NAME: u8 = 3;

pub const SUM: u8 = 4;

pub const DIFFERENCE: u8 = 5;

pub const LESS: u8 = 6;

pub const LET: u8 = 7;

pub const CALL: u8 = 8;

pub const LITERAL: u8 = 9;

pub const INDEX: u8 = 10;

pub const LENGTH: u8 = 11;

pub const IF: u8 = 12;

pub const MAP: u8 = 13;

// Of code lines alone.
pub const RETAIN: u8 = 14;

pub const RELEASE: u8 = 15;

pub const END: u8 = 16;

// The second edition's.
pub const IOTA: u8 = 17;

pub const REPLICATE: u8 = 18;

pub const FILTER: u8 = 19;

pub const REDUCE: u8 = 20;

// Of a code line alone: a map in the cell of its array.
pub const REWRITE: u8 = 21;
