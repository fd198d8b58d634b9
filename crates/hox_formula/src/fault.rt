//! What is wrong with a formula.
ghost use Rattle.std.specs.Prelude.{◌≡◌, ◌≤◌, ◌+◌, length};

use crate::symbol::Symbol;
use std::alloc::AllocError;

/// What the text needs at a place.
#[derive(Clone, Copy, Debug, PartialEq, Eq)]
pub enum Expected {
    /// A number, a name, or what begins an expression otherwise.
    Operand,
    Open,
    Close,
    Comma,
    Colon,
    /// A name to assign to.
    Target,
    Assign,
    Number,
    /// A `;` or the end.
    Semicolon,
}

/// What is wrong.
#[derive(Clone, Copy, Debug, PartialEq, Eq)]
pub enum Wrong {
    UnknownName,
    NotAssigned,
    AssignsInput,
    Expected(Expected),
    StrangeCharacter,
    NumberTooLarge,
    /// A port is used, and not all before it are.
    Gap,
    /// There are this many states, outputs and inputs too many.
    TooManyWords(usize),
    /// The program has this many digits too many.
    TooManyDigits(usize),
    TooDeep,
    TooLong,
    NoPort,
    /// A start value stands where the state already has one.
    GivenTwice,
    Memory,
}

/// What is wrong with a formula's text, and where, in bytes of the text.
#[derive(Clone, Copy, Debug, PartialEq, Eq)]
pub struct FormulaFault {
    pub at: usize,
    pub length: usize,
    pub what: Wrong,
}

impl FormulaFault {
    /// Returns a fault at a part of a text of this length, as far as the part lies within.
    pub fn within(text_length: usize, at: usize, length: usize, what: Wrong) -> FormulaFault
        ensures within { result.at + result.length ≤ text_length }
        ensures same { at + length ≤ text_length → result ≡ record { at = at; length = length; what = what } }
    {
        let at = at.min(text_length);
        let length = length.min(text_length - at);
        FormulaFault { at, length, what }
    }
}

/// Where the reading of symbols stopped, with how many of them left, and why.
#[derive(Clone, Copy, Debug, PartialEq, Eq)]
pub struct ParseFault {
    pub left: usize,
    pub wrong: Wrong,
}

impl ParseFault {
    /// Returns that something is wrong at the first of these symbols.
    pub fn at(symbols: &[Symbol], wrong: Wrong) -> ParseFault
        ensures { result ≡ record { left = length symbols.now; wrong = wrong } }
    {
        ParseFault {
            left: symbols.len(),
            wrong,
        }
    }
}

impl From<AllocError> for ParseFault {
    fn from(_: AllocError) -> ParseFault {
        ParseFault {
            left: 0,
            wrong: Wrong::Memory,
        }
    }
}

impl From<AllocError> for Wrong {
    fn from(_: AllocError) -> Wrong {
        Wrong::Memory
    }
}
