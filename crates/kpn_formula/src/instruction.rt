//! The instructions of a formula's program.

/// What is made of two words, the second of which was pushed last. Words are in two's complement, and results
/// modulo 2^64. A quotient is rounded down, and what it leaves has the divisor's sign; division by 0 gives 0, and
/// leaves the first word. A shift takes its count as a number from 0 to 2^64 - 1; one by 64 or more gives 0, to the
/// right the sign.
#[derive(Clone, Copy, Debug, PartialEq, Eq)]
pub enum Operation {
    Add,
    Subtract,
    Multiply,
    Divide,
    Remain,
    ShiftLeft,
    ShiftRight,
    And,
    Or,
    ExclusiveOr,
    Min,
    Max,
    /// 1 if the first is less, signed, else 0.
    IsLess,
}

/// An instruction: it takes words from the stack and from the values, and puts words there. A stack has a 0 wherever
/// none was pushed.
#[derive(Clone, Copy, Debug, PartialEq, Eq)]
pub enum Instruction {
    /// Ends the program's part.
    End,
    /// Pushes a word.
    Push(u64),
    /// Multiplies the last word.
    Times(u64),
    /// Shifts the last word to the right.
    Shift(u64),
    /// Makes 1 of 0, and 0 of all else.
    Not,
    /// Makes the absolute value; that of -2^63 is 2^63.
    Abs,
    /// Of three words: the second if the first isn't 0, else the third, which was pushed last.
    Choose,
    /// Of two words: what the operation makes.
    Apply(Operation),
    /// Pushes the value at this place, 0 to 5.
    Load(u8),
    /// Takes the last word for the value at this place, 0 to 4.
    Store(u8),
}
