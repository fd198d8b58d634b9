//! The symbols of a formula.

/// A sign, or a word that isn't a name.
#[derive(Clone, Copy, Debug, PartialEq, Eq)]
pub enum Mark {
    Semicolon,
    Comma,
    Open,
    Close,
    Assign,
    Question,
    Colon,
    OrElse,
    AndAlso,
    Or,
    ExclusiveOr,
    And,
    Equal,
    NotEqual,
    Less,
    LessEqual,
    Greater,
    GreaterEqual,
    ShiftLeft,
    ShiftRight,
    Plus,
    Minus,
    Times,
    Divide,
    Remain,
    Invert,
    Not,
    Min,
    Max,
    Abs,
}

/// What a formula's text consists of.
#[derive(Clone, Copy, Debug, PartialEq, Eq)]
pub enum Symbol {
    Number(u64),
    /// The input at this place, 0 to 2.
    Input(u8),
    /// The output at this place, 0 to 2.
    Output(u8),
    /// The name at this place of the text's table of names.
    State(usize),
    Mark(Mark),
}
