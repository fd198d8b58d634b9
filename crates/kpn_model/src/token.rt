//! What channels carry.

/// A token: a word of 64 bits or a flag.
#[derive(Clone, Copy, Debug, PartialEq, Eq)]
pub enum Token {
    Word(u64),
    Flag(bool),
}

/// What a channel or a port carries: words or flags.
#[derive(Clone, Copy, Debug, PartialEq, Eq)]
pub enum Sort {
    Words,
    Flags,
}
