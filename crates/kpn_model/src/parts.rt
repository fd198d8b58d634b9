//! The processes and channels of a network.
use crate::kinds::Card;
use crate::small::{Listed, Text};
use crate::token::{Sort, Token};

/// A process: its name and its card.
#[derive(Drop)]
pub struct Process {
    pub name: Text,
    pub card: Card,
}

/// The ends of a channel: output `out` of process `writer`, and input `input` of process `reader`. Processes
/// are numbered from 0; ports are 0 to 2.
#[derive(Clone, Copy, Debug, PartialEq, Eq)]
pub struct Ends {
    pub writer: usize,
    pub out: usize,
    pub reader: usize,
    pub input: usize,
}

/// A channel: a queue that one process writes and one reads (Kahn 1974); a write blocks while it is full
/// (Parks 1995). Its ends are as in [`Ends`], its starting capacity is in tokens, and its start tokens are in
/// reading order.
#[derive(Drop)]
pub struct Channel {
    pub name: Text,
    pub writer: usize,
    pub out: usize,
    pub reader: usize,
    pub input: usize,
    pub sort: Sort,
    pub capacity: usize,
    pub tokens: Listed<Token>,
}
