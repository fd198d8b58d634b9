//! An unchecked description. Its numbers may be out of range, and its names may name nothing.
use kpn_model::{Listed, Sort, Text};

/// A description with its defaults filled in: its version, its budget in entries, the tokens that a growth
/// adds to a capacity (always 1 in version 1), and its processes and channels in text order.
#[derive(Drop)]
pub struct Sketch {
    pub version: i64,
    pub budget: i64,
    pub step: i64,
    pub processes: Listed<ProcessSketch>,
    pub channels: Listed<ChannelSketch>,
}

/// A description whose channels may have delays: its sketch without them, and the delay of each channel.
#[derive(Drop)]
pub struct Delayed {
    pub sketch: Sketch,
    pub delays: Listed<Delay>,
}

/// How many tokens a channel holds before its start tokens; by default none.
#[derive(Clone, Copy, Debug, PartialEq, Eq)]
pub struct Delay {
    pub tokens: i64,
}

/// A process of a description: its name, the name of its kind, and its arguments in order.
#[derive(Drop)]
pub struct ProcessSketch {
    pub name: Text,
    pub kind: Text,
    pub args: Listed<i64>,
}

/// A channel of a description: its name, the names and ports of the processes that it leads from and to, its
/// sort, its capacity in tokens, and its start tokens in reading order (none in version 1).
#[derive(Drop)]
pub struct ChannelSketch {
    pub name: Text,
    pub from: Text,
    pub to: Text,
    pub out: i64,
    pub input: i64,
    pub sort: Sort,
    pub capacity: i64,
    pub tokens: Listed<TokenSketch>,
}

/// A start token: an integer, which is a word if it is not negative; a boolean, which is a flag; or a word by
/// its value, from 0 to 2^64 - 1, which only programs give.
#[derive(Clone, Copy, Debug, PartialEq, Eq)]
pub enum TokenSketch {
    Integer(i64),
    Boolean(bool),
    Word(u64),
}
