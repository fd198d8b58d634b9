//! The counts of one channel.

/// How many tokens were put on a channel and taken from it, and its capacity.
#[derive(Clone, Copy)]
pub(crate) struct ChannelCounts {
    pub put: usize,
    pub taken: usize,
    pub capacity: usize,
}
