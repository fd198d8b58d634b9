//! The limits of descriptions and networks.

/// The most processes that a network may have. It has at least one.
pub const MOST_PROCESSES: usize = 64;

/// The most channels that a network may have.
pub const MOST_CHANNELS: usize = 256;

/// The capacity in tokens above which no channel grows, in version 1.
pub const CEILING: u32 = 65535;

/// The capacity in tokens above which no channel grows, in version 2.
pub const HIGH_CEILING: u32 = 1000000;

/// The greatest budget in entries, in version 1.
pub const GREATEST_BUDGET: u32 = 1000000;

/// The greatest budget in entries, in version 2.
pub const GREATEST_HIGH_BUDGET: u32 = 2000000;

/// The budget in entries if the description gives none.
pub const DEFAULT_BUDGET: u32 = 10000;

/// The greatest step, in tokens, of a growth.
pub const GREATEST_STEP: u32 = 1024;

/// The most bytes that a description may have.
pub const LONGEST_TEXT: usize = 1048576;
