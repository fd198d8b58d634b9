//! Kinds for chains of signals, as a user of the engine would write them: `gain`, from the table of its
//! lines, and `moving_sum`, a filter. docs/own-kinds.md explains them.
#![tactic(auto)]

pub mod gain;
pub mod moving_sum;
pub mod titles;

pub use gain::Gains;
pub use moving_sum::MovingSums;
