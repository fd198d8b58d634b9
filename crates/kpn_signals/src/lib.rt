//! The family of the kinds for signals: names, arguments, ports, answers, and lines of help.
//!
//! Sums, differences and products are modulo 2^64. Signed kinds (`shift`, `less`, `low_pass`, `clip`, `min`,
//! `max`, `abs`, `gain`, `div`, `mod` and `average`) read words as two's complement.
//!
//! A card has no negative arguments. So `constant`, `hold`, `clip`, `offset` and `gain`, and the standard `scale` and
//! `prefix`, have a second kind each, `constant, signed` and so on. Its card has n for a negative argument -1 - n, and,
//! after the arguments, how many of them are negative.
#![tactic(auto)]

pub mod answers;
mod arithmetic;
mod bits;
mod ends;
mod filters;
pub mod help;
mod logic;
mod noise;
mod rates;
pub mod signal;
pub mod signals;
mod signs;
mod times;
pub mod turns;
mod wide;
pub mod words;

pub use answers::answer;
pub use help::{HELP, SIGNED};
pub use kpn_standard::Help;
pub use signal::Signal;
pub use signals::Signals;
