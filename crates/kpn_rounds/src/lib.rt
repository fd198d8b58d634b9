//! Kinds that go in rounds: each reads its inputs once, steps, and writes its outputs once, forever.
#![tactic(auto)]

mod numbers;
mod ports;
pub mod rounded;
pub mod rounds;
pub mod turns;

pub use rounded::Rounded;
pub use rounds::Rounds;
