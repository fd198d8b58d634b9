//! Formulas as processes: a card holds a program of up to 36 digits of five bits, which computes in each round from the
//! states and the inputs the next states and the outputs.
#![tactic(auto)]

pub mod encoding;
pub mod instruction;
pub mod operations;
pub mod programs;
mod reading;
mod running;
pub mod shape;

pub use encoding::{Excess, card_of};
pub use instruction::{Instruction, Operation};
pub use operations::applied;
pub use programs::{Formulas, Programs};
pub use shape::Shape;
