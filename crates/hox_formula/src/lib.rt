//! The language of formulas: what a process does in each round, in one line, compiled into a card.
//!
//! ```text
//! y(100) = y + (in - y) / 8; out = y
//! ```
//!
//! A text is read into symbols ([`lexing`]), these line by line into code ([`reading`], [`expression`], [`fragment`]),
//! and that into a card ([`compiling`]).
#![tactic(auto)]

mod compiling;
mod expression;
pub mod fault;
mod fragment;
mod left_side;
mod lexing;
mod lines;
pub mod message;
mod names;
mod naming;
mod number;
mod places;
mod reading;
mod symbol;
pub mod texts;

pub use fault::{Expected, FormulaFault, Wrong};
pub use message::text_of_fault;
pub use texts::{LONGEST, compile};
