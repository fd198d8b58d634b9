//! How to add kinds of your own, and closures for the standard ones.
//!
//! `flip` is a family with one kind, from the table of its lines to its bodies, which store closures. The
//! last section of `docs/own-kinds.md` explains it.
#![tactic(auto)]

pub mod asked;
pub mod bodies;
pub mod flip;
pub mod scale;

pub use asked::{answer_of, first_answer};
pub use bodies::first_answers;
pub use flip::{FlipBody, Flips, flip_answer, line_of};
pub use scale::scale_answer;
