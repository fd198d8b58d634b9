//! What an answer does to a network: its deed or the parking of its process; the deed of a parked process that
//! it enables; and the run's end or a growth, if no process is then ready or out (Kahn 1974, Parks 1995).
//!
//! A function whose name ends in `_on` serves a process that goes on, in its worker's hand or asked in place: it leaves
//! the standing of that process as it is, and gives `None`, with nothing changed, for an answer that is a stop or that
//! can't be done.
#![tactic(auto)]

pub mod act;
pub mod choose;
pub mod cores;
pub mod outcome;
pub mod outside;
pub mod parking;
pub mod react;
pub mod resolution;
pub mod work;

pub use cores::Core;
pub use outcome::Outcome;
