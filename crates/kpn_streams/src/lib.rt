//! Kinds as functions on streams: what a process writes, fed with certain tokens and no more (Kahn 1974),
//! without network, channel and schedule; and a network's equations, solved with such functions.
//! docs/least-solution.md explains it.
//!
//! A function here does nothing. It ensures theorems, which its caller may use.
#![tactic(auto)]

mod equations;
mod functions;
mod signals;

pub use equations::{solving, solving_of};
pub use functions::{
    family_functions, filter_function_of, filter_functions, round_function_of, round_functions,
    standard_functions,
};
pub use signals::signal_functions;
