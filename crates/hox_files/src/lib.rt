//! The files that a command of `hox` names, reads and writes, and what may be wrong with them.
#![tactic(auto)]

pub mod files;
pub mod formats;
pub mod pairs;
pub mod reading;
pub mod stops;
pub mod uses;
pub mod watching;
