//! The report of a run as JSON.
#![tactic(auto)]

mod lines;
mod named;
mod report;
mod values;

pub use report::json_of_report;
