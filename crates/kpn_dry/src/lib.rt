//! Dry processes: those that do nothing more in any longer run, whatever others do. So the streams that they
//! write are whole, even if the run ended at the ceiling or by its budget.
#![tactic(auto)]

mod active;
mod laws;
mod telling;

pub use active::push_active_line;
pub use laws::{dryness, dryness_of};
pub use telling::{is_complete, is_dry};
