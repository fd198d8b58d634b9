//! The laws of Kahn process networks with bounded channels, over the definitions of kpn_model.
//!
//! A function here does nothing. It ensures theorems for every family and network. docs/determinacy.md,
//! docs/least-solution.md and docs/least-room.md explain the proofs.
#![tactic(auto)]

mod ending;
mod equations;
mod outcome;
mod room;
mod run;

pub use ending::{completion, completion_of};
pub use equations::{least_solution, least_solution_of};
pub use outcome::{determinacy, determinacy_of};
pub use room::{least_room, least_room_of};
pub use run::{moments, moments_of, typed_runs, valid_runs};
