//! The program, and the run of a network by workers.
//!
//! ```text
//! (Ok(net), Choice::Run { workers, show }) => {
//!     execute_net(&rt, alloc, net, workers, show, &mut sink)
//! }
//! ```
#![tactic(auto)]

mod computed;
mod execution;
mod program;
mod standard;

pub use computed::execute_net;
pub use execution::execute;
pub use kpn_args::{Choice, WordsFault, read_words};
pub use kpn_front::{load, say_checked, say_refused};
pub use program::{KINDS, Served, serve};
pub use standard::execute_standard;
