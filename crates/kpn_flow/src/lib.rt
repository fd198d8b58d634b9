//! A network that runs as long as it can, in bounded memory: between stretches tokens are fed into its inputs
//! and drained from its outputs, and no history is kept.
//!
//! ```text
//! let pause = self.flow.advance(STRETCH);
//! self.write_outputs(sink)?;
//! match pause {
//!     Pause::Cut | Pause::Blocked => {}
//!     Pause::Starved | Pause::Over(_) => {
//!         write_pause(&self.flow, pause, sink)?;
//!         return write_places(alloc, &self.flow, sink);
//!     }
//! }
//! ```
#![tactic(auto)]

pub mod counts;
pub mod ends;
pub mod flow;
mod going;
pub mod law;
mod open_net;
mod opening;
pub mod pause;
mod stand;
mod stretch;
mod waits;

pub use counts::Counts;
pub use ends::{FlowFault, stops_at_once};
pub use flow::{Flow, FlowRefused};
pub use law::{comparable, own_processes, preloading};
pub use pause::Pause;
