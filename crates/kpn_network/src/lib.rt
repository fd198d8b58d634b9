//! Valid networks of processes (Kahn 1974), and queries on them.
//!
//! ```text
//! let Some(channel) = net.find_channel(word) else {
//!     bail!("no channel {word}");
//! };
//! ```
#![tactic(auto)]

pub mod names;
pub mod net;
mod ports;

pub use net::{Net, Parts};
