//! Reads a description, TOML text, as a sketch, or finds its fault. `kpn_net` re-exports all this, beside the
//! check that makes a network of a sketch.
//!
//! ```text
//! let sketch = read_sketch(alloc, text.as_bytes())?;
//! ```
#![tactic(auto)]

pub mod fault;
mod form;
pub mod read;
pub mod sketch;

pub use fault::NetFault;
pub use read::{read_delayed, read_sketch};
pub use sketch::{ChannelSketch, Delay, Delayed, ProcessSketch, Sketch, TokenSketch};
