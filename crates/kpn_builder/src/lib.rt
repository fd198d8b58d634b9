//! Builds descriptions by processes and channels, checks them like texts, and writes them.
//!
//! ```text
//! let mut made = Builder::new(alloc);
//! made.process("src", "count", &[1, 8])?;
//! made.process("x3", "scale", &[3])?;
//! made.channel(NewChannel::new("x", "src", "x3").capacity(4))?;
//! Ok(made.check()?)
//! ```
#![tactic(auto)]

mod builder;
mod text;
mod value;

pub use builder::{Builder, NewChannel};
pub use text::{TextFault, to_toml};
