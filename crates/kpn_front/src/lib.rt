//! Input, output and exit statuses of a program.
//!
//! ```text
//! let mut source = Fallible::new(rt.reader());
//! let mut sink = Fallible::new(io::writer(&rt));
//! let loaded: Result<Net<Mixed>, _> = load_or_refuse(alloc, &mut source);
//! ```
#![tactic(auto)]

mod lines;
mod loading;
mod status;
mod streams;

pub use lines::{say, say_checked, say_lost, say_no_channel, say_refused};
pub use loading::{Refused, load, load_or_refuse, net_or_refuse, read_text};
pub use status::ExitStatus;
pub use streams::{Fallible, Sink, Source};
