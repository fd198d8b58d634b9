//! The report of a run: each process's deeds, each channel's tokens, and its text.
//!
//! ```text
//! let net = finish.net();
//! let places = places_of(alloc, net, finish.standings())?;
//! let history = finish.history();
//! let text = text_of(alloc, net, history, places.as_slice(), finish.end(), None)?;
//! ```
#![tactic(auto)]

mod channel_counts;
mod counted;
mod detail;
mod entries;
mod lines;
mod places;
mod streams;
mod tallied;
mod tally;
mod text;

pub use detail::{Detail, Growths, Places, Report, Sizes, Steps, detail_of, report_of};
pub use entries::Entries;
pub use places::places_of;
pub use streams::{Stream, Streams, stream_of, stream_of_entries};
pub use tallied::Tallied;
pub use text::{text_of, text_of_entries};
