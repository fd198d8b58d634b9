//! Flows for callers in other languages. Channels have places among the inputs or the outputs; errors are
//! answers with numbers. No public function has a `requires`.
//!
//! ```text
//! let session = Session::open(alloc, text, inputs, outputs)?;
//! let moved = session.feed(input, words);
//! let why = session.advance(most);
//! ```
#![tactic(auto)]

mod answers;
mod checking;
mod names;
mod opening;
mod report;
mod running;
mod session;
mod texts;
mod words;

pub use answers::{ReturnCode, end_number, pause_number};
pub use checking::check;
pub use opening::SessionFault;
pub use running::{RunReport, run};
pub use session::Session;
pub use texts::{copy_out, message_of_fault};
pub use words::Transferred;
