//! The program `hox` as functions from its arguments and the bytes of files to all that it writes, and the exit
//! status: `serve`, which leaves streams and lists of kinds to its caller, and `stream`.
#![tactic(auto)]

mod checking;
mod drawing;
mod progress;
mod running;
mod serving;
mod sinks;
mod streaming;
mod texts;
mod writing;

pub use hox_files::files::FileSystem;
pub use hox_files::formats::{FormatStop, Formats};
pub use hox_files::pairs::{Pair, count_standard, is_named_twice, pairs_of};
pub use hox_files::reading::{Asked, ReadError};
pub use hox_files::stops::{RefusedRequest, Stop};
pub use hox_files::uses::{Role, Use};
pub use running::Ran;
pub use serving::{ServedCommand, serve};
pub use streaming::{StreamEnds, StreamStop, Streamed, stream};
pub use texts::FileNote;
