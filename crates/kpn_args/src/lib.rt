//! The arguments of `kpn`, and what they ask for.
#![tactic(auto)]

mod arguments;
mod entries;
mod making;

pub use arguments::{Choice, MAX_WORKERS, VERSION, WordsFault, read_words};
pub use entries::{subcommand_in, text_in, workers_in};
pub use making::{bare, option, with_arg, with_subcommand};
