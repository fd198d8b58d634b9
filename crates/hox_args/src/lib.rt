//! The arguments of the program `hox`.
#![tactic(auto)]

mod arguments;
mod command;
mod help;

pub use arguments::{
    CheckChoice, Choice, DrawChoice, KindsChoice, RunChoice, StreamChoice, WordsFault,
    channel_and_file, read_words,
};
pub use help::FORMULA;
pub use kpn_args::MAX_WORKERS;
pub use kpn_picture::Direction;
