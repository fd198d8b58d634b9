//! The formats of `hox`'s files, as a user names them: `FORMAT[,KEY[=VALUE]..]`.
//!
//! A [`Format`] determines the layout of a file. [`records_in`] finds the tokens of a channel by the first bytes
//! of a file; [`append_head`] and [`append_tail`] write what precedes and follows the tokens.
#![tactic(auto)]

mod formats;
mod heads;
mod parsing;
mod records;
mod resumed;
mod resuming;
mod settings;
mod tables;

pub use formats::{Csv, Format, Raw, Wav, Which};
pub use heads::{FileHead, append_head, append_tail, layout_of};
pub use parsing::{FormatFault, format_of};
pub use records::{FirstBytes, HeadFault, Records, records_in, records_of};
pub use resumed::Resumed;
pub use resuming::{BeginFault, Begun, begin};
pub use tables::{Head, Shared, decimals_of, shared_by};
