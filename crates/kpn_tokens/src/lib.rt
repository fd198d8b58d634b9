//! Tokens in files: lines of text, a column of a CSV file, and samples.
//!
//! A [`Layout`] says how to cut a file into records, each with one token or none, and how they write tokens.
//! A head may come before the records: of a WAV file, or a row of names.
#![tactic(auto)]

mod appending;
mod columns;
mod cutting;
mod heads;
mod laws;
mod layouts;
mod names;
mod numbers;
mod reading;
mod rows;
mod samples;
mod saying;
mod tables;
mod word_lines;

pub use appending::{AppendFault, append_tokens, count_misfits};
pub use columns::{TokenColumn, append_table, longest};
pub use cutting::{line_feed_in, record_in};
pub use heads::{LONGEST_HEAD, WavFault, WavHead, append_wav_head, wav_head, wav_sample};
pub use kpn_model::{Sort, Token};
pub use laws::{reads_back, reads_columns_back};
pub use layouts::{
    Cell, Coding, Column, Cut, Decimals, Endian, Frame, Layout, RecordFault, Sample, Separator,
    Width,
};
pub use names::{append_names, column_named};
pub use numbers::append_token;
pub use reading::{MOST_TOKENS, TokensFault, read_tokens};
pub use samples::token_of_frame;
pub use saying::{Line, first_line, token_of_record};
pub use tables::{Table, append_row};
