//! Rows of command lines, and what they ask for.
use hox_args::{WordsFault, channel_and_file, read_words};
use std::alloc::Global;
use std::fmt::Write;
use test_kit::{Cells, Subject};

pub(crate) struct Rows;

impl Subject for Rows {
    /// A command line, or a text of `CHANNEL=FILE` after `pair`. Of a fault: the exit status, whether help or the version is
    /// asked for, and whether the number of workers is wrong.
    fn answer(&self, alloc: Global, question: &mut Cells<'_>, answer: &mut String) {
        let line = question.rest();
        if let Some(text) = line.strip_prefix("pair ") {
            let _ = write!(answer, "{:?}", channel_and_file(text));
            return;
        }
        let Ok(words): Result<Vec<&str>, _> = line.split(' ').collect(alloc) else {
            question.is_bad();
            return;
        };
        let _ = match read_words(alloc, words.as_slice()) {
            Ok(choice) => write!(answer, "{choice:?}"),
            Err(fault) => write!(
                answer,
                "{} {} {}",
                fault.status().code(),
                fault.asks_for_help(),
                matches!(fault, WordsFault::Workers)
            ),
        };
    }
}
