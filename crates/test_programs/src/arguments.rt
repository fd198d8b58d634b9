//! Rows of command lines, and what they ask for; and a command line made step by step.
use clap::{Arg, Command};
use kpn_args::{bare, option, subcommand_in, text_in, with_arg, with_subcommand, workers_in};
use kpn_execute::{WordsFault, read_words};
use std::alloc::{AllocError, Global};
use std::fmt::Write;
use test_kit::{Cells, Report, Subject};

pub(crate) struct Rows;

impl Subject for Rows {
    /// A command line, or a number of workers after `workers`. Of a fault: the exit status, and whether the number of workers
    /// is wrong.
    fn answer(&self, alloc: Global, question: &mut Cells<'_>, answer: &mut String) {
        let line = question.rest();
        if let Some(number) = line.strip_prefix("workers ") {
            let text = if number == "none" { None } else { Some(number) };
            let _ = write!(answer, "{:?}", workers_in(text));
            return;
        }
        let Ok(words): Result<Vec<&str>, AllocError> = line.split(' ').collect(alloc) else {
            question.is_bad();
            return;
        };
        let _ = match read_words(alloc, words.as_slice()) {
            Ok(choice) => write!(answer, "{choice:?}"),
            Err(fault) => write!(
                answer,
                "{} {}",
                fault.status().code(),
                matches!(fault, WordsFault::Workers)
            ),
        };
    }
}

fn music_command<'a>(alloc: Global) -> Result<Command<'a>, AllocError> {
    let play = bare(alloc, "play", "Plays a tune", "Tunes are files.");
    let play = with_arg(Ok(play), Arg::new(alloc, "tune"));
    let play = with_arg(play, option(alloc, "speed", "N", "How fast"));
    with_subcommand(Ok(Command::new(alloc, "music")), play)
}

/// A command line of a subcommand with a text and an option.
pub(crate) fn show_steps(alloc: Global, report: &mut Report) {
    let Ok(command) = music_command(alloc) else {
        report.fail("no memory");
        return;
    };
    let words = ["music", "play", "--speed", "7", "a.mid"];
    let Ok(matches) = command.try_get_matches_from(words.as_slice()) else {
        report.fail("no matches");
        return;
    };
    if let Some((name, entries)) = subcommand_in(&matches) {
        report.show(name, (text_in(entries, "tune"), text_in(entries, "speed")));
    }
}
