//! The report of a program of tests.
use std::alloc::Global;
use std::fmt::{Debug, Write};
use std::process::ExitCode;

/// What a program of tests found, line by line.
#[derive(Drop)]
pub struct Report {
    text: String,
    is_whole: bool,
}

impl Report {
    /// Begins an empty report.
    pub fn new(alloc: Global) -> Report {
        Report {
            text: String::new(alloc),
            is_whole: true,
        }
    }

    /// Appends a line `name: value`.
    pub fn show<T: Debug + Drop>(&mut self, name: &str, value: T) {
        if writeln!(self.text, "{name}: {value:?}").is_err() {
            self.is_whole = false;
        }
    }

    /// Appends a line of text.
    pub fn line(&mut self, text: &str) {
        if writeln!(self.text, "{text}").is_err() {
            self.is_whole = false;
        }
    }

    /// Notes what could not be tried, as when memory is short: the program then fails.
    pub fn fail(&mut self, why: &str) {
        self.line(why);
        self.is_whole = false;
    }

    /// Prints the report. The exit status is 1 if not all could be tried or printed.
    pub fn print<R: Print>(&self, rt: &R) -> ExitCode {
        let is_printed = print!(rt; "{}", self.text.as_str()).is_ok();
        ExitCode::from(if is_printed && self.is_whole { 0 } else { 1 })
    }
}
