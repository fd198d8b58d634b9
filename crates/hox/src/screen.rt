//! Standard output and standard error, with messages in colour on a terminal.
use std::fmt::Display;
use std::rt::Env;
use std::{env, io};

/// Bold red, and the end of it.
const RED: &str = "\x1b[1;31m";

const PLAIN: &str = "\x1b[0m";

/// The streams of a runtime. What a message begins with, `hox:` or `error:`, is red if `is_colored`.
#[derive(Drop)]
pub(crate) struct Screen<'a, R> {
    rt: &'a R,
    is_terminal: bool,
    is_colored: bool,
}

impl<'a, R> Screen<'a, R> {
    /// Whether standard error is a terminal.
    pub(crate) fn is_terminal(&self) -> bool {
        self.is_terminal
    }
}

impl<'a, R: Env + AllocGlobal> Screen<'a, R> {
    /// Messages are in colour on a terminal, unless the environment has a nonempty `NO_COLOR`, or `TERM=dumb`.
    pub(crate) fn new(rt: &'a R, is_terminal: bool) -> Screen<'a, R> {
        let is_colored = is_terminal && !has_value(rt, "NO_COLOR") && !is_dumb(rt);
        Screen {
            rt,
            is_terminal,
            is_colored,
        }
    }
}

/// Whether the environment has this variable, and it is not empty.
fn has_value<R: Env + AllocGlobal>(rt: &R, name: &str) -> bool {
    match env::var(rt, name) {
        Ok(value) => !value.is_empty(),
        Err(_) => false,
    }
}

fn is_dumb<R: Env + AllocGlobal>(rt: &R) -> bool {
    match env::var(rt, "TERM") {
        Ok(value) => value.as_str() == "dumb",
        Err(_) => false,
    }
}

impl<'a, R: Alloc> Alloc for Screen<'a, R> {
    type A = R::A;

    fn alloc(&self) -> R::A {
        self.rt.alloc()
    }
}

impl<'a, R: Print> Print for Screen<'a, R> {
    fn print<D: Display + Drop>(&self, value: D) -> io::Result<()> {
        self.rt.print(value)
    }

    fn println<D: Display + Drop>(&self, value: D) -> io::Result<()> {
        self.rt.println(value)
    }

    fn write_all(&self, bytes: &[u8]) -> io::Result<()> {
        self.rt.write_all(bytes)
    }
}

impl<'a, R: Eprint + AllocGlobal> Eprint for Screen<'a, R> {
    fn eprint<D: Display + Drop>(&self, value: D) -> io::Result<()> {
        if !self.is_colored {
            return self.rt.eprint(value);
        }
        match format!(in self.rt.alloc(); "{value}") {
            Ok(text) => print_colored(self.rt, text.as_str(), ""),
            Err(_) => self.rt.eprint(value),
        }
    }

    fn eprintln<D: Display + Drop>(&self, value: D) -> io::Result<()> {
        if !self.is_colored {
            return self.rt.eprintln(value);
        }
        match format!(in self.rt.alloc(); "{value}") {
            Ok(text) => print_colored(self.rt, text.as_str(), "\n"),
            Err(_) => self.rt.eprintln(value),
        }
    }
}

/// Prints a text and this after it, with what a message begins with in red.
fn print_colored<R: Eprint>(rt: &R, text: &str, end: &str) -> io::Result<()> {
    for name in ["hox:", "error:"] {
        if let Some(rest) = text.strip_prefix(name) {
            return eprint!(rt; "{RED}{name}{PLAIN}{rest}{end}");
        }
    }
    eprint!(rt; "{text}{end}")
}
