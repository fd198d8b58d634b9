//! The files of the system, standard input and standard output, and standard error.
use crate::progress::ProgressLine;
use crate::same::can_clash;
use crate::screen::Screen;
use crate::taps::{Origin, Spout, Tap, Target};
use crate::whole::write_whole;
use hox_execute::FileSystem;
use hox_messages::say_unwritten;
use std::io::Write;
use std::rt::Files;
use std::{fs, io};

/// The files of the system. Contracts know nothing of their bytes. The line of progress is cleared before anything
/// is written.
#[derive(Drop)]
pub(crate) struct Host<'a, R> {
    rt: &'a R,
    screen: &'a Screen<'a, R>,
    line: &'a ProgressLine<'a, R>,
}

impl<'a, R> Host<'a, R> {
    /// The files of the system beside this screen and line of progress.
    pub(crate) fn new(
        rt: &'a R,
        screen: &'a Screen<'a, R>,
        line: &'a ProgressLine<'a, R>,
    ) -> Host<'a, R> {
        Host { rt, screen, line }
    }
}

impl<'a, R: Files + Input + Print + Eprint + AllocGlobal> FileSystem for Host<'a, R> {
    ghost use Rattle.std.specs.Prelude.{None, false};

    type Input = Tap<R::Reader, R::File>;

    type Output = Spout<io::Printer<'a, R>, R::File>;

    ghost contents = { λ _ _. None };

    ghost clash = { λ _ _ _ _ _. None };

    ghost effects = { λ _. None };

    ghost is_steady = { λ _. false };

    fn open(&self, name: &str) -> io::Result<Tap<R::Reader, R::File>> {
        let origin = if is_input(name) {
            Origin::Input(self.rt.reader())
        } else {
            Origin::File(fs::open(self.rt, name)?)
        };
        Ok(Tap::new(origin))
    }

    fn clashes(&self, one: &str, writes_one: bool, other: &str, writes_other: bool) -> bool {
        can_clash(self.rt, one, writes_one, other, writes_other)
    }

    fn create(&self, name: &str) -> io::Result<Spout<io::Printer<'a, R>, R::File>> {
        if is_output(name) {
            Ok(Spout::new(Target::Output(io::writer(self.rt))))
        } else {
            Ok(Spout::new(Target::File(fs::create(self.rt, name)?)))
        }
    }

    fn write(&mut self, name: &str, bytes: &[u8]) -> io::Result<()> {
        self.line.clear();
        let written = if is_output(name) {
            io::writer(self.rt).write_all(bytes)
        } else {
            write_whole(self.rt, name, bytes)
        };
        if let Err(error) = written {
            say_unwritten(self.screen, name, error);
        }
        written
    }

    fn say(&mut self, text: &str) -> io::Result<()> {
        self.line.clear();
        eprint!(self.rt; "{text}")
    }
}

/// Whether this is a name of standard input.
pub(crate) fn is_input(name: &str) -> bool {
    matches!(name, "-" | "/dev/stdin" | "/dev/fd/0" | "/proc/self/fd/0")
}

/// Whether this is a name of standard output.
pub(crate) fn is_output(name: &str) -> bool {
    matches!(name, "-" | "/dev/stdout" | "/dev/fd/1" | "/proc/self/fd/1")
}
