//! Standard input, standard output and files, as sources and sinks of a stream.
ghost use Rattle.std.specs.Prelude.{◌≡◌, false, None, is_some};
ghost use Rattle.std.specs.Io.{ReadsAtMost};

use hox_messages::Failing;
use kpn_front::{Sink, Source};
use std::io;
use std::io::{Read, Write};

/// Where a source's bytes come from.
#[derive(Drop)]
pub(crate) enum Origin<I, F> {
    Input(I),
    File(F),
}

/// A source that may fail at any time. Contracts know nothing of its bytes.
#[derive(Drop)]
pub(crate) struct Tap<I, F> {
    origin: Origin<I, F>,
    error: Option<io::Error>,
}

impl<I, F> Tap<I, F> {
    /// No read has failed yet.
    pub(crate) fn new(origin: Origin<I, F>) -> Tap<I, F>
        ensures { result.error ≡ None }
    {
        Tap {
            origin,
            error: None,
        }
    }
}

impl<I, F> Failing for Tap<I, F> {
    fn error(&self) -> Option<io::Error> {
        self.error
    }
}

impl<I: Read, F: Read> Source for Tap<I, F> {
    ghost remaining = { λ _. None };

    ghost is_steady = { λ _. false };

    ghost has_failed = { λ s. is_some s.error };

    fn read(&mut self, buf: &mut [u8]) -> io::Result<usize> {
        let read = read_from(&mut self.origin, buf);
        if let Err(error) = read {
            self.error = Some(error);
        }
        read
    }
}

fn read_from<I: Read, F: Read>(origin: &mut Origin<I, F>, buf: &mut [u8]) -> io::Result<usize>
    ensures { ReadsAtMost result buf.new }
{
    match origin {
        Origin::Input(input) => input.read(buf),
        Origin::File(file) => file.read(buf),
    }
}

/// Where a sink's bytes go.
#[derive(Drop)]
pub(crate) enum Target<O, F> {
    Output(O),
    File(F),
}

/// A sink that may fail at any time. Contracts know nothing of its bytes.
#[derive(Drop)]
pub(crate) struct Spout<O, F> {
    target: Target<O, F>,
    error: Option<io::Error>,
}

impl<O, F> Spout<O, F> {
    /// No write has failed yet.
    pub(crate) fn new(target: Target<O, F>) -> Spout<O, F> {
        Spout {
            target,
            error: None,
        }
    }
}

impl<O, F> Failing for Spout<O, F> {
    fn error(&self) -> Option<io::Error> {
        self.error
    }
}

impl<O: Write, F: Write> Sink for Spout<O, F> {
    ghost seen = { λ _. record { contents = None; takes = λ _. false } };

    fn write_all(&mut self, bytes: &[u8]) -> io::Result<()> {
        let written = match &mut self.target {
            Target::Output(output) => output.write_all(bytes),
            Target::File(file) => file.write_all(bytes),
        };
        if let Err(error) = written {
            self.error = Some(error);
        }
        written
    }
}
