//! Sources that remember a failed read.
ghost use Rattle.std.specs.Prelude.{◌≡◌};

use kpn_front::Source;
use std::io;

/// A source, and why its last failed read failed.
#[derive(Drop)]
pub struct Watched<S> {
    source: S,
    error: Option<io::Error>,
}

impl<S> Watched<S> {
    /// Watches a source. No read of it has failed yet.
    pub fn new(source: S) -> Watched<S>
        ensures { result.source ≡ source }
    {
        Watched {
            source,
            error: None,
        }
    }

    /// Returns why the last failed read failed, if one has.
    pub fn error(&self) -> Option<io::Error> {
        self.error
    }

    /// Returns why the last failed read failed; `Other` if none has.
    pub fn reason(&self) -> io::Error {
        match self.error {
            Some(error) => error,
            None => io::ErrorKind::Other.into(),
        }
    }
}

impl<S: Source> Source for Watched<S> {
    ghost remaining = { λ w. S.remaining w.source };

    ghost is_steady = { λ w. S.is_steady w.source };

    ghost has_failed = { λ w. S.has_failed w.source };

    fn read(&mut self, buf: &mut [u8]) -> io::Result<usize> {
        let read = self.source.read(buf);
        if let Err(error) = read {
            self.error = Some(error);
        }
        read
    }
}
