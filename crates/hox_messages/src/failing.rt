//! Sources and sinks that remember why they failed.
use hox_format::Resumed;
use std::io;

/// What remembers why the last read or write that failed did so.
pub trait Failing {
    /// Returns why the last read or write that failed did so; `None` if none has.
    fn error(&self) -> Option<io::Error>;
}

impl<S: Failing> Failing for Resumed<S> {
    fn error(&self) -> Option<io::Error> {
        self.source().error()
    }
}
