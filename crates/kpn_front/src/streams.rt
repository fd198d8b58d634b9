//! Readers and writers with contracts that say when they can't fail.
ghost use Rattle.std.specs.Prelude.{◌||◌, not, is_ok, ◌≡◌, ◌+◌, ℕ, Bool, true, false, List, Option, Some, OnOk, IsOk, length, vec_len, vec_capacity, nat_le};
ghost use Rattle.std.specs.Io.{ReadsAtMost};
ghost use Rattle.std.specs.Io.KnownBytes.{ReadConsumes, Appends};
ghost use Rattle.kpn_front.specs.Written.{SinkView, LeavesRoom};

use std::io;
use std::io::{Read, Write};

/// A source of bytes. `remaining` is what is left to read, if known; `is_steady` if no read fails;
/// `has_failed` if some read has failed.
pub trait Source {
    ghost remaining: { Self → Option (List ℕ) };

    ghost is_steady: { Self → Bool };

    ghost has_failed: { Self → Bool };

    /// Reads the next bytes into the front of `buf`, and returns their number; 0 only at the end or if `buf`
    /// is empty. A read that fails consumes nothing.
    fn read(&mut self, buf: &mut [u8]) -> io::Result<usize>
        ensures bound { ReadsAtMost result buf.new }
        ensures bytes { ReadConsumes (remaining self.old) (remaining self.new) result buf.new }
        ensures steady { is_steady self.old ≡ true → IsOk result × (is_steady self.new ≡ true) }
        ensures failed { has_failed self.new ≡ (has_failed self.old || not (is_ok result)) };
}

/// A sink of bytes. `seen` has what has been written, if known, and whether a number of further bytes can be
/// written without failure, in one write or several.
pub trait Sink {
    ghost seen: { Self → SinkView };

    /// Writes all the bytes. If it fails, some may have been written.
    fn write_all(&mut self, bytes: &[u8]) -> io::Result<()>
        ensures bytes { OnOk result (Appends (seen self.old).contents (seen self.new).contents bytes.now) }
        ensures room { (seen self.old).takes (length bytes.now) ≡ true → IsOk result }
        ensures left { LeavesRoom (seen self.old) (seen self.new) (length bytes.now) result };
}

/// A reader or writer that may fail at any time, like a file or a terminal. Remembers whether a read has
/// failed.
#[derive(Drop)]
pub struct Fallible<S> {
    inner: S,
    has_failed: bool,
}

impl<S> Fallible<S> {
    /// Wraps a reader or writer.
    pub fn new(inner: S) -> Fallible<S>
        ensures inner { result.inner ≡ inner }
        ensures has_failed { result.has_failed ≡ false }
    {
        Fallible {
            inner,
            has_failed: false,
        }
    }
}

impl<R: Read> Source for Fallible<R> {
    ghost remaining = { λ s. R.remaining s.inner };

    ghost is_steady = { λ _. false };

    ghost has_failed = { λ s. s.has_failed };

    fn read(&mut self, buf: &mut [u8]) -> io::Result<usize> {
        let read = self.inner.read(buf);
        self.has_failed = self.has_failed || read.is_err();
        read
    }
}

impl<W: Write> Sink for Fallible<W> {
    ghost seen = { λ s. record { contents = W.contents s.inner; takes = λ _. false } };

    fn write_all(&mut self, bytes: &[u8]) -> io::Result<()> {
        self.inner.write_all(bytes)
    }
}

/// Bytes in memory. Reads take the first of them and never fail.
impl Source for &[u8] {
    ghost remaining = { λ s. Some s.now };

    ghost is_steady = { λ _. true };

    ghost has_failed = { λ _. false };

    fn read(&mut self, buf: &mut [u8]) -> io::Result<usize> {
        Read::read(self, buf)
    }
}

/// A vector; writes append to it. One that fits its capacity does not fail.
impl Sink for Vec<u8> {
    ghost seen = { λ v. record { contents = Some v.items; takes = λ n. nat_le (vec_len v + n) (vec_capacity v) } };

    fn write_all(&mut self, bytes: &[u8]) -> io::Result<()> {
        self.extend_from_slice(bytes)?;
        Ok(())
    }
}
