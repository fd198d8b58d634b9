//! Sources that are partly read.
ghost use Rattle.std.specs.Prelude.{◌≡◌, ◌≤◌, ◌-◌, length, take, min, vec_len, option_map};
ghost use Rattle.std.specs.Option.{option_map_or};

use kpn_front::Source;
use std::io;

/// A source whose first bytes were already read: it yields these again, then reads on, up to a total size, if known.
#[derive(Drop)]
pub struct Resumed<S> {
    pub(crate) held: Vec<u8>,
    pub(crate) next: usize,
    pub(crate) source: S,
    pub(crate) left: Option<u64>,
    ghost within: { next ≤ vec_len held },
}

impl<S: Source> Source for Resumed<S> {
    ghost use Rattle.hox_format.specs.Resuming.{left_of, resumed_has_failed};

    ghost remaining = { λ r. left_of S.remaining r };

    ghost is_steady = { λ r. S.is_steady r.source };

    ghost has_failed = { λ r. resumed_has_failed S.has_failed r };

    fn read(&mut self, buf: &mut [u8]) -> io::Result<usize> {
        let most = most_of(self.left, buf.len());
        if self.next < self.held.len() {
            let n = copy_front(&self.held[self.next..], &mut buf[..most]);
            self.next += n;
            self.left = less(self.left, n);
            return Ok(n);
        }
        let n = self.source.read(&mut buf[..most])?;
        self.left = less(self.left, n);
        Ok(n)
    }
}

/// Returns how many bytes to read at most into a buffer of this length.
fn most_of(left: Option<u64>, length: usize) -> usize
    ensures { result ≡ option_map_or (λ n. min n length) left length }
{
    match left {
        Some(left) if left < length as u64 => left as usize,
        _ => length,
    }
}

fn less(left: Option<u64>, read: usize) -> Option<u64>
    ensures { result ≡ option_map (λ n. n - read) left }
{
    match left {
        Some(left) => Some(left.saturating_sub(read as u64)),
        None => None,
    }
}

/// Copies as many bytes as fit to the front of a buffer. Returns how many.
fn copy_front(bytes: &[u8], buf: &mut [u8]) -> usize
    ensures count { result ≡ min (length bytes.now) (length buf.old) }
    ensures copied { take result buf.new ≡ take result bytes.now }
{
    let count = bytes.len().min(buf.len());
    buf[..count].copy_from_slice(&bytes[..count]);
    count
}
