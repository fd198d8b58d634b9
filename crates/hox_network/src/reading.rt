//! Reads a file of tokens to its end.
ghost use Rattle.std.specs.Prelude.{◌≡◌, ◌≢◌, ◌<◌, ◌≤◌, ◌+◌, false, true, IsTrue, IfOk};
ghost use Rattle.kpn_front.specs.Loading.{ConsumesAtMost};
ghost use Rattle.hox_network.specs.Reading.{IsWholeFile, IsTooLong};

use kpn_front::Source;
use std::alloc::Global;

/// The maximum length of a file of tokens in bytes: 64 MiB, or 67 bytes for each of 1,000,000 tokens.
pub const LONGEST_FILE: usize = 67108864;

/// How many bytes one read takes at most.
const CHUNK: usize = 4096;

/// Why reading a file of tokens failed: a read failed; more than [`LONGEST_FILE`] bytes; or out of memory.
#[derive(Clone, Copy, Debug, PartialEq, Eq)]
pub enum ReadFault {
    Failed,
    TooLong,
    Memory,
}

/// Reads a source to its end.
///
/// Errors: see [`ReadFault`]. The bytes read so far are consumed.
pub fn read_whole<S: Source>(alloc: Global, source: &mut S) -> Result<Vec<u8>, ReadFault>
    ensures ok { IfOk result (λ t. IsWholeFile (S.remaining source.old) t.items) }
    ensures long { result ≡ Err ReadFault.TooLong → IsTooLong (S.remaining source.old) }
    ensures unfailed { result ≢ Err ReadFault.Failed → S.has_failed source.new ≡ S.has_failed source.old }
    ensures failed { result ≡ Err ReadFault.Failed → S.has_failed source.new ≡ true }
    ensures taken { ConsumesAtMost (LONGEST_FILE + 1) (S.remaining source.old) (S.remaining source.new) }
{
    let mut text = Vec::new(alloc);
    let mut chunk = [0; CHUNK];
    while goes_on(text.len()) {
        let room = CHUNK.min(LONGEST_FILE + 1 - text.len());
        match source.read(&mut chunk[..room]) {
            Ok(0) => return Ok(text),
            Ok(n) => {
                if text.extend_from_slice(&chunk[..n]).is_err() {
                    return Err(ReadFault::Memory);
                }
            }
            Err(_) => return Err(ReadFault::Failed),
        }
    }
    Err(ReadFault::TooLong)
}

/// Returns whether `len` is within the limit.
fn goes_on(len: usize) -> bool
    ensures on { IsTrue result → len ≤ LONGEST_FILE }
    ensures over { result ≡ false → LONGEST_FILE < len }
{
    len <= LONGEST_FILE
}
