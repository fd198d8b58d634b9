//! Bytes as C passes them.
ghost use Rattle.std.specs.Prelude.{◌≡◌};

/// Returns the bytes; an empty text if there are none, because the caller's pointer may then be null.
pub(crate) fn bytes_of(bytes: &[u8]) -> &[u8]
    ensures { result.now ≡ bytes.now }
{
    if bytes.is_empty() { &[] } else { bytes }
}
