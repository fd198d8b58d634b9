//! How a picture is laid out, and the titles of its processes.
ghost use Rattle.std.specs.Prelude.{◌≡◌, ◌++◌, ◌<◌, [], OnOk, map, slice_index_or, string_bytes};
ghost use Rattle.kpn_picture.specs.Picture.{drawn_byte, title_text};

use crate::looks::Direction;
use kpn_model::Text;
use std::alloc::AllocError;

/// How a picture is laid out: in which direction its channels lead, and titles of its processes. Title `p`, unless
/// it is empty, stands in the box of process `p` in place of its kind and arguments: its first 37 bytes and `...` if
/// it has more than 40, with a blank for each byte that is not printable ASCII, or a quote or a backslash.
#[derive(Clone, Copy)]
pub struct Style<'a> {
    pub direction: Direction,
    pub titles: &'a [Text],
}

/// The most bytes of a title that is drawn whole.
const LONGEST: usize = 40;

/// How many bytes are drawn of a longer title, before `...`.
const SHORTENED: usize = 37;

/// Returns the title of a process, empty if it has none.
pub(crate) fn title_at(titles: &[Text], p: usize) -> &str
    ensures { result.now ≡ slice_index_or titles.now p [] }
{
    match titles.get(p) {
        Some(title) => title.as_str(),
        None => "",
    }
}

/// Appends a title as it is drawn.
pub(crate) fn push_title(out: &mut String, title: &str) -> Result<(), AllocError>
    ensures { OnOk result (string_bytes out.new ≡ string_bytes out.old ++ title_text title.now) }
{
    let bytes = title.as_bytes();
    if bytes.len() <= LONGEST {
        return push_bytes(out, bytes);
    }
    let (first, _) = bytes.split_at(SHORTENED);
    push_bytes(out, first)?;
    out.push_str("...")
}

fn push_bytes(out: &mut String, bytes: &[u8]) -> Result<(), AllocError>
    ensures { OnOk result (string_bytes out.new ≡ string_bytes out.old ++ map drawn_byte bytes.now) }
{
    for byte in bytes {
        out.push(drawn_byte(*byte))?;
    }
    Ok(())
}

fn drawn_byte(byte: u8) -> char
    ensures is { result ≡ drawn_byte byte }
    ensures ascii { result < 128 }
{
    match byte {
        b'"' | b'\\' => ' ',
        b' '..=b'~' => char::from(byte),
        _ => ' ',
    }
}
