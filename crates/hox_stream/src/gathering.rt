//! Reads the tokens of many records at once.
ghost use Rattle.std.specs.Prelude.{◌≤◌, length};
ghost use Rattle.hox_stream.specs.Gathering.{Gathers};

use crate::cutting::told_by;
use kpn_tokens::{Layout, Sort, Token};

/// Bytes of a source that are read and not yet taken, and their layout and sort.
#[derive(Clone, Copy)]
pub(crate) struct Kept<'a> {
    pub(crate) layout: &'a Layout,
    pub(crate) sort: Sort,
    pub(crate) bytes: &'a [u8],
}

/// Reads the tokens of the first records, at most `most`, and where each ends, up to one that [`told_by`]
/// leaves. Returns their number.
pub(crate) fn gather(
    kept: &Kept<'_>,
    most: usize,
    tokens: &mut [Token],
    ends: &mut [usize],
) -> usize
    requires tokens { most ≤ length tokens.old }
    requires ends { most ≤ length ends.old }
    ensures few { result ≤ most }
    ensures gathers { Gathers kept.now.layout.now kept.now.sort kept.now.bytes.now tokens.new ends.new result }
{
    let mut end = 0;
    for count in 0..most {
        let Some(told) = told_by(kept.layout, kept.sort, &kept.bytes[end..]) else {
            return count;
        };
        end += told.used;
        tokens[count] = told.token;
        ends[count] = end;
    }
    most
}
