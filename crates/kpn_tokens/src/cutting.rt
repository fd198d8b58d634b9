//! Where records end.
ghost use Rattle.std.specs.Prelude.{◌≡◌, true, [], ◌==◌, ◌+◌, ◌<◌, IfNone, IfSome, MatchOption, length};
ghost use Rattle.std.specs.List.{position};
ghost use Rattle.kpn_tokens.specs.Records.{IsCut, IsEnded, first, IsFrameCut, IsLineCut, first_line_length};
ghost use Rattle.kpn_tokens.specs.Rows.{is_line_feed};

use crate::layouts::{Cut, Layout};

/// Returns where the first record ends, if it is complete. With `is_last` it need not be: a line needs no
/// line feed, and reading finds the fault of a frame that ends early.
pub fn record_in(layout: Layout, bytes: &[u8], is_last: bool) -> Option<Cut>
    ensures cut { IfSome result (IsCut layout bytes.now is_last) }
    ensures none { IfNone result ((first layout bytes.now ≡ bytes.now) × (is_last ≡ true → bytes.now ≡ [])) }
    ensures unended { IfNone result (IsEnded layout bytes.now → ⊥) }
{
    let ended = match layout {
        Layout::Lines(_) | Layout::Fields(_) => line_in(bytes),
        Layout::Frames(frame) => frame_in(frame.size(), bytes),
    };
    if ended.is_some() || !is_last || bytes.is_empty() {
        return ended;
    }
    let length = bytes.len();
    Some(Cut {
        length,
        used: length,
    })
}

/// Returns the place of the first line feed.
pub fn line_feed_in(bytes: &[u8]) -> Option<usize>
    ensures { result ≡ position is_line_feed bytes.now }
{
    bytes.iter().position(|b| *b == b'\n')
}

/// Returns where the first line ends, if it has a line feed.
pub(crate) fn line_in(bytes: &[u8]) -> Option<Cut>
    ensures { MatchOption result (first_line_length bytes.now ≡ length bytes.now) (IsLineCut bytes.now) }
{
    match line_feed_in(bytes) {
        Some(length) => Some(Cut {
            length,
            used: length + 1,
        }),
        None => None,
    }
}

/// Returns where the first frame ends, if it is complete.
fn frame_in(size: usize, bytes: &[u8]) -> Option<Cut>
    ensures { MatchOption result (length bytes.now < size) (IsFrameCut size bytes.now) }
{
    if bytes.len() < size {
        return None;
    }
    Some(Cut {
        length: size,
        used: size,
    })
}
