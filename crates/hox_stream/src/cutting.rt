//! Cuts text that arrives in pieces into records.
ghost use Rattle.std.specs.Prelude.{◌≡◌, IfSome, Ok, Some};
ghost use Rattle.kpn_tokens.specs.declared.layouts.Layout.TheVariants as layouts;
ghost use Rattle.hox_stream.specs.Cutting.{IsFirstRecord, IsFirstToken};

use kpn_tokens::{
    Decimals, Frame, Layout, RecordFault, Sort, Token, first_line, record_in, token_of_frame,
    token_of_record,
};
use std::alloc::Global;

/// The maximum length of a record in bytes, for a line without its line feed.
pub const LONGEST_RECORD: usize = 4096;

/// Why a record is rejected.
#[derive(Clone, Copy, Debug, PartialEq, Eq)]
pub enum Refusal {
    /// It is no token of the sort.
    Fault(RecordFault),
    /// It has more than [`LONGEST_RECORD`] bytes.
    TooLong,
}

/// What some bytes begin with: a record of `used` bytes, with or without a token; a rejected record; or no
/// whole record yet. Or out of memory.
#[derive(Clone, Copy, Debug, PartialEq, Eq)]
pub(crate) enum FirstRecord {
    Record { said: Option<Token>, used: usize },
    Refused(Refusal),
    Wanting,
    Memory,
}

/// The token of a record, and the record's length in bytes.
#[derive(Clone, Copy, Debug, PartialEq, Eq)]
pub(crate) struct FirstToken {
    pub(crate) token: Token,
    pub(crate) used: usize,
}

/// Returns the token of the first record, if that is a whole line or frame with one; see [`next_of`] for the others.
#[inline(always)]
pub(crate) fn told_by(layout: &Layout, sort: Sort, bytes: &[u8]) -> Option<FirstToken>
    ensures { IfSome result (IsFirstToken layout.now sort bytes.now) }
{
    match layout {
        Layout::Lines(decimals) => told_by_line(*decimals, sort, bytes),
        Layout::Frames(frame) => told_by_frame(frame, sort, bytes),
        Layout::Fields(_) => None,
    }
}

#[inline(always)]
fn told_by_line(decimals: Decimals, sort: Sort, bytes: &[u8]) -> Option<FirstToken>
    ensures { IfSome result (IsFirstToken (layouts.Lines decimals) sort bytes.now) }
{
    match first_line(decimals, sort, bytes) {
        Some(line) if line.length <= LONGEST_RECORD => as_told(line.said, line.length + 1),
        _ => None,
    }
}

#[inline(always)]
fn told_by_frame(frame: &Frame, sort: Sort, bytes: &[u8]) -> Option<FirstToken>
    ensures { IfSome result (IsFirstToken (layouts.Frames frame.now) sort bytes.now) }
{
    let size = frame.size();
    if bytes.is_empty() || bytes.len() < size || size > LONGEST_RECORD {
        return None;
    }
    as_told(token_of_frame(frame, sort, &bytes[..size]), size)
}

#[inline(always)]
fn as_told(said: Result<Option<Token>, RecordFault>, used: usize) -> Option<FirstToken>
    ensures said { IfSome result (λ told. said ≡ Ok (Some told.token)) }
    ensures used { IfSome result (λ told. told.used ≡ used) }
{
    match said {
        Ok(Some(token)) => Some(FirstToken { token, used }),
        _ => None,
    }
}

/// Reads the first record. If no more bytes come (`is_last`), the last record may end with the bytes.
pub(crate) fn next_of(
    alloc: Global,
    layout: Layout,
    sort: Sort,
    bytes: &[u8],
    is_last: bool,
) -> FirstRecord
    ensures { IsFirstRecord layout sort bytes.now is_last result }
{
    if let Some(told) = told_by(&layout, sort, bytes) {
        return FirstRecord::Record {
            said: Some(told.token),
            used: told.used,
        };
    }
    let Some(cut) = record_in(layout, bytes, is_last) else {
        return if bytes.len() > LONGEST_RECORD {
            FirstRecord::Refused(Refusal::TooLong)
        } else {
            FirstRecord::Wanting
        };
    };
    if cut.length > LONGEST_RECORD {
        return FirstRecord::Refused(Refusal::TooLong);
    }
    match token_of_record(alloc, layout, sort, &bytes[..cut.length]) {
        Ok(Ok(said)) => FirstRecord::Record {
            said,
            used: cut.used,
        },
        Ok(Err(fault)) => FirstRecord::Refused(Refusal::Fault(fault)),
        Err(_) => FirstRecord::Memory,
    }
}
