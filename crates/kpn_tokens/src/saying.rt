//! Reads the token of a record.
ghost use Rattle.std.specs.Prelude.{◌≡◌, ◌==◌, ◌<◌, IfNone, IfOk, IfSome, length, slice_index};
ghost use Rattle.std.specs.List.{before_first, position_or_len};
ghost use Rattle.csv.specs.Reading.{is_bom, strip_bom};
ghost use Rattle.kpn_tokens.specs.Records.{IsSaidOf, cell, record_said, text_said, line_said};
ghost use Rattle.kpn_tokens.specs.Rows.{is_line_feed};

use crate::cutting::line_in;
use crate::layouts::{Decimals, Layout, RecordFault};
use crate::numbers::token_in;
use crate::rows::said_by_row;
use crate::samples::token_of_frame;
use crate::word_lines::word_line_in;
use kpn_model::{Sort, Token};
use std::alloc::{AllocError, Global};
use std::str;

/// Returns the token of a record, given without its line feed; `None` if it has none, like a blank line; or
/// what is wrong with it. Only a line of fields takes memory.
///
/// A line has its token in its first column, before `#`, which begins a comment, and the first comma, without
/// surrounding blanks. A number is decimal, or hexadecimal after `0x` or `0X`, with or without a sign, from
/// -2^63 to 2^64 - 1. A flag is `true` or `false`; as a sample, 1 or 0. A byte order mark before a line is
/// ignored.
///
/// Errors: out of memory.
pub fn token_of_record(
    alloc: Global,
    layout: Layout,
    sort: Sort,
    bytes: &[u8],
) -> Result<Result<Option<Token>, RecordFault>, AllocError>
    ensures said { IfOk result (λ said. said ≡ record_said layout sort bytes.now) }
    ensures sorted { IfOk result (IsSaidOf sort) }
{
    match layout {
        Layout::Lines(decimals) => Ok(said_by_line(decimals, sort, without_mark(bytes))),
        Layout::Fields(column) => said_by_row(alloc, column, sort, bytes),
        Layout::Frames(frame) => Ok(token_of_frame(&frame, sort, bytes)),
    }
}

/// A line: its bytes without the line feed, and what it says.
#[derive(Clone, Copy, Debug)]
pub struct Line {
    pub length: usize,
    pub said: Result<Option<Token>, RecordFault>,
}

/// Returns the first line of a file and its token, like [`token_of_record`]; `None` without a line feed.
#[inline(always)]
pub fn first_line(decimals: Decimals, sort: Sort, bytes: &[u8]) -> Option<Line>
    ensures none { IfNone result (position_or_len is_line_feed bytes.now ≡ length bytes.now) }
    ensures ends { IfSome result (λ line. line.length ≡ position_or_len is_line_feed bytes.now) }
    ensures within { IfSome result (λ line. line.length < length bytes.now) }
    ensures said { IfSome result (λ line. line.said ≡ line_said decimals sort bytes.now) }
    ensures sorted { IfSome result (λ line. IsSaidOf sort line.said) }
{
    if decimals.digits == 0 && matches!(sort, Sort::Words) {
        if let Some(line) = word_line_in(bytes) {
            return Some(Line {
                length: line.length,
                said: Ok(Some(Token::Word(line.word))),
            });
        }
    }
    match line_in(bytes) {
        Some(cut) => Some(Line {
            length: cut.length,
            said: said_by_line(decimals, sort, without_mark(&bytes[..cut.length])),
        }),
        None => None,
    }
}

fn without_mark(text: &[u8]) -> &[u8]
    ensures { result.now ≡ strip_bom text.now }
{
    if is_marked(text) { &text[3..] } else { text }
}

fn is_marked(text: &[u8]) -> bool
    ensures { result ≡ is_bom (slice_index text.now 0) (slice_index text.now 1) (slice_index text.now 2) }
{
    text.len() > 2 && text[0] == 0xEF && text[1] == 0xBB && text[2] == 0xBF
}

#[cold]
#[inline(never)]
fn said_by_line(decimals: Decimals, sort: Sort, line: &[u8]) -> Result<Option<Token>, RecordFault>
    ensures { result ≡ text_said decimals sort line.now }
{
    let Ok(text) = str::from_utf8(line) else {
        return Err(RecordFault::NoText);
    };
    let cell = cell_of(text);
    if cell.is_empty() {
        return Ok(None);
    }
    token_in(decimals, sort, cell)
}

/// The first column, without surrounding blanks.
fn cell_of(line: &str) -> &str
    ensures { result.now ≡ cell line.now }
{
    before(before(line, '#'), ',').trim()
}

fn before(text: &str, mark: char) -> &str
    requires { mark < 128 }
    ensures { result.now ≡ before_first (λ b. b == mark) text.now }
{
    match text.split_once(mark) {
        Some((before, _)) => before,
        None => text,
    }
}
