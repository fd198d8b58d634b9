//! Reads a file record by record.
ghost use Rattle.std.specs.Prelude.{◌≡◌, ◌≢◌, ◌<◌, ◌≤◌, ◌+◌, Ok, Err, IfErr, IfOk, IfSome, length};
ghost use Rattle.std.specs.List.{AllByRecursion};
ghost use Rattle.kpn_model.specs.Valid.{IsOfSort};
ghost use Rattle.kpn_tokens.specs.Records.{Say, first, record_said, rest, HasTooMany, NamesFaultOf, NamesFirstFault};

use crate::cutting::record_in;
use crate::layouts::{Layout, RecordFault};
use crate::saying::token_of_record;
use kpn_model::{Sort, Token};
use std::alloc::Global;

/// The most tokens of a file.
pub const MOST_TOKENS: usize = 1000000;

/// Why a file has no tokens: the fault of a record, with its number, counted from 1; more than 1,000,000
/// tokens; or out of memory.
#[derive(Clone, Copy, Debug, PartialEq, Eq)]
pub enum TokensFault {
    Record { number: usize, fault: RecordFault },
    TooMany,
    Memory,
}

/// Returns the tokens of a file, each record read like [`token_of_record`]. The last line needs no line feed.
///
/// Errors: see [`TokensFault`]. Of faulty records it is the first.
pub fn read_tokens(
    alloc: Global,
    layout: Layout,
    sort: Sort,
    bytes: &[u8],
) -> Result<Vec<Token>, TokensFault>
    ensures says { IfOk result (λ tokens. Say layout sort bytes.now tokens.items) }
    ensures sorted { IfOk result (λ tokens. AllByRecursion (IsOfSort sort) tokens.items) }
    ensures few { IfOk result (λ tokens. length tokens.items ≤ 1000000) }
    ensures line { NamesFirstFault layout sort bytes.now result }
    ensures many { result ≡ Err TokensFault.TooMany → HasTooMany layout sort bytes.now }
{
    let mut tokens = Vec::new(alloc);
    let mut rest = bytes;
    let mut number = 0;
    while !rest.is_empty() {
        number += 1;
        let (first, after) = first_record(layout, rest);
        match token_at(alloc, layout, sort, number, first) {
            Ok(Some(token)) => {
                if tokens.len() == MOST_TOKENS {
                    return Err(TokensFault::TooMany);
                }
                if tokens.push(token).is_err() {
                    return Err(TokensFault::Memory);
                }
            }
            Ok(None) => {}
            Err(fault) => return Err(fault),
        }
        rest = after;
    }
    Ok(tokens)
}

fn token_at(
    alloc: Global,
    layout: Layout,
    sort: Sort,
    number: usize,
    bytes: &[u8],
) -> Result<Option<Token>, TokensFault>
    ensures said { IfOk result (λ said. record_said layout sort bytes.now ≡ Ok said) }
    ensures sorted { IfOk result (λ said. IfSome said (IsOfSort sort)) }
    ensures fault { IfErr result (NamesFaultOf layout sort bytes.now number) }
    ensures few { IfErr result (λ e. e ≢ TokensFault.TooMany) }
{
    match token_of_record(alloc, layout, sort, bytes) {
        Ok(Ok(said)) => Ok(said),
        Ok(Err(fault)) => Err(TokensFault::Record { number, fault }),
        Err(_) => Err(TokensFault::Memory),
    }
}

fn first_record(layout: Layout, bytes: &[u8]) -> (&[u8], &[u8])
    requires { 0 < length bytes.now }
    ensures first { result.0.now ≡ first layout bytes.now }
    ensures rest { result.1.now ≡ rest layout bytes.now }
    ensures shorter { length result.1.now + 1 ≤ length bytes.now }
{
    match record_in(layout, bytes, true) {
        Some(cut) => (&bytes[..cut.length], &bytes[cut.used..]),
        None => (bytes, &[]),
    }
}
