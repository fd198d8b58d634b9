//! Reads tokens from lines of fields.
ghost use Rattle.std.specs.Prelude.{◌≡◌, ◌++◌, ◌∷◌, [], false, IfOk, Some};
ghost use Rattle.std.specs.Option.{option_map_or};
ghost use Rattle.csv.specs.Reading.{Ready, reader_config, reader_state, reader_trim, source_of, strip_bom};
ghost use Rattle.csv.specs.declared.parser.State.TheVariants as st;
ghost use Rattle.csv.specs.declared.reader.Trim.TheVariants as trim;
ghost use Rattle.csv.specs.Records.{field_at, fields_of};
ghost use Rattle.kpn_tokens.specs.Rows.{config_of, field_said, is_open, is_open_field, row_in, row_said, seen_row, ReadsRow};

use crate::layouts::{Column, RecordFault, Separator};
use crate::numbers::token_in;
use csv::{ByteRecord, Reader, ReaderBuilder};
use kpn_model::{Sort, Token};
use std::alloc::{AllocError, Global};
use std::str;

pub(crate) fn said_by_row(
    alloc: Global,
    column: Column,
    sort: Sort,
    line: &[u8],
) -> Result<Result<Option<Token>, RecordFault>, AllocError>
    ensures { IfOk result (λ said. said ≡ row_said column sort (row_in column.separator line.now)) }
{
    match row_of(alloc, column.separator, line)? {
        Ok(Some(row)) => Ok(said_by_fields(column, sort, &row)),
        Ok(None) => Ok(Ok(None)),
        Err(fault) => Ok(Err(fault)),
    }
}

/// Returns the row of a line; `None` if it is blank.
pub(crate) fn row_of(
    alloc: Global,
    separator: Separator,
    line: &[u8],
) -> Result<Result<Option<ByteRecord>, RecordFault>, AllocError>
    ensures { IfOk result (λ row. seen_row row ≡ row_in separator line.now) }
{
    let text = ended(alloc, line)?;
    let mut reader = reader_of(alloc, separator, text.as_slice());
    only_row(alloc, &mut reader)
}

/// Returns the only row that a reader has left, if any.
fn only_row(
    alloc: Global,
    reader: &mut Reader<&[u8]>,
) -> Result<Result<Option<ByteRecord>, RecordFault>, AllocError>
    ensures { ReadsRow reader.old result }
{
    let mut row = ByteRecord::new(alloc);
    let Ok(found) = reader.read_byte_record(&mut row) else {
        return Err(AllocError);
    };
    if !found {
        return Ok(Ok(None));
    }
    let mut other = ByteRecord::new(alloc);
    let Ok(more) = reader.read_byte_record(&mut other) else {
        return Err(AllocError);
    };
    if more {
        return Ok(Err(RecordFault::TwoRows));
    }
    if is_open(&row) {
        return Ok(Err(RecordFault::OpenQuote));
    }
    Ok(Ok(Some(row)))
}

/// Whether a field continues past the end of the line.
fn is_open(row: &ByteRecord) -> bool
    ensures { result ≡ is_open (fields_of row.now) }
{
    for place in 0..row.len() {
        if is_open_at(row, place) {
            return true;
        }
    }
    false
}

fn is_open_at(row: &ByteRecord, place: usize) -> bool
    ensures { result ≡ option_map_or is_open_field (field_at (fields_of row.now) place) false }
{
    match row.get(place) {
        Some(field) => field.contains(&b'\n'),
        None => false,
    }
}

/// Returns a line with its line feed.
fn ended(alloc: Global, line: &[u8]) -> Result<Vec<u8>, AllocError>
    ensures { IfOk result (λ text. text.items ≡ line.now ++ 10 ∷ []) }
{
    let mut text = Vec::with_capacity(alloc, line.len())?;
    text.extend_from_slice(line)?;
    text.extend_from_slice(b"\n")?;
    Ok(text)
}

/// Returns a reader of rows without a head.
fn reader_of(alloc: Global, separator: Separator, text: &[u8]) -> Reader<&[u8]>
    ensures config { reader_config result ≡ config_of separator }
    ensures trim { reader_trim result ≡ trim.None }
    ensures ready { Ready result }
    ensures state { reader_state result ≡ st.StartRecord }
    ensures source { source_of (λ bytes. Some bytes.now) result ≡ Some (strip_bom text.now) }
{
    ReaderBuilder::new()
        .delimiter(separator.byte())
        .has_headers(false)
        .flexible(true)
        .from_reader(alloc, text)
}

fn said_by_fields(
    column: Column,
    sort: Sort,
    row: &ByteRecord,
) -> Result<Option<Token>, RecordFault>
    ensures { result ≡ field_said column.decimals sort (field_at (fields_of row.now) column.place) }
{
    let Some(field) = row.get(column.place) else {
        return Err(RecordFault::NoField);
    };
    let Ok(text) = str::from_utf8(field) else {
        return Err(RecordFault::NoText);
    };
    let text = text.trim();
    if text.is_empty() {
        return Err(RecordFault::EmptyField);
    }
    token_in(column.decimals, sort, text)
}
