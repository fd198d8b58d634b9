//! Rows of names, before the rows of a CSV file.
ghost use Rattle.std.specs.Prelude.{◌≡◌, ◌++◌, false, IfOk, OnOk, position};
ghost use Rattle.std.specs.Option.{option_map_or};
ghost use Rattle.csv.specs.Records.{field_at, fields_of};
ghost use Rattle.kpn_tokens.specs.Heads.{column_in, is_name, names_row_text};
ghost use Rattle.kpn_tokens.specs.Rows.{row_in};

use crate::layouts::{RecordFault, Separator};
use crate::rows::row_of;
use csv::{ByteRecord, WriterBuilder};
use std::alloc::{AllocError, Global};
use std::str;

/// Returns the place of the first column of this name in a row of names, given without its line feed; or what
/// is wrong with the row.
///
/// Errors: out of memory.
pub fn column_named(
    alloc: Global,
    separator: Separator,
    row: &[u8],
    name: &str,
) -> Result<Result<usize, RecordFault>, AllocError>
    ensures { IfOk result (λ place. place ≡ column_in name.now (row_in separator row.now)) }
{
    match row_of(alloc, separator, row)? {
        Ok(Some(names)) => match place_named(&names, name) {
            Some(place) => Ok(Ok(place)),
            None => Ok(Err(RecordFault::NoField)),
        },
        Ok(None) => Ok(Err(RecordFault::NoField)),
        Err(fault) => Ok(Err(fault)),
    }
}

fn place_named(names: &ByteRecord, name: &str) -> Option<usize>
    ensures { result ≡ position (is_name name.now) (fields_of names.now) }
{
    for place in 0..names.len() {
        if is_name_at(names, place, name) {
            return Some(place);
        }
    }
    None
}

fn is_name_at(names: &ByteRecord, place: usize, name: &str) -> bool
    ensures { result ≡ option_map_or (is_name name.now) (field_at (fields_of names.now) place) false }
{
    match names.get(place) {
        Some(field) => is_name(name, field),
        None => false,
    }
}

/// Whether a field has this name, apart from surrounding blanks.
fn is_name(name: &str, field: &[u8]) -> bool
    ensures { result ≡ is_name name.now field.now }
{
    match str::from_utf8(field) {
        Ok(text) => text.trim() == name,
        Err(_) => false,
    }
}

/// Appends a row of names, quoted where necessary, with a line feed.
///
/// Errors: out of memory. Appends nothing then.
pub fn append_names(
    alloc: Global,
    out: &mut Vec<u8>,
    separator: Separator,
    names: &[&[u8]],
) -> Result<(), AllocError>
    ensures { OnOk result (out.new.items ≡ out.old.items ++ names_row_text separator names.now) }
{
    let mut writer = WriterBuilder::new()
        .delimiter(separator.byte())
        .from_writer(Vec::new(alloc));
    if writer.write_fields(names).is_err() {
        return Err(AllocError);
    }
    match writer.into_inner() {
        Ok(text) => out.extend_from_slice(text.as_slice()),
        Err(_) => Err(AllocError),
    }
}
