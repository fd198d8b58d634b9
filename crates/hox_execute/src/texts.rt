//! The contents of the files of streams.
ghost use Rattle.std.specs.Prelude.{◌≡◌, IfOk, map};
ghost use Rattle.std.specs.List.{flat_map};
ghost use Rattle.kpn_tokens.specs.Records.{record_text};
ghost use Rattle.kpn_tokens.specs.Tables.{column_of};
ghost use Rattle.hox_run.specs.Telling.{fitting};
ghost use Rattle.hox_files.specs.Files.{texts_in};
ghost use Rattle.hox_files.specs.Pairs.{channels_of, group_in};
ghost use Rattle.hox_execute.specs.Reports.{alone_text, body_text, columns, file_note, file_text, file_texts, rate_of, table_in, text_of};

use hox_files::pairs::{Pair, shared_in};
use hox_format::{FileHead, append_head, append_tail, decimals_of, layout_of};
use hox_network::TokenFile;
use hox_run::StreamFile;
use kpn_model::Listed;
use kpn_tokens::{
    AppendFault, Layout, Separator, Table, Token, TokenColumn, append_table, append_tokens, longest,
};
use std::alloc::{AllocError, Global};

/// The samples per second of a WAV file if no input states them.
pub(crate) const USUAL_RATE: u32 = 44100;

/// What was written to the file of a stream: how many tokens; how many of them were clipped to the nearest
/// value that fits; and whether the next one does not fit.
#[derive(Clone, Copy, Debug, PartialEq, Eq)]
pub struct FileNote {
    pub tokens: usize,
    pub clipped: usize,
    pub is_misfit: bool,
}

/// Returns what is written to each of these files. Errors: out of memory.
pub(crate) fn file_notes(alloc: Global, files: &[StreamFile]) -> Result<Vec<FileNote>, AllocError>
    ensures { IfOk result (λ notes. notes.items ≡ map file_note files.now) }
{
    let mut notes = Vec::with_capacity(alloc, files.len())?;
    for file in files {
        notes.push(file_note(file))?;
    }
    Ok(notes)
}

fn file_note(file: &StreamFile) -> FileNote
    ensures { result ≡ file_note file.now }
{
    FileNote {
        tokens: file.tokens.as_slice().len(),
        clipped: file.clipped,
        is_misfit: file.is_misfit,
    }
}

/// Returns the first stated number of samples per second, or else `USUAL_RATE`.
pub(crate) fn rate_of(files: &[TokenFile]) -> u32
    ensures { result ≡ rate_of files.now }
{
    for file in files {
        if let Some(rate) = file.rate {
            return rate;
        }
    }
    USUAL_RATE
}

/// Returns the contents of the files of streams, in order; `pairs` and `files` correspond. Errors: out of memory.
pub(crate) fn file_texts(
    alloc: Global,
    rate: u32,
    pairs: &[Pair<'_>],
    files: &[StreamFile],
) -> Result<Vec<Listed<u8>>, AllocError>
    ensures { IfOk result (λ texts. texts.items ≡ file_texts rate pairs.now files.now) }
{
    let mut texts = Vec::new(alloc);
    for k in 0..pairs.len().min(files.len()) {
        if pairs[k].place == 0 {
            texts.push(file_text(alloc, rate, &pairs[k..], &files[k..])?)?;
        }
    }
    Ok(texts)
}

/// Returns the contents of the file of the first of these pairs.
fn file_text(
    alloc: Global,
    rate: u32,
    pairs: &[Pair<'_>],
    files: &[StreamFile],
) -> Result<Listed<u8>, AllocError>
    ensures { IfOk result (λ text. text ≡ file_text rate pairs.now files.now) }
{
    let Some(first) = pairs.first() else {
        return Ok(Listed::new(Vec::new(alloc)));
    };
    let group = group_of(pairs);
    let names = byte_names(alloc, group)?;
    let columns = columns_of(alloc, group, files)?;
    text_of(alloc, rate, first, names.as_slice(), columns.as_slice())
}

/// Returns the first pair and those after it that share its file.
pub(crate) fn group_of<'a, 'b>(pairs: &'b [Pair<'a>]) -> &'b [Pair<'a>]
    ensures { result.now ≡ group_in pairs.now }
{
    match pairs.first() {
        Some(first) => &pairs[..first.count.min(pairs.len())],
        None => pairs,
    }
}

pub(crate) fn byte_names<'a>(alloc: Global, pairs: &[Pair<'a>]) -> Result<Vec<&'a [u8]>, AllocError>
    ensures { IfOk result (λ v. texts_in v.items ≡ channels_of pairs.now) }
{
    let mut names = Vec::with_capacity(alloc, pairs.len())?;
    for pair in pairs {
        names.push(pair.channel.as_bytes())?;
    }
    Ok(names)
}

/// Returns the tokens of a file, channel by channel.
fn columns_of<'a>(
    alloc: Global,
    pairs: &[Pair<'_>],
    files: &'a [StreamFile],
) -> Result<Vec<TokenColumn<'a>>, AllocError>
    ensures { IfOk result (λ v. map column_of v.items ≡ columns pairs.now files.now) }
{
    let mut columns = Vec::new(alloc);
    for k in 0..pairs.len().min(files.len()) {
        columns.push(TokenColumn {
            decimals: decimals_of(&pairs[k].format),
            tokens: files[k].tokens.as_slice(),
        })?;
    }
    Ok(columns)
}

fn text_of(
    alloc: Global,
    rate: u32,
    pair: &Pair<'_>,
    names: &[&[u8]],
    columns: &[TokenColumn<'_>],
) -> Result<Listed<u8>, AllocError>
    ensures { IfOk result (λ text. text ≡ text_of rate pair.now (texts_in names.now) (map column_of columns.now)) }
{
    let frames = Some(longest(columns).min(u32::MAX as usize) as u32);
    let body = body_text(alloc, pair, columns)?;
    let bytes = body.as_slice();
    let head = FileHead {
        names,
        rate,
        frames,
    };
    let mut text = Vec::new(alloc);
    append_head(alloc, &mut text, &pair.format, &head)?;
    text.extend_from_slice(bytes)?;
    append_tail(&mut text, &pair.format, bytes.len() as u64, frames)?;
    Ok(Listed::new(text))
}

/// Returns the tokens of a single channel as records, or those of several as rows.
fn body_text(
    alloc: Global,
    pair: &Pair<'_>,
    columns: &[TokenColumn<'_>],
) -> Result<Vec<u8>, AllocError>
    ensures { IfOk result (λ text. text.items ≡ body_text pair.now (map column_of columns.now)) }
{
    if pair.is_alone() {
        return alone_text(alloc, layout_of(&pair.format), columns);
    }
    let mut text = Vec::new(alloc);
    append_table(alloc, &mut text, table_in(pair), columns)?;
    Ok(text)
}

/// Returns the tokens of the first column as records, up to one that does not fit.
fn alone_text(
    alloc: Global,
    layout: Layout,
    columns: &[TokenColumn<'_>],
) -> Result<Vec<u8>, AllocError>
    ensures { IfOk result (λ text. text.items ≡ alone_text layout (map column_of columns.now)) }
{
    match columns.first() {
        Some(column) => records_of(alloc, layout, column.tokens),
        None => Ok(Vec::new(alloc)),
    }
}

fn records_of(alloc: Global, layout: Layout, tokens: &[Token]) -> Result<Vec<u8>, AllocError>
    ensures { IfOk result (λ text. text.items ≡ flat_map (record_text layout) (fitting layout tokens.now)) }
{
    let mut text = Vec::new(alloc);
    match append_tokens(&mut text, layout, tokens) {
        Ok(_) => Ok(text),
        Err(AppendFault::DoesNotFit { place: _ }) => Ok(text),
        Err(AppendFault::Memory) => Err(AllocError),
    }
}

/// Returns how channels are arranged in the file of a pair.
pub(crate) fn table_in(pair: &Pair<'_>) -> Table
    ensures { result ≡ table_in pair.now }
{
    match shared_in(pair) {
        Some(shared) => shared.table,
        None => Table::Rows(Separator::Comma),
    }
}
