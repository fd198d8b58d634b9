//! Opens the output files of a stream.
ghost use Rattle.std.specs.Prelude.{◌≡◌, None, IfErr, IfOk, map};
ghost use Rattle.std.specs.List.{AllZip, filter};
ghost use Rattle.hox_format.specs.Forms.{form};
ghost use Rattle.hox_format.specs.Heads.{head_text};
ghost use Rattle.hox_format.specs.Tables.{decimals_of};
ghost use Rattle.hox_files.specs.Files.{texts_in};
ghost use Rattle.hox_files.specs.Pairs.{begins, groups, is_alone};
ghost use Rattle.hox_execute.specs.Streaming.{IsCreated, IsHeaded, IsTabled, IsUnwritten};

use crate::streaming::StreamStop;
use crate::texts::{byte_names, group_of, table_in};
use hox_files::files::FileSystem;
use hox_files::pairs::Pair;
use hox_files::stops::Stop;
use hox_format::{FileHead, append_head, decimals_of, layout_of};
use hox_stream::{LaidOut, LaidTable};
use kpn_front::Sink;
use kpn_tokens::Decimals;
use std::alloc::{AllocError, Global};
use std::io;

/// Creates the files of the pairs that have one alone, and writes what precedes their tokens.
pub(crate) fn sinks_of<'a, S: FileSystem>(
    alloc: Global,
    files: &S,
    pairs: &[Pair<'a>],
    rate: u32,
) -> Result<Vec<LaidOut<S::Output>>, StreamStop<'a>>
    ensures ok { IfOk result (λ v. AllZip (IsCreated S.Output.seen rate) (filter is_alone pairs.now) v.items) }
    ensures stop { IfErr result (IsUnwritten pairs.now) }
{
    let mut sinks = Vec::new(alloc);
    for k in 0..pairs.len() {
        if !pairs[k].is_alone() {
            continue;
        }
        let file = pairs[k].file;
        let sink = match sink_of(alloc, files, &pairs[k], rate) {
            Ok(sink) => sink,
            Err(Uncreated::Failed(error)) => return Err(StreamStop::Unwritten { file, error }),
            Err(Uncreated::Memory) => return Err(StreamStop::Asked(Stop::Memory)),
        };
        let Ok(()) = sinks.push(sink) else {
            return Err(StreamStop::Asked(Stop::Memory));
        };
    }
    Ok(sinks)
}

/// Creates the files that several pairs share, and writes what precedes their tokens.
pub(crate) fn tables_of<'a, S: FileSystem>(
    alloc: Global,
    files: &S,
    pairs: &[Pair<'a>],
    rate: u32,
) -> Result<Vec<LaidTable<S::Output>>, StreamStop<'a>>
    ensures ok { IfOk result (λ v. AllZip (IsTabled S.Output.seen rate) (groups pairs.now) v.items) }
    ensures stop { IfErr result (IsUnwritten pairs.now) }
{
    let mut tables = Vec::new(alloc);
    for k in 0..pairs.len() {
        if !begins(&pairs[k]) {
            continue;
        }
        let file = pairs[k].file;
        let table = match table_of(alloc, files, &pairs[k], group_of(&pairs[k..]), rate) {
            Ok(table) => table,
            Err(Uncreated::Failed(error)) => return Err(StreamStop::Unwritten { file, error }),
            Err(Uncreated::Memory) => return Err(StreamStop::Asked(Stop::Memory)),
        };
        let Ok(()) = tables.push(table) else {
            return Err(StreamStop::Asked(Stop::Memory));
        };
    }
    Ok(tables)
}

/// Returns whether a pair is the first of several that share a file.
fn begins(pair: &Pair<'_>) -> bool
    ensures { result ≡ begins pair.now }
{
    pair.place == 0 && !pair.is_alone()
}

/// Why a file was not created: this reason, or out of memory.
#[derive(Drop)]
enum Uncreated {
    Failed(io::Error),
    Memory,
}

fn sink_of<S: FileSystem>(
    alloc: Global,
    files: &S,
    pair: &Pair<'_>,
    rate: u32,
) -> Result<LaidOut<S::Output>, Uncreated>
    ensures { IfOk result (IsCreated S.Output.seen rate pair.now) }
{
    let names = [pair.channel.as_bytes()];
    let stream = headed(alloc, files, pair, &names, rate)?;
    Ok(LaidOut {
        stream,
        layout: layout_of(&pair.format),
    })
}

fn table_of<S: FileSystem>(
    alloc: Global,
    files: &S,
    first: &Pair<'_>,
    pairs: &[Pair<'_>],
    rate: u32,
) -> Result<LaidTable<S::Output>, Uncreated>
    ensures { IfOk result (IsTabled S.Output.seen rate (record { first = first.now; pairs = pairs.now })) }
{
    let (Ok(names), Ok(columns)) = (byte_names(alloc, pairs), decimals_in(alloc, pairs)) else {
        return Err(Uncreated::Memory);
    };
    let stream = headed(alloc, files, first, names.as_slice(), rate)?;
    Ok(LaidTable {
        stream,
        table: table_in(first),
        columns,
    })
}

fn decimals_in(alloc: Global, pairs: &[Pair<'_>]) -> Result<Vec<Decimals>, AllocError>
    ensures { IfOk result (λ v. v.items ≡ map (λ p. decimals_of (form p.format)) pairs.now) }
{
    let mut decimals = Vec::with_capacity(alloc, pairs.len())?;
    for pair in pairs {
        decimals.push(decimals_of(&pair.format))?;
    }
    Ok(decimals)
}

/// Creates the file of a pair, and writes what precedes the tokens of channels of these names.
fn headed<S: FileSystem>(
    alloc: Global,
    files: &S,
    pair: &Pair<'_>,
    names: &[&[u8]],
    rate: u32,
) -> Result<S::Output, Uncreated>
    ensures { IfOk result (IsHeaded S.Output.seen rate pair.now (texts_in names.now)) }
{
    let Ok(head) = head_of(alloc, pair, names, rate) else {
        return Err(Uncreated::Memory);
    };
    let mut stream = match files.create(pair.file) {
        Ok(stream) => stream,
        Err(error) => return Err(Uncreated::Failed(error)),
    };
    match stream.write_all(head.as_slice()) {
        Ok(()) => Ok(stream),
        Err(error) => Err(Uncreated::Failed(error)),
    }
}

fn head_of(
    alloc: Global,
    pair: &Pair<'_>,
    names: &[&[u8]],
    rate: u32,
) -> Result<Vec<u8>, AllocError>
    ensures { IfOk result (λ head. head.items ≡ head_text (form pair.now.format) (texts_in names.now) rate None) }
{
    let head = FileHead {
        names,
        rate,
        frames: None,
    };
    let mut text = Vec::new(alloc);
    append_head(alloc, &mut text, &pair.format, &head)?;
    Ok(text)
}
