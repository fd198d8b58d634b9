//! Reads the files of tokens that a command names.
ghost use Rattle.std.specs.Prelude.{◌≡◌, IfOk, IfErr, IfSome, map};
ghost use Rattle.std.specs.List.{AllZip};
ghost use Rattle.hox_files.specs.Files.{texts_in};
ghost use Rattle.hox_files.specs.Pairs.{channels_of};
ghost use Rattle.hox_format.specs.Records.{records_bytes};
ghost use Rattle.hox_files.specs.Requests.{AsksFor, AsksInVain, AsksRest, IsErrorIn, IsFileOf, IsNoFileOf, IsRead, IsReadError, IsRequest, IsUnfetched, file_with, is_told, shown_as, want_of, written_as};

use crate::files::FileSystem;
use crate::formats::{FormatStop, Formats, check_formats, is_named};
use crate::pairs::{Pair, count_standard, firsts_of, is_named_twice, pairs_of};
use crate::stops::Stop;
use crate::uses::{NamedFiles, Role, check_uses};
use crate::watching::Watched;
use hox_format::{FirstBytes, Records, layout_of, records_in, records_of};
use hox_network::{ReadFault, Request, StreamAs, TokenFile, read_whole};
use kpn_front::Source;
use kpn_model::{Listed, Text};
use kpn_tokens::{Decimals, Layout};
use std::alloc::{AllocError, Global};
use std::io;

/// The options of a command: the description's file, the number of workers, the budget that overrides the
/// description's, the channels to show, the formats of files, the unsigned channels, whether to print only streams,
/// and whether the report is JSON.
#[derive(Clone, Copy, Debug)]
pub struct CommandOptions<'a, 'b> {
    pub file: &'a str,
    pub workers: usize,
    pub budget: Option<u64>,
    pub show: &'b [&'a str],
    pub formats: &'b [&'a str],
    pub unsigned: &'b [&'a str],
    pub is_quiet: bool,
    pub is_json: bool,
}

/// Why reading a file failed: the system's reason; more than 64 MiB; or out of memory.
#[derive(Clone, Copy, Debug)]
pub enum ReadError {
    Failed(io::Error),
    TooLong,
    Memory,
}

/// The request for a network, with the tokens that were read; and the pairs of its token files and output files.
#[derive(Drop)]
pub struct Asked<'a> {
    pub tokens: Vec<Pair<'a>>,
    pub outputs: Vec<Pair<'a>>,
    pub request: Request,
}

/// Reads the files of tokens, and returns the request.
///
/// Errors: a text without channel and file, or without format; a format for no file; standard input named twice; two
/// uses of files that clash; the first file that can't be read or is faulty before its tokens; or out of memory.
pub fn asked_of<'a, S: FileSystem>(
    alloc: Global,
    files: &S,
    wanted: CommandOptions<'a, '_>,
    tokens: &[&'a str],
    outputs: &[&'a str],
) -> Result<Asked<'a>, Stop<'a>>
    ensures ok { IfOk result (AsksFor S.FileSystem files.now wanted.entry tokens.now outputs.now) }
    ensures fault { IfErr result (AsksInVain S.FileSystem files.now wanted.entry tokens.now outputs.now) }
{
    let formats = Formats {
        texts: wanted.formats,
        unsigned: wanted.unsigned,
    };
    let tokens = pairs_of(alloc, "tokens", tokens, formats)?;
    let outputs = pairs_of(alloc, "out", outputs, formats)?;
    check_formats(wanted.formats, tokens.as_slice(), outputs.as_slice())?;
    if is_named_twice(wanted.file, tokens.as_slice()) {
        return Err(Stop::InputTwice);
    }
    let is_told = is_told(wanted.is_quiet, outputs.as_slice());
    let Ok(firsts) = firsts_of(alloc, outputs.as_slice()) else {
        return Err(Stop::Memory);
    };
    let (read, written) = (tokens.as_slice(), firsts.as_slice());
    let named = NamedFiles {
        file: wanted.file,
        role: Role::Tokens,
        inputs: read,
        outputs: written,
        is_told,
    };
    match check_uses(alloc, files, &named) {
        Ok(()) => {}
        Err(stop) => return Err(stop),
    }
    let request = request_of(alloc, files, wanted, tokens.as_slice(), outputs.as_slice())?;
    Ok(Asked {
        tokens,
        outputs,
        request,
    })
}

/// Returns whether a report goes to standard output: unless the command is quiet, or a stream goes there.
fn is_told(is_quiet: bool, outputs: &[Pair<'_>]) -> bool
    ensures { result ≡ is_told is_quiet outputs.now }
{
    !is_quiet && count_standard(outputs) == 0
}

fn request_of<'a, S: FileSystem>(
    alloc: Global,
    files: &S,
    wanted: CommandOptions<'a, '_>,
    tokens: &[Pair<'a>],
    outputs: &[Pair<'a>],
) -> Result<Request, Stop<'a>>
    ensures ok { IfOk result (IsRequest (S.contents files.now) (want_of wanted.entry) tokens.now outputs.now) }
    ensures fault { IfErr result (IsUnfetched (S.contents files.now) tokens.now) }
{
    let files = token_files(alloc, files, tokens)?;
    match request_with(alloc, wanted, files, outputs) {
        Ok(request) => Ok(request),
        Err(_) => Err(Stop::Memory),
    }
}

fn request_with(
    alloc: Global,
    wanted: CommandOptions<'_, '_>,
    files: Vec<TokenFile>,
    outputs: &[Pair<'_>],
) -> Result<Request, AllocError>
    ensures tokens { IfOk result (λ request. request.tokens ≡ files.items) }
    ensures rest { IfOk result (AsksRest (want_of wanted.entry) outputs.now) }
{
    let written = written_by(alloc, outputs)?;
    let show = shown_by(alloc, wanted.unsigned, wanted.show)?;
    Ok(Request {
        workers: wanted.workers,
        budget: wanted.budget,
        tokens: Listed::new(files),
        show: Listed::new(show),
        outputs: Listed::new(written),
    })
}

fn shown_by(
    alloc: Global,
    unsigned: &[&str],
    show: &[&str],
) -> Result<Vec<StreamAs<Decimals>>, AllocError>
    ensures { IfOk result (λ v. v.items ≡ map (shown_as (texts_in unsigned.now)) (texts_in show.now)) }
{
    let mut shown = Vec::new(alloc);
    for name in show {
        shown.push(shown_as(alloc, unsigned, *name)?)?;
    }
    Ok(shown)
}

fn written_by(alloc: Global, pairs: &[Pair<'_>]) -> Result<Vec<StreamAs<Layout>>, AllocError>
    ensures { IfOk result (λ v. v.items ≡ map written_as pairs.now) }
{
    let mut written = Vec::new(alloc);
    for pair in pairs {
        written.push(written_as(alloc, pair)?)?;
    }
    Ok(written)
}

fn written_as(alloc: Global, pair: &Pair<'_>) -> Result<StreamAs<Layout>, AllocError>
    ensures { IfOk result (λ stream. stream ≡ written_as pair.now) }
{
    Ok(StreamAs {
        channel: text_of(alloc, pair.channel)?,
        written: layout_of(&pair.format),
    })
}

fn shown_as(
    alloc: Global,
    unsigned: &[&str],
    channel: &str,
) -> Result<StreamAs<Decimals>, AllocError>
    ensures { IfOk result (λ stream. stream ≡ shown_as (texts_in unsigned.now) channel.now) }
{
    Ok(StreamAs {
        channel: text_of(alloc, channel)?,
        written: Decimals {
            digits: 0,
            is_unsigned: is_named(unsigned, channel),
        },
    })
}

/// Returns the names of the channels of pairs.
pub fn names_of(alloc: Global, pairs: &[Pair<'_>]) -> Result<Vec<Text>, AllocError>
    ensures { IfOk result (λ v. v.items ≡ channels_of pairs.now) }
{
    let mut names = Vec::new(alloc);
    for pair in pairs {
        names.push(text_of(alloc, pair.channel)?)?;
    }
    Ok(names)
}

fn token_files<'a, S: FileSystem>(
    alloc: Global,
    files: &S,
    pairs: &[Pair<'a>],
) -> Result<Vec<TokenFile>, Stop<'a>>
    ensures ok { IfOk result (λ v. AllZip (IsRead (S.contents files.now)) pairs.now v.items) }
    ensures fault { IfErr result (IsUnfetched (S.contents files.now) pairs.now) }
{
    let mut read = Vec::new(alloc);
    for k in 0..pairs.len() {
        let pair = pairs[k];
        let bytes = match read_file(alloc, files, pair.file) {
            Ok(bytes) => bytes,
            Err(ReadError::Memory) => return Err(Stop::Memory),
            Err(error) => {
                return Err(Stop::Unread {
                    file: pair.file,
                    error,
                });
            }
        };
        let file = file_of(alloc, pair, bytes)?;
        if read.push(file).is_err() {
            return Err(Stop::Memory);
        }
    }
    Ok(read)
}

fn file_of<'a>(alloc: Global, pair: Pair<'a>, bytes: Vec<u8>) -> Result<TokenFile, Stop<'a>>
    ensures ok { IfOk result (IsFileOf pair.entry bytes.items) }
    ensures fault { IfErr result (IsNoFileOf pair.entry bytes.items) }
{
    let whole = FirstBytes {
        bytes: bytes.as_slice(),
        is_last: true,
    };
    let records = match records_in(alloc, &pair.format, pair.place, pair.count, &whole) {
        Ok(Ok(Some(records))) => records,
        Ok(Ok(None)) => unreachable!(),
        Ok(Err(fault)) => {
            return Err(Stop::Format(FormatStop::Head {
                file: pair.file,
                fault,
            }));
        }
        Err(_) => return Err(Stop::Memory),
    };
    match file_with(alloc, pair.channel, &records, bytes) {
        Ok(file) => Ok(file),
        Err(_) => Err(Stop::Memory),
    }
}

fn file_with(
    alloc: Global,
    channel: &str,
    records: &Records,
    bytes: Vec<u8>,
) -> Result<TokenFile, AllocError>
    ensures { IfOk result (λ file. file ≡ file_with channel.now records.now bytes.items) }
{
    Ok(TokenFile {
        channel: text_of(alloc, channel)?,
        layout: records.layout,
        bytes: Listed::new(records_alone(alloc, records, bytes)?),
        rate: records.rate,
    })
}

/// Returns the bytes of the records, without copying them if they are the whole file.
fn records_alone(alloc: Global, records: &Records, bytes: Vec<u8>) -> Result<Vec<u8>, AllocError>
    ensures { IfOk result (λ alone. alone.items ≡ records_bytes records.now bytes.items) }
{
    if records.start == 0 && records.size.is_none() {
        return Ok(bytes);
    }
    Vec::from_slice(alloc, records_of(bytes.as_slice(), records))
}

/// Reads a file.
///
/// Errors: see [`ReadError`].
pub fn read_file<S: FileSystem>(alloc: Global, files: &S, name: &str) -> Result<Vec<u8>, ReadError>
    ensures ok { IfOk result (λ v. IfSome (S.contents files.now name.now) (λ bytes. v.items ≡ bytes)) }
    ensures fault { IfErr result (IsReadError (S.contents files.now) name.now) }
{
    match files.open(name) {
        Ok(input) => read_input(alloc, input),
        Err(error) => Err(ReadError::Failed(error)),
    }
}

fn read_input<I: Source + Drop>(alloc: Global, input: I) -> Result<Vec<u8>, ReadError>
    ensures ok { IfOk result (λ v. IfSome (I.remaining input) (λ bytes. v.items ≡ bytes)) }
    ensures fault { IfErr result (IsErrorIn (I.remaining input)) }
{
    let mut input = Watched::new(input);
    match read_whole(alloc, &mut input) {
        Ok(bytes) => Ok(bytes),
        Err(ReadFault::Failed) => Err(ReadError::Failed(input.reason())),
        Err(ReadFault::TooLong) => Err(ReadError::TooLong),
        Err(ReadFault::Memory) => Err(ReadError::Memory),
    }
}

fn text_of(alloc: Global, text: &str) -> Result<Text, AllocError>
    ensures { IfOk result (λ own. own ≡ text.now) }
{
    Ok(Text::new(String::from_str(alloc, text)?))
}
