//! Arguments that name a channel and a file.
ghost use Rattle.std.specs.Prelude.{◌≡◌, ℕ, true, List, IfOk, IfErr, OnOk, unwrap_or, option_map, nat_lt};
ghost use Rattle.std.specs.List.{All, AllZip, Contains, filter, flat_map};
ghost use Rattle.hox_format.specs.Saying.{pieces};
ghost use Rattle.hox_files.specs.Files.{Texts, standard, texts_in};
ghost use Rattle.hox_files.specs.Formats.{HasEquals};
ghost use Rattle.hox_files.specs.Pairs.{ArePairsBy, AreShared, IsPairBy, IsUnlike, IsUnpairedBy, IsUnshared, UnsaidBy, count_standard, firsts, in_order, is_alone, is_grouped, is_named_twice, is_single, parts, parts_named, shared_in};

use crate::formats::{FormatStop, Formats, format_for};
use crate::stops::Stop;
use hox_args::channel_and_file;
use hox_format::{Format, Shared, shared_by};
use std::alloc::{AllocError, Global};

/// The name of standard input and output.
pub const STANDARD: &str = "-";

/// A channel, its file and the file's format; and the place of the channel, counted from 0, among the `count`
/// channels that the file is given for.
#[derive(Clone, Copy, Debug)]
pub struct Pair<'a> {
    pub channel: &'a str,
    pub file: &'a str,
    pub format: Format<'a>,
    pub place: usize,
    pub count: usize,
}

impl Pair<'_> {
    /// Returns whether the file is given for this channel alone.
    pub fn is_alone(&self) -> bool
        ensures { result ≡ is_alone self.now }
    {
        self.count == 1
    }
}

/// Parses the texts of an option, each `CHANNEL=FILE`, or `CHANNEL,..=FILE` for several channels side by side
/// in one file, and returns the pairs in order.
///
/// Errors: the first text without `=`, or whose file gets no format; the first file given for several
/// channels whose format is for one, or differs between them; or out of memory.
pub fn pairs_of<'a>(
    alloc: Global,
    option: &'a str,
    texts: &[&'a str],
    formats: Formats<'a, '_>,
) -> Result<Vec<Pair<'a>>, Stop<'a>>
    ensures ok { IfOk result (λ v. ArePairsBy formats.entry (texts_in texts.now) v.items) }
    ensures fault { IfErr result (IsUnpairedBy formats.entry option.now (texts_in texts.now)) }
{
    let pairs = all_pairs(alloc, option, texts, formats)?;
    match check_shared(pairs.as_slice()) {
        Ok(()) => Ok(pairs),
        Err(stop) => Err(Stop::Format(stop)),
    }
}

fn all_pairs<'a>(
    alloc: Global,
    option: &'a str,
    texts: &[&'a str],
    formats: Formats<'a, '_>,
) -> Result<Vec<Pair<'a>>, Stop<'a>>
    ensures said { IfOk result (λ _. All HasEquals (texts_in texts.now)) }
    ensures each { IfOk result (λ v. AllZip (IsPairBy formats.entry) (flat_map parts (texts_in texts.now)) v.items) }
    ensures fault { IfErr result (UnsaidBy formats.entry option.now (texts_in texts.now)) }
{
    let mut pairs = Vec::new(alloc);
    for text in texts {
        let more = pairs_in(alloc, option, *text, formats)?;
        if pairs.extend_from_slice(more.as_slice()).is_err() {
            return Err(Stop::Memory);
        }
    }
    Ok(pairs)
}

/// Parses a text: one pair for each of the channels before the first `=`.
fn pairs_in<'a>(
    alloc: Global,
    option: &'a str,
    text: &'a str,
    formats: Formats<'a, '_>,
) -> Result<Vec<Pair<'a>>, Stop<'a>>
    ensures said { IfOk result (λ _. HasEquals text.now) }
    ensures each { IfOk result (λ v. AllZip (IsPairBy formats.entry) (parts text.now) v.items) }
    ensures fault { (texts : Texts) → Contains texts text.now → IfErr result (UnsaidBy formats.entry option.now texts) }
{
    let Some((channels, file)) = channel_and_file(text) else {
        return Err(Stop::NoPair { option, text });
    };
    let Ok(names) = names_in(alloc, channels) else {
        return Err(Stop::Memory);
    };
    pairs_for(alloc, names.as_slice(), file, formats)
}

fn names_in<'a>(alloc: Global, text: &'a str) -> Result<Vec<&'a str>, AllocError>
    ensures { IfOk result (λ v. texts_in v.items ≡ pieces text.now) }
{
    text.split(',').collect(alloc)
}

fn pairs_for<'a>(
    alloc: Global,
    names: &[&'a str],
    file: &'a str,
    formats: Formats<'a, '_>,
) -> Result<Vec<Pair<'a>>, Stop<'a>>
    ensures each { IfOk result (λ v. AllZip (IsPairBy formats.entry) (parts_named file.now names.now) v.items) }
    ensures fault { (option : List ℕ) (texts : Texts) → IfErr result (UnsaidBy formats.entry option texts) }
{
    let count = names.len();
    let mut pairs = Vec::new(alloc);
    for place in 0..count {
        let channel = names[place];
        let format = match format_for(formats, channel, file) {
            Ok(format) => format,
            Err(stop) => return Err(Stop::Format(stop)),
        };
        let pair = Pair {
            channel,
            file,
            format,
            place,
            count,
        };
        if pairs.push(pair).is_err() {
            return Err(Stop::Memory);
        }
    }
    Ok(pairs)
}

/// Checks that each file given for several channels has one format for all.
fn check_shared<'a>(pairs: &[Pair<'a>]) -> Result<(), FormatStop<'a>>
    ensures ok { OnOk result (AreShared pairs.now) }
    ensures fault { IfErr result (IsUnshared pairs.now) }
{
    for k in 0..pairs.len() {
        let pair = pairs[k];
        if is_single(&pair) {
            return Err(FormatStop::Alone { file: pair.file });
        }
        if k > 0 && is_unlike(&pairs[k - 1], &pair) {
            return Err(FormatStop::Unlike {
                file: pair.file,
                channel: pair.channel,
            });
        }
    }
    Ok(())
}

fn is_single(pair: &Pair<'_>) -> bool
    ensures { result ≡ is_single pair.now }
{
    !pair.is_alone() && shared_in(pair).is_none()
}

fn is_unlike(last: &Pair<'_>, pair: &Pair<'_>) -> bool
    ensures { result ≡ true → IsUnlike last.now pair.now }
{
    pair.place > 0 && shared_in(pair) != shared_in(last)
}

/// Returns what the channels of a pair's file share.
pub fn shared_in(pair: &Pair<'_>) -> Option<Shared>
    ensures { result ≡ shared_in pair.now }
{
    shared_by(&pair.format, pair.count)
}

/// Returns the first pair of each file.
pub fn firsts_of<'a>(alloc: Global, pairs: &[Pair<'a>]) -> Result<Vec<Pair<'a>>, AllocError>
    ensures { IfOk result (λ v. v.items ≡ firsts pairs.now) }
{
    let mut firsts = Vec::new(alloc);
    for pair in pairs {
        if pair.place == 0 {
            firsts.push(*pair)?;
        }
    }
    Ok(firsts)
}

/// Returns the pairs whose file has one channel, and then the others.
pub fn in_order<'a>(alloc: Global, pairs: &[Pair<'a>]) -> Result<Vec<Pair<'a>>, AllocError>
    ensures { IfOk result (λ v. v.items ≡ in_order pairs.now) }
{
    let mut ordered = alone_among(alloc, pairs)?;
    let grouped = grouped_among(alloc, pairs)?;
    ordered.extend_from_slice(grouped.as_slice())?;
    Ok(ordered)
}

fn alone_among<'a>(alloc: Global, pairs: &[Pair<'a>]) -> Result<Vec<Pair<'a>>, AllocError>
    ensures { IfOk result (λ v. v.items ≡ filter is_alone pairs.now) }
{
    let mut alone = Vec::new(alloc);
    for pair in pairs {
        if pair.is_alone() {
            alone.push(*pair)?;
        }
    }
    Ok(alone)
}

fn grouped_among<'a>(alloc: Global, pairs: &[Pair<'a>]) -> Result<Vec<Pair<'a>>, AllocError>
    ensures { IfOk result (λ v. v.items ≡ filter is_grouped pairs.now) }
{
    let mut grouped = Vec::new(alloc);
    for pair in pairs {
        if !pair.is_alone() {
            grouped.push(*pair)?;
        }
    }
    Ok(grouped)
}

/// Returns the file's name, or that of standard input if there is none.
pub fn name_of<'a>(file: Option<&'a str>) -> &'a str
    ensures { result.now ≡ unwrap_or (option_map (λ s. s.now) file.entry) standard }
{
    file.unwrap_or(STANDARD)
}

/// Returns how many pairs name standard input or output.
pub fn count_standard(pairs: &[Pair<'_>]) -> usize
    ensures { result ≡ count_standard pairs.now }
{
    pairs.iter().filter(|pair| pair.file == STANDARD).count()
}

/// Returns whether pairs name standard output.
pub fn is_output_named(pairs: &[Pair<'_>]) -> bool
    ensures { result ≡ nat_lt 0 (count_standard pairs.now) }
{
    count_standard(pairs) > 0
}

/// Returns whether pairs name standard output more than once.
pub fn is_written_twice(pairs: &[Pair<'_>]) -> bool
    ensures { result ≡ nat_lt 1 (count_standard pairs.now) }
{
    count_standard(pairs) > 1
}

/// Returns whether the description's file and the pairs name standard input more than once.
pub fn is_named_twice(file: &str, pairs: &[Pair<'_>]) -> bool
    ensures { result ≡ is_named_twice file.now pairs.now }
{
    let most = if file == STANDARD { 0 } else { 1 };
    count_standard(pairs) > most
}
