//! The formats of files, as the arguments give them.
ghost use Rattle.std.specs.Prelude.{◌≡◌, IfErr, IfOk, OnOk, IfSome, option_map};
ghost use Rattle.std.specs.List.{Contains, before_first};
ghost use Rattle.hox_format.specs.Forms.{form};
ghost use Rattle.hox_format.specs.Saying.{seen};
ghost use Rattle.hox_files.specs.Files.{Texts, texts_in};
ghost use Rattle.hox_files.specs.Formats.{IsFormBy, IsFormatAmong, IsNoFormat, format_in, format_text, is_equals, is_named, marked, named_twice, said_for};
ghost use Rattle.hox_files.specs.Pairs.{AreUsable, IsUnusable, IsUsable, has_channel, is_of_use};

use crate::pairs::Pair;
use crate::stops::Stop;
use hox_args::channel_and_file;
use hox_format::{Format, FormatFault, HeadFault, format_of};

const ALL: &str = "all";

/// The formats of files, as texts `CHANNEL=FORMAT`, and the channels whose words are unsigned.
#[derive(Clone, Copy, Debug)]
pub struct Formats<'a, 'b> {
    pub texts: &'b [&'a str],
    pub unsigned: &'b [&'a str],
}

/// Why the format of a file is rejected.
#[derive(Clone, Copy, Debug)]
pub enum FormatStop<'a> {
    /// A text names no format.
    Unknown(FormatFault<'a>),
    /// A format is given for this channel, but no file.
    NoUse(&'a str),
    /// Two formats are given for this channel.
    Twice(&'a str),
    /// What precedes the tokens in this file is faulty.
    Head { file: &'a str, fault: HeadFault },
    /// This file is given for several channels, but its format is for one.
    Alone { file: &'a str },
    /// This file is given for several channels, and this one's format differs from that of the one before it.
    Unlike { file: &'a str, channel: &'a str },
}

/// Returns the format of a channel's file.
///
/// Errors: a text names no format.
pub fn format_for<'a>(
    formats: Formats<'a, '_>,
    channel: &str,
    file: &str,
) -> Result<Format<'a>, FormatStop<'a>>
    ensures ok { IfOk result (λ format. IsFormBy formats.entry channel.now file.now (form format)) }
    ensures fault { IfErr result (IsNoFormat (texts_in formats.entry.texts.now)) }
{
    match said_for(formats.texts, channel, file) {
        Ok(format) => Ok(marked(is_named(formats.unsigned, channel), format)),
        Err(fault) => Err(FormatStop::Unknown(fault)),
    }
}

fn marked<'a>(is_unsigned: bool, format: Format<'a>) -> Format<'a>
    ensures { form result ≡ marked is_unsigned (form format.entry) }
{
    if is_unsigned {
        format.unsigned()
    } else {
        format
    }
}

/// Returns the format for a channel: the one given for it, or for all, or else the default of the file's name.
fn said_for<'a>(texts: &[&'a str], channel: &str, file: &str) -> Result<Format<'a>, FormatFault<'a>>
    ensures said { seen result ≡ said_for (texts_in texts.now) channel.now file.now }
    ensures fault { IfErr result (λ e. IsNoFormat (texts_in texts.now) (FormatStop.Unknown e)) }
{
    match format_text(texts, channel) {
        Some(text) => format_of(text),
        None => match format_text(texts, ALL) {
            Some(text) => format_of(text),
            None => Ok(Format::of_file(file)),
        },
    }
}

/// Returns the format in the first text for this channel.
fn format_text<'a>(texts: &[&'a str], channel: &str) -> Option<&'a str>
    ensures is { option_map (λ t. t.now) result ≡ format_text channel.now (texts_in texts.now) }
    ensures among { IfSome result (λ format. IsFormatAmong (texts_in texts.now) format.now) }
{
    for text in texts {
        if let Some(format) = format_in(*text, channel) {
            return Some(format);
        }
    }
    None
}

fn format_in<'a>(text: &'a str, channel: &str) -> Option<&'a str>
    ensures { option_map (λ t. t.now) result ≡ format_in channel.now text.now }
{
    match channel_and_file(text) {
        Some((name, format)) if name == channel => Some(format),
        _ => None,
    }
}

/// Returns whether a channel is among these names, or `all` is.
pub fn is_named(names: &[&str], channel: &str) -> bool
    ensures { result ≡ is_named (texts_in names.now) channel.now }
{
    names.iter().any(|name| *name == channel || *name == ALL)
}

/// Checks that each text is a format for a channel of these pairs or for `all`, and that none is given twice.
///
/// Errors: the first text that is not; else the first channel that a later text repeats.
pub fn check_formats<'a>(
    texts: &[&'a str],
    inputs: &[Pair<'a>],
    outputs: &[Pair<'a>],
) -> Result<(), Stop<'a>>
    ensures ok { OnOk result (AreUsable inputs.now outputs.now (texts_in texts.now)) }
    ensures fault { IfErr result (IsUnusable (texts_in texts.now) inputs.now outputs.now) }
{
    for text in texts {
        check_format(*text, inputs, outputs)?;
    }
    match named_twice(texts) {
        Some(channel) => Err(Stop::Format(FormatStop::Twice(channel))),
        None => Ok(()),
    }
}

fn named_twice<'a>(texts: &[&'a str]) -> Option<&'a str>
    ensures { option_map (λ t. t.now) result ≡ named_twice (texts_in texts.now) }
{
    for k in 0..texts.len() {
        let channel = channel_in(texts[k]);
        if format_text(&texts[k + 1..], channel).is_some() {
            return Some(channel);
        }
    }
    None
}

fn channel_in(text: &str) -> &str
    ensures { result.now ≡ before_first is_equals text.now }
{
    match channel_and_file(text) {
        Some((channel, _)) => channel,
        None => text,
    }
}

fn check_format<'a>(
    text: &'a str,
    inputs: &[Pair<'a>],
    outputs: &[Pair<'a>],
) -> Result<(), Stop<'a>>
    ensures ok { OnOk result (IsUsable inputs.now outputs.now text.now) }
    ensures fault { (texts : Texts) → Contains texts text.now → IfErr result (IsUnusable texts inputs.now outputs.now) }
{
    let Some((channel, said)) = channel_and_file(text) else {
        return Err(Stop::NoPair {
            option: "format",
            text,
        });
    };
    match format_of(said) {
        Err(fault) => Err(Stop::Format(FormatStop::Unknown(fault))),
        Ok(_) if is_of_use(inputs, outputs, channel) => Ok(()),
        Ok(_) => Err(Stop::Format(FormatStop::NoUse(channel))),
    }
}

fn is_of_use(inputs: &[Pair<'_>], outputs: &[Pair<'_>], name: &str) -> bool
    ensures { result ≡ is_of_use inputs.now outputs.now name.now }
{
    name == ALL || has_channel(inputs, name) || has_channel(outputs, name)
}

fn has_channel(pairs: &[Pair<'_>], name: &str) -> bool
    ensures { result ≡ has_channel pairs.now name.now }
{
    pairs.iter().any(|pair| pair.channel == name)
}
