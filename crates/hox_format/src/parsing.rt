//! Parses the names of formats.
ghost use Rattle.std.specs.Prelude.{◌≡◌, ◌∷◌, ◌<◌, IfSome, Ok, length, option_map};
ghost use Rattle.std.specs.List.{list_any};
ghost use Rattle.hox_format.specs.Forms.{form};
ghost use Rattle.hox_format.specs.Saying.{form_named, format_said, has_key, key_of, key_twice, later_pieces, pieces, plain_sample, sample_named, seen, setting_said, settings_said, later_pieces_of};

use crate::formats::{Csv, Format, Raw, Wav};
use crate::settings::{with_flag, with_value};
use kpn_tokens::{Coding, Endian, Sample, Width};

/// Why a text names no format.
#[derive(Clone, Copy, Debug, PartialEq, Eq)]
pub enum FormatFault<'a> {
    /// No format has this name.
    Name(&'a str),
    /// The format has no such key; or the key lacks a value, or takes none.
    Key(&'a str),
    /// The key does not take this value.
    Value { key: &'a str, value: &'a str },
    /// The key is given twice.
    Twice(&'a str),
}

/// Parses a format, `NAME[,KEY[=VALUE]..]`. A key is given at most once.
///
/// - `text`: a token per line, with the keys `digits=N` (digits after the point, 0 to 19) and `unsigned`.
/// - `csv`: a column, with `column=N` (from 1) or `column=NAME` (implies a row of names; digits alone are a number),
///   `delimiter=D` (`comma`, `semicolon`, `tab`, or `;` or a tab itself), `header`, `digits=N` and `unsigned`.
/// - `wav`: a channel of a WAV file, with `channel=N` (from 1), `bits=N` (8, 16, 24 or 32; by default 16),
///   `rate=N` (1 to 2^32 - 1) and `clip`.
/// - `s8`, `u8`, and `s16`, `s24`, `s32`, `s64` and `u64`, each alone or with `le` or `be`: a channel of
///   samples, by default little-endian, with `channel=N` and `channels=N` (1 to 65,535; the channel is at
///   most the number of channels, if both are given), and `clip`.
///
/// Errors: the first name, key or value that is none of these; else the first key given twice. See [`FormatFault`].
pub fn format_of<'a>(text: &'a str) -> Result<Format<'a>, FormatFault<'a>>
    ensures { seen result ≡ format_said text.now }
{
    let (name, settings) = first_piece(text);
    let Some(named) = format_named(name) else {
        return Err(FormatFault::Name(name));
    };
    let format = with_settings(named, settings)?;
    match key_twice(settings) {
        Some(key) => Err(FormatFault::Twice(key)),
        None => Ok(format),
    }
}

fn with_settings<'a>(
    format: Format<'a>,
    settings: Option<&'a str>,
) -> Result<Format<'a>, FormatFault<'a>>
    ensures { seen result ≡ settings_said (Ok (form format.entry)) (later_pieces_of settings.entry) }
{
    let mut changed = format;
    let mut rest = settings;
    while let Some(text) = rest {
        let (setting, later) = first_piece(text);
        changed = with_setting(changed, setting)?;
        rest = later;
    }
    Ok(changed)
}

/// Returns the first key that a later setting repeats.
fn key_twice(settings: Option<&str>) -> Option<&str>
    ensures { option_map (λ t. t.now) result ≡ key_twice (later_pieces_of settings.entry) }
{
    let mut sought = settings;
    while let Some(text) = sought {
        let (setting, later) = first_piece(text);
        let key = key_of(setting);
        if has_key(later, key) {
            return Some(key);
        }
        sought = later;
    }
    None
}

fn has_key(settings: Option<&str>, key: &str) -> bool
    ensures { result ≡ list_any (has_key key.now) (later_pieces_of settings.entry) }
{
    let mut others = settings;
    while let Some(text) = others {
        let (setting, later) = first_piece(text);
        if key_of(setting) == key {
            return true;
        }
        others = later;
    }
    false
}

fn key_of(setting: &str) -> &str
    ensures { result.now ≡ key_of setting.now }
{
    match setting.split_once('=') {
        Some((key, _)) => key,
        None => setting,
    }
}

/// Returns what precedes the first comma, and what follows it, if there is one.
fn first_piece(text: &str) -> (&str, Option<&str>)
    ensures pieces { pieces text.now ≡ result.0.now ∷ later_pieces (option_map (λ t. t.now) result.1) }
    ensures shorter { IfSome result.1 (λ later. length later.now < length text.now) }
{
    match text.split_once(',') {
        Some((first, later)) => (first, Some(later)),
        None => (text, None),
    }
}

fn with_setting<'a>(format: Format<'a>, setting: &'a str) -> Result<Format<'a>, FormatFault<'a>>
    ensures { seen result ≡ setting_said (form format.entry) setting.now }
{
    match setting.split_once('=') {
        Some((key, value)) => with_value(format, key, value),
        None => with_flag(format, setting),
    }
}

fn format_named(name: &str) -> Option<Format<'static>>
    ensures { option_map form result ≡ form_named name.now }
{
    match name {
        "text" => Some(Format::TEXT),
        "csv" => Some(Format::Csv(Csv::PLAIN)),
        "wav" => Some(Format::Wav(Wav::PLAIN)),
        _ => match sample_named(name) {
            Some(sample) => Some(Format::Raw(Raw {
                sample,
                channel: None,
                channels: None,
            })),
            None => None,
        },
    }
}

fn sample_named(name: &str) -> Option<Sample>
    ensures { result ≡ sample_named name.now }
{
    match name {
        "s8" => Some(plain_sample(Width::One, Coding::Signed, Endian::Little)),
        "u8" => Some(plain_sample(Width::One, Coding::Unsigned, Endian::Little)),
        "s16" => Some(plain_sample(Width::Two, Coding::Signed, Endian::Little)),
        "s16le" => Some(plain_sample(Width::Two, Coding::Signed, Endian::Little)),
        "s16be" => Some(plain_sample(Width::Two, Coding::Signed, Endian::Big)),
        "s24" => Some(plain_sample(Width::Three, Coding::Signed, Endian::Little)),
        "s24le" => Some(plain_sample(Width::Three, Coding::Signed, Endian::Little)),
        "s24be" => Some(plain_sample(Width::Three, Coding::Signed, Endian::Big)),
        "s32" => Some(plain_sample(Width::Four, Coding::Signed, Endian::Little)),
        "s32le" => Some(plain_sample(Width::Four, Coding::Signed, Endian::Little)),
        "s32be" => Some(plain_sample(Width::Four, Coding::Signed, Endian::Big)),
        "s64" => Some(plain_sample(Width::Eight, Coding::Signed, Endian::Little)),
        "s64le" => Some(plain_sample(Width::Eight, Coding::Signed, Endian::Little)),
        "s64be" => Some(plain_sample(Width::Eight, Coding::Signed, Endian::Big)),
        "u64" => Some(plain_sample(Width::Eight, Coding::Unsigned, Endian::Little)),
        "u64le" => Some(plain_sample(Width::Eight, Coding::Unsigned, Endian::Little)),
        "u64be" => Some(plain_sample(Width::Eight, Coding::Unsigned, Endian::Big)),
        _ => None,
    }
}

fn plain_sample(width: Width, coding: Coding, endian: Endian) -> Sample
    ensures { result ≡ plain_sample width coding endian }
{
    Sample {
        width,
        coding,
        endian,
        clips: false,
    }
}
