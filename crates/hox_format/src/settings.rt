//! The keys of formats.
ghost use Rattle.std.specs.Prelude.{◌≡◌, ◌<◌, ◌≤◌, ◌-◌, IfSome, option_map};
ghost use Rattle.std.specs.Char.{is_ascii_digit};
ghost use Rattle.std.specs.List.{list_all};
ghost use Rattle.hox_format.specs.Forms.{chosen, form, lines, samples, table_of};
ghost use Rattle.hox_format.specs.Saying.{column_said, count_said, csv_flag, csv_value, digits_said, flag_said, is_number, number_said, place_said, raw_flag, raw_value, seen, separator_said, taken, text_flag, text_value, value_said, wav_flag, wav_value, width_said, with_channel, with_channels, with_column, with_separator, csv_digits_said, wav_channel_said, wav_rate_said, wav_width_said};

use crate::formats::{Csv, Format, Raw, Wav, Which, unsigned};
use crate::parsing::FormatFault;
use kpn_tokens::{Decimals, Sample, Separator, Width};

/// Sets a key without a value.
pub(crate) fn with_flag<'a>(format: Format<'a>, key: &'a str) -> Result<Format<'a>, FormatFault<'a>>
    ensures { seen result ≡ flag_said (form format.entry) key.now }
{
    let flagged = match format {
        Format::Text(decimals) => text_flag(decimals, key),
        Format::Csv(csv) => csv_flag(csv, key),
        Format::Wav(wav) => wav_flag(wav, key),
        Format::Raw(raw) => raw_flag(raw, key),
    };
    match flagged {
        Some(format) => Ok(format),
        None => Err(FormatFault::Key(key)),
    }
}

fn text_flag(decimals: Decimals, key: &str) -> Option<Format<'static>>
    ensures { option_map form result ≡ text_flag decimals key.now }
{
    match key {
        "unsigned" => Some(Format::Text(unsigned(decimals))),
        _ => None,
    }
}

fn csv_flag<'a>(csv: Csv<'a>, key: &str) -> Option<Format<'a>>
    ensures { option_map form result ≡ csv_flag (table_of csv.entry) key.now }
{
    match key {
        "header" => Some(Format::Csv(Csv {
            has_header: true,
            ..csv
        })),
        "unsigned" => Some(Format::Csv(Csv {
            decimals: unsigned(csv.decimals),
            ..csv
        })),
        _ => None,
    }
}

fn wav_flag(wav: Wav, key: &str) -> Option<Format<'static>>
    ensures { option_map form result ≡ wav_flag wav key.now }
{
    match key {
        "clip" => Some(Format::Wav(Wav { clips: true, ..wav })),
        _ => None,
    }
}

fn raw_flag(raw: Raw, key: &str) -> Option<Format<'static>>
    ensures { option_map form result ≡ raw_flag raw key.now }
{
    match key {
        "clip" => Some(Format::Raw(Raw {
            sample: Sample {
                clips: true,
                ..raw.sample
            },
            ..raw
        })),
        _ => None,
    }
}

/// Sets a key to a value.
pub(crate) fn with_value<'a>(
    format: Format<'a>,
    key: &'a str,
    value: &'a str,
) -> Result<Format<'a>, FormatFault<'a>>
    ensures { seen result ≡ value_said (form format.entry) key.now value.now }
{
    match format {
        Format::Text(decimals) => text_value(decimals, key, value),
        Format::Csv(csv) => csv_value(csv, key, value),
        Format::Wav(wav) => wav_value(wav, key, value),
        Format::Raw(raw) => raw_value(raw, key, value),
    }
}

fn taken<'a>(
    key: &'a str,
    value: &'a str,
    format: Option<Format<'a>>,
) -> Result<Format<'a>, FormatFault<'a>>
    ensures { seen result ≡ taken key.now value.now (option_map form format.entry) }
{
    match format {
        Some(format) => Ok(format),
        None => Err(FormatFault::Value { key, value }),
    }
}

fn text_value<'a>(
    decimals: Decimals,
    key: &'a str,
    value: &'a str,
) -> Result<Format<'a>, FormatFault<'a>>
    ensures { seen result ≡ text_value decimals key.now value.now }
{
    match key {
        "digits" => taken(key, value, text_digits(decimals, value)),
        _ => Err(FormatFault::Key(key)),
    }
}

fn text_digits(decimals: Decimals, value: &str) -> Option<Format<'static>>
    ensures { option_map form result ≡ option_map lines (digits_said decimals value.now) }
{
    let decimals = with_digits(decimals, value)?;
    Some(Format::Text(decimals))
}

fn csv_value<'a>(csv: Csv<'a>, key: &'a str, value: &'a str) -> Result<Format<'a>, FormatFault<'a>>
    ensures { seen result ≡ csv_value (table_of csv.entry) key.now value.now }
{
    match key {
        "column" => taken(key, value, csv_column(csv, value)),
        "delimiter" => taken(key, value, csv_delimiter(csv, value)),
        "digits" => taken(key, value, csv_digits(csv, value)),
        _ => Err(FormatFault::Key(key)),
    }
}

/// Chooses the column of a CSV file. A name implies a row of names.
fn csv_column<'a>(csv: Csv<'a>, value: &'a str) -> Option<Format<'a>>
    ensures { option_map form result ≡ option_map (with_column (table_of csv.entry)) (column_said value.now) }
{
    match column_in(value)? {
        Which::Place(place) => Some(Format::Csv(Csv {
            column: Some(Which::Place(place)),
            ..csv
        })),
        Which::Name(name) => Some(Format::Csv(Csv {
            column: Some(Which::Name(name)),
            has_header: true,
            ..csv
        })),
    }
}

/// Parses a column: digits are its place, counted from 1.
fn column_in(value: &str) -> Option<Which<'_>>
    ensures { option_map chosen result ≡ column_said value.now }
{
    if value.is_empty() {
        return None;
    }
    if !is_number(value) {
        return Some(Which::Name(value));
    }
    let place = place_in(value, u64::MAX)?;
    Some(Which::Place(place as usize))
}

fn csv_delimiter<'a>(csv: Csv<'a>, value: &str) -> Option<Format<'a>>
    ensures { option_map form result ≡ option_map (with_separator (table_of csv.entry)) (separator_said value.now) }
{
    let separator = separator_in(value)?;
    Some(Format::Csv(Csv { separator, ..csv }))
}

fn separator_in(value: &str) -> Option<Separator>
    ensures { result ≡ separator_said value.now }
{
    match value {
        "comma" => Some(Separator::Comma),
        "semicolon" => Some(Separator::Semicolon),
        ";" => Some(Separator::Semicolon),
        "tab" => Some(Separator::Tab),
        "\t" => Some(Separator::Tab),
        _ => None,
    }
}

fn csv_digits<'a>(csv: Csv<'a>, value: &str) -> Option<Format<'a>>
    ensures { option_map form result ≡ csv_digits_said (table_of csv.entry) value.now }
{
    let decimals = with_digits(csv.decimals, value)?;
    Some(Format::Csv(Csv { decimals, ..csv }))
}

fn with_digits(decimals: Decimals, value: &str) -> Option<Decimals>
    ensures { result ≡ digits_said decimals value.now }
{
    let digits = number_in(value, 19)?;
    Some(Decimals {
        digits: digits as u8,
        ..decimals
    })
}

fn wav_value<'a>(wav: Wav, key: &'a str, value: &'a str) -> Result<Format<'a>, FormatFault<'a>>
    ensures { seen result ≡ wav_value wav key.now value.now }
{
    match key {
        "channel" => taken(key, value, wav_channel(wav, value)),
        "bits" => taken(key, value, wav_bits(wav, value)),
        "rate" => taken(key, value, wav_rate(wav, value)),
        _ => Err(FormatFault::Key(key)),
    }
}

fn wav_channel(wav: Wav, value: &str) -> Option<Format<'static>>
    ensures { option_map form result ≡ wav_channel_said wav value.now }
{
    let place = place_in(value, 65535)?;
    Some(Format::Wav(Wav {
        channel: Some(place as u16),
        ..wav
    }))
}

fn wav_bits(wav: Wav, value: &str) -> Option<Format<'static>>
    ensures { option_map form result ≡ wav_width_said wav value.now }
{
    let width = width_in(value)?;
    Some(Format::Wav(Wav { width, ..wav }))
}

fn width_in(value: &str) -> Option<Width>
    ensures { result ≡ width_said value.now }
{
    match value {
        "8" => Some(Width::One),
        "16" => Some(Width::Two),
        "24" => Some(Width::Three),
        "32" => Some(Width::Four),
        _ => None,
    }
}

fn wav_rate(wav: Wav, value: &str) -> Option<Format<'static>>
    ensures { option_map form result ≡ wav_rate_said wav value.now }
{
    let rate = count_in(value, 0xFFFFFFFF)?;
    Some(Format::Wav(Wav {
        rate: Some(rate as u32),
        ..wav
    }))
}

fn raw_value<'a>(raw: Raw, key: &'a str, value: &'a str) -> Result<Format<'a>, FormatFault<'a>>
    ensures { seen result ≡ raw_value raw key.now value.now }
{
    match key {
        "channel" => taken(key, value, raw_channel(raw, value)),
        "channels" => taken(key, value, raw_channels(raw, value)),
        _ => Err(FormatFault::Key(key)),
    }
}

/// Chooses a channel of samples, if the number of channels allows it or is not stated.
fn raw_channel(raw: Raw, value: &str) -> Option<Format<'static>>
    ensures { option_map form result ≡ option_map samples (with_channel raw (place_said 65535 value.now)) }
{
    let channel = place_in(value, 65535)? as u16;
    match raw.channels {
        Some(channels) if channel >= channels => None,
        _ => Some(Format::Raw(Raw {
            channel: Some(channel),
            ..raw
        })),
    }
}

/// States the number of channels of samples, if the chosen channel allows it or is not stated.
fn raw_channels(raw: Raw, value: &str) -> Option<Format<'static>>
    ensures { option_map form result ≡ option_map samples (with_channels raw (count_said 65535 value.now)) }
{
    let channels = count_in(value, 65535)? as u16;
    match raw.channel {
        Some(channel) if channel >= channels => None,
        _ => Some(Format::Raw(Raw {
            channels: Some(channels),
            ..raw
        })),
    }
}

/// Parses a number counted from 1, and returns it counted from 0.
fn place_in(value: &str, most: u64) -> Option<u64>
    ensures is { result ≡ place_said most value.now }
    ensures below { IfSome result (λ place. place < most) }
{
    let count = count_in(value, most)?;
    Some(count - 1)
}

fn count_in(value: &str, most: u64) -> Option<u64>
    ensures is { result ≡ count_said most value.now }
    ensures some { IfSome result (λ count. (0 < count) × (count ≤ most)) }
{
    match number_in(value, most)? {
        0 => None,
        count => Some(count),
    }
}

/// Parses a number in digits, at most `most`.
fn number_in(value: &str, most: u64) -> Option<u64>
    ensures is { result ≡ number_said most value.now }
    ensures within { IfSome result (λ number. number ≤ most) }
{
    if !is_number(value) {
        return None;
    }
    match value.parse::<u64>() {
        Ok(number) if number <= most => Some(number),
        _ => None,
    }
}

fn is_number(value: &str) -> bool
    ensures { result ≡ is_number value.now }
{
    !value.is_empty() && are_digits(value)
}

fn are_digits(value: &str) -> bool
    ensures { result ≡ list_all is_ascii_digit value.now }
{
    value.as_bytes().iter().all(|b| b.is_ascii_digit())
}
