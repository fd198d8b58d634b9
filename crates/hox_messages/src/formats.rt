//! What is said of formats of files.
use crate::messages::input_name;
use crate::reasons::output_name;
use hox_files::formats::FormatStop;
use hox_files::pairs::Pair;
use hox_format::{Format, FormatFault, HeadFault};
use kpn_tokens::{RecordFault, WavFault};

/// The formats that there are.
const FORMATS: &str =
    "text, csv, wav, s8, u8, s16, s24, s32, s64 and u64, the last five also with le or be";

/// Says why it can't be read how a file has tokens.
pub(crate) fn say_format<R: Eprint>(rt: &R, stop: FormatStop<'_>) {
    match stop {
        FormatStop::Unknown(fault) => say_unknown_format(rt, fault),
        FormatStop::NoUse(channel) => say_no_use(rt, channel),
        FormatStop::Twice(channel) => say_twice(rt, channel),
        FormatStop::Head { file, fault } => say_head(rt, file, fault),
        FormatStop::Alone { file } => say_single(rt, file),
        FormatStop::Unlike { file, channel } => say_unlike(rt, file, channel),
    }
}

/// Says why a text names no format, and what would do.
fn say_unknown_format<R: Eprint>(rt: &R, fault: FormatFault<'_>) {
    let _ = match fault {
        FormatFault::Name(name) => {
            eprintln!(rt; "hox: --format: unknown format {name:?}; there are {FORMATS}")
        }
        FormatFault::Key(key) => {
            eprintln!(rt;
                "hox: --format: the format has no setting written as {key:?}; see hox run --help"
            )
        }
        FormatFault::Value { key, value } => {
            eprintln!(rt; "hox: --format: {key} can't be {value:?}; see hox run --help")
        }
        FormatFault::Twice(key) => {
            eprintln!(rt; "hox: --format: {key} is given twice; give it once")
        }
    };
}

/// Says that no file is given for a channel for which a format is named.
fn say_no_use<R: Eprint>(rt: &R, channel: &str) {
    let _ = eprintln!(rt; "hox: --format {channel}: this channel has no file");
}

/// Says that a file is for one channel alone that is given for several, and what would do.
fn say_single<R: Eprint>(rt: &R, file: &str) {
    let _ = eprintln!(rt;
        "hox: {file} is given for several channels; its --format must be csv, wav or samples, with no column or channel chosen"
    );
}

/// Says that a file has another format for one channel than for the one before it, and what would do.
fn say_unlike<R: Eprint>(rt: &R, file: &str, channel: &str) {
    let _ = eprintln!(rt;
        "hox: --format {channel}: the channels of {file} may differ only in digits and unsigned; --format all=FORMAT sets one for all"
    );
}

/// Says that two formats are named for a channel, and what would do.
fn say_twice<R: Eprint>(rt: &R, channel: &str) {
    let _ = eprintln!(rt; "hox: --format {channel} is given twice; name one format");
}

/// Says what is wrong with what stands before the tokens in a file, and what would do.
pub fn say_head<R: Eprint>(rt: &R, file: &str, fault: HeadFault) {
    let file = input_name(file);
    let _ = match fault {
        HeadFault::Wav(fault) => {
            let what = wrong_with_wav(fault);
            eprintln!(rt; "hox: {file} {what}")
        }
        HeadFault::NoColumn => { eprintln!(rt; "hox: {file}: no column has the name in --format") }
        HeadFault::Names(fault) => {
            let what = wrong_with_names(fault);
            eprintln!(rt; "hox: line 1 of {file} {what}")
        }
        HeadFault::Channels { has } => {
            eprintln!(rt;
                "hox: {file} has {has} channels; name as many, as in l,r=FILE, or choose one with channel=N in --format"
            )
        }
        HeadFault::NoChannel { has } => {
            eprintln!(rt; "hox: {file} has {has} channels, but not the one in --format")
        }
        HeadFault::TooLong => { eprintln!(rt; "hox: line 1 of {file} has more than 65536 bytes") }
        HeadFault::TooWide => {
            eprintln!(rt; "hox: the samples of all channels of {file} have more than 65535 bytes")
        }
    };
}

/// What is wrong with a WAV file.
fn wrong_with_wav(fault: WavFault) -> &'static str {
    match fault {
        WavFault::NotWav => "is not a WAV file; choose its format with --format",
        WavFault::NotPcm => "has samples other than PCM of 8, 16, 24 or 32 bits",
        WavFault::NoFormat => "has no description of its samples before them",
        WavFault::CutShort => "ends before its samples begin",
        WavFault::TooLong => "has more than 65536 bytes before its samples",
    }
}

/// What is wrong with a row of names.
fn wrong_with_names(fault: RecordFault) -> &'static str {
    match fault {
        RecordFault::OpenQuote => "has a quoted name without an end",
        RecordFault::TwoRows => "has a carriage return inside; end lines with line feeds",
        _ => "is not a row of names",
    }
}

/// How many lines stand before the tokens in a file of this format.
pub fn lines_before(format: Format<'_>) -> u64 {
    match format {
        Format::Csv(csv) if csv.has_header => 1,
        _ => 0,
    }
}

/// How a record of a file of this format is named.
pub fn record_name(format: Format<'_>) -> &'static str {
    match format {
        Format::Text(_) | Format::Csv(_) => "line",
        Format::Wav(_) | Format::Raw(_) => "frame",
    }
}

/// Says which token of a channel, counted from 1, does not fit the file to which it goes, and what would do.
pub fn say_misfit<R: Eprint>(rt: &R, pair: &Pair<'_>, token: u64) {
    let (channel, file) = (pair.channel, output_name(pair.file));
    let _ = eprintln!(rt;
        "hox: token {token} of channel {channel} doesn't fit a sample of {file}; add clip to its --format, or use wider samples"
    );
}

/// Says how many tokens of a channel were written as the nearest sample, if any were.
pub fn say_clipped<R: Eprint>(rt: &R, pair: &Pair<'_>, clipped: u64) {
    let channel = pair.channel;
    let _ = match clipped {
        0 => Ok(()),
        1 => eprintln!(rt; "hox: channel {channel}: 1 token was clipped"),
        _ => eprintln!(rt; "hox: channel {channel}: {clipped} tokens were clipped"),
    };
}
