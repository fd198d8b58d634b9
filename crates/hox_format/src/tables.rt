//! Several channels in one file.
ghost use Rattle.std.specs.Prelude.{◌≡◌};
ghost use Rattle.hox_format.specs.Forms.{form};
ghost use Rattle.hox_format.specs.Tables.{decimals_of, is_so_many, shared_by, shared_rows, shared_samples, shared_wave};

use crate::formats::{Csv, Format, Raw, Wav};
use kpn_tokens::{Decimals, Sample, Table, wav_sample};

/// The arrangement that channels side by side in a file share, and what precedes them.
#[derive(Clone, Copy, Debug, PartialEq, Eq)]
pub struct Shared {
    pub table: Table,
    pub head: Head,
}

/// What precedes the tokens in a file: nothing, a row of names, or a WAV head, with the samples per second if stated.
#[derive(Clone, Copy, Debug, PartialEq, Eq)]
pub enum Head {
    Nothing,
    Names,
    Wav(Option<u32>),
}

/// Returns what `count` channels in a file of this format share. Returns `None` if the file is for one channel: if a
/// line has one token, or the format chooses a column or channel, or states another number of channels.
pub fn shared_by(format: &Format<'_>, count: usize) -> Option<Shared>
    ensures { result ≡ shared_by (form format.now) count }
{
    match format {
        Format::Text(_) => None,
        Format::Csv(csv) if csv.column.is_none() => Some(shared_rows(csv)),
        Format::Wav(wav) if wav.channel.is_none() => Some(shared_wave(wav)),
        Format::Raw(raw) if raw.channel.is_none() && is_so_many(raw.channels, count) => {
            Some(shared_samples(raw))
        }
        Format::Csv(_) | Format::Wav(_) | Format::Raw(_) => None,
    }
}

fn shared_rows(csv: &Csv<'_>) -> Shared
    ensures { result ≡ shared_rows csv.now.separator csv.now.has_header }
{
    let head = if csv.has_header {
        Head::Names
    } else {
        Head::Nothing
    };
    Shared {
        table: Table::Rows(csv.separator),
        head,
    }
}

fn shared_wave(wav: &Wav) -> Shared
    ensures { result ≡ shared_wave wav.now }
{
    let sample = Sample {
        clips: wav.clips,
        ..wav_sample(wav.width)
    };
    Shared {
        table: Table::Samples(sample),
        head: Head::Wav(wav.rate),
    }
}

fn shared_samples(raw: &Raw) -> Shared
    ensures { result ≡ shared_samples raw.now }
{
    Shared {
        table: Table::Samples(raw.sample),
        head: Head::Nothing,
    }
}

fn is_so_many(channels: Option<u16>, count: usize) -> bool
    ensures { result ≡ is_so_many channels count }
{
    match channels {
        Some(channels) => channels as usize == count,
        None => true,
    }
}

/// Returns how a word is written in this format; whole and signed for samples.
pub fn decimals_of(format: &Format<'_>) -> Decimals
    ensures { result ≡ decimals_of (form format.now) }
{
    match format {
        Format::Text(decimals) => *decimals,
        Format::Csv(csv) => csv.decimals,
        Format::Wav(_) | Format::Raw(_) => Decimals::WHOLE,
    }
}
