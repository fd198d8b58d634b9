//! What a file has before and after the tokens.
ghost use Rattle.std.specs.Prelude.{◌≡◌, ◌++◌, OnErr, OnOk};
ghost use Rattle.hox_format.specs.Forms.{form};
ghost use Rattle.hox_format.specs.Heads.{channels_told, layout_of, tail_text, file_head_text};

use crate::formats::Format;
use kpn_tokens::{Column, Frame, Layout, Sample, append_names, append_wav_head, wav_sample};
use std::alloc::{AllocError, Global};

/// Returns how a single channel is written to a file of this format: on lines, in the first column, or as
/// adjacent samples.
pub fn layout_of(format: &Format<'_>) -> Layout
    ensures { result ≡ layout_of (form format.now) }
{
    match format {
        Format::Text(decimals) => Layout::Lines(*decimals),
        Format::Csv(csv) => Layout::Fields(Column {
            place: 0,
            separator: csv.separator,
            decimals: csv.decimals,
        }),
        Format::Wav(wav) => Layout::Frames(Frame::of(Sample {
            clips: wav.clips,
            ..wav_sample(wav.width)
        })),
        Format::Raw(raw) => Layout::Frames(Frame::of(raw.sample)),
    }
}

/// What a file may say before the tokens: the names of their channels, the samples per second, unless the format
/// has them, and the number of frames, if known.
#[derive(Clone, Copy, Debug)]
pub struct FileHead<'a, 'b> {
    pub names: &'b [&'a [u8]],
    pub rate: u32,
    pub frames: Option<u32>,
}

/// Appends what precedes the tokens: for a CSV file with a row of names, that row; for a WAV file its head, with
/// the number of channels (at most 65,535), the format's samples per second, or else the head's, and the
/// number of frames, if known; else nothing.
///
/// Errors: out of memory. Some bytes may have been appended.
pub fn append_head(
    alloc: Global,
    out: &mut Vec<u8>,
    format: &Format<'_>,
    head: &FileHead<'_, '_>,
) -> Result<(), AllocError>
    ensures { OnOk result (out.new.items ≡ out.old.items ++ file_head_text (form format.now) head.now) }
{
    let FileHead {
        names,
        rate,
        frames,
    } = *head;
    match format {
        Format::Csv(csv) if csv.has_header => append_names(alloc, out, csv.separator, names),
        Format::Wav(wav) => {
            let channels = channels_told(names.len());
            append_wav_head(out, channels, wav.width, wav.rate.unwrap_or(rate), frames)
        }
        Format::Text(_) | Format::Csv(_) | Format::Raw(_) => Ok(()),
    }
}

fn channels_told(count: usize) -> u16
    ensures { result ≡ channels_told count }
{
    count.min(65535) as u16
}

/// Appends what follows `size` bytes of tokens: one byte 0 in a WAV file if `size` is odd and its head states
/// the size; else nothing. A head states it if it got the number of frames and `size` is less than 2^32 - 1.
///
/// Errors: out of memory. Then nothing is appended.
pub fn append_tail(
    out: &mut Vec<u8>,
    format: &Format<'_>,
    size: u64,
    frames: Option<u32>,
) -> Result<(), AllocError>
    ensures ok { OnOk result (out.new.items ≡ out.old.items ++ tail_text (form format.now) size frames) }
    ensures err { OnErr result (out.new.items ≡ out.old.items) }
{
    match format {
        Format::Wav(_) if frames.is_some() && size % 2 == 1 && size < 0xFFFFFFFF => {
            out.extend_from_slice(&[0])
        }
        Format::Wav(_) | Format::Text(_) | Format::Csv(_) | Format::Raw(_) => Ok(()),
    }
}
