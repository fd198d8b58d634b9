//! The head of a file: that of a WAV file, or a row of names.
ghost use Rattle.std.specs.Prelude.{◌≡◌, ◌<◌, ◌≤◌, ◌+◌, ◌*◌, ◌^◌, ◌++◌, true, false, None, Some, IfNone, IfSome, MatchOption, MatchResult, OnOk, length};
ghost use Rattle.std.specs.List.{flat_map};
ghost use Rattle.kpn_tokens.specs.Heads.{IsFrameOf, IsWavResult, body_size, chunk_size, has_letters, if_filled, is_pcm, is_wav, number_at, number_bytes, size_told, wav_sample, width_of, width_told, HasChunkAt, HasLongFrames, HasNoChunk, WantsMore, WantsNoMore, wav_text_before};

use crate::layouts::{Coding, Endian, Frame, Sample, Width};
use byteorder::{ByteOrder, LittleEndian};
use std::alloc::AllocError;

/// The most bytes before the samples of a WAV file.
pub const LONGEST_HEAD: usize = 65536;

/// The letters of a WAV file's head, as numbers of four bytes, little-endian.
const RIFF: u32 = 0x46464952;

const WAVE: u32 = 0x45564157;

const FORMAT: u32 = 0x20746D66;

const DATA: u32 = 0x61746164;

/// A number in a WAV file's head, of two bytes or four.
#[derive(Clone, Copy, Debug, PartialEq, Eq)]
enum HeadNumber {
    Short(u16),
    Long(u32),
}

/// What a WAV file says before its samples: how many channels it has, samples per second of each, how a
/// sample is written, where the samples start, and how many bytes they have; without that number they extend
/// to the end of the file.
#[derive(Clone, Copy, Debug, PartialEq, Eq)]
pub struct WavHead {
    pub channels: u16,
    pub rate: u32,
    pub sample: Sample,
    pub start: usize,
    pub size: Option<u32>,
}

/// Why a file is no WAV file that can be read.
#[derive(Clone, Copy, Debug, PartialEq, Eq)]
pub enum WavFault {
    /// It does not begin like a WAV file.
    NotWav,
    /// Its samples are not PCM of 8, 16, 24 or 32 bits.
    NotPcm,
    /// Nothing before its samples says what they are.
    NoFormat,
    /// It ends before its samples begin.
    CutShort,
    /// Its samples begin after more than [`LONGEST_HEAD`] bytes.
    TooLong,
}

/// Returns the head of a WAV file from its first bytes; `None` if its samples are not reached and more bytes
/// may come.
///
/// Errors: see [`WavFault`].
pub fn wav_head(bytes: &[u8], is_last: bool) -> Result<Option<WavHead>, WavFault>
    ensures { IsWavResult bytes.now is_last result }
{
    if bytes.len() >= 12 && !is_wav(bytes) {
        return Err(WavFault::NotWav);
    }
    let Some(samples) = chunk_in(bytes, b"data") else {
        return wanting(bytes.len(), is_last);
    };
    if samples + 8 > LONGEST_HEAD {
        return Err(WavFault::TooLong);
    }
    let Some(format) = chunk_in(bytes, b"fmt ") else {
        return Err(WavFault::NoFormat);
    };
    if format >= samples {
        return Err(WavFault::NoFormat);
    }
    match width_told(bytes, format) {
        Some(width) => Ok(Some(head_of(bytes, format, samples, width))),
        None => Err(WavFault::NotPcm),
    }
}

fn wanting(length: usize, is_last: bool) -> Result<Option<WavHead>, WavFault>
    ensures { MatchResult result (WantsMore length is_last) (WantsNoMore length is_last) }
{
    if length > LONGEST_HEAD {
        Err(WavFault::TooLong)
    } else if is_last {
        Err(WavFault::CutShort)
    } else {
        Ok(None)
    }
}

fn is_wav(bytes: &[u8]) -> bool
    requires { 12 ≤ length bytes.now }
    ensures { result ≡ is_wav bytes.now }
{
    has_letters(bytes, 0, b"RIFF") && has_letters(bytes, 8, b"WAVE")
}

fn chunk_in(bytes: &[u8], letters: &[u8]) -> Option<usize>
    ensures { MatchOption result (HasNoChunk bytes.now letters.now) (HasChunkAt bytes.now letters.now) }
{
    let mut place = 12;
    while bytes.len() >= 8 && place <= bytes.len() - 8 {
        if has_letters(bytes, place, letters) {
            return Some(place);
        }
        let size = chunk_size(bytes, place) as usize;
        place = place + 8 + size + size % 2;
    }
    None
}

fn has_letters(bytes: &[u8], place: usize, letters: &[u8]) -> bool
    requires { place + 4 ≤ length bytes.now }
    ensures { result ≡ has_letters letters.now place bytes.now }
{
    &bytes[place..place + 4] == letters
}

fn chunk_size(bytes: &[u8], place: usize) -> u32
    requires { place + 8 ≤ length bytes.now }
    ensures { result ≡ chunk_size place bytes.now }
{
    LittleEndian::read_u32(&bytes[place + 4..])
}

fn short_at(bytes: &[u8], place: usize) -> u16
    requires { place + 2 ≤ length bytes.now }
    ensures { result ≡ number_at 2 place bytes.now }
{
    LittleEndian::read_u16(&bytes[place..])
}

fn width_told(bytes: &[u8], format: usize) -> Option<Width>
    requires { format + 8 + chunk_size format bytes.now ≤ length bytes.now }
    ensures { result ≡ width_told format bytes.now }
{
    if chunk_size(bytes, format) < 16 || !is_pcm(bytes, format) {
        return None;
    }
    match width_of(short_at(bytes, format + 22)) {
        Some(width) => if_filled(bytes, format, width),
        None => None,
    }
}

fn is_pcm(bytes: &[u8], format: usize) -> bool
    requires whole { format + 8 + chunk_size format bytes.now ≤ length bytes.now }
    requires long { 16 ≤ chunk_size format bytes.now }
    ensures { result ≡ is_pcm format bytes.now }
{
    let tag = short_at(bytes, format + 8);
    if tag == 1 {
        return true;
    }
    tag == 0xFFFE && chunk_size(bytes, format) >= 26 && short_at(bytes, format + 32) == 1
}

/// The width, if a frame has exactly one sample of it for each channel.
fn if_filled(bytes: &[u8], format: usize, width: Width) -> Option<Width>
    requires { format + 24 ≤ length bytes.now }
    ensures { result ≡ if_filled format bytes.now (Some width) }
{
    let channels = short_at(bytes, format + 10) as usize;
    if channels * width.bytes() == short_at(bytes, format + 20) as usize {
        Some(width)
    } else {
        None
    }
}

/// The width of a sample of this many bits, if such files can be read.
fn width_of(bits: u16) -> Option<Width>
    ensures { result ≡ width_of bits }
{
    match bits {
        8 => Some(Width::One),
        16 => Some(Width::Two),
        24 => Some(Width::Three),
        32 => Some(Width::Four),
        _ => None,
    }
}

fn head_of(bytes: &[u8], format: usize, samples: usize, width: Width) -> WavHead
    requires format { format + 24 ≤ length bytes.now }
    requires samples { samples + 8 ≤ length bytes.now }
    ensures channels { result.channels ≡ number_at 2 (format + 10) bytes.now }
    ensures rate { result.rate ≡ number_at 4 (format + 12) bytes.now }
    ensures sample { result.sample ≡ wav_sample width }
    ensures start { result.start ≡ samples + 8 }
    ensures size { result.size ≡ size_told (chunk_size samples bytes.now) }
{
    WavHead {
        channels: short_at(bytes, format + 10),
        rate: LittleEndian::read_u32(&bytes[format + 12..]),
        sample: wav_sample(width),
        start: samples + 8,
        size: size_told(chunk_size(bytes, samples)),
    }
}

fn size_told(size: u32) -> Option<u32>
    ensures { result ≡ size_told size }
{
    if size == 0 || size == u32::MAX {
        None
    } else {
        Some(size)
    }
}

/// Returns how WAV files write samples of this width. One that does not fit is a fault.
pub fn wav_sample(width: Width) -> Sample
    ensures { result ≡ wav_sample width }
{
    Sample {
        width,
        coding: match width {
            Width::One => Coding::Offset,
            _ => Coding::Signed,
        },
        endian: Endian::Little,
        clips: false,
    }
}

impl WavHead {
    /// Returns the frames of a channel; `None` if there is no such channel, or if a frame is too long.
    pub fn frame(&self, channel: u16) -> Option<Frame>
        ensures some { IfSome result (IsFrameOf self.now channel) }
        ensures none { IfNone result (channel < self.now.channels → HasLongFrames self.now) }
    {
        if channel >= self.channels {
            return None;
        }
        let width = self.sample.width.bytes();
        let before = channel as usize * width;
        let after = (self.channels as usize - 1 - channel as usize) * width;
        if before + after > 65535 {
            return None;
        }
        Some(Frame {
            before: before as u16,
            sample: self.sample,
            after: after as u16,
        })
    }
}

/// Appends the head of a WAV file with `channels` channels, samples of this width and `rate` frames per
/// second. `frames` frames follow it, or any number if `None`, and one more byte if their bytes are odd.
///
/// Errors: out of memory. Some bytes may have been appended.
pub fn append_wav_head(
    out: &mut Vec<u8>,
    channels: u16,
    width: Width,
    rate: u32,
    frames: Option<u32>,
) -> Result<(), AllocError>
    ensures { OnOk result (out.new.items ≡ out.old.items ++ wav_text_before frames channels width rate) }
{
    let block = channels as u64 * width.bytes() as u64;
    let size = body_size(frames, block);
    append_numbers(
        out,
        &[
            HeadNumber::Long(RIFF),
            HeadNumber::Long((size + size % 2 + 36).min(0xFFFFFFFF) as u32),
            HeadNumber::Long(WAVE),
            HeadNumber::Long(FORMAT),
            HeadNumber::Long(16),
            HeadNumber::Short(1),
            HeadNumber::Short(channels),
            HeadNumber::Long(rate),
            HeadNumber::Long((rate as u64 * block % (1 << 32)) as u32),
            HeadNumber::Short((block % (1 << 16)) as u16),
            HeadNumber::Short(8 * width.bytes() as u16),
            HeadNumber::Long(DATA),
            HeadNumber::Long(size as u32),
        ],
    )
}

/// How many bytes the frames have; at most 2^32 - 1, also for an unknown number.
fn body_size(frames: Option<u32>, block: u64) -> u64
    requires { block < 2 ^ 20 }
    ensures size { result ≡ body_size frames block }
    ensures small { result < 2 ^ 32 }
{
    match frames {
        Some(frames) => (frames as u64 * block).min(0xFFFFFFFF),
        None => 0xFFFFFFFF,
    }
}

fn append_numbers(out: &mut Vec<u8>, numbers: &[HeadNumber]) -> Result<(), AllocError>
    ensures { OnOk result (out.new.items ≡ out.old.items ++ flat_map number_bytes numbers.now) }
{
    for number in numbers {
        append_number(out, *number)?;
    }
    Ok(())
}

/// Appends a number, little-endian.
fn append_number(out: &mut Vec<u8>, number: HeadNumber) -> Result<(), AllocError>
    ensures { OnOk result (out.new.items ≡ out.old.items ++ number_bytes number) }
{
    let mut bytes = [0; 4];
    match number {
        HeadNumber::Short(number) => {
            LittleEndian::write_u16(&mut bytes, number);
            out.extend_from_slice(&bytes[..2])
        }
        HeadNumber::Long(number) => {
            LittleEndian::write_u32(&mut bytes, number);
            out.extend_from_slice(&bytes[..4])
        }
    }
}
