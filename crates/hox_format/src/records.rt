//! Finds the records of a file.
ghost use Rattle.std.specs.Prelude.{◌≡◌, ◌<◌, ◌≤◌, ◌*◌, ◌^◌, IfOk, IfSome, drop, length, nat_lt, take, true};
ghost use Rattle.std.specs.List.{position_or_len};
ghost use Rattle.kpn_tokens.specs.Rows.{is_line_feed};
ghost use Rattle.kpn_tokens.specs.Samples.{bytes_in};
ghost use Rattle.hox_format.specs.Records.{AreWavRecords, IsChannelResult, IsTold, IsWithin, channel_frame, channel_of, csv_records, name_fault, named_records, names_row, placed_records, raw_records, records_bytes, rows_from, to_end, TellsRecords};
ghost use Rattle.hox_format.specs.Forms.{form, table_of};

use crate::formats::{Csv, Format, Raw, Wav, Which};
use kpn_tokens::{
    Column, Cut, Frame, LONGEST_HEAD, Layout, RecordFault, Sample, WavFault, WavHead, Width,
    column_named, line_feed_in, wav_head,
};
use std::alloc::{AllocError, Global};

/// One channel's records in a file: their layout, where they start, their size in bytes if stated (else they
/// extend to the end), and the samples per second if stated.
#[derive(Clone, Copy, Debug, PartialEq, Eq)]
pub struct Records {
    pub layout: Layout,
    pub start: usize,
    pub size: Option<u64>,
    pub rate: Option<u32>,
}

/// Why a file has no records for a channel.
#[derive(Clone, Copy, Debug, PartialEq, Eq)]
pub enum HeadFault {
    /// It is no readable WAV file.
    Wav(WavFault),
    /// No column has the chosen name.
    NoColumn,
    /// The row of names is faulty.
    Names(RecordFault),
    /// The file has this many channels, but is given for another number, and no channel is chosen.
    Channels { has: u16 },
    /// The file has this many channels, and not the chosen one.
    NoChannel { has: u16 },
    /// The row of names has more than 65,536 bytes.
    TooLong,
    /// A frame has more than 65,535 bytes.
    TooWide,
}

/// The first bytes of a file, and whether no more come.
#[derive(Clone, Copy, Debug)]
pub struct FirstBytes<'a> {
    pub bytes: &'a [u8],
    pub is_last: bool,
}

/// Returns the records for the channel at `place`, counted from 0, of the `count` channels that the file is
/// given for, or `None` if the first bytes of the file don't suffice. If no more come, never returns `None`.
///
/// A column or channel that the format chooses overrides `place`. If it chooses none, a file of samples must
/// have `count` channels. Samples without a head have as many channels as the format says, or else `count`. A
/// column chosen by name implies a row of names.
///
/// Errors: out of memory.
pub fn records_in(
    alloc: Global,
    format: &Format<'_>,
    place: usize,
    count: usize,
    first: &FirstBytes<'_>,
) -> Result<Result<Option<Records>, HeadFault>, AllocError>
    ensures records { IfOk result (TellsRecords (form format.now) place count first.now) }
    ensures within { IfOk result (IsWithin first.now.bytes.now) }
    ensures told { first.now.is_last ≡ true → IfOk result IsTold }
{
    let FirstBytes { bytes, is_last } = *first;
    match format {
        Format::Text(decimals) => Ok(Ok(Some(to_end(Layout::Lines(*decimals))))),
        Format::Csv(csv) => csv_records(alloc, csv, place, bytes, is_last),
        Format::Wav(wav) => Ok(wav_records(wav, place, count, bytes, is_last)),
        Format::Raw(raw) => Ok(raw_records(raw, place, count)),
    }
}

fn to_end(layout: Layout) -> Records
    ensures { result ≡ to_end layout }
{
    Records {
        layout,
        start: 0,
        size: None,
        rate: None,
    }
}

fn csv_records(
    alloc: Global,
    csv: &Csv<'_>,
    place: usize,
    bytes: &[u8],
    is_last: bool,
) -> Result<Result<Option<Records>, HeadFault>, AllocError>
    ensures { IfOk result (λ records. records ≡ csv_records (table_of csv.now) place bytes.now is_last) }
{
    match csv.column {
        Some(Which::Name(name)) => named_records(alloc, csv, name, bytes, is_last),
        Some(Which::Place(chosen)) => Ok(placed_records(csv, chosen, bytes, is_last)),
        None => Ok(placed_records(csv, place, bytes, is_last)),
    }
}

fn placed_records(
    csv: &Csv<'_>,
    place: usize,
    bytes: &[u8],
    is_last: bool,
) -> Result<Option<Records>, HeadFault>
    ensures { result ≡ placed_records (table_of csv.now) place bytes.now is_last }
{
    if !csv.has_header {
        return Ok(Some(rows_from(csv, place, 0)));
    }
    match names_row(bytes, is_last) {
        Ok(Some(row)) => Ok(Some(rows_from(csv, place, row.used))),
        Ok(None) => Ok(None),
        Err(fault) => Err(fault),
    }
}

fn named_records(
    alloc: Global,
    csv: &Csv<'_>,
    name: &str,
    bytes: &[u8],
    is_last: bool,
) -> Result<Result<Option<Records>, HeadFault>, AllocError>
    ensures { IfOk result (λ records. records ≡ named_records (table_of csv.now) name.now bytes.now is_last) }
{
    let row = match names_row(bytes, is_last) {
        Ok(Some(row)) => row,
        Ok(None) => return Ok(Ok(None)),
        Err(fault) => return Ok(Err(fault)),
    };
    match column_named(alloc, csv.separator, &bytes[..row.length], name)? {
        Ok(place) => Ok(Ok(Some(rows_from(csv, place, row.used)))),
        Err(fault) => Ok(Err(name_fault(fault))),
    }
}

fn rows_from(csv: &Csv<'_>, place: usize, start: usize) -> Records
    ensures { result ≡ rows_from (table_of csv.now) place start }
{
    let column = Column {
        place,
        separator: csv.separator,
        decimals: csv.decimals,
    };
    Records {
        start,
        ..to_end(Layout::Fields(column))
    }
}

fn name_fault(fault: RecordFault) -> HeadFault
    ensures { result ≡ name_fault fault }
{
    match fault {
        RecordFault::NoField => HeadFault::NoColumn,
        other => HeadFault::Names(other),
    }
}

/// Returns the row of names, if it is complete.
fn names_row(bytes: &[u8], is_last: bool) -> Result<Option<Cut>, HeadFault>
    ensures row { result ≡ names_row bytes.now is_last }
    ensures within { IfOk result (λ o. IfSome o (λ row. row.length ≤ length bytes.now)) }
{
    let length = line_length(bytes);
    if length > LONGEST_HEAD {
        return Err(HeadFault::TooLong);
    }
    if length < bytes.len() {
        return Ok(Some(Cut {
            length,
            used: length + 1,
        }));
    }
    if is_last {
        Ok(Some(Cut {
            length,
            used: length,
        }))
    } else {
        Ok(None)
    }
}

/// Returns how many bytes precede the first line feed, or how many there are.
fn line_length(bytes: &[u8]) -> usize
    ensures is { result ≡ position_or_len is_line_feed bytes.now }
    ensures within { result ≤ length bytes.now }
{
    match line_feed_in(bytes) {
        Some(length) => length,
        None => bytes.len(),
    }
}

fn wav_records(
    wav: &Wav,
    place: usize,
    count: usize,
    bytes: &[u8],
    is_last: bool,
) -> Result<Option<Records>, HeadFault>
    ensures { AreWavRecords wav.now place count bytes.now is_last result }
{
    match wav_head(bytes, is_last) {
        Ok(Some(head)) => match channel_records(wav, place, count, &head) {
            Ok(records) => Ok(Some(records)),
            Err(fault) => Err(fault),
        },
        Ok(None) => Ok(None),
        Err(fault) => Err(HeadFault::Wav(fault)),
    }
}

fn channel_records(
    wav: &Wav,
    place: usize,
    count: usize,
    head: &WavHead,
) -> Result<Records, HeadFault>
    ensures { IsChannelResult wav.now place count head.now result }
{
    let channel = match channel_of(wav.channel, place, count, head.channels) {
        Ok(channel) => channel,
        Err(fault) => return Err(fault),
    };
    let Some(frame) = head.frame(channel) else {
        return Err(HeadFault::TooWide);
    };
    Ok(Records {
        layout: Layout::Frames(frame),
        start: head.start,
        size: long(head.size),
        rate: Some(head.rate),
    })
}

fn long(size: Option<u32>) -> Option<u64>
    ensures { result ≡ size }
{
    match size {
        Some(size) => Some(size as u64),
        None => None,
    }
}

/// Returns the chosen channel, or else the one at `place`, in a file with `has` channels.
fn channel_of(chosen: Option<u16>, place: usize, count: usize, has: u16) -> Result<u16, HeadFault>
    ensures is { result ≡ channel_of chosen place count has }
    ensures below { IfOk result (λ channel. channel < has) }
{
    match chosen {
        Some(channel) if channel < has => Ok(channel),
        Some(_) => Err(HeadFault::NoChannel { has }),
        None if count != has as usize => Err(HeadFault::Channels { has }),
        None if place < count => Ok(place as u16),
        None => Err(HeadFault::NoChannel { has }),
    }
}

fn raw_records(raw: &Raw, place: usize, count: usize) -> Result<Option<Records>, HeadFault>
    ensures { result ≡ raw_records raw.now place count }
{
    let channels = match raw.channels {
        Some(channels) => channels as usize,
        None => count,
    };
    if is_wide(channels, raw.sample.width) {
        return Err(HeadFault::TooWide);
    }
    let has = channels as u16;
    match channel_of(raw.channel, place, count, has) {
        Ok(channel) => Ok(Some(to_end(Layout::Frames(channel_frame(raw.sample, has, channel))))),
        Err(fault) => Err(fault),
    }
}

fn is_wide(channels: usize, width: Width) -> bool
    ensures is { result ≡ nat_lt 65535 (channels * bytes_in width) }
{
    channels > 65535 || channels * width.bytes() > 65535
}

/// Returns the frame of a channel among `channels`.
fn channel_frame(sample: Sample, channels: u16, channel: u16) -> Frame
    requires channel { channel < channels }
    requires narrow { channels * bytes_in sample.width < 2 ^ 16 }
    ensures { result ≡ channel_frame sample channels channel }
{
    let width = sample.width.bytes();
    Frame {
        before: (channel as usize * width) as u16,
        sample,
        after: ((channels - 1 - channel) as usize * width) as u16,
    }
}

/// Returns the bytes of these records in a file: none if the file ends before them.
pub fn records_of<'b>(bytes: &'b [u8], records: &Records) -> &'b [u8]
    ensures { result.now ≡ records_bytes records.now bytes.now }
{
    let later = bytes_from(bytes, records.start);
    match records.size {
        Some(size) => first_bytes(later, size),
        None => later,
    }
}

fn bytes_from(bytes: &[u8], start: usize) -> &[u8]
    ensures { result.now ≡ drop start bytes.now }
{
    if start < bytes.len() {
        &bytes[start..]
    } else {
        &[]
    }
}

fn first_bytes(bytes: &[u8], size: u64) -> &[u8]
    ensures { result.now ≡ take size bytes.now }
{
    if size < bytes.len() as u64 {
        &bytes[..size as usize]
    } else {
        bytes
    }
}
