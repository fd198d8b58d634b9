//! Words and flags as samples.
ghost use Rattle.std.specs.Prelude.{◌≡◌, ◌<◌, ◌≤◌, ◌++◌, OnOk, length, true};
ghost use Rattle.kpn_tokens.specs.Records.{IsSaidOf};
ghost use Rattle.kpn_tokens.specs.Samples.{bytes_in, frame_said, half_of, is_fit, nearest, number_for, numbers_of, word_for, word_sample, sampled_word};

use crate::layouts::{Coding, Endian, Frame, RecordFault, Sample, Width};
use byteorder::{BigEndian, ByteOrder, LittleEndian};
use kpn_model::{Sort, Token};
use std::alloc::AllocError;

/// Returns the token of a frame, like [`token_of_record`](crate::token_of_record).
#[inline(always)]
pub fn token_of_frame(frame: &Frame, sort: Sort, bytes: &[u8]) -> Result<Option<Token>, RecordFault>
    ensures said { result ≡ frame_said frame.now sort bytes.now }
    ensures sorted { IsSaidOf sort result }
{
    if bytes.len() < frame.size() {
        return Err(RecordFault::CutShort);
    }
    let word = word_in(&frame.sample, &bytes[frame.before as usize..]);
    match (sort, word) {
        (Sort::Words, _) => Ok(Some(Token::Word(word))),
        (Sort::Flags, 0) => Ok(Some(Token::Flag(false))),
        (Sort::Flags, 1) => Ok(Some(Token::Flag(true))),
        (Sort::Flags, _) => Err(RecordFault::NotAFlag),
    }
}

fn word_in(sample: &Sample, bytes: &[u8]) -> u64
    requires { bytes_in sample.now.width ≤ length bytes.now }
    ensures { result ≡ sampled_word sample.now bytes.now }
{
    let number = match sample.endian {
        Endian::Little => number_by::<LittleEndian>(sample.width, bytes),
        Endian::Big => number_by::<BigEndian>(sample.width, bytes),
    };
    let half = half_of_numbers(sample.width);
    match sample.coding {
        Coding::Unsigned => number,
        Coding::Signed if number < half => number,
        Coding::Signed => number.wrapping_sub(half).wrapping_sub(half),
        Coding::Offset => number.wrapping_sub(half),
    }
}

fn number_by<O: ByteOrder>(width: Width, bytes: &[u8]) -> u64
    requires { bytes_in width ≤ length bytes.now }
    ensures { result ≡ O.number_of (bytes_in width) bytes.now }
{
    match width {
        Width::One => O::read_uint(bytes, 1),
        Width::Two => O::read_u16(bytes) as u64,
        Width::Three => O::read_u24(bytes) as u64,
        Width::Four => O::read_u32(bytes) as u64,
        Width::Eight => O::read_u64(bytes),
    }
}

/// Returns half the count of numbers of this width.
fn half_of_numbers(width: Width) -> u64
    ensures { result ≡ half_of width }
{
    match width {
        Width::One => 1 << 7,
        Width::Two => 1 << 15,
        Width::Three => 1 << 23,
        Width::Four => 1 << 31,
        Width::Eight => 1 << 63,
    }
}

/// Whether a word has a number of this width.
pub(crate) fn is_word_fit(sample: &Sample, word: u64) -> bool
    ensures { result ≡ is_fit sample.now.coding sample.now.width word }
{
    let half = half_of_numbers(sample.width);
    match sample.coding {
        Coding::Unsigned => word <= half - 1 + half,
        Coding::Signed | Coding::Offset => word < half || 0u64.wrapping_sub(half) <= word,
    }
}

pub(crate) fn word_of_token(token: Token) -> u64
    ensures { result ≡ word_for token }
{
    match token {
        Token::Word(word) => word,
        Token::Flag(false) => 0,
        Token::Flag(true) => 1,
    }
}

/// Returns the nearest word that fits.
fn nearest_word(sample: &Sample, word: u64) -> u64
    ensures { result ≡ nearest sample.now.coding sample.now.width word }
{
    if is_word_fit(sample, word) {
        return word;
    }
    let half = half_of_numbers(sample.width);
    match sample.coding {
        Coding::Unsigned if word < 1 << 63 => half - 1 + half,
        Coding::Unsigned => 0,
        Coding::Signed | Coding::Offset if word < 1 << 63 => half - 1,
        Coding::Signed | Coding::Offset => 0u64.wrapping_sub(half),
    }
}

fn number_for_word(sample: &Sample, word: u64) -> u64
    requires { is_fit sample.now.coding sample.now.width word ≡ true }
    ensures is { result ≡ number_for sample.now.coding sample.now.width word }
    ensures fits { result < numbers_of sample.now.width }
{
    let half = half_of_numbers(sample.width);
    match sample.coding {
        Coding::Unsigned => word,
        Coding::Signed if word < half => word,
        Coding::Signed => word.wrapping_add(half).wrapping_add(half),
        Coding::Offset => word.wrapping_add(half),
    }
}

/// Appends the sample of a word, or of the nearest that fits.
pub(crate) fn append_sample(out: &mut Vec<u8>, sample: &Sample, word: u64) -> Result<(), AllocError>
    ensures { OnOk result (out.new.items ≡ out.old.items ++ word_sample sample.now word) }
{
    let number = number_for_word(sample, nearest_word(sample, word));
    match sample.endian {
        Endian::Little => append_number::<LittleEndian>(out, sample.width, number),
        Endian::Big => append_number::<BigEndian>(out, sample.width, number),
    }
}

fn append_number<O: ByteOrder>(
    out: &mut Vec<u8>,
    width: Width,
    number: u64,
) -> Result<(), AllocError>
    requires { number < numbers_of width }
    ensures { OnOk result (out.new.items ≡ out.old.items ++ O.bytes_of (bytes_in width) number) }
{
    match width {
        Width::Two => append_short::<O>(out, number as u16),
        Width::One | Width::Three | Width::Four | Width::Eight => {
            let mut bytes = [0; 8];
            O::write_uint(&mut bytes, number, width.bytes());
            out.extend_from_slice(&bytes[..width.bytes()])
        }
    }
}

#[inline(always)]
fn append_short<O: ByteOrder>(out: &mut Vec<u8>, number: u16) -> Result<(), AllocError>
    ensures { OnOk result (out.new.items ≡ out.old.items ++ O.bytes_of 2 number) }
{
    let mut bytes = [0; 2];
    O::write_u16(&mut bytes, number);
    out.extend_from_slice(&bytes)
}
