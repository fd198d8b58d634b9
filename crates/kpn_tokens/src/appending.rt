//! Writes tokens as records.
ghost use Rattle.std.specs.Prelude.{◌≡◌, ◌++◌, false, not, Err, IfErr, IfOk, OnOk, replicate, Some};
ghost use Rattle.std.specs.List.{flat_map, position};
ghost use Rattle.kpn_tokens.specs.Records.{IsMisfitCount, clips, fits, record_text, NamesMisfit, misfit_place};
ghost use Rattle.kpn_tokens.specs.Rows.{field_text};
ghost use Rattle.kpn_tokens.specs.Samples.{frame_text};

use crate::layouts::{Column, Frame, Layout};
use crate::numbers::{append_byte, append_line, append_token};
use crate::samples::{append_sample, is_word_fit, word_of_token};
use kpn_model::Token;
use std::alloc::AllocError;

/// Why tokens were not written: the token at this place, counted from 0, has no sample; or out of memory.
#[derive(Clone, Copy, Debug, PartialEq, Eq)]
pub enum AppendFault {
    DoesNotFit { place: usize },
    Memory,
}

impl From<AllocError> for AppendFault {
    ghost use Rattle.kpn_tokens.specs.declared.appending.AppendFault.{AppendFault};

    ghost from_gives = { λ _ fault. fault ≡ AppendFault.Memory };

    fn from(_error: AllocError) -> AppendFault {
        AppendFault::Memory
    }
}

/// Appends each token as a record for [`read_tokens`](crate::read_tokens). Returns how many did not fit and
/// were written as the nearest that does.
///
/// Errors: see [`AppendFault`]. The tokens before one that does not fit have been appended. If out of memory,
/// some may have been.
pub fn append_tokens(
    out: &mut Vec<u8>,
    layout: Layout,
    tokens: &[Token],
) -> Result<usize, AppendFault>
    ensures appends { OnOk result (out.new.items ≡ out.old.items ++ flat_map (record_text layout) tokens.now) }
    ensures counted { IfOk result (IsMisfitCount layout tokens.now) }
    ensures refused { NamesMisfit layout out.old.items out.new.items tokens.now result }
{
    let mut clipped = 0;
    for (place, token) in tokens.iter().enumerate() {
        if !is_fit(&layout, *token) {
            if !may_clip(&layout) {
                return Err(AppendFault::DoesNotFit { place });
            }
            clipped += 1;
        }
        append_record(out, &layout, *token)?;
    }
    Ok(clipped)
}

/// Counts the tokens that do not fit a layout, if the nearest may be written.
///
/// Errors: the nearest may not be written. Returns the place of the first that does not fit, counted from 0.
pub fn count_misfits(layout: Layout, tokens: &[Token]) -> Result<usize, usize>
    ensures counted { IfOk result (IsMisfitCount layout tokens.now) }
    ensures refused { IfErr result (λ place. (clips layout ≡ false) × (misfit_place layout tokens.now ≡ Some place)) }
{
    if !may_clip(&layout) {
        return match first_misfit(&layout, tokens) {
            Some(place) => Err(place),
            None => Ok(0),
        };
    }
    let mut misfits = 0;
    for token in tokens {
        if !is_fit(&layout, *token) {
            misfits += 1;
        }
    }
    Ok(misfits)
}

fn first_misfit(layout: &Layout, tokens: &[Token]) -> Option<usize>
    ensures { result ≡ position (λ token. not (fits layout.now token)) tokens.now }
{
    tokens.iter().position(|token| !is_fit(layout, *token))
}

/// Whether a token's record can be read back as the token.
fn is_fit(layout: &Layout, token: Token) -> bool
    ensures { result ≡ fits layout.now token }
{
    match layout {
        Layout::Lines(_) | Layout::Fields(_) => true,
        Layout::Frames(frame) => is_word_fit(&frame.sample, word_of_token(token)),
    }
}

fn may_clip(layout: &Layout) -> bool
    ensures { result ≡ clips layout.now }
{
    match layout {
        Layout::Lines(_) | Layout::Fields(_) => false,
        Layout::Frames(frame) => frame.sample.clips,
    }
}

fn append_record(out: &mut Vec<u8>, layout: &Layout, token: Token) -> Result<(), AllocError>
    ensures { OnOk result (out.new.items ≡ out.old.items ++ record_text layout.now token) }
{
    match layout {
        Layout::Lines(decimals) => return append_line(out, *decimals, token),
        Layout::Fields(column) => append_field(out, column, token)?,
        Layout::Frames(frame) => return append_frame_of(out, frame, token),
    }
    out.extend_from_slice(b"\n")
}

fn append_field(out: &mut Vec<u8>, column: &Column, token: Token) -> Result<(), AllocError>
    ensures { OnOk result (out.new.items ≡ out.old.items ++ field_text column.now token) }
{
    append_copies(out, column.separator.byte(), column.place)?;
    append_token(out, column.decimals, token)
}

fn append_frame_of(out: &mut Vec<u8>, frame: &Frame, token: Token) -> Result<(), AllocError>
    ensures { OnOk result (out.new.items ≡ out.old.items ++ frame_text frame.now token) }
{
    append_copies(out, 0, frame.before as usize)?;
    append_sample(out, &frame.sample, word_of_token(token))?;
    append_copies(out, 0, frame.after as usize)
}

fn append_copies(out: &mut Vec<u8>, byte: u8, count: usize) -> Result<(), AllocError>
    ensures { OnOk result (out.new.items ≡ out.old.items ++ replicate count byte) }
{
    for _ in 0..count {
        append_byte(out, byte)?;
    }
    Ok(())
}
