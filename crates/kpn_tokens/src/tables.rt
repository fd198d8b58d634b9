//! Files with several channels side by side.
ghost use Rattle.std.specs.Prelude.{◌≡◌, ◌++◌, OnOk, codes};
ghost use Rattle.kpn_tokens.specs.Rows.{cell_text, cells_text, separator_before};
ghost use Rattle.kpn_tokens.specs.Samples.{channel_word};
ghost use Rattle.kpn_tokens.specs.Tables.{column_layout, row_text, samples_text};

use crate::layouts::{Cell, Column, Decimals, Frame, Layout, Sample, Separator};
use crate::numbers::{append_byte, append_token};
use crate::samples::{append_sample, word_of_token};
use kpn_model::Token;
use std::alloc::AllocError;

/// How a file has several channels side by side.
#[derive(Clone, Copy, Debug, PartialEq, Eq)]
pub enum Table {
    /// A row per line, with a field for each channel.
    Rows(Separator),
    /// A row per frame, with only such a sample for each channel.
    Samples(Sample),
}

impl Table {
    /// Returns the layout of a file of one column.
    pub fn layout(self, decimals: Decimals) -> Layout
        ensures { result ≡ column_layout self 1 0 decimals }
    {
        match self {
            Table::Rows(separator) => Layout::Fields(Column {
                place: 0,
                separator,
                decimals,
            }),
            Table::Samples(sample) => Layout::Frames(Frame::of(sample)),
        }
    }
}

/// Appends a row with a cell for each channel: a line of texts, empty for an absent token; or a frame of
/// samples, 0 for an absent token, and the nearest for one without a sample.
///
/// Errors: out of memory. Some cells may have been appended.
pub fn append_row(out: &mut Vec<u8>, table: Table, cells: &[Cell]) -> Result<(), AllocError>
    ensures { OnOk result (out.new.items ≡ out.old.items ++ row_text table cells.now) }
{
    match table {
        Table::Rows(separator) => append_line(out, separator, cells),
        Table::Samples(sample) => append_samples(out, &sample, cells),
    }
}

fn append_line(out: &mut Vec<u8>, separator: Separator, cells: &[Cell]) -> Result<(), AllocError>
    ensures { OnOk result (out.new.items ≡ out.old.items ++ (cells_text separator cells.now ++ codes "\n")) }
{
    for (place, cell) in cells.iter().enumerate() {
        append_cell(out, separator, place, cell)?;
    }
    append_byte(out, b'\n')
}

fn append_cell(
    out: &mut Vec<u8>,
    separator: Separator,
    place: usize,
    cell: &Cell,
) -> Result<(), AllocError>
    ensures { OnOk result (out.new.items ≡ out.old.items ++ (separator_before separator place ++ cell_text cell.now)) }
{
    if place > 0 {
        append_byte(out, separator.byte())?;
    }
    match cell.token {
        Some(token) => append_token(out, cell.decimals, token),
        None => Ok(()),
    }
}

fn append_samples(out: &mut Vec<u8>, sample: &Sample, cells: &[Cell]) -> Result<(), AllocError>
    ensures { OnOk result (out.new.items ≡ out.old.items ++ samples_text sample.now cells.now) }
{
    for cell in cells {
        append_sample(out, sample, word_of_channel(cell.token))?;
    }
    Ok(())
}

fn word_of_channel(token: Option<Token>) -> u64
    ensures { result ≡ channel_word token }
{
    match token {
        Some(token) => word_of_token(token),
        None => 0,
    }
}
