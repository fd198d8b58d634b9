//! Layouts of files as the rows write them.
use kpn_tokens::{
    Cell, Coding, Column, Decimals, Endian, Frame, Layout, Sample, Separator, Table, Width,
};
use std::alloc::Global;
use test_cells::{small_in, token_in};
use test_kit::Cells;

/// Reads the layout of a file: `lines` and how words are written; `fields` and a column; `frames` and a frame.
pub(crate) fn layout_in(cells: &mut Cells<'_>) -> Layout {
    match cells.word() {
        "lines" => Layout::Lines(decimals_in(cells)),
        "fields" => Layout::Fields(Column {
            place: cells.below(9),
            separator: separator_in(cells),
            decimals: decimals_in(cells),
        }),
        _ => Layout::Frames(frame_in(cells)),
    }
}

/// Reads a number of digits, and whether words are `signed` or not.
pub(crate) fn decimals_in(cells: &mut Cells<'_>) -> Decimals {
    Decimals {
        digits: u8::try_from(cells.number()).unwrap_or(99),
        is_unsigned: cells.word() == "unsigned",
    }
}

pub(crate) fn separator_in(cells: &mut Cells<'_>) -> Separator {
    match cells.word() {
        "comma" => Separator::Comma,
        "semicolon" => Separator::Semicolon,
        _ => Separator::Tab,
    }
}

/// Reads how many bytes stand before and after the sample, and the sample.
pub(crate) fn frame_in(cells: &mut Cells<'_>) -> Frame {
    Frame {
        before: small_in(cells),
        after: small_in(cells),
        sample: sample_in(cells),
    }
}

/// Reads how many bytes a sample has, and how.
pub(crate) fn sample_in(cells: &mut Cells<'_>) -> Sample {
    Sample {
        width: width_in(cells),
        coding: match cells.word() {
            "signed" => Coding::Signed,
            "unsigned" => Coding::Unsigned,
            _ => Coding::Offset,
        },
        endian: match cells.word() {
            "little" => Endian::Little,
            _ => Endian::Big,
        },
        clips: cells.word() == "clips",
    }
}

pub(crate) fn width_in(cells: &mut Cells<'_>) -> Width {
    match cells.below(9) {
        1 => Width::One,
        2 => Width::Two,
        3 => Width::Three,
        4 => Width::Four,
        _ => Width::Eight,
    }
}

/// Reads how a file has several channels: `rows` and a separator, or `samples` and a sample.
pub(crate) fn table_in(cells: &mut Cells<'_>) -> Table {
    match cells.word() {
        "rows" => Table::Rows(separator_in(cells)),
        _ => Table::Samples(sample_in(cells)),
    }
}

/// Reads the cells of a row: how many, how words are written, and for each `none` or `a` and a token.
pub(crate) fn cells_in(alloc: Global, cells: &mut Cells<'_>) -> Vec<Cell> {
    let mut row = Vec::new(alloc);
    for _ in 0..cells.below(9) {
        let decimals = decimals_in(cells);
        let token = match cells.word() {
            "none" => None,
            _ => Some(token_in(cells)),
        };
        if row.push(Cell { decimals, token }).is_err() {
            cells.is_bad();
        }
    }
    row
}
