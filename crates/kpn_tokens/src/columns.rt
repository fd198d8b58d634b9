//! Whole files of several channels.
ghost use Rattle.std.specs.Prelude.{◌≡◌, ◌++◌, OnOk, length, map};
ghost use Rattle.kpn_tokens.specs.Tables.{cell_at, column_of, longest, table_text};

use crate::layouts::{Cell, Decimals};
use crate::tables::{Table, append_row};
use kpn_model::Token;
use std::alloc::{AllocError, Global};

/// A column of a file: the tokens of a channel, and how it writes a word.
#[derive(Clone, Copy, Debug)]
pub struct TokenColumn<'a> {
    pub decimals: Decimals,
    pub tokens: &'a [Token],
}

impl TokenColumn<'_> {
    fn length(&self) -> usize
        ensures { result ≡ length self.now.tokens.now }
    {
        self.tokens.len()
    }
}

/// Appends columns side by side, as many rows as the longest has tokens, and no token where a column has none
/// (see [`append_row`]).
///
/// Errors: out of memory. Some rows may have been appended.
pub fn append_table(
    alloc: Global,
    out: &mut Vec<u8>,
    table: Table,
    columns: &[TokenColumn<'_>],
) -> Result<(), AllocError>
    ensures { OnOk result (out.new.items ≡ out.old.items ++ table_text table (map column_of columns.now)) }
{
    let mut row = Vec::with_capacity(alloc, columns.len())?;
    for place in 0..longest(columns) {
        fill_row(&mut row, columns, place)?;
        append_row(out, table, row.as_slice())?;
    }
    Ok(())
}

/// Returns the number of tokens of the longest column; 0 if there is none.
pub fn longest(columns: &[TokenColumn<'_>]) -> usize
    ensures { result ≡ longest (map column_of columns.now) }
{
    let mut count = 0;
    for column in columns {
        let length = column.length();
        if length > count {
            count = length;
        }
    }
    count
}

fn fill_row(
    row: &mut Vec<Cell>,
    columns: &[TokenColumn<'_>],
    place: usize,
) -> Result<(), AllocError>
    ensures { OnOk result (row.new.items ≡ map (cell_at place) (map column_of columns.now)) }
{
    row.clear();
    for column in columns {
        row.push(cell_at(*column, place))?;
    }
    Ok(())
}

fn cell_at(column: TokenColumn<'_>, place: usize) -> Cell
    ensures { result ≡ cell_at place (column_of column.entry) }
{
    Cell {
        decimals: column.decimals,
        token: column.tokens.get(place).copied(),
    }
}
