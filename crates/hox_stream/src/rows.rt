//! The rows of a table.
ghost use Rattle.std.specs.Prelude.{◌≡◌, ◌∷◌, ◌++◌, OnOk, map};
ghost use Rattle.kpn_tokens.specs.Tables.{longest, row_text};
ghost use Rattle.hox_stream.specs.Tables.{columns_of, heads_of, shortest, under, row_waiting};

use crate::lane::Lane;
use kpn_tokens::{Cell, Table, append_row};
use std::alloc::AllocError;

/// Returns how many rows have a token in each column.
pub(crate) fn shortest(lanes: &[Lane]) -> usize
    ensures { result ≡ shortest lanes.now }
{
    match lanes.split_first() {
        Some((first, others)) => shortest_of(first, others),
        None => 0,
    }
}

fn shortest_of(first: &Lane, others: &[Lane]) -> usize
    ensures { result ≡ shortest (first.now ∷ others.now) }
{
    let mut count = first.waiting();
    for lane in others {
        count = count.min(lane.waiting());
    }
    count
}

/// Returns how many rows have a token in any column.
pub(crate) fn longest(lanes: &[Lane]) -> usize
    ensures { result ≡ longest (columns_of lanes.now) }
{
    let mut count = 0;
    for lane in lanes {
        let waiting = lane.waiting();
        if waiting > count {
            count = waiting;
        }
    }
    count
}

/// Appends the next row: the first waiting token of each column. Errors: out of memory. Some tokens of the
/// row may be lost.
pub(crate) fn append_next(
    lanes: &mut [Lane],
    row: &mut Vec<Cell>,
    waiting: &mut Vec<u8>,
    table: Table,
) -> Result<(), AllocError>
    ensures row { OnOk result (waiting.new.items ≡ waiting.old.items ++ row_text table (row_waiting lanes.old)) }
    ensures lanes { OnOk result (lanes.new ≡ map under lanes.old) }
    ensures heads { heads_of lanes.new ≡ heads_of lanes.old }
{
    row.clear();
    for k in 0..lanes.len() {
        let cell = lanes[k].pop();
        row.push(cell)?;
    }
    append_row(waiting, table, row.as_slice())
}
