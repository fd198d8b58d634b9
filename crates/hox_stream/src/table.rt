//! Sinks for several channels.
ghost use Rattle.std.specs.Prelude.{◌≡◌, ◌<◌, ◌≤◌, true, false, Err, IfErr, IfOk, OnOk, length, set};
ghost use Rattle.std.specs.Io.KnownBytes.{append_known};
ghost use Rattle.hox_stream.specs.Lanes.{TakesIn};
ghost use Rattle.hox_stream.specs.Views.{fresh_table};
ghost use Rattle.hox_stream.specs.Tables.{EndsRows, FlushesTable, IsTableFault, WritesRows, WritesTable, lane_at, only_at};

use crate::lane::Lane;
use crate::outlet::write_out;
use crate::rows::{append_next, longest, shortest};
use kpn_front::Sink;
use kpn_tokens::{Cell, Table, Token};
use std::alloc::{AllocError, Global};
use std::marker::Model;

/// How many bytes wait at most.
const PIECE: usize = 4096;

/// The room at first, in bytes: those that wait, and a row.
const ROOM: usize = 8192;

/// How many tokens of a channel may wait for those of another one.
pub const MOST_AHEAD: usize = 1000000;

/// Why tokens were not written to a table: a write failed, after some bytes or none; a token does not fit;
/// more than [`MOST_AHEAD`] tokens of a channel wait for another channel's; or out of memory.
#[derive(Clone, Copy, Debug, PartialEq, Eq)]
pub(crate) enum TableFault {
    Failed,
    Misfit,
    Apart,
    Memory,
}

/// A sink for the tokens of several channels, side by side in rows. A token waits until its row has one of
/// each channel. Rows wait until they have more than 4,096 bytes, or are flushed. Contracts see the columns,
/// and what is written together with what waits.
#[derive(Drop)]
pub struct TableOutlet<S: Sink> {
    table: Table,
    lanes: Vec<Lane>,
    /// The cells of the row being written.
    row: Vec<Cell>,
    sink: S,
    waiting: Vec<u8>,
    has_failed: bool,
}

impl<S: Sink> Model for TableOutlet<S> {
    ghost use Rattle.hox_stream.specs.Views.{TableView};

    ghost Value = { TableView };

    ghost use Rattle.std.specs.Prelude.{◌≤◌, length};
    ghost use Rattle.std.specs.Io.KnownBytes.{append_known};

    ghost view = { λ m. record { table = m.table; lanes = m.lanes.items; contents = append_known (S.seen m.sink).contents m.waiting.items; waiting = m.waiting.items; has_failed = m.has_failed } };

    ghost invariant = { λ m. length m.waiting.items ≤ 4096 };
}

impl<S: Sink + Drop> TableOutlet<S> {
    /// Creates a sink with nothing written yet. Errors: out of memory.
    pub(crate) fn new(
        alloc: Global,
        table: Table,
        lanes: Vec<Lane>,
        sink: S,
    ) -> Result<TableOutlet<S>, AllocError>
        ensures { IfOk result (λ o. o ≡ fresh_table table lanes.items (S.seen sink).contents) }
    {
        let row = Vec::with_capacity(alloc, lanes.len())?;
        let waiting = Vec::with_capacity(alloc, ROOM)?;
        Ok(TableOutlet {
            table,
            lanes,
            row,
            sink,
            waiting,
            has_failed: false,
        })
    }
}

impl<S: Sink> TableOutlet<S> {
    /// Returns the number of columns.
    pub fn width(&self) -> usize
        ensures { result ≡ length self.now.lanes }
    {
        self.lanes.len()
    }

    /// Returns the columns, in order.
    pub fn lanes(&self) -> &[Lane]
        ensures { result.now ≡ self.now.lanes }
    {
        self.lanes.as_slice()
    }

    pub(crate) fn lane(&self, place: usize) -> &Lane
        requires { place < length self.now.lanes }
        ensures { result.now ≡ lane_at self.now place }
    {
        &self.lanes[place]
    }

    /// Returns how many bytes wait to be written: at most 4,096.
    pub fn waiting(&self) -> usize
        ensures is { result ≡ length self.now.waiting }
        ensures few { result ≤ 4096 }
    {
        self.waiting.len()
    }

    /// Returns whether a write failed, or ran out of memory.
    pub fn has_failed(&self) -> bool
        ensures { result ≡ self.now.has_failed }
    {
        self.has_failed
    }

    /// Returns the sink. It lacks the bytes that wait.
    pub fn sink(&self) -> &S
        ensures { append_known (S.seen result.now).contents self.now.waiting ≡ self.now.contents }
    {
        &self.sink
    }

    /// Returns the sink. It lacks the bytes that wait.
    pub fn into_sink(self) -> S
        ensures { append_known (S.seen result).contents self.waiting ≡ self.contents }
    {
        let TableOutlet { sink, .. } = self;
        sink
    }

    /// Takes tokens into a column, and appends the rows that become full. Writes what waits if it has more
    /// than 4,096 bytes. After a failed write, it takes no tokens.
    pub(crate) fn write(&mut self, place: usize, tokens: &[Token]) -> Result<(), TableFault>
        requires { place < length self.old.lanes }
        ensures writes { WritesTable self.old self.new (only_at place tokens.now) }
        ensures fault { IfErr result (IsTableFault self.new) }
    {
        if self.has_failed {
            return Err(TableFault::Failed);
        }
        if self.take(place, tokens).is_err() {
            self.fail();
            return Err(TableFault::Memory);
        }
        let count = shortest(self.lanes.as_slice());
        self.write_rows(count)?;
        let lane = self.lane(place);
        if lane.is_misfit() {
            Err(TableFault::Misfit)
        } else if lane.waiting() > MOST_AHEAD {
            Err(TableFault::Apart)
        } else {
            Ok(())
        }
    }

    fn take(&mut self, place: usize, tokens: &[Token]) -> Result<(), AllocError>
        requires { place < length self.old.lanes }
        ensures others { self.new ≡ record self.old { lanes = set self.old.lanes place (lane_at self.new place) } }
        ensures head { (lane_at self.new place).head ≡ (lane_at self.old place).head }
        ensures takes { OnOk result (TakesIn (lane_at self.old place) (lane_at self.new place) tokens.now) }
    {
        self.lanes[place].take(tokens)
    }

    /// Appends `count` rows, with gaps where a column has no token left. Writes what waits if it has more
    /// than 4,096 bytes.
    fn write_rows(&mut self, count: usize) -> Result<(), TableFault>
        ensures { WritesRows self.old self.new count result }
    {
        for _ in 0..count {
            self.write_row()?;
        }
        Ok(())
    }

    fn write_row(&mut self) -> Result<(), TableFault>
        ensures { WritesRows self.old self.new 1 result }
    {
        if self.has_failed {
            return Err(TableFault::Failed);
        }
        if append_next(
            self.lanes.as_mut_slice(),
            &mut self.row,
            &mut self.waiting,
            self.table,
        )
        .is_err()
        {
            self.waiting.clear();
            self.fail();
            return Err(TableFault::Memory);
        }
        if self.waiting.len() <= PIECE {
            return Ok(());
        }
        if write_out(&mut self.sink, &mut self.waiting).is_err() {
            self.fail();
            return Err(TableFault::Failed);
        }
        Ok(())
    }

    /// Writes what waits, unless a write has failed before. If it fails, some bytes may have been written.
    pub(crate) fn flush(&mut self) -> Result<(), TableFault>
        ensures flushes { FlushesTable self.old self.new }
        ensures failed { IfErr result (λ _. self.new.has_failed ≡ true) }
    {
        if self.has_failed || self.waiting.is_empty() {
            return Ok(());
        }
        if write_out(&mut self.sink, &mut self.waiting).is_err() {
            self.fail();
            return Err(TableFault::Failed);
        }
        Ok(())
    }

    /// Writes all that waits, with gaps where a column is shorter. If it fails, some bytes may have been written.
    pub(crate) fn end(&mut self) -> Result<(), TableFault>
        ensures { EndsRows self.old self.new result }
    {
        let count = longest(self.lanes.as_slice());
        self.write_rows(count)?;
        self.flush()
    }

    fn fail(&mut self)
        ensures { self.new ≡ record self.old { has_failed = true } }
    {
        self.has_failed = true;
    }
}
