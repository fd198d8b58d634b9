//! Moves tokens from the channels into tables.
ghost use Rattle.std.specs.Prelude.{◌<◌, false, IfErr, length};
ghost use Rattle.kpn_model.specs.Families.{family};
ghost use Rattle.hox_stream.specs.Streams.{AllTablesStay, TablesEnd, TellsTable, TellsTables, AreTablesWritten, EndsForFault, EndsForTables, TablesStream};
ghost use Rattle.hox_stream.specs.Tables.{TellsColumn};

use crate::finish::StreamFinish;
use crate::table::{TableFault, TableOutlet};
use crate::telling::BATCH;
use kpn_body::Body;
use kpn_flow::Flow;
use kpn_front::Sink;
use kpn_model::Token;

fn tell_lane<B: Body, S: Sink>(
    flow: &mut Flow<B>,
    table: &mut TableOutlet<S>,
    place: usize,
) -> Result<bool, TableFault>
    requires { place < length table.old.lanes }
    ensures { TellsColumn (family B.Kinds.Kinds) flow.old flow.new table.old table.new place result }
{
    let channel = table.lane(place).channel();
    if !flow.is_output(channel) {
        return Ok(false);
    }
    let mut batch = [Token::Word(0); BATCH];
    let count = flow.drain_into(channel, &mut batch);
    if count == 0 {
        return Ok(false);
    }
    match table.write(place, &batch[..count]) {
        Ok(()) => Ok(true),
        Err(fault) => Err(fault),
    }
}

/// Returns why a stream ends when table `k` has this fault, after `first` sinks.
fn finish_of(fault: TableFault, first: usize, k: usize) -> StreamFinish
    ensures { EndsForFault first k fault result }
{
    let Some(place) = first.checked_add(k) else {
        return StreamFinish::Memory;
    };
    match fault {
        TableFault::Failed => StreamFinish::Unwritten(place),
        TableFault::Misfit => StreamFinish::Misfit(place),
        TableFault::Apart => StreamFinish::Apart(place),
        TableFault::Memory => StreamFinish::Memory,
    }
}

/// Moves tokens to the columns of a table.
fn tell_table<B: Body, S: Sink>(
    flow: &mut Flow<B>,
    table: &mut TableOutlet<S>,
) -> Result<bool, TableFault>
    ensures { TellsTable (family B.Kinds.Kinds) flow.old flow.new table.old table.new result }
{
    let mut has_moved = false;
    for place in 0..table.width() {
        match tell_lane(flow, table, place) {
            Ok(moved) => has_moved = has_moved || moved,
            Err(fault) => return Err(fault),
        }
    }
    Ok(has_moved)
}

/// Moves tokens to the columns of all tables, which follow `first` sinks.
pub(crate) fn tell_tables<B: Body, S: Sink>(
    flow: &mut Flow<B>,
    tables: &mut [TableOutlet<S>],
    first: usize,
) -> Result<bool, StreamFinish>
    ensures { TellsTables (family B.Kinds.Kinds) flow.old flow.new tables.old tables.new first result }
{
    let mut has_moved = false;
    for k in 0..tables.len() {
        match tell_table(flow, &mut tables[k]) {
            Ok(moved) => has_moved = has_moved || moved,
            Err(fault) => return Err(finish_of(fault, first, k)),
        }
    }
    Ok(has_moved)
}

/// Writes the full rows of each table, even if another one fails. Returns why the stream ends if one fails.
pub(crate) fn flush_tables<S: Sink>(
    tables: &mut [TableOutlet<S>],
    first: usize,
) -> Result<(), StreamFinish>
    ensures streams { TablesStream tables.old tables.new }
    ensures written { AreTablesWritten tables.new }
    ensures still { AllTablesStay tables.old tables.new }
    ensures finish { IfErr result (EndsForTables first tables.new) }
{
    let mut failed = None;
    for k in 0..tables.len() {
        if tables[k].flush().is_err() {
            failed = Some(k);
        }
    }
    match failed {
        Some(k) => Err(finish_of(TableFault::Failed, first, k)),
        None => Ok(()),
    }
}

/// Writes all that waits, for each table, even if another one fails. Returns why the stream ends if one fails.
pub(crate) fn end_tables<S: Sink>(
    tables: &mut [TableOutlet<S>],
    first: usize,
) -> Result<(), StreamFinish>
    ensures { TablesEnd tables.old tables.new first result }
{
    let mut failed = None;
    for k in 0..tables.len() {
        if tables[k].end().is_err() {
            failed = Some(k);
        }
    }
    match failed {
        Some(k) => Err(finish_of(TableFault::Failed, first, k)),
        None => Ok(()),
    }
}
