//! Moves tokens from the channels into their sinks.
ghost use Rattle.std.specs.Prelude.{true, false, IfErr};
ghost use Rattle.kpn_model.specs.Families.{family};
ghost use Rattle.hox_stream.specs.Ports.{TellsSink};
ghost use Rattle.hox_stream.specs.Streams.{AllFaultsStay, AllStay, AreWritten, OutsEnd, TellsOuts, TellsSinks, AreSinksWritten, EndsForOuts, EndsForSinks, OutsStream, SinksStream};

use crate::finish::StreamFinish;
use crate::outlet::{Outlet, WriteFault};
use crate::table::TableOutlet;
use crate::tabling::{end_tables, flush_tables, tell_tables};
use kpn_body::Body;
use kpn_flow::Flow;
use kpn_front::Sink;
use kpn_model::Token;
use std::marker::Model;

/// How many tokens are drained at once at most.
pub(crate) const BATCH: usize = 64;

/// Moves the first tokens of a channel to its sink. Returns whether there were any.
fn tell<B: Body, S: Sink>(flow: &mut Flow<B>, outlet: &mut Outlet<S>) -> Result<bool, WriteFault>
    ensures { TellsSink (family B.Kinds.Kinds) flow.old flow.new outlet.old outlet.new result }
{
    let channel = outlet.channel();
    if !flow.is_output(channel) {
        return Ok(false);
    }
    let mut batch = [Token::Word(0); BATCH];
    let count = flow.drain_into(channel, &mut batch);
    if count == 0 {
        return Ok(false);
    }
    match outlet.write(&batch[..count]) {
        Ok(()) => Ok(true),
        Err(fault) => Err(fault),
    }
}

fn tell_sinks<B: Body, S: Sink>(
    flow: &mut Flow<B>,
    outlets: &mut [Outlet<S>],
) -> Result<bool, StreamFinish>
    ensures { TellsSinks (family B.Kinds.Kinds) flow.old flow.new outlets.old outlets.new result }
{
    let mut has_moved = false;
    for k in 0..outlets.len() {
        match tell(flow, &mut outlets[k]) {
            Ok(moved) => has_moved = has_moved || moved,
            Err(WriteFault::Failed) => return Err(StreamFinish::Unwritten(k)),
            Err(WriteFault::Misfit) => return Err(StreamFinish::Misfit(k)),
            Err(WriteFault::Memory) => return Err(StreamFinish::Memory),
        }
    }
    Ok(has_moved)
}

/// Writes what waits, for each sink, even if another one fails. Returns why the stream ends if one fails.
fn flush_sinks<S: Sink>(outlets: &mut [Outlet<S>]) -> Result<(), StreamFinish>
    ensures streams { SinksStream outlets.old outlets.new }
    ensures written { AreSinksWritten outlets.new }
    ensures still { AllFaultsStay outlets.old outlets.new }
    ensures finish { IfErr result (EndsForSinks outlets.new) }
{
    let mut failed = None;
    for k in 0..outlets.len() {
        if outlets[k].flush().is_err() {
            failed = Some(k);
        }
    }
    match failed {
        Some(k) => Err(StreamFinish::Unwritten(k)),
        None => Ok(()),
    }
}

/// All sinks of a stream: those for one channel, and then those for several.
#[derive(Drop)]
pub(crate) struct Outs<S: Sink> {
    pub(crate) sinks: Vec<Outlet<S>>,
    pub(crate) tables: Vec<TableOutlet<S>>,
}

impl<S: Sink> Model for Outs<S> {
    ghost use Rattle.hox_stream.specs.Views.{OutsView};

    ghost Value = { OutsView };

    ghost view = { λ m. record { sinks = m.sinks.items; tables = m.tables.items } };
}

impl<S: Sink> Outs<S> {
    /// Moves the first tokens of each channel to its sink. Returns whether it moved any, or why the stream ends.
    pub(crate) fn tell_all<B: Body>(&mut self, flow: &mut Flow<B>) -> Result<bool, StreamFinish>
        ensures { TellsOuts (family B.Kinds.Kinds) flow.old flow.new self.old self.new result }
    {
        let first = self.sinks.len();
        let moved = match tell_sinks(flow, self.sinks.as_mut_slice()) {
            Ok(moved) => moved,
            Err(finish) => return Err(finish),
        };
        let moved_more = match tell_tables(flow, self.tables.as_mut_slice(), first) {
            Ok(moved_more) => moved_more,
            Err(finish) => return Err(finish),
        };
        Ok(moved || moved_more)
    }

    /// Writes what waits and the full rows, for each sink, even if another one fails. Returns why the stream
    /// ends if one fails.
    pub(crate) fn flush_all(&mut self) -> Result<(), StreamFinish>
        ensures streams { OutsStream self.old self.new }
        ensures written { AreWritten self.new }
        ensures still { AllStay self.old self.new }
        ensures finish { IfErr result (EndsForOuts self.new) }
    {
        let first = self.sinks.len();
        let sinks = flush_sinks(self.sinks.as_mut_slice());
        let tables = flush_tables(self.tables.as_mut_slice(), first);
        if let Err(finish) = sinks {
            return Err(finish);
        }
        tables
    }
    /// Writes all that waits in tables, with gaps where a column is shorter, but nothing to sinks of one
    /// channel. Returns why the stream ends if a write fails.
    pub(crate) fn end(&mut self) -> Result<(), StreamFinish>
        ensures { OutsEnd self.old self.new result }
    {
        let first = self.sinks.len();
        end_tables(self.tables.as_mut_slice(), first)
    }
}
