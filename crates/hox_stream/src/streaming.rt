//! Runs a flow between sources and sinks.
ghost use Rattle.std.specs.Prelude.{IfNone};
ghost use Rattle.kpn_model.specs.Families.{family};
ghost use Rattle.kpn_flow.specs.Pieces.{IsOneRunInPieces};
ghost use Rattle.hox_stream.specs.Streams.{AreWritten, StreamsOut, StreamsTo};
ghost use Rattle.hox_stream.specs.Turns.{GoesOn, PassesTurn};

use crate::finish::StreamFinish;
use crate::inlet::{Inlet, wants_more};
use crate::pouring::pour_next;
use crate::telling::Outs;
use crate::watching::{Onlooker, show, show_if_due};
use kpn_body::Body;
use kpn_flow::{Flow, Pause};
use kpn_front::{Sink, Source};
use std::alloc::Global;

/// How many entries a turn makes at most before it writes the output.
const STRETCH: u64 = 1000000;

/// Runs a flow until it ends, writes the rest, and returns why it ended (see [`crate::serve`]).
pub(crate) fn stream_out<B: Body, I: Source, O: Sink, L: Onlooker>(
    alloc: Global,
    flow: &mut Flow<B>,
    inlets: &mut [Inlet<I>],
    outs: &mut Outs<O>,
    onlooker: &L,
) -> StreamFinish
    ensures { StreamsOut (family B.Kinds.Kinds) flow.old flow.new inlets.old inlets.new outs.old outs.new result }
{
    let finish = stream(alloc, flow, inlets, outs, onlooker);
    match outs.end() {
        Ok(()) => finish,
        Err(unwritten) => unwritten,
    }
}

fn stream<B: Body, I: Source, O: Sink, L: Onlooker>(
    alloc: Global,
    flow: &mut Flow<B>,
    inlets: &mut [Inlet<I>],
    outs: &mut Outs<O>,
    onlooker: &L,
) -> StreamFinish
    ensures ended { StreamsTo (family B.Kinds.Kinds) flow.old flow.new inlets.old inlets.new outs.old outs.new result }
    ensures written { AreWritten outs.new }
    ensures one_run { IsOneRunInPieces (family B.Kinds.Kinds) flow.new }
{
    let finish = turn_on(alloc, flow, inlets, outs, onlooker);
    show(flow, inlets, outs, onlooker);
    flow.assure_one_run();
    match outs.flush_all() {
        Ok(()) => finish,
        Err(unwritten) => unwritten,
    }
}

fn turn_on<B: Body, I: Source, O: Sink, L: Onlooker>(
    alloc: Global,
    flow: &mut Flow<B>,
    inlets: &mut [Inlet<I>],
    outs: &mut Outs<O>,
    onlooker: &L,
) -> StreamFinish
    ensures { StreamsTo (family B.Kinds.Kinds) flow.old flow.new inlets.old inlets.new outs.old outs.new result }
{
    let mut next = 0;
    'turns: for _ in 0..u64::MAX {
        if let Some(finish) = turn(alloc, flow, inlets, outs, &mut next) {
            return finish;
        }
        show_if_due(flow, inlets, outs, onlooker);
    }
    StreamFinish::Cut
}

/// Advances the flow as far as it can, and writes its output. If there is none, reads a source that a process
/// waits for, from source `next` on, after it has written out all output if a source may need a read. Returns
/// why the stream ends, if it does.
fn turn<B: Body, I: Source, O: Sink>(
    alloc: Global,
    flow: &mut Flow<B>,
    inlets: &mut [Inlet<I>],
    outs: &mut Outs<O>,
    next: &mut usize,
) -> Option<StreamFinish>
    ensures goes_on { GoesOn (family B.Kinds.Kinds) flow.old flow.new inlets.old inlets.new outs.old outs.new result }
    ensures turn { IfNone result (PassesTurn inlets.old inlets.new next.old next.new) }
{
    let pause = flow.advance(STRETCH);
    match outs.tell_all(flow) {
        Err(finish) => return Some(finish),
        Ok(true) => return None,
        Ok(false) => {}
    }
    match pause {
        Pause::Cut | Pause::Blocked => return None,
        Pause::Over(end) => return Some(StreamFinish::Over(end)),
        Pause::Starved => {}
    }
    if wants_more(inlets) {
        if let Err(finish) = outs.flush_all() {
            return Some(finish);
        }
    }
    pour_next(alloc, flow, inlets, next)
}
