//! Moves tokens from a source into its channel.
ghost use Rattle.std.specs.Prelude.{◌≡◌, ◌<◌, true, false, [], Err, IsTrue, IfOk, IfSome, IfNone, ◌≤◌, length};
ghost use Rattle.kpn_model.specs.Families.{family};
ghost use Rattle.kpn_tokens.specs.Records.{listed};
ghost use Rattle.kpn_flow.specs.Flows.{IsSameFlow, is_among, with_ended};
ghost use Rattle.hox_stream.specs.declared.cutting.Refusal.{Refusal as RefusalV};
ghost use Rattle.hox_stream.specs.Gathering.{end_of};
ghost use Rattle.hox_stream.specs.Ports.{IsNextIn, IsNotRead, IsReadOnce, Pours, PoursKept, wants_more, AreAtItsEnds, FlowsFed, HasOtherSort, IsRejectedIn, events_fed};
ghost use Rattle.hox_stream.specs.Streams.{NoneIsWaitedFor, inlet_at, is_waited_for, NoneIsWaitedFrom};
ghost use Rattle.hox_stream.specs.Turns.{IsTurnOf, PoursOne, TakesTurn};

use crate::cutting::{FirstRecord, Refusal};
use crate::finish::StreamFinish;
use crate::gathering::gather;
use crate::inlet::{Inlet, RefillFault};
use crate::serving::sort_of;
use kpn_body::Body;
use kpn_flow::Flow;
use kpn_front::Source;
use kpn_model::{Kinds, Token};
use kpn_net::Net;
use std::alloc::Global;

/// Feeds the token of a record, if it has one. Returns false if it can't be fed.
fn feed_said<B: Body>(flow: &mut Flow<B>, channel: usize, said: Option<Token>) -> bool
    ensures same { IsSameFlow flow.old flow.new }
    ensures flows { IsTrue result → FlowsFed (family B.Kinds.Kinds) flow.old flow.new channel (listed said) }
    ensures at_ends { IsTrue result → AreAtItsEnds flow.old (events_fed channel (listed said)) }
    ensures not { result ≡ false → flow.new ≡ flow.old }
{
    flow.assure_one_run();
    match said {
        None => true,
        Some(token) => flow.may_feed(channel, token) && flow.feed(channel, token),
    }
}

/// Takes the next record and feeds its token, if there is room. Returns whether it did.
fn take_said<B: Body, S: Source>(
    flow: &mut Flow<B>,
    inlet: &mut Inlet<S>,
    said: Option<Token>,
    used: usize,
) -> bool
    requires { IsNextIn inlet.old (FirstRecord.Record said used) }
    ensures { PoursKept (family B.Kinds.Kinds) flow.old flow.new inlet.old inlet.new }
{
    if !feed_said(flow, inlet.channel(), said) {
        return false;
    }
    inlet.pass(used, 1, count_of(said));
    true
}

fn count_of(said: Option<Token>) -> usize
    ensures { result ≡ length (listed said) }
{
    match said {
        Some(_) => 1,
        None => 0,
    }
}

/// Takes records and feeds their tokens, while there are room and records: many at once if they have a token each.
fn take_more<B: Body, S: Source>(alloc: Global, flow: &mut Flow<B>, inlet: &mut Inlet<S>)
    ensures { PoursKept (family B.Kinds.Kinds) flow.old flow.new inlet.old inlet.new }
{
    let mut room = capacity_of(flow.net(), inlet.channel());
    'records: for _ in 0..u64::MAX {
        if !flow.has_room(inlet.channel()) {
            return;
        }
        let taken = take_batch(flow, inlet, room);
        if taken == 0 {
            let FirstRecord::Record { said, used } = inlet.next(alloc) else {
                return;
            };
            if !take_said(flow, inlet, said, used) {
                return;
            }
        }
        room = room.saturating_sub(taken.max(1)).max(1);
    }
}

/// Returns the starting capacity of a channel; 1 if there is no such channel.
fn capacity_of<K: Kinds>(net: &Net<K>, channel: usize) -> usize {
    if channel < net.channels() {
        net.capacity(channel)
    } else {
        1
    }
}

/// How many tokens are fed at once at most.
const BATCH: usize = 64;

/// Takes the next records that have a token each, at most `most`, while there is room. Returns how many it took.
fn take_batch<B: Body, S: Source>(flow: &mut Flow<B>, inlet: &mut Inlet<S>, most: usize) -> usize
    ensures { PoursKept (family B.Kinds.Kinds) flow.old flow.new inlet.old inlet.new }
{
    let channel = inlet.channel();
    if !flow.is_input(channel) {
        return 0;
    }
    if sort_of(flow.net(), channel) != inlet.sort() {
        return 0;
    }
    flow.assure_one_run();
    let mut tokens = [Token::Word(0); BATCH];
    let mut ends = [0; BATCH];
    let count = gather(&inlet.kept(), most.min(BATCH), &mut tokens, &mut ends);
    let fed = flow.feed_all(channel, &tokens[..count]);
    inlet.pass(end_of(&ends, fed), fed, fed);
    fed
}

fn end_of(ends: &[usize], count: usize) -> usize
    requires { count ≤ length ends.now }
    ensures { result ≡ end_of ends.now count }
{
    if count == 0 { 0 } else { ends[count - 1] }
}

/// Why nothing was fed from a source.
#[derive(Clone, Copy, Debug, PartialEq, Eq)]
pub(crate) enum PourFault {
    Refused(Refusal),
    Failed,
    OtherSort,
    Memory,
}

/// Feeds the records of a source for which there is room. If there is no record yet, first reads more; at the
/// end of the source, ends the input.
fn pour<B: Body, S: Source>(
    alloc: Global,
    flow: &mut Flow<B>,
    inlet: &mut Inlet<S>,
) -> Result<(), PourFault>
    requires { is_among flow.old.unended inlet.old.channel ≡ true }
    ensures pours { Pours (family B.Kinds.Kinds) flow.old flow.new inlet.old inlet.new }
    ensures read { IfOk result (λ _. wants_more inlet.old ≡ true → IsReadOnce inlet.old inlet.new) }
    ensures only_if_wanted { wants_more inlet.old ≡ false → IsNotRead inlet.old inlet.new }
    ensures ended { inlet.old.is_over ≡ true → inlet.old.kept ≡ [] → flow.new ≡ with_ended flow.old inlet.old.channel }
    ensures refused { (refusal : RefusalV) → result ≡ Err (PourFault.Refused refusal) → IsRejectedIn inlet.new refusal }
    ensures failed { result ≡ Err PourFault.Failed → inlet.new.has_failed ≡ true }
    ensures other_sort { result ≡ Err PourFault.OtherSort → HasOtherSort flow.new.network inlet.new }
{
    let channel = inlet.channel();
    match inlet.next(alloc) {
        FirstRecord::Record { said, used } => {
            if sort_of(flow.net(), channel) != inlet.sort() {
                return Err(PourFault::OtherSort);
            }
            if !take_said(flow, inlet, said, used) {
                return Ok(());
            }
            take_more(alloc, flow, inlet);
            Ok(())
        }
        FirstRecord::Refused(refusal) => Err(PourFault::Refused(refusal)),
        FirstRecord::Memory => Err(PourFault::Memory),
        FirstRecord::Wanting => {
            if inlet.is_over() {
                flow.end_input(channel);
                return Ok(());
            }
            match inlet.refill(alloc) {
                Ok(()) => {
                    take_more(alloc, flow, inlet);
                    Ok(())
                }
                Err(RefillFault::Failed) => Err(PourFault::Failed),
                Err(RefillFault::Memory) => Err(PourFault::Memory),
            }
        }
    }
}

fn is_waited_for<B: Body, S: Source>(flow: &Flow<B>, inlet: &Inlet<S>) -> bool
    ensures { result ≡ is_waited_for flow.now inlet.now }
{
    let channel = inlet.channel();
    flow.is_input(channel) && flow.is_starved(channel)
}

fn first_starved<B: Body, S: Source>(
    flow: &Flow<B>,
    inlets: &[Inlet<S>],
    from: usize,
) -> Option<usize>
    ensures within { IfSome result (λ k. k < length inlets.now) }
    ensures waited { IfSome result (λ k. is_waited_for flow.now (inlet_at inlets.now k) ≡ true) }
    ensures on { IfSome result (λ k. from ≤ k) }
    ensures first { IfSome result (NoneIsWaitedFrom flow.now inlets.now from) }
    ensures none { IfNone result (NoneIsWaitedFrom flow.now inlets.now from (length inlets.now)) }
{
    for k in from..inlets.len() {
        if is_waited_for(flow, &inlets[k]) {
            return Some(k);
        }
    }
    None
}

/// Returns the first source from `from` on that a process waits for, or else the first of all.
fn next_starved<B: Body, S: Source>(
    flow: &Flow<B>,
    inlets: &[Inlet<S>],
    from: usize,
) -> Option<usize>
    ensures turn { IfSome result (IsTurnOf flow.now inlets.now from) }
    ensures none { IfNone result (NoneIsWaitedFor flow.now inlets.now) }
{
    match first_starved(flow, inlets, from) {
        Some(k) => Some(k),
        None => first_starved(flow, inlets, 0),
    }
}

/// Pours the next source that a process waits for. Returns why the stream ends, if it does.
pub(crate) fn pour_next<B: Body, S: Source>(
    alloc: Global,
    flow: &mut Flow<B>,
    inlets: &mut [Inlet<S>],
    turn: &mut usize,
) -> Option<StreamFinish>
    ensures poured { PoursOne (family B.Kinds.Kinds) flow.old flow.new inlets.old inlets.new result }
    ensures takes_turn { IfNone result (TakesTurn flow.old inlets.old inlets.new turn.old turn.new) }
{
    let Some(k) = next_starved(flow, inlets, *turn) else {
        return Some(StreamFinish::Idle);
    };
    *turn = k + 1;
    match pour(alloc, flow, &mut inlets[k]) {
        Ok(()) => None,
        Err(PourFault::Refused(refusal)) => Some(StreamFinish::Refused(k, refusal)),
        Err(PourFault::Failed) => Some(StreamFinish::Unread(k)),
        Err(PourFault::OtherSort) => Some(StreamFinish::OtherSort(k)),
        Err(PourFault::Memory) => Some(StreamFinish::Memory),
    }
}
