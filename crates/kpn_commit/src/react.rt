//! The immediate effect of an answer.
ghost use Rattle.std.specs.Prelude.{◌≡◌, ◌≢◌, IfSome, IfNone, IsTrue, false};
ghost use Rattle.kpn_model.specs.Families.{family};
ghost use Rattle.kpn_state.specs.declared.standing.Standing.TheVariants.{Ready};
ghost use Rattle.kpn_state.specs.Standings.{standing, partner, HasChannel};
ghost use Rattle.kpn_commit.specs.Waiting.{HasMark, partner_marked};
ghost use Rattle.kpn_commit.specs.Reactions.{CannotGoOn};
ghost use Rattle.kpn_commit.specs.Answering.{HasAnswered, HasAnsweredInPlace, MayResume, ReactsTo, ReactsInPlace, KeepsStanding, Resumes, CannotResume, ReactsOn};
ghost use Rattle.kpn_commit.specs.declared.react.Reaction.{Reaction as ReactionV};

use crate::act::{advance, advance_on};
use crate::cores::Core;
use crate::parking::{park, unlist};
use kpn_model::{Act, Answer, Deed, Kinds, Token};
use kpn_network::Net;
use kpn_state::standing::parked;
use kpn_state::{Keeper, Marks};

/// The effect of an answer. `Waits`: it could not be done, and the process is parked. `Acts`: it was done.
/// `HandsOn`: it was done, then the parked process at the other end of the channel did what it had answered.
#[derive(Clone, Copy, Debug, PartialEq, Eq)]
pub enum Reaction {
    Waits,
    Acts,
    HandsOn,
}

/// Does what a ready or out process answered, or parks the process with the answer; then does the deed of the
/// parked process that this enables. The history must have room for two entries.
#[inline(always)]
pub(crate) fn react<K: Kinds, H: Keeper>(
    net: &Net<K>,
    core: &mut Core<H>,
    process: usize,
    answer: Answer,
) -> Reaction
    requires { HasAnswered (family K.Kinds) K.admits net.now core.old process answer 2 }
    ensures { ReactsTo (family K.Kinds) K.admits net.now core.old process answer result core.new }
{
    let Some(deed) = advance(net, &mut core.store, &mut core.standings, process, answer) else {
        park(net, core, process, rebuilt(answer));
        return Reaction::Waits;
    };
    if !partner_waits(&core.waiting.marks, deed) {
        return Reaction::Acts;
    }
    let Some(other) = partner(net, deed) else {
        return Reaction::Acts;
    };
    if resume(net, core, other) {
        Reaction::HandsOn
    } else {
        Reaction::Acts
    }
}

/// Does what a ready or out process answered, then the deed of the parked process that this enables. Leaves
/// the first one's standing to the caller, who makes it ready or sends it out again. Returns `None`, and
/// changes nothing, if the act is a stop or can't be done. The history must have room for two entries.
#[inline(always)]
pub(crate) fn react_on<K: Kinds, H: Keeper>(
    net: &Net<K>,
    core: &mut Core<H>,
    process: usize,
    answer: Answer,
) -> Option<Reaction>
    requires { HasAnswered (family K.Kinds) K.admits net.now core.old process answer 2 }
    ensures reacts { IfSome result (ReactsOn (family K.Kinds) K.admits net.now core.old process answer core.new) }
    ensures standing { KeepsStanding core.old.standings core.new.standings process }
    ensures cannot { IfNone result (CannotGoOn (family K.Kinds) net.now core.old.store.state process answer) }
    ensures left { IfNone result (core.new ≡ core.old) }
{
    let deed = advance_on(net, &mut core.store, &mut core.standings, process, answer)?;
    if !partner_waits(&core.waiting.marks, deed) {
        return Some(Reaction::Acts);
    }
    let Some(other) = partner(net, deed) else {
        return Some(Reaction::Acts);
    };
    if resume(net, core, other) {
        Some(Reaction::HandsOn)
    } else {
        Some(Reaction::Acts)
    }
}

/// Does what a ready process answered, then the deed of the parked process that this enables; or parks or
/// stops the process. Returns whether it is still ready, its standing untouched. The history must have room
/// for two entries.
#[inline(always)]
pub fn react_ready<K: Kinds, H: Keeper>(
    net: &Net<K>,
    core: &mut Core<H>,
    process: usize,
    answer: Answer,
) -> bool
    requires { HasAnsweredInPlace (family K.Kinds) K.admits net.now core.old process answer }
    ensures { ReactsInPlace (family K.Kinds) K.admits net.now core.old process answer result core.new }
{
    match react_on(net, core, process, answer) {
        Some(_reaction) => true,
        None => {
            park_or_stop(net, core, process, rebuilt(answer));
            false
        }
    }
}

/// Parks a ready process with its answer, or stops it. The answer must be a stop or impossible. Not inlined,
/// out of the way of an answer that is done.
#[inline(never)]
fn park_or_stop<K: Kinds, H: Keeper>(
    net: &Net<K>,
    core: &mut Core<H>,
    process: usize,
    answer: Answer,
)
    requires answered { HasAnswered (family K.Kinds) K.admits net.now core.old process answer 2 }
    requires cannot { CannotGoOn (family K.Kinds) net.now core.old.store.state process answer }
    ensures reacts { (r : ReactionV) × ReactsTo (family K.Kinds) K.admits net.now core.old process answer r core.new }
    ensures unready { standing core.new.standings process ≢ Ready }
{
    let _ = react(net, core, process, answer);
}

/// Does what a parked process answered, if it now can, and removes its mark and its candidate. Returns whether
/// it did; otherwise nothing changes. Not inlined, out of the way of a commit that enables no parked process.
#[inline(never)]
fn resume<K: Kinds, H: Keeper>(net: &Net<K>, core: &mut Core<H>, process: usize) -> bool
    requires { MayResume (family K.Kinds) K.admits net.now core.old process }
    ensures resumes { IsTrue result → Resumes (family K.Kinds) K.admits net.now core.old process core.new }
    ensures cannot { result ≡ false → CannotResume (family K.Kinds) net.now core.old process }
    ensures same { result ≡ false → core.new ≡ core.old }
{
    let Some(wanted) = parked(core.standings.as_slice(), process) else {
        return false;
    };
    let Some(deed) = advance(net, &mut core.store, &mut core.standings, process, wanted) else {
        return false;
    };
    match deed {
        Deed::Put { channel, .. } => {
            let (_, capacity) = core.store.tokens_and_capacity(channel);
            unlist(&mut core.waiting, capacity, channel);
        }
        Deed::Took { channel, .. } => core.waiting.marks.note_reader(channel, false),
        Deed::Stopped => {}
    }
    true
}

/// Returns the answer, rebuilt field by field: to park a copy of the whole, all its bytes would be kept while
/// the answer is tried, and mostly it can be done.
#[inline(always)]
fn rebuilt(answer: Answer) -> Answer
    ensures { result ≡ answer }
{
    let next = answer.next;
    let act = match answer.act {
        Act::Read(port) => Act::Read(port),
        Act::Write(port, Token::Word(word)) => Act::Write(port, Token::Word(word)),
        Act::Write(port, Token::Flag(flag)) => Act::Write(port, Token::Flag(flag)),
        Act::Stop => Act::Stop,
    };
    Answer { next, act }
}

#[inline(always)]
fn partner_waits(marks: &Marks, deed: Deed) -> bool
    requires { HasMark marks.now deed }
    ensures { result ≡ partner_marked marks.now deed }
{
    match deed {
        Deed::Took { channel, .. } => marks.writer_waits(channel),
        Deed::Put { channel, .. } => marks.reader_waits(channel),
        Deed::Stopped => false,
    }
}

fn partner<K: Kinds>(net: &Net<K>, deed: Deed) -> Option<usize>
    requires { HasChannel net.now deed }
    ensures { result ≡ partner net.now deed }
{
    match deed {
        Deed::Took { channel, .. } => Some(net.ends(channel).writer),
        Deed::Put { channel, .. } => Some(net.ends(channel).reader),
        Deed::Stopped => None,
    }
}
