//! The flow.
ghost use Rattle.std.specs.Prelude.{◌≡◌, ◌↔◌, ℕ, ◌<◌, length, map, IfOk, IfErr, OnOk, IsTrue, true, false};
ghost use Rattle.std.specs.List.{list_all};
ghost use Rattle.kpn_model.specs.Families.{family};
ghost use Rattle.kpn_model.specs.Semantics.{tokens, capacity};
ghost use Rattle.kpn_model.specs.Valid.{IsOfSort};
ghost use Rattle.kpn_machine.specs.Opening.{cards_of};
ghost use Rattle.kpn_machine.specs.MachineView.{WantAsAnswered};
ghost use Rattle.kpn_flow.specs.Ends.{AreApart, RefusesFlow};
ghost use Rattle.kpn_flow.specs.Flows.{flow_view, fill, is_among, with_ended, AreEnds, IsSameFlow, MayFeed, MayFeedAll, opened_flow, EnabledAreBusy, FlowIsReached};
ghost use Rattle.kpn_flow.specs.Moves.{Feeds, FeedsAll, DrainsOne, DrainsInto};
ghost use Rattle.kpn_flow.specs.Pauses.{TellWants, StarvesReader, BlocksWriter, FlowAdvances};
ghost use Rattle.kpn_flow.specs.Pieces.{IsOneRunInPieces, IsExhausted};
ghost use Rattle.kpn_flow.specs.Stands.{FlowStands};
ghost use Rattle.kpn_flow.specs.Waits.{starves, holds_up, waits_to_read};

use crate::counts::Counts;
use crate::ends::{FlowFault, fault_of, is_among, remove};
use crate::going::{ROOM, go_on};
use crate::open_net::OpenNet;
use crate::opening::{Lists, lists_of};
use crate::pause::Pause;
use crate::stand::stand;
use crate::waits::{all_wait_to_read, holds_up, starves};
use kpn_body::Body;
use kpn_commit::{Core, outside};
use kpn_machine::opening::{Start, prepare, seat_all};
use kpn_model::{Sort, Token};
use kpn_network::Net;
use kpn_state::{Standing, Unkept};
use std::alloc::Global;
use std::marker::Model;

/// A network that one thread runs, perhaps forever, in bounded memory. It is fed at its inputs and drained at
/// its outputs, and keeps no history.
///
/// The writer of an input stops at once, like `count 0 0`, so only the outside writes to it; so does the
/// reader of an output, like `sink 0`. So feeding in pieces equals having all tokens from the start
/// (`assure_one_run`; docs/endless.md).
pub struct Flow<B: Body> {
    net: Net<B::Kinds>,
    core: Core<Unkept>,
    bodies: Vec<Option<B>>,
    inputs: Vec<usize>,
    unended: Vec<usize>,
    outputs: Vec<usize>,
    counts: Counts,
}

// Written out so that dropping a flow is one call, proved once. Otherwise it is most of the proof of a flow's
// owner.
impl<B: Body> Drop for Flow<B> {
    fn drop(self) {
        let Flow {
            net: _,
            core: _,
            bodies: _,
            inputs: _,
            unended: _,
            outputs: _,
            counts: _,
        } = self;
    }
}

impl<B: Body> Model for Flow<B> {
    ghost use Rattle.std.specs.Prelude.{map, option_map};
    ghost use Rattle.kpn_model.specs.Families.{family};
    ghost use Rattle.kpn_commit.specs.Waiting.{AreWaiting};
    ghost use Rattle.kpn_flow.specs.Flows.{FlowView, flow_view, IsFlowing};

    ghost Value = { FlowView };

    ghost view = { λ m. flow_view m.net m.core.store.state m.core.standings m.inputs.items m.unended.items m.outputs.items m.counts };

    ghost invariant = { λ m. IsFlowing (family B.Kinds.Kinds) B.Kinds.admits (flow_view m.net m.core.store.state m.core.standings m.inputs.items m.unended.items m.outputs.items m.counts) (map (option_map B.card) m.bodies.items) m.core.store.limit × AreWaiting m.net m.core.store.state m.core.standings m.core.waiting };
}

/// Why a flow was not opened, with the network and the bodies.
#[derive(Drop)]
pub struct FlowRefused<B: Body> {
    pub net: Net<B::Kinds>,
    pub bodies: Vec<B>,
    pub fault: FlowFault,
}

impl<B: Body> Flow<B> {
    /// Opens a flow at the start of a network, with a body for each process, in order, and the numbers of the
    /// channels to feed and to drain. Takes all memory except that of growths.
    ///
    /// Errors: the first of `Bodies`, `Card`, `Channel`, `Twice`, `Writer`, `Reader` and `Memory` that
    /// applies. Returns the network and the bodies unchanged.
    ///
    /// ```text
    /// match Flow::open(alloc, net, bodies, fed.as_slice(), drained.as_slice()) {
    ///     Ok(flow) => Ok(flow),
    ///     Err(refused) => bail!("{:?}", refused.fault),
    /// }
    /// ```
    pub fn open(
        alloc: Global,
        net: Net<B::Kinds>,
        mut bodies: Vec<B>,
        inputs: &[usize],
        outputs: &[usize],
    ) -> Result<Flow<B>, FlowRefused<B>>
        ensures opened { IfOk result (λ m. m ≡ opened_flow (family B.Kinds.Kinds) net inputs.now outputs.now) }
        ensures cards { OnOk result (map B.card bodies.items ≡ cards_of net.processes) }
        ensures ends { OnOk result (AreEnds (family B.Kinds.Kinds) net inputs.now outputs.now) }
        ensures apart { OnOk result (AreApart inputs.now outputs.now) }
        ensures net_back { IfErr result (λ refused. refused.net ≡ net) }
        ensures bodies_back { IfErr result (λ refused. refused.bodies.items ≡ bodies.items) }
        ensures fault { IfErr result (RefusesFlow B.Kinds.Kinds net B.card bodies.items inputs.now outputs.now) }
    {
        if let Some(fault) = fault_of(&net, bodies.as_slice(), inputs, outputs) {
            return Err(FlowRefused { net, bodies, fault });
        }
        let (Ok(begun), Ok(lists)) = (
            prepare::<B, Unkept>(alloc, &net, ROOM),
            lists_of(alloc, inputs, outputs),
        ) else {
            return Err(FlowRefused {
                net,
                bodies,
                fault: FlowFault::Memory,
            });
        };
        net.assure_valid();
        let Start { core, mut slots } = begun;
        let Lists {
            inputs,
            unended,
            outputs,
        } = lists;
        seat_all(&mut bodies, &mut slots);
        Ok(Flow {
            net,
            core,
            bodies: slots,
            inputs,
            unended,
            outputs,
            counts: Counts {
                entries: 0,
                growths: 0,
            },
        })
    }

    /// Returns the network.
    ///
    /// ```text
    /// let net = flow.net();
    /// let places = places_of(alloc, net, flow.standings())?;
    /// ```
    pub fn net(&self) -> &Net<B::Kinds>
        ensures { result.now ≡ self.now.network }
    {
        &self.net
    }

    /// Returns the standing of each process, in order.
    ///
    /// ```text
    /// let places = places_of(alloc, net, flow.standings())?;
    /// ```
    pub fn standings(&self) -> &[Standing]
        ensures { result.now ≡ self.now.standings }
    {
        self.core.standings.as_slice()
    }

    /// Returns the number of entries since the flow was opened, at most `u64::MAX`.
    ///
    /// ```text
    /// let (text, entries, growths) = (pause_text(pause), flow.entries(), flow.growths());
    /// ```
    pub fn entries(&self) -> u64
        ensures { result ≡ self.now.counts.entries }
    {
        self.counts.entries
    }

    /// Returns how many of the entries were growths, at most `u64::MAX`.
    ///
    /// ```text
    /// let (text, entries, growths) = (pause_text(pause), flow.entries(), flow.growths());
    /// ```
    pub fn growths(&self) -> u64
        ensures { result ≡ self.now.counts.growths }
    {
        self.counts.growths
    }

    /// Returns whether a channel is an input that has not ended.
    pub fn is_input(&self, channel: usize) -> bool
        ensures { result ≡ is_among self.now.unended channel }
    {
        is_among(self.unended.as_slice(), channel)
    }

    /// Returns whether a channel is an output.
    ///
    /// ```text
    /// if !flow.is_output(channel) {
    ///     return None;
    /// }
    /// flow.drain(channel)
    /// ```
    pub fn is_output(&self, channel: usize) -> bool
        ensures { result ≡ is_among self.now.outputs channel }
    {
        is_among(self.outputs.as_slice(), channel)
    }

    /// Returns whether the reader of a channel is parked with a read from it. After `Pause::Starved` this
    /// finds the input to feed.
    pub fn is_starved(&self, channel: usize) -> bool
        ensures parked { result ≡ starves self.now.network self.now.standings channel }
        ensures starving { IsTrue result → StarvesReader (family B.Kinds.Kinds) self.now channel }
    {
        starves(&self.net, self.core.standings.as_slice(), channel)
    }

    /// Returns whether the writer of a channel is parked with a write to it. After `Pause::Blocked` this
    /// finds the output to drain.
    pub fn is_held_up(&self, channel: usize) -> bool
        ensures parked { result ≡ holds_up self.now.network self.now.standings channel }
        ensures blocked { IsTrue result → BlocksWriter (family B.Kinds.Kinds) self.now channel }
    {
        holds_up(&self.net, self.core.standings.as_slice(), channel)
    }

    /// Returns whether a channel exists and holds fewer tokens than its capacity.
    ///
    /// ```text
    /// if !flow.has_room(inlet.channel()) {
    ///     return false;
    /// }
    /// ```
    pub fn has_room(&self, channel: usize) -> bool
        ensures { IsTrue result ↔ length (tokens self.now.state channel) < capacity self.now.state channel }
    {
        let (held, capacity) = self.tokens_and_capacity(channel);
        held < capacity
    }

    /// Returns a channel's number of tokens and its current capacity; 0 and 0 if there is no such channel.
    ///
    /// ```text
    /// let channel = self.inputs.get(place).copied()?;
    /// Some(self.flow.tokens_and_capacity(channel))
    /// ```
    pub fn tokens_and_capacity(&self, channel: usize) -> (usize, usize)
        ensures { result ≡ fill self.now channel }
    {
        if channel >= self.net.channels() {
            return (0, 0);
        }
        self.core.store.tokens_and_capacity(channel)
    }

    /// Returns whether each process has stopped or waits for a token, so that nothing more comes out unless
    /// more is fed. If two such flows of one network were fed the same, each output has given and holds the
    /// same (`comparable`).
    pub fn is_exhausted(&self) -> bool
        ensures waits { result ≡ list_all waits_to_read self.now.standings }
        ensures exhausted { IsTrue result → IsExhausted (family B.Kinds.Kinds) self.now.network self.now.state }
    {
        all_wait_to_read(self.core.standings.as_slice())
    }

    /// Returns how the flow stands, without running it: `Cut` if a process is ready, or waits for room where
    /// neither feeding nor draining helps; otherwise what `advance` would return.
    ///
    /// ```text
    /// self.flow.stand()
    /// ```
    pub fn stand(&self) -> Pause
        ensures { FlowStands (family B.Kinds.Kinds) self.now result }
    {
        let inputs = self.unended.as_slice();
        stand(&self.net, &self.core, inputs, self.outputs.as_slice())
    }

    /// Ghost lemma: a process that is neither ready nor out wants what it answered, and can't do it.
    pub fn assure_standings(&self)
        ensures wanted { WantAsAnswered (family B.Kinds.Kinds) self.now.network self.now.state self.now.standings }
        ensures busy { EnabledAreBusy (family B.Kinds.Kinds) self.now }
    {
        let _ = &self.net;
    }

    /// Ghost lemma: what holds of each flow at all times. In the events that led to its state tokens came
    /// only into inputs and left only outputs, and the entries were counted. Whatever these events were, and
    /// whatever is to come, the deeds are a run of the network that held all those tokens from the start. Its
    /// stream on an output is what was drained and then what is there, and every solution of that network's
    /// equations begins with it (Kahn 1974).
    pub fn assure_one_run(&self)
        ensures ends { AreEnds (family B.Kinds.Kinds) self.now.network self.now.inputs self.now.outputs }
        ensures unended { (c : ℕ) → is_among self.now.unended c ≡ true → is_among self.now.inputs c ≡ true }
        ensures reached { FlowIsReached (family B.Kinds.Kinds) self.now }
        ensures one_run { IsOneRunInPieces (family B.Kinds.Kinds) self.now }
    {
        let _ = &self.net;
    }
}

impl<B: Body> Flow<B> {
    /// Runs the flow until fewer than two of the `most` allowed entries are left or nothing can be done.
    /// Takes no memory except that of growths, and keeps no entries. A channel grows only if neither feeding
    /// an unended input nor draining lets a process continue (after Parks 1995). Unless `Cut`, `standings`
    /// has what each process waits for.
    ///
    /// ```text
    /// let pause = self.flow.advance(most);
    /// write_pause(&self.flow, pause, sink)?;
    /// ```
    pub fn advance(&mut self, most: u64) -> Pause
        ensures same { IsSameFlow self.old self.new }
        ensures advances { FlowAdvances (family B.Kinds.Kinds) self.old self.new most result }
        ensures told { TellWants (family B.Kinds.Kinds) self.new.network self.new.state self.new.standings result }
    {
        let opened = OpenNet {
            net: &self.net,
            inputs: self.unended.as_slice(),
            outputs: self.outputs.as_slice(),
        };
        go_on(
            &opened,
            &mut self.core,
            self.bodies.as_slice(),
            &mut self.counts,
            most,
        )
    }

    /// Ends an input: it can no longer be fed. A process that waits for a token in it then waits forever, and
    /// `advance` does not return `Starved` for it. Changes nothing if the channel is no input or has ended.
    ///
    /// ```text
    /// for port in self.inputs.iter() {
    ///     self.flow.end_input(port.channel);
    /// }
    /// ```
    pub fn end_input(&mut self, channel: usize)
        ensures { self.new ≡ with_ended self.old channel }
    {
        remove(&mut self.unended, channel);
    }
}

fn has_sort(token: Token, sort: Sort) -> bool
    ensures { IsTrue result ↔ IsOfSort sort token }
{
    match (token, sort) {
        (Token::Word(_), Sort::Words) => true,
        (Token::Flag(_), Sort::Flags) => true,
        _ => false,
    }
}

impl<B: Body> Flow<B> {
    /// Returns whether a channel is an unended input and a token has its sort.
    ///
    /// ```text
    /// if !flow.may_feed(channel, token) {
    ///     bail!("the input has ended, or has another sort");
    /// }
    /// Ok(flow.feed(channel, token))
    /// ```
    pub fn may_feed(&self, channel: usize, token: Token) -> bool
        ensures { IsTrue result ↔ MayFeed self.now channel token }
    {
        self.is_input(channel)
            && channel < self.net.channels()
            && has_sort(token, self.net.sort(channel))
    }

    /// Puts a token into an input, and returns whether there was room. `may_feed` must be true.
    ///
    /// ```text
    /// if !flow.may_feed(channel, token) {
    ///     bail!("the input has ended, or has another sort");
    /// }
    /// Ok(flow.feed(channel, token))
    /// ```
    pub fn feed(&mut self, channel: usize, token: Token) -> bool
        requires { MayFeed self.old channel token }
        ensures { Feeds (family B.Kinds.Kinds) self.old channel token result self.new }
    {
        let (held, capacity) = self.core.store.tokens_and_capacity(channel);
        if held >= capacity {
            return false;
        }
        outside::feed(&self.net, &mut self.core, channel, token);
        true
    }

    /// Takes the first token of an output; `None` if it is empty.
    ///
    /// ```text
    /// if !flow.is_output(channel) {
    ///     return None;
    /// }
    /// flow.drain(channel)
    /// ```
    pub fn drain(&mut self, channel: usize) -> Option<Token>
        requires { is_among self.old.outputs channel ≡ true }
        ensures { DrainsOne (family B.Kinds.Kinds) self.old channel result self.new }
    {
        let (held, _) = self.core.store.tokens_and_capacity(channel);
        if held == 0 {
            return None;
        }
        let token = outside::drain(&self.net, &mut self.core, channel);
        Some(token)
    }
}

impl<B: Body> Flow<B> {
    /// Returns whether a channel is an unended input and all tokens have its sort.
    ///
    /// ```text
    /// if !self.flow.may_feed_all(channel, batch.as_slice()) {
    ///     bail!("{name} has ended, or a token is of another sort");
    /// }
    /// Ok(self.flow.feed_all(channel, batch.as_slice()))
    /// ```
    pub fn may_feed_all(&self, channel: usize, batch: &[Token]) -> bool
        ensures may { IsTrue result → MayFeedAll self.now channel batch.now }
        ensures may_not { result ≡ false → MayFeedAll self.now channel batch.now → ⊥ }
    {
        let mut seen = 0;
        while seen < batch.len() {
            if !self.may_feed(channel, batch[seen]) {
                return false;
            }
            seen += 1;
        }
        self.is_input(channel)
    }

    /// Puts as many tokens as there is room for into an input, in order, and returns how many. `may_feed_all`
    /// must be true.
    ///
    /// ```text
    /// if !self.flow.may_feed_all(channel, batch.as_slice()) {
    ///     bail!("{name} has ended, or a token is of another sort");
    /// }
    /// Ok(self.flow.feed_all(channel, batch.as_slice()))
    /// ```
    pub fn feed_all(&mut self, channel: usize, batch: &[Token]) -> usize
        requires { MayFeedAll self.old channel batch.now }
        ensures { FeedsAll (family B.Kinds.Kinds) self.old channel batch.now result self.new }
    {
        let mut fed = 0;
        while fed < batch.len() {
            if !self.feed(channel, batch[fed]) {
                return fed;
            }
            fed += 1;
        }
        fed
    }

    /// Moves as many tokens as there are and fit from an output to the front of a buffer, in order. Returns
    /// how many.
    ///
    /// ```text
    /// let mut buffer = [Token::Word(0); BATCH];
    /// let count = take_batch(flow, port.channel, &mut buffer);
    /// ```
    pub fn drain_into(&mut self, channel: usize, buffer: &mut [Token]) -> usize
        requires { is_among self.old.outputs channel ≡ true }
        ensures { DrainsInto (family B.Kinds.Kinds) self.old channel buffer.old result buffer.new self.new }
    {
        let mut drained = 0;
        while drained < buffer.len() {
            let Some(token) = self.drain(channel) else {
                return drained;
            };
            buffer[drained] = token;
            drained += 1;
        }
        drained
    }
}
