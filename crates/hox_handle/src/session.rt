//! A flow with its inputs and outputs.
ghost use Rattle.std.specs.Prelude.{◌≡◌, slice_get};
ghost use Rattle.hox_handle.specs.Sessions.{DrainsAt, EndsAt, FeedsAt, GoesOn, StandsAs, may_feed_at, starves_at, holds_up_at, input_fill, output_fill};

use crate::answers::ReturnCode;
use crate::words::{Transferred, drain_words, feed_words};
use hox_network::AllKinds;
use hox_stream::Exits;
use kpn_compute::{Both, CardBody};
use kpn_flow::{Flow, Pause};
use std::marker::Model;

/// The kinds of a session's processes: those of descriptions, and readers that stop at once.
pub(crate) type FlowKinds = Both<AllKinds, Exits>;

/// A flow, and its fed and drained channels in the order in which `open` names them. Contracts see the flow.
#[derive(Drop)]
pub struct Session {
    pub(crate) flow: Flow<CardBody<FlowKinds>>,
    pub(crate) inputs: Vec<usize>,
    pub(crate) outputs: Vec<usize>,
}

impl Model for Session {
    ghost use Rattle.std.specs.Prelude.{◌≡◌};
    ghost use Rattle.kpn_flow.specs.Flows.{FlowView};

    ghost Value = { FlowView };

    ghost view = { λ m. m.flow };

    ghost invariant = { λ m. (m.inputs.items ≡ m.flow.inputs) × (m.outputs.items ≡ m.flow.outputs) };
}

impl Session {
    /// Feeds words into input `place`, in order, as many as fit. On a channel of flags each is 0 or 1.
    ///
    /// Returns the number fed and `Done` if all were fed or the input is full, `NoFlag` if the next word is
    /// no flag, `Ended` if the input has ended, or `NoChannel` if there is none.
    pub fn feed(&mut self, place: usize, words: &[u64]) -> Transferred
        ensures { FeedsAt self.old self.new place words.now result }
    {
        let Some(input) = channel_at(&self.inputs, place) else {
            return nothing_for(ReturnCode::NoChannel);
        };
        feed_words(&mut self.flow, input, words)
    }

    /// Moves words of output `place` to the front of a buffer, in order, until the output is empty or the buffer
    /// is full.
    ///
    /// Returns the number moved and `Done`, or `NoChannel` if there is none.
    pub fn drain(&mut self, place: usize, words: &mut [u64]) -> Transferred
        ensures { DrainsAt self.old self.new place words.old words.new result }
    {
        let Some(channel) = self.outputs.get(place).copied() else {
            return nothing_for(ReturnCode::NoChannel);
        };
        Transferred {
            count: drain_words(&mut self.flow, channel, words),
            answer: ReturnCode::Done,
        }
    }

    /// Runs the flow for at most `most` entries, and returns why it stopped.
    pub fn advance(&mut self, most: u64) -> Pause
        ensures { GoesOn self.old self.new most result }
    {
        self.flow.advance(most)
    }

    /// Ends input `place`. Returns `Done`, or `NoChannel` if there is none.
    pub fn end_input(&mut self, place: usize) -> ReturnCode
        ensures { EndsAt self.old self.new place result }
    {
        let Some(channel) = self.inputs.get(place).copied() else {
            return ReturnCode::NoChannel;
        };
        self.flow.end_input(channel);
        ReturnCode::Done
    }
}

fn nothing_for(answer: ReturnCode) -> Transferred
    ensures count { result.count ≡ 0 }
    ensures answer { result.answer ≡ answer }
{
    Transferred { count: 0, answer }
}

impl Session {
    /// Returns whether input `place` has room and has not ended; `None` if there is none.
    pub fn may_feed(&self, place: usize) -> Option<bool>
        ensures { result ≡ may_feed_at self.now place }
    {
        let channel = self.inputs.get(place).copied()?;
        Some(self.flow.is_input(channel) && self.flow.has_room(channel))
    }

    /// Returns whether a process waits for a token of input `place`, which is then empty; `None` if there is
    /// none.
    pub fn waits_for_input(&self, place: usize) -> Option<bool>
        ensures { result ≡ starves_at self.now place }
    {
        let channel = self.inputs.get(place).copied()?;
        Some(self.flow.is_starved(channel))
    }

    /// Returns whether a process waits for room in output `place`, which is then full; `None` if there is
    /// none.
    pub fn waits_for_output(&self, place: usize) -> Option<bool>
        ensures { result ≡ holds_up_at self.now place }
    {
        let channel = self.outputs.get(place).copied()?;
        Some(self.flow.is_held_up(channel))
    }

    /// Returns the number of tokens and the current capacity of input `place`; `None` if there is none.
    pub fn input_fill(&self, place: usize) -> Option<(usize, usize)>
        ensures { result ≡ input_fill self.now place }
    {
        let channel = self.inputs.get(place).copied()?;
        Some(self.flow.tokens_and_capacity(channel))
    }

    /// Returns the number of tokens and the current capacity of output `place`; `None` if there is none.
    pub fn output_fill(&self, place: usize) -> Option<(usize, usize)>
        ensures { result ≡ output_fill self.now place }
    {
        let channel = self.outputs.get(place).copied()?;
        Some(self.flow.tokens_and_capacity(channel))
    }

    /// Returns the number of entries so far, and how many were growths, each at most `u64::MAX`.
    pub fn entries(&self) -> (u64, u64)
        ensures entries { result.0 ≡ self.now.counts.entries }
        ensures growths { result.1 ≡ self.now.counts.growths }
    {
        (self.flow.entries(), self.flow.growths())
    }

    /// Returns how the flow stands, without running it: `Cut` if it may continue, else why it can't.
    pub fn stand(&self) -> Pause
        ensures { StandsAs self.now result }
    {
        self.flow.stand()
    }
}

fn channel_at(channels: &Vec<usize>, place: usize) -> Option<usize>
    ensures { result ≡ slice_get channels.now.items place }
{
    channels.get(place).copied()
}
