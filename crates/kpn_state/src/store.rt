//! Processes, channels and the history. Each change has its entry, but for tokens from outside the network.
ghost use Rattle.std.specs.Prelude.{◌≡◌, ◌<◌, ◌≤◌, ◌^◌, ◌∷◌, [], length, drop, IfOk, OnOk, OnErr};
ghost use Rattle.kpn_model.specs.History.{growths as growths_of};
ghost use Rattle.kpn_model.specs.Semantics.{status, tokens, capacity, with_status, with_token, with_room};
ghost use Rattle.kpn_model.specs.declared.history.Status.TheVariants.{Done};
ghost use Rattle.kpn_model.specs.declared.history.Entry.TheVariants.{Did, Grew};
ghost use Rattle.kpn_model.specs.declared.history.Deed.TheVariants.{Stopped};
ghost use Rattle.kpn_state.specs.StateAndHistory.{state, state_and_history, put_in, more, more_taken, more_put, MayEnter, MayTake, MayPut, MayGrow, HasFirst, HasSpace, Drains};
ghost use Rattle.kpn_state.specs.Packed.{IsSmall};

use crate::keeper::{Keeper, Unkept, Wide};
use crate::ring::Ring;
use kpn_model::{Deed, Entry, Local, Status, Token};
use std::alloc::{AllocError, Global};
use std::marker::Model;

/// The status of each process, the channels, and the history, with room for a fixed number of entries.
pub struct Store<H: Keeper = Wide> {
    statuses: Vec<Status>,
    rings: Vec<Ring>,
    history: H,
    limit: usize,
    /// How many entries are growths, so that nobody has to count them.
    growths: usize,
}

// Written out, so that each drop is one call, proved once, and not a drop of each field.
impl<H: Keeper> Drop for Store<H> {
    fn drop(self) {
        let Store {
            statuses: _,
            rings: _,
            history: _,
            limit: _,
            growths: _,
        } = self;
    }
}

impl<H: Keeper> Model for Store<H> {
    ghost use Rattle.kpn_state.specs.StateAndHistory.{StateAndHistory, state_and_history, state, IsStored};

    ghost Value = { StateAndHistory };

    ghost view = { λ s. state_and_history (state s.statuses.items s.rings.items) (H.entries s.history) s.limit };

    ghost invariant = { λ s. IsStored (state_and_history (state s.statuses.items s.rings.items) (H.entries s.history) s.limit) (H.room s.history) s.growths };
}

impl<H: Keeper> Store<H> {
    /// Makes a store of up to 65,536 processes and 65,536 channels, with room for `limit` entries. Errors: out
    /// of memory.
    pub fn new(
        alloc: Global,
        statuses: Vec<Status>,
        rings: Vec<Ring>,
        limit: usize,
    ) -> Result<Self, AllocError>
        requires processes { length statuses.items ≤ 2 ^ 16 }
        requires channels { length rings.items ≤ 2 ^ 16 }
        ensures { IfOk result (λ s. s ≡ state_and_history (state statuses.items rings.items) [] limit) }
    {
        let history = H::with_room(alloc, limit)?;
        Ok(Store {
            statuses,
            rings,
            history,
            limit,
            growths: 0,
        })
    }

    /// Returns the keeper of the entries.
    pub fn keeper(&self) -> &H
        ensures { H.entries result.now ≡ self.now.history }
    {
        &self.history
    }

    /// Returns the number of entries.
    #[inline(always)]
    pub fn entries(&self) -> usize
        ensures { result ≡ length self.now.history }
    {
        self.history.count()
    }

    /// Returns the number of growths among the entries.
    #[inline(always)]
    pub fn growths(&self) -> usize
        ensures { result ≡ length (growths_of self.now.history) }
    {
        self.growths
    }

    /// Returns the status of a process.
    pub fn status(&self, process: usize) -> &Status
        requires { process < length self.now.state.processes }
        ensures { result.now ≡ status self.now.state process }
    {
        &self.statuses[process]
    }

    /// Returns the number of tokens in a channel, and its capacity.
    pub fn tokens_and_capacity(&self, channel: usize) -> (usize, usize)
        requires { channel < length self.now.state.channels }
        ensures tokens { result.0 ≡ length (tokens self.now.state channel) }
        ensures capacity { result.1 ≡ capacity self.now.state channel }
        ensures within { result.0 ≤ result.1 }
    {
        let ring = &self.rings[channel];
        ring.tokens_and_capacity()
    }

    #[inline(always)]
    fn note(&mut self, process: usize, deed: Deed)
        requires room { length self.old.history < self.old.limit }
        requires small { IsSmall (Did process deed) }
        ensures { self.new ≡ more self.old self.old.state (Did process deed) }
    {
        self.history.keep(Entry::Did { process, deed });
    }
}

impl Store<Wide> {
    /// Returns the entries.
    pub fn history(&self) -> &[Entry]
        ensures { result.now ≡ self.now.history }
    {
        self.history.as_slice()
    }
}

impl Store<Unkept> {
    /// Forgets the entries. The history starts again from the current state, with as much room as at first.
    pub fn forget(&mut self)
        ensures { self.new ≡ state_and_history self.old.state [] self.old.limit }
    {
        self.history.forget();
        self.growths = 0;
    }
}

impl<H: Keeper> Store<H> {
    /// Stops a process, and appends the entry. There must be room for it.
    pub fn stop(&mut self, process: usize)
        requires { MayEnter self.old process }
        ensures { self.new ≡ more self.old (with_status self.old.state process Done) (Did process Stopped) }
    {
        self.statuses[process] = Status::Done;
        self.note(process, Deed::Stopped);
    }

    /// Moves the first token of a channel to the process that reads it, appends the entry, and returns the
    /// token. There must be a token, and room for the entry. `next` is the new local state.
    #[inline(always)]
    pub fn take(&mut self, process: usize, channel: usize, next: Local) -> Token
        requires { MayTake self.old process channel }
        ensures token { tokens self.old.state channel ≡ result ∷ drop 1 (tokens self.old.state channel) }
        ensures entry { self.new ≡ more_taken self.old process next channel result }
    {
        let ring = &mut self.rings[channel];
        let token = ring.take();
        self.statuses[process] = Status::Live {
            local: next,
            last: Some(token),
        };
        self.note(process, Deed::Took { channel, token });
        token
    }

    /// Appends the token that a process writes to a channel, and the entry; there must be room for both.
    /// `next` is the new local state.
    #[inline(always)]
    pub fn put(&mut self, process: usize, channel: usize, next: Local, token: Token)
        requires { MayPut self.old process channel }
        ensures { self.new ≡ more_put self.old process next channel token }
    {
        // The status first: its stores are then done while the token is put.
        self.statuses[process] = Status::Live {
            local: next,
            last: None,
        };
        let ring = &mut self.rings[channel];
        ring.put(token);
        self.note(process, Deed::Put { channel, token });
    }

    /// Appends a token to a channel from outside the network, without an entry. The channel must have room.
    pub fn feed(&mut self, channel: usize, token: Token)
        requires { HasSpace self.old.state channel }
        ensures { self.new ≡ put_in self.old (with_token self.old.state channel token) }
    {
        let fed = &mut self.rings[channel];
        fed.put(token);
    }

    /// Removes the first token, which must exist, and returns it to outside the network, without an entry.
    pub fn drain(&mut self, channel: usize) -> Token
        requires { HasFirst self.old.state channel }
        ensures { Drains self.old channel result self.new }
    {
        let drained = &mut self.rings[channel];
        drained.take()
    }

    /// Sets the capacity of a channel to `to` tokens, and appends the entry. There must be room for it.
    /// Errors: out of memory; nothing has then changed.
    pub fn grow(&mut self, channel: usize, to: usize) -> Result<(), AllocError>
        requires { MayGrow self.old channel to }
        ensures ok { OnOk result (self.new ≡ more self.old (with_room self.old.state channel to) (Grew channel to)) }
        ensures err { OnErr result (self.new ≡ self.old) }
    {
        let ring = &mut self.rings[channel];
        ring.grow(to)?;
        let _entries = self.history.count();
        self.history.keep(Entry::Grew { channel, to });
        self.growths += 1;
        Ok(())
    }
}
