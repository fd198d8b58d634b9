//! A channel as a ring of tokens.
ghost use Rattle.std.specs.Prelude.{◌≡◌, ◌<◌, ◌≤◌, ◌++◌, ◌∷◌, ◌^◌, [], IfOk, OnOk, OnErr, length, drop};
ghost use Rattle.kpn_state.specs.StateAndHistory.{held};

use circular_buffer::HeapCircularBuffer;
use kpn_model::Token;
use std::alloc::{AllocError, Global};
use std::marker::Model;

/// A channel: its tokens in reading order, and its capacity. Its buffer may have more room, to copy less.
#[derive(Drop)]
pub struct Ring {
    buffer: HeapCircularBuffer<Token>,
    capacity: usize,
}

impl Model for Ring {
    ghost use Rattle.std.specs.Prelude.{◌≤◌, length};
    ghost use Rattle.kpn_model.specs.Semantics.{Held};
    ghost use Rattle.kpn_state.specs.StateAndHistory.{held};

    ghost Value = { Held };

    ghost view = { λ r. held r.buffer.items r.capacity };

    ghost invariant = { λ r. (length r.buffer.items ≤ r.capacity) × (r.capacity ≤ r.buffer.capacity) };
}

impl Ring {
    /// Makes a channel with these tokens and this capacity. Errors: out of memory.
    pub fn new(alloc: Global, tokens: &[Token], capacity: usize) -> Result<Ring, AllocError>
        requires { length tokens.now ≤ capacity }
        ensures { IfOk result (λ r. r ≡ held tokens.now capacity) }
    {
        let mut buffer = HeapCircularBuffer::with_capacity(alloc, capacity)?;
        buffer.fill_from_slice(tokens);
        Ok(Ring { buffer, capacity })
    }

    /// Returns the number of tokens in the channel, and its capacity.
    pub fn tokens_and_capacity(&self) -> (usize, usize)
        ensures counts { result ≡ (length self.now.tokens, self.now.capacity) }
        ensures fits { length self.now.tokens ≤ self.now.capacity }
    {
        (self.buffer.len(), self.capacity)
    }

    /// Removes and returns the first token. There must be one.
    pub fn take(&mut self) -> Token
        requires { 0 < length self.old.tokens }
        ensures first { self.old.tokens ≡ result ∷ drop 1 self.old.tokens }
        ensures rest { self.new ≡ held (drop 1 self.old.tokens) self.old.capacity }
    {
        match self.buffer.pop_front() {
            Some(token) => token,
            None => unreachable!(),
        }
    }

    /// Appends a token. The channel must have room.
    pub fn put(&mut self, token: Token)
        requires { length self.old.tokens < self.old.capacity }
        ensures { self.new ≡ held (self.old.tokens ++ token ∷ []) self.old.capacity }
    {
        if self.buffer.try_push_back(token).is_err() {
            unreachable!()
        }
    }

    /// Sets the capacity to `to` tokens. Errors: out of memory; the channel is then unchanged.
    pub fn grow(&mut self, to: usize) -> Result<(), AllocError>
        requires { length self.old.tokens ≤ to }
        ensures ok { OnOk result (self.new ≡ held self.old.tokens to) }
        ensures err { OnErr result (self.new ≡ self.old) }
    {
        if self.buffer.capacity() < to {
            make_room(&mut self.buffer, to)?;
        }
        self.capacity = to;
        Ok(())
    }
}

/// Makes room for `needed` tokens, or for twice the old room if that is more and there is memory for it. So
/// after the first growth n more by one copy at most 2n tokens. Errors: out of memory; the buffer is then
/// unchanged.
fn make_room(buffer: &mut HeapCircularBuffer<Token>, needed: usize) -> Result<(), AllocError>
    requires { buffer.old.capacity < needed }
    ensures items { OnOk result (buffer.new.items ≡ buffer.old.items) }
    ensures room { OnOk result (needed ≤ buffer.new.capacity) }
    ensures err { OnErr result (buffer.new ≡ buffer.old) }
{
    let twice = 2 * buffer.capacity();
    if needed < twice && buffer.resize(twice).is_ok() {
        return Ok(());
    }
    buffer.resize(needed)
}
