//! Sources of tokens.
ghost use Rattle.std.specs.Prelude.{◌≡◌, ◌≤◌, ◌+◌, ◌++◌, false, true, Err, length, drop, IfOk, Option, vec_len, vec_capacity};
ghost use Rattle.std.specs.List.{list_any};
ghost use Rattle.std.specs.Io.KnownBytes.{IsAtEnd};
ghost use Rattle.hox_stream.specs.Views.{fresh_inlet};
ghost use Rattle.hox_stream.specs.Ports.{IsNextIn, ReadsOn, wants_more, IsReadOrFull, with_records_taken};

use crate::cutting::{FirstRecord, LONGEST_RECORD, next_of};
use crate::gathering::Kept;
use kpn_front::Source;
use kpn_tokens::{Layout, Sort, record_in};
use std::alloc::{AllocError, Global};
use std::marker::Model;

/// How many bytes one read takes at most.
const PIECE: usize = 4096;

/// How many bytes are held at most: the longest record, and one piece.
const ROOM: usize = 8192;

/// Why reading a source failed.
#[derive(Clone, Copy, Debug, PartialEq, Eq)]
pub(crate) enum RefillFault {
    Failed,
    Memory,
}

/// A source of tokens for a channel, read in pieces. It holds at most 8,192 bytes.
#[derive(Drop)]
pub struct Inlet<S: Source> {
    channel: usize,
    layout: Layout,
    sort: Sort,
    source: S,
    held: Vec<u8>,
    next: usize,
    is_over: bool,
    records: u64,
    tokens: u64,
}

impl<S: Source> Model for Inlet<S> {
    ghost use Rattle.hox_stream.specs.Views.{InletView};

    ghost Value = { InletView };

    ghost use Rattle.std.specs.Prelude.{◌≡◌, ◌≤◌, true, drop, length};
    ghost use Rattle.std.specs.Io.KnownBytes.{IsAtEnd};

    ghost view = { λ m. record { channel = m.channel; layout = m.layout; sort = m.sort; kept = drop m.next m.held.items; remaining = S.remaining m.source; has_failed = S.has_failed m.source; is_over = m.is_over; records = m.records; tokens = m.tokens } };

    ghost invariant = { λ m. (m.next ≤ length m.held.items) × (length m.held.items ≤ 8192) × (m.is_over ≡ true → IsAtEnd (S.remaining m.source)) };
}

impl<S: Source> Inlet<S> {
    /// Creates a source with nothing read yet.
    pub(crate) fn new(
        alloc: Global,
        channel: usize,
        layout: Layout,
        sort: Sort,
        source: S,
    ) -> Inlet<S>
        ensures { result ≡ fresh_inlet channel layout sort (S.remaining source) (S.has_failed source) }
    {
        Inlet {
            channel,
            layout,
            sort,
            source,
            held: Vec::new(alloc),
            next: 0,
            is_over: false,
            records: 0,
            tokens: 0,
        }
    }

    /// Returns the number of the channel.
    pub fn channel(&self) -> usize
        ensures { result ≡ self.now.channel }
    {
        self.channel
    }

    pub(crate) fn sort(&self) -> Sort
        ensures { result ≡ self.now.sort }
    {
        self.sort
    }

    /// Returns the number of records taken, at most `u64::MAX`.
    pub fn records(&self) -> u64
        ensures { result ≡ self.now.records }
    {
        self.records
    }

    /// Returns the number of tokens taken, at most `u64::MAX`.
    pub fn tokens(&self) -> u64
        ensures { result ≡ self.now.tokens }
    {
        self.tokens
    }

    /// Returns whether the source is at its end. Then nothing is left to read.
    pub fn is_over(&self) -> bool
        ensures is { result ≡ self.now.is_over }
        ensures at_end { self.now.is_over ≡ true → IsAtEnd self.now.remaining }
    {
        self.is_over
    }

    /// Returns how many bytes were read and not yet taken as records: at most 8,192.
    pub fn held(&self) -> usize
        ensures is { result ≡ length self.now.kept }
        ensures few { result ≤ 8192 }
    {
        self.held.len() - self.next
    }

    /// Returns the source. Bytes that are already read do not come again.
    pub fn source(&self) -> &S
        ensures remaining { S.remaining result.now ≡ self.now.remaining }
        ensures failed { S.has_failed result.now ≡ self.now.has_failed }
    {
        &self.source
    }

    pub(crate) fn next(&self, alloc: Global) -> FirstRecord
        ensures { IsNextIn self.now result }
    {
        let bytes = &self.held[self.next..];
        next_of(alloc, self.layout, self.sort, bytes, self.is_over)
    }

    /// Returns the bytes that are read and not yet taken as records.
    pub(crate) fn kept(&self) -> Kept<'_>
        ensures layout { result.layout.now ≡ self.now.layout }
        ensures sort { result.sort ≡ self.now.sort }
        ensures bytes { result.bytes.now ≡ self.now.kept }
    {
        Kept {
            layout: &self.layout,
            sort: self.sort,
            bytes: &self.held[self.next..],
        }
    }

    /// Takes the next `records` records, of `used` bytes in all, with so many tokens.
    pub(crate) fn pass(&mut self, used: usize, records: usize, tokens: usize)
        requires { used ≤ length self.old.kept }
        ensures { self.new ≡ with_records_taken self.old used records tokens }
    {
        self.next += used;
        self.records = self.records.saturating_add(records as u64);
        self.tokens = self.tokens.saturating_add(tokens as u64);
    }

    /// Returns whether the next record needs another read.
    pub(crate) fn wants_more(&self) -> bool
        ensures { result ≡ wants_more self.now }
    {
        !self.is_over && record_in(self.layout, &self.held[self.next..], false).is_none()
    }

    /// Reads another piece, unless more bytes are held than a record may have. An error loses nothing that is held.
    pub(crate) fn refill(&mut self, alloc: Global) -> Result<(), RefillFault>
        ensures reads { ReadsOn self.old self.new }
        ensures read { self.old.is_over ≡ false → IfOk result (λ _. IsReadOrFull self.old self.new) }
        ensures failed { result ≡ Err RefillFault.Failed → self.new.has_failed ≡ true }
    {
        if self.held.len() - self.next > LONGEST_RECORD {
            return Ok(());
        }
        let Ok(mut held) = with_room(alloc, &self.held[self.next..]) else {
            return Err(RefillFault::Memory);
        };
        let mut piece = [0; PIECE];
        self.is_over = false;
        let Ok(n) = self.source.read(&mut piece) else {
            return Err(RefillFault::Failed);
        };
        append(&mut held, &piece[..n]);
        self.held = held;
        self.next = 0;
        self.is_over = n == 0;
        Ok(())
    }
}

fn with_room(alloc: Global, bytes: &[u8]) -> Result<Vec<u8>, AllocError>
    requires { length bytes.now ≤ 4096 }
    ensures items { IfOk result (λ v. v.items ≡ bytes.now) }
    ensures room { IfOk result (λ v. 8192 ≤ vec_capacity v) }
{
    let mut held = Vec::with_capacity(alloc, ROOM)?;
    held.extend_from_slice(bytes)?;
    Ok(held)
}

fn append(held: &mut Vec<u8>, bytes: &[u8])
    requires { vec_len held.old + length bytes.now ≤ vec_capacity held.old }
    ensures { held.new.items ≡ held.old.items ++ bytes.now }
{
    if held.extend_from_slice(bytes).is_err() {
        unreachable!();
    }
}

pub(crate) fn wants_more<S: Source>(inlets: &[Inlet<S>]) -> bool
    ensures { result ≡ list_any wants_more inlets.now }
{
    inlets.iter().any(|inlet| inlet.wants_more())
}
