//! Sinks of tokens.
ghost use Rattle.std.specs.Prelude.{◌≡◌, ◌≤◌, ◌++◌, [], false, true, not, Err, IfErr, IfOk, OnOk, length};
ghost use Rattle.std.specs.Io.KnownBytes.{Appends, append_known};
ghost use Rattle.hox_stream.specs.Ports.{IsWriteFault, Writes, are_written, clipped_of, written_of, written_text};
ghost use Rattle.hox_stream.specs.Streams.{FlushesSink};
ghost use Rattle.hox_stream.specs.Views.{fresh_outlet};

use kpn_front::Sink;
use kpn_tokens::{AppendFault, Layout, Token, append_tokens};
use std::alloc::{AllocError, Global};
use std::marker::Model;

/// How many bytes wait at most.
const PIECE: usize = 4096;

/// The room at first, in bytes: those that wait, and the records of one batch of tokens.
const ROOM: usize = 8192;

/// Why tokens were not written: a write failed, after some bytes or none; a token does not fit the layout,
/// and those before it are written or wait; or out of memory.
#[derive(Clone, Copy, Debug, PartialEq, Eq)]
pub(crate) enum WriteFault {
    Failed,
    Misfit,
    Memory,
}

/// A sink for the tokens of a channel. Records wait until they have more than 4,096 bytes, or are flushed.
/// Contracts see the layout, and what is written together with what waits.
#[derive(Drop)]
pub struct Outlet<S: Sink> {
    channel: usize,
    layout: Layout,
    sink: S,
    waiting: Vec<u8>,
    has_failed: bool,
    is_misfit: bool,
    tokens: u64,
    clipped: u64,
    /// The number of tokens written when nothing waited last.
    flushed: u64,
}

impl<S: Sink> Model for Outlet<S> {
    ghost use Rattle.hox_stream.specs.Views.{OutletView};

    ghost Value = { OutletView };

    ghost use Rattle.std.specs.Prelude.{◌≤◌, length};
    ghost use Rattle.std.specs.Io.KnownBytes.{append_known};

    ghost view = { λ m. record { channel = m.channel; layout = m.layout; contents = append_known (S.seen m.sink).contents m.waiting.items; waiting = m.waiting.items; has_failed = m.has_failed; is_misfit = m.is_misfit; tokens = m.tokens; clipped = m.clipped } };

    ghost invariant = { λ m. length m.waiting.items ≤ 4096 };
}

impl<S: Sink + Drop> Outlet<S> {
    /// Creates a sink with nothing written yet. Errors: out of memory.
    pub(crate) fn new(
        alloc: Global,
        channel: usize,
        layout: Layout,
        sink: S,
    ) -> Result<Outlet<S>, AllocError>
        ensures { IfOk result (λ o. o ≡ fresh_outlet channel layout (S.seen sink).contents) }
    {
        let waiting = Vec::with_capacity(alloc, ROOM)?;
        Ok(Outlet {
            channel,
            layout,
            sink,
            waiting,
            has_failed: false,
            is_misfit: false,
            tokens: 0,
            clipped: 0,
            flushed: 0,
        })
    }
}

impl<S: Sink> Outlet<S> {
    /// Returns the number of the channel.
    pub fn channel(&self) -> usize
        ensures { result ≡ self.now.channel }
    {
        self.channel
    }

    /// Returns how many tokens are written or wait, at most `u64::MAX`; after a failed write, only those
    /// written before.
    pub fn tokens(&self) -> u64
        ensures { result ≡ self.now.tokens }
    {
        self.tokens
    }

    /// Returns how many tokens were clipped to the nearest value that fits, at most `u64::MAX`. After a
    /// failed write, some of them may be lost.
    pub fn clipped(&self) -> u64
        ensures { result ≡ self.now.clipped }
    {
        self.clipped
    }

    /// Returns how many bytes wait to be written: at most 4,096.
    pub fn waiting(&self) -> usize
        ensures is { result ≡ length self.now.waiting }
        ensures few { result ≤ 4096 }
    {
        self.waiting.len()
    }

    /// Returns whether a write failed, or ran out of memory.
    pub fn has_failed(&self) -> bool
        ensures { result ≡ self.now.has_failed }
    {
        self.has_failed
    }

    /// Returns the sink. It lacks the bytes that wait.
    pub fn sink(&self) -> &S
        ensures { append_known (S.seen result.now).contents self.now.waiting ≡ self.now.contents }
    {
        &self.sink
    }

    /// Returns the sink. It lacks the bytes that wait.
    pub fn into_sink(self) -> S
        ensures { append_known (S.seen result).contents self.waiting ≡ self.contents }
    {
        let Outlet { sink, .. } = self;
        sink
    }

    /// Appends the records of tokens to what waits, and writes that if it has more than 4,096 bytes. If it
    /// fails, some may have been written, and it takes no more tokens.
    pub(crate) fn write(&mut self, tokens: &[Token]) -> Result<(), WriteFault>
        ensures writes { Writes self.old self.new tokens.now }
        ensures fault { IfErr result (IsWriteFault self.new) }
    {
        if self.has_failed {
            return Err(WriteFault::Failed);
        }
        if self.is_misfit {
            return Err(WriteFault::Misfit);
        }
        let Ok(appended) = append_to(&mut self.waiting, self.layout, tokens) else {
            self.waiting.clear();
            self.fail();
            return Err(WriteFault::Memory);
        };
        self.tokens = self.tokens.saturating_add(appended.written as u64);
        self.clipped = self.clipped.saturating_add(appended.clipped as u64);
        self.is_misfit = appended.is_misfit;
        if self.waiting.len() <= PIECE {
            return self.end_of_write();
        }
        if write_out(&mut self.sink, &mut self.waiting).is_err() {
            self.fail();
            return Err(WriteFault::Failed);
        }
        self.flushed = self.tokens;
        self.end_of_write()
    }

    fn end_of_write(&self) -> Result<(), WriteFault>
        ensures { IfErr result (IsWriteFault self.now) }
    {
        if self.is_misfit {
            Err(WriteFault::Misfit)
        } else {
            Ok(())
        }
    }

    /// Writes what waits, unless a write has failed before. If it fails, some bytes may have been written.
    pub(crate) fn flush(&mut self) -> Result<(), WriteFault>
        ensures { FlushesSink self.old self.new result }
    {
        if self.has_failed || self.waiting.is_empty() {
            return Ok(());
        }
        if write_out(&mut self.sink, &mut self.waiting).is_err() {
            self.fail();
            return Err(WriteFault::Failed);
        }
        self.flushed = self.tokens;
        Ok(())
    }

    fn fail(&mut self)
        ensures { self.new ≡ record self.old { has_failed = true; tokens = self.new.tokens } }
    {
        self.has_failed = true;
        self.tokens = self.flushed;
    }
}

/// How many tokens have their records, how many of these are clipped, and whether the next one is a misfit.
#[derive(Clone, Copy, Debug, PartialEq, Eq)]
struct Appended {
    written: usize,
    clipped: usize,
    is_misfit: bool,
}

/// Appends the records of tokens, up to the first misfit. Errors: out of memory.
fn append_to(
    waiting: &mut Vec<u8>,
    layout: Layout,
    tokens: &[Token],
) -> Result<Appended, AllocError>
    ensures appended { OnOk result (waiting.new.items ≡ waiting.old.items ++ written_text layout false tokens.now) }
    ensures written { IfOk result (λ a. a.written ≡ length (written_of layout false tokens.now)) }
    ensures clipped { IfOk result (λ a. a.clipped ≡ clipped_of layout false tokens.now) }
    ensures misfit { IfOk result (λ a. a.is_misfit ≡ not (are_written layout tokens.now)) }
{
    match append_tokens(waiting, layout, tokens) {
        Ok(clipped) => Ok(Appended {
            written: tokens.len(),
            clipped,
            is_misfit: false,
        }),
        Err(AppendFault::DoesNotFit { place }) => Ok(Appended {
            written: place,
            clipped: 0,
            is_misfit: true,
        }),
        Err(AppendFault::Memory) => Err(AllocError),
    }
}

/// Writes what waits. Afterwards nothing waits, even if the write fails.
pub(crate) fn write_out<S: Sink>(sink: &mut S, waiting: &mut Vec<u8>) -> Result<(), WriteFault>
    ensures written { OnOk result (Appends (S.seen sink.old).contents (S.seen sink.new).contents waiting.old.items) }
    ensures none { waiting.new.items ≡ [] }
{
    let written = sink.write_all(waiting.as_slice());
    waiting.clear();
    written.map_err(|_| WriteFault::Failed)
}
