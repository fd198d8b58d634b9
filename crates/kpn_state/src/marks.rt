//! The marks at the channels.
ghost use Rattle.std.specs.Prelude.{◌≡◌, ◌<◌, length, set, replicate, false, IfOk};
ghost use Rattle.kpn_state.specs.Marks.{mark_lists, is_marked};

use std::alloc::{AllocError, Global};
use std::marker::Model;

/// For each channel, whether its reader and whether its writer is parked on it. So a commit knows, without
/// looking at a process, whether its deed enables another. Only `new` allocates.
#[derive(Drop)]
pub struct Marks {
    readers: Vec<bool>,
    writers: Vec<bool>,
}

impl Model for Marks {
    ghost use Rattle.kpn_state.specs.Marks.{MarkLists, mark_lists};

    ghost Value = { MarkLists };

    ghost view = { λ m. mark_lists m.readers.items m.writers.items };
}

impl Marks {
    /// Makes the marks of `channels` channels with nobody parked. Errors: out of memory.
    pub fn new(alloc: Global, channels: usize) -> Result<Marks, AllocError>
        ensures { IfOk result (λ m. m ≡ mark_lists (replicate channels false) (replicate channels false)) }
    {
        let readers = unmarked(alloc, channels)?;
        let writers = unmarked(alloc, channels)?;
        Ok(Marks { readers, writers })
    }

    /// Whether the channel's reader is parked on it.
    #[inline(always)]
    pub fn reader_waits(&self, channel: usize) -> bool
        requires { channel < length self.now.readers }
        ensures { result ≡ is_marked self.now.readers channel }
    {
        self.readers[channel]
    }

    /// Whether the channel's writer is parked on it.
    #[inline(always)]
    pub fn writer_waits(&self, channel: usize) -> bool
        requires { channel < length self.now.writers }
        ensures { result ≡ is_marked self.now.writers channel }
    {
        self.writers[channel]
    }

    /// Sets whether the channel's reader is parked on it.
    #[inline(always)]
    pub fn note_reader(&mut self, channel: usize, waits: bool)
        requires { channel < length self.old.readers }
        ensures { self.new ≡ mark_lists (set self.old.readers channel waits) self.old.writers }
    {
        self.readers[channel] = waits;
    }

    /// Sets whether the channel's writer is parked on it.
    #[inline(always)]
    pub fn note_writer(&mut self, channel: usize, waits: bool)
        requires { channel < length self.old.writers }
        ensures { self.new ≡ mark_lists self.old.readers (set self.old.writers channel waits) }
    {
        self.writers[channel] = waits;
    }
}

fn unmarked(alloc: Global, channels: usize) -> Result<Vec<bool>, AllocError>
    ensures { IfOk result (λ v. v.items ≡ replicate channels false) }
{
    let mut marks = Vec::with_capacity(alloc, channels)?;
    for _channel in 0..channels {
        marks.push(false)?;
    }
    Ok(marks)
}
