//! Entries in 16 bytes each.
ghost use Rattle.std.specs.Prelude.{◌≡◌, ◌<◌, map};
ghost use Rattle.std.specs.Vec.{vec_capacity};
ghost use Rattle.kpn_model.specs.declared.history.Entry.TheVariants.{Did};
ghost use Rattle.kpn_state.specs.Packed.{IsSmall, is_flag, token_of, unpacked, word_of};

use crate::keeper::{Keeper, Recall};
use kpn_model::{Deed, Entry, Token};
use std::alloc::{AllocError, Global};

/// The form of an entry, without its numbers and its token.
#[derive(Clone, Copy, Debug, PartialEq, Eq)]
pub enum Form {
    Took,
    Put,
    Stopped,
    Grew,
}

/// An entry in 16 bytes: its token's word, its flag as 0 or 1, or the new capacity; the numbers of its process
/// and channel, 0 if missing; its form; and whether its token is a flag. No byte is padding, which would be
/// written too.
#[derive(Clone, Copy, Debug, PartialEq, Eq)]
pub struct PackedEntry {
    pub word: u64,
    pub process: u32,
    pub channel: u16,
    pub form: Form,
    pub is_flag: bool,
}

#[inline(always)]
fn word_of(token: Token) -> u64
    ensures { result ≡ word_of token }
{
    match token {
        Token::Word(word) => word,
        Token::Flag(flag) => u64::from(flag),
    }
}

#[inline(always)]
fn is_flag(token: Token) -> bool
    ensures { result ≡ is_flag token }
{
    match token {
        Token::Word(_) => false,
        Token::Flag(_) => true,
    }
}

#[inline(always)]
fn token_of(is_flag: bool, word: u64) -> Token
    ensures { result ≡ token_of is_flag word }
{
    if is_flag {
        Token::Flag(word == 1)
    } else {
        Token::Word(word)
    }
}

impl PackedEntry {
    /// Packs an entry. Its process and channel numbers must be below 65,536.
    #[inline(always)]
    pub fn of(entry: Entry) -> PackedEntry
        requires { IsSmall entry }
        ensures { unpacked result ≡ entry }
    {
        match entry {
            Entry::Did { process, deed } => PackedEntry::of_deed(process as u32, deed),
            Entry::Grew { channel, to } => PackedEntry {
                word: to as u64,
                process: 0,
                channel: channel as u16,
                form: Form::Grew,
                is_flag: false,
            },
        }
    }

    #[inline(always)]
    fn of_deed(process: u32, deed: Deed) -> PackedEntry
        requires { IsSmall (Did process deed) }
        ensures { unpacked result ≡ Did process deed }
    {
        match deed {
            Deed::Took { channel, token } => PackedEntry {
                word: word_of(token),
                process,
                channel: channel as u16,
                form: Form::Took,
                is_flag: is_flag(token),
            },
            Deed::Put { channel, token } => PackedEntry {
                word: word_of(token),
                process,
                channel: channel as u16,
                form: Form::Put,
                is_flag: is_flag(token),
            },
            Deed::Stopped => PackedEntry {
                word: 0,
                process,
                channel: 0,
                form: Form::Stopped,
                is_flag: false,
            },
        }
    }

    /// Returns the entry that was packed.
    #[inline(always)]
    pub fn entry(self) -> Entry
        ensures { result ≡ unpacked self }
    {
        let process = self.process as usize;
        let channel = usize::from(self.channel);
        let token = token_of(self.is_flag, self.word);
        match self.form {
            Form::Took => Entry::Did {
                process,
                deed: Deed::Took { channel, token },
            },
            Form::Put => Entry::Did {
                process,
                deed: Deed::Put { channel, token },
            },
            Form::Stopped => Entry::Did {
                process,
                deed: Deed::Stopped,
            },
            Form::Grew => Entry::Grew {
                channel,
                to: self.word as usize,
            },
        }
    }
}

/// Entries in 16 bytes each.
#[derive(Drop)]
pub struct Packed {
    items: Vec<PackedEntry>,
}

impl Keeper for Packed {
    ghost entries = { λ p. map unpacked p.items.items };

    ghost room = { λ p. vec_capacity p.items };

    fn with_room(alloc: Global, count: usize) -> Result<Packed, AllocError> {
        let items = Vec::with_capacity(alloc, count)?;
        Ok(Packed { items })
    }

    fn count(&self) -> usize {
        self.items.len()
    }

    #[inline(always)]
    fn keep(&mut self, entry: Entry) {
        self.items.push_reserved(PackedEntry::of(entry));
    }
}

impl Recall for Packed {
    #[inline(always)]
    fn entry(&self, place: usize) -> Entry {
        let packed = self.items[place];
        packed.entry()
    }
}
