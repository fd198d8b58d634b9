//! The columns of a table: a file of several channels.
ghost use Rattle.std.specs.Prelude.{◌≡◌, ◌≤◌, ◌++◌, OnOk, false, length, not, take};
ghost use Rattle.kpn_tokens.specs.Tables.{first_cell};
ghost use Rattle.hox_stream.specs.Lanes.{TakesIn, new_lane};
ghost use Rattle.hox_stream.specs.Ports.{are_written, clipped_of, written_of};
ghost use Rattle.hox_stream.specs.Tables.{column_of, under};

use kpn_tokens::{Cell, Decimals, Layout, Table, Token, count_misfits};
use std::alloc::{AllocError, Global};
use std::collections::VecDeque;
use std::marker::Model;

/// A column: a channel, and its tokens that wait for their rows.
#[derive(Drop)]
pub struct Lane {
    channel: usize,
    decimals: Decimals,
    layout: Layout,
    waiting: VecDeque<Token>,
    is_misfit: bool,
    tokens: u64,
    clipped: u64,
}

impl Model for Lane {
    ghost use Rattle.hox_stream.specs.Views.{LaneView};

    ghost Value = { LaneView };

    ghost view = { λ m. record { head = record { channel = m.channel; decimals = m.decimals; layout = m.layout }; waiting = m.waiting.items; is_misfit = m.is_misfit; tokens = m.tokens; clipped = m.clipped } };
}

impl Lane {
    pub(crate) fn new(alloc: Global, table: Table, channel: usize, decimals: Decimals) -> Lane
        ensures { result ≡ new_lane table channel decimals }
    {
        Lane {
            channel,
            decimals,
            layout: table.layout(decimals),
            waiting: VecDeque::new(alloc),
            is_misfit: false,
            tokens: 0,
            clipped: 0,
        }
    }

    /// Returns the number of the channel.
    pub fn channel(&self) -> usize
        ensures { result ≡ self.now.head.channel }
    {
        self.channel
    }

    /// Returns how many tokens the column took, at most `u64::MAX`. After a failed write, some may be lost.
    pub fn tokens(&self) -> u64
        ensures { result ≡ self.now.tokens }
    {
        self.tokens
    }

    /// Returns how many tokens were clipped to the nearest value that fits, at most `u64::MAX`.
    pub fn clipped(&self) -> u64
        ensures { result ≡ self.now.clipped }
    {
        self.clipped
    }

    /// Returns how many tokens wait for their rows.
    pub fn waiting(&self) -> usize
        ensures { result ≡ length self.now.waiting }
    {
        self.waiting.len()
    }

    /// Returns whether a token did not fit, and so was not taken.
    pub fn is_misfit(&self) -> bool
        ensures { result ≡ self.now.is_misfit }
    {
        self.is_misfit
    }

    /// Queues tokens for their rows, up to the first that does not fit. Errors: out of memory; some may be queued.
    pub(crate) fn take(&mut self, tokens: &[Token]) -> Result<(), AllocError>
        ensures takes { OnOk result (TakesIn self.old self.new tokens.now) }
        ensures head { self.new.head ≡ self.old.head }
    {
        if self.is_misfit {
            return Ok(());
        }
        let fitting = fitting_of(self.layout, tokens);
        have_wait(&mut self.waiting, &tokens[..fitting.tokens])?;
        self.tokens = self.tokens.saturating_add(fitting.tokens as u64);
        self.clipped = self.clipped.saturating_add(fitting.clipped as u64);
        self.is_misfit = fitting.has_misfit;
        Ok(())
    }

    /// Takes the first queued token, if any, as a cell of its row.
    pub(crate) fn pop(&mut self) -> Cell
        ensures cell { result ≡ first_cell (column_of self.old) }
        ensures left { self.new ≡ under self.old }
    {
        Cell {
            decimals: self.decimals,
            token: self.waiting.pop_front(),
        }
    }
}

/// How many tokens precede the first that does not fit and is not clipped, how many of them are clipped, and
/// whether there is such a misfit.
#[derive(Clone, Copy, Debug, PartialEq, Eq)]
struct Fitting {
    tokens: usize,
    clipped: usize,
    has_misfit: bool,
}

fn fitting_of(layout: Layout, tokens: &[Token]) -> Fitting
    ensures tokens { take result.tokens tokens.now ≡ written_of layout false tokens.now }
    ensures count { result.tokens ≡ length (written_of layout false tokens.now) }
    ensures within { result.tokens ≤ length tokens.now }
    ensures clipped { result.clipped ≡ clipped_of layout false tokens.now }
    ensures misfit { result.has_misfit ≡ not (are_written layout tokens.now) }
{
    match count_misfits(layout, tokens) {
        Ok(clipped) => Fitting {
            tokens: tokens.len(),
            clipped,
            has_misfit: false,
        },
        Err(place) => Fitting {
            tokens: place,
            clipped: 0,
            has_misfit: true,
        },
    }
}

fn have_wait(waiting: &mut VecDeque<Token>, tokens: &[Token]) -> Result<(), AllocError>
    ensures { OnOk result (waiting.new.items ≡ waiting.old.items ++ tokens.now) }
{
    for token in tokens {
        waiting.push_back(*token)?;
    }
    Ok(())
}
