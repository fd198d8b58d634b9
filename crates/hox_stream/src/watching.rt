//! Sees how a stream goes.
use crate::inlet::Inlet;
use crate::outlet::Outlet;
use crate::table::TableOutlet;
use crate::telling::Outs;
use kpn_body::Body;
use kpn_flow::Flow;
use kpn_front::{Sink, Source};

/// How many tokens a stream has read from its sources, and written to its sinks, so far.
#[derive(Clone, Copy, Debug, PartialEq, Eq)]
pub struct Moved {
    pub read: u64,
    pub written: u64,
}

/// How full a channel is: its name, how many tokens it holds, and its capacity.
#[derive(Clone, Copy, Debug)]
pub struct Fill<'a> {
    pub name: &'a str,
    pub tokens: usize,
    pub capacity: usize,
}

/// Sees how a stream goes, whose result doesn't depend on it.
///
/// ```text
/// impl<'a, R: Clock + Eprint> Onlooker for StreamProgress<'a, R> {
///     fn is_due(&self) -> bool {
///         (self.has_line || self.has_table) && self.millis() >= self.due.load(Ordering::SeqCst)
///     }
/// }
/// ```
pub trait Onlooker {
    /// Whether it is time to look. The stream asks this after each of its turns, which take some milliseconds.
    fn is_due(&self) -> bool;

    /// Sees a channel, one after the other, when it is time, and at the end.
    fn see_channel(&self, number: usize, fill: Fill<'_>);

    /// Sees how many tokens came and went, after the channels.
    fn see_moved(&self, moved: Moved);
}

/// An onlooker that never looks.
pub struct NoOnlooker;

impl Onlooker for NoOnlooker {
    fn is_due(&self) -> bool {
        false
    }

    fn see_channel(&self, _number: usize, _fill: Fill<'_>) {}

    fn see_moved(&self, _moved: Moved) {}
}

/// Has the onlooker see a stream, if it is time.
pub(crate) fn show_if_due<B: Body, I: Source, O: Sink, L: Onlooker>(
    flow: &Flow<B>,
    inlets: &[Inlet<I>],
    outs: &Outs<O>,
    onlooker: &L,
) {
    if onlooker.is_due() {
        show(flow, inlets, outs, onlooker);
    }
}

/// Has the onlooker see a stream.
pub(crate) fn show<B: Body, I: Source, O: Sink, L: Onlooker>(
    flow: &Flow<B>,
    inlets: &[Inlet<I>],
    outs: &Outs<O>,
    onlooker: &L,
) {
    show_channels(flow, onlooker);
    onlooker.see_moved(Moved {
        read: read_tokens(inlets),
        written: written_tokens(outs),
    });
}

fn show_channels<B: Body, L: Onlooker>(flow: &Flow<B>, onlooker: &L) {
    for number in 0..flow.net().channels() {
        let (tokens, capacity) = flow.tokens_and_capacity(number);
        let name = flow.net().channel_name(number);
        onlooker.see_channel(
            number,
            Fill {
                name,
                tokens,
                capacity,
            },
        );
    }
}

fn read_tokens<I: Source>(inlets: &[Inlet<I>]) -> u64 {
    let mut tokens: u64 = 0;
    for inlet in inlets {
        tokens = tokens.saturating_add(inlet.tokens());
    }
    tokens
}

fn written_tokens<O: Sink>(outs: &Outs<O>) -> u64 {
    let sinks = tokens_to_sinks(outs.sinks.as_slice());
    sinks.saturating_add(tokens_to_tables(outs.tables.as_slice()))
}

fn tokens_to_sinks<O: Sink>(outlets: &[Outlet<O>]) -> u64 {
    let mut tokens: u64 = 0;
    for outlet in outlets {
        tokens = tokens.saturating_add(outlet.tokens());
    }
    tokens
}

fn tokens_to_tables<O: Sink>(tables: &[TableOutlet<O>]) -> u64 {
    let mut tokens: u64 = 0;
    for table in tables {
        tokens = tokens.saturating_add(tokens_to(table));
    }
    tokens
}

fn tokens_to<O: Sink>(table: &TableOutlet<O>) -> u64 {
    let mut tokens: u64 = 0;
    for lane in table.lanes() {
        tokens = tokens.saturating_add(lane.tokens());
    }
    tokens
}
