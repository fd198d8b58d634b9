//! How far a stream has come, and how full its channels are, on standard error.
use crate::progress::CLEAR;
use hox_args::StreamChoice;
use hox_stream::{Fill, Moved, Onlooker};
use std::rt::Clock;
use std::sync::atomic::{AtomicBool, AtomicU64, Ordering};
use std::time::Instant;

/// So many milliseconds go by between two looks.
const PERIOD: u64 = 500;

/// So many channels are in the table at most.
const MOST_ROWS: usize = 32;

/// A bar of a full channel, and one of an empty one.
const FULL: &str = "####################";

const EMPTY: &str = "                    ";

/// The table of channels, and below it the line of progress, each if it was asked for. On a terminal it is written
/// over the one before.
#[derive(Drop)]
pub(crate) struct StreamProgress<'a, R> {
    rt: &'a R,
    has_line: bool,
    has_table: bool,
    is_terminal: bool,
    start: Option<Instant>,
    /// From how many milliseconds after the start the next look is due.
    due: AtomicU64,
    is_written: AtomicBool,
    /// How many rows of the table stand there.
    rows: AtomicU64,
}

impl<'a, R: Clock> StreamProgress<'a, R> {
    /// What is shown of a stream that starts now.
    pub(crate) fn new(
        rt: &'a R,
        choice: &StreamChoice<'_>,
        is_terminal: bool,
    ) -> StreamProgress<'a, R> {
        StreamProgress {
            rt,
            has_line: choice.progress,
            has_table: choice.watch,
            is_terminal,
            start: Instant::now(rt).ok(),
            due: AtomicU64::new(PERIOD),
            is_written: AtomicBool::new(false),
            rows: AtomicU64::new(0),
        }
    }

    /// The milliseconds since the start; 0 if the clock can't be read.
    fn millis(&self) -> u64 {
        let Some(start) = self.start else {
            return 0;
        };
        match start.elapsed(self.rt) {
            Ok(past) => u64::try_from(past.as_millis()).unwrap_or(u64::MAX),
            Err(_) => 0,
        }
    }
}

impl<'a, R: Eprint> StreamProgress<'a, R> {
    /// Clears the line of progress, if it stands there.
    pub(crate) fn end(&self) {
        if self.has_line && self.is_written.load(Ordering::SeqCst) {
            let _ = eprint!(self.rt; "{CLEAR}");
        }
    }

    /// Goes back to the first row of the table, if one stands there on a terminal; else clears the line of progress.
    fn go_back(&self) {
        let rows = self.rows.swap(0, Ordering::SeqCst);
        if self.is_terminal && rows > 0 {
            let _ = eprint!(self.rt; "\r\x1b[{rows}A\x1b[J");
        } else {
            self.end();
        }
    }
}

/// Writes how many tokens a channel holds of how many it may.
fn show_row<R: Eprint>(rt: &R, fill: Fill<'_>) {
    let Fill {
        name,
        tokens,
        capacity,
    } = fill;
    let places = tokens.saturating_mul(FULL.len()) / capacity.max(1);
    let full = FULL.get(..places).unwrap_or(FULL);
    let empty = EMPTY.get(places..).unwrap_or_default();
    let _ = eprintln!(rt; "{name:<16} [{full}{empty}] {tokens} of {capacity}");
}

impl<'a, R: Clock + Eprint> Onlooker for StreamProgress<'a, R> {
    fn is_due(&self) -> bool {
        (self.has_line || self.has_table) && self.millis() >= self.due.load(Ordering::SeqCst)
    }

    fn see_channel(&self, number: usize, fill: Fill<'_>) {
        if !self.has_table || number >= MOST_ROWS {
            return;
        }
        if number == 0 {
            self.go_back();
        }
        show_row(self.rt, fill);
        self.rows.fetch_add(1, Ordering::SeqCst);
    }

    fn see_moved(&self, moved: Moved) {
        let millis = self.millis();
        self.due
            .store(millis.saturating_add(PERIOD), Ordering::SeqCst);
        if self.has_line {
            self.is_written.store(true, Ordering::SeqCst);
            show_moved(self.rt, moved, millis);
        }
    }
}

/// Writes the line of progress over the one before.
fn show_moved<R: Eprint>(rt: &R, moved: Moved, millis: u64) {
    let Moved { read, written } = moved;
    let seconds = millis.max(1);
    let (in_a_second, out_a_second) = (
        read.saturating_mul(1000) / seconds,
        written.saturating_mul(1000) / seconds,
    );
    let _ = eprint!(rt;
        "{CLEAR}{read} tokens in, {in_a_second} a second; {written} out, {out_a_second} a second"
    );
}
