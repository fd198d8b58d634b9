//! What is told of the files to which a stream was written.
use crate::failing::Failing;
use crate::formats::{say_clipped, say_misfit};
use crate::messages::say_no_memory;
use crate::reasons::{output_name, say_unwritten};
use hox_files::pairs::Pair;
use hox_stream::{EndedStream, MOST_AHEAD, TableOutlet};
use kpn_compute::Computes;
use kpn_front::{Sink, Source};
use std::alloc::{AllocError, Global};
use std::io;

/// What was written of a channel: so many tokens, and for so many of them the nearest that fits.
#[derive(Clone, Copy)]
pub struct Written {
    pub tokens: u64,
    pub clipped: u64,
}

/// What was written of each output, in order: files of one channel, and then the columns of those of several.
pub fn all_written<F: Computes, I: Source, O: Sink>(
    alloc: Global,
    served: &EndedStream<F, I, O>,
) -> Result<Vec<Written>, AllocError> {
    let mut written = Vec::new(alloc);
    for outlet in &served.outlets {
        written.push(Written {
            tokens: outlet.tokens(),
            clipped: outlet.clipped(),
        })?;
    }
    for table in &served.tables {
        push_columns(&mut written, table)?;
    }
    Ok(written)
}

/// Appends what was written of each column of a table.
fn push_columns<O: Sink>(
    written: &mut Vec<Written>,
    table: &TableOutlet<O>,
) -> Result<(), AllocError> {
    for lane in table.lanes() {
        written.push(Written {
            tokens: lane.tokens(),
            clipped: lane.clipped(),
        })?;
    }
    Ok(())
}

/// Says of each output how many tokens were written as the nearest that fits.
pub fn say_all_clipped<R: Eprint>(rt: &R, outputs: &[Pair<'_>], written: &[Written]) {
    for (pair, written) in outputs.iter().zip(written) {
        say_clipped(rt, pair, written.clipped);
    }
}

/// The first of the outputs that go to the file of this number, counted from 0.
fn first_of<'a, 'b>(outputs: &'b [Pair<'a>], k: usize) -> Option<&'b Pair<'a>> {
    outputs.iter().filter(|pair| pair.place == 0).nth(k)
}

/// The output at a place of the file of this number.
fn output_at<'a, 'b>(outputs: &'b [Pair<'a>], k: usize, place: usize) -> Option<&'b Pair<'a>> {
    let first = first_of(outputs, k)?;
    outputs
        .iter()
        .find(|pair| pair.file == first.file && pair.place == place)
}

/// The table among the files, of which this one has this number.
fn table_at<F: Computes, I: Source, O: Sink>(
    served: &EndedStream<F, I, O>,
    k: usize,
) -> Option<&TableOutlet<O>> {
    let place = k.checked_sub(served.outlets.len())?;
    served.tables.as_slice().get(place)
}

/// Why the file of this number could not be written.
pub fn failure_at<F: Computes, I: Source, O: Sink + Failing>(
    served: &EndedStream<F, I, O>,
    k: usize,
) -> Option<io::Error> {
    match served.outlets.as_slice().get(k) {
        Some(outlet) => outlet.sink().error(),
        None => table_at(served, k)?.sink().error(),
    }
}

/// Says why the file of this number could not be written; if memory was refused for that, that it was.
pub fn say_output_unwritten<R: Eprint + AllocGlobal, F: Computes, I: Source, O: Sink + Failing>(
    rt: &R,
    outputs: &[Pair<'_>],
    served: &EndedStream<F, I, O>,
    k: usize,
) {
    let Some(pair) = first_of(outputs, k) else {
        return;
    };
    match failure_at(served, k) {
        Some(error) => say_unwritten(rt, pair.file, error),
        None => {
            let _ = say_no_memory(rt);
        }
    }
}

/// Says which token of a channel does not fit the file of this number.
pub fn say_token<R: Eprint, F: Computes, I: Source, O: Sink>(
    rt: &R,
    outputs: &[Pair<'_>],
    served: &EndedStream<F, I, O>,
    k: usize,
) {
    if let (Some(pair), Some(outlet)) = (first_of(outputs, k), served.outlets.as_slice().get(k)) {
        say_misfit(rt, pair, outlet.tokens().saturating_add(1));
    }
    let Some(table) = table_at(served, k) else {
        return;
    };
    for (place, lane) in table.lanes().iter().enumerate() {
        if lane.is_misfit() {
            say_misfit_at(rt, output_at(outputs, k, place), lane.tokens());
        }
    }
}

/// Says that the token after so many of a channel does not fit its file.
fn say_misfit_at<R: Eprint>(rt: &R, pair: Option<&Pair<'_>>, tokens: u64) {
    if let Some(pair) = pair {
        say_misfit(rt, pair, tokens.saturating_add(1));
    }
}

/// Says of which channel of the file of this number too many tokens wait for those of another one, and what would do.
pub fn say_apart<R: Eprint, F: Computes, I: Source, O: Sink>(
    rt: &R,
    outputs: &[Pair<'_>],
    served: &EndedStream<F, I, O>,
    k: usize,
) {
    let Some(table) = table_at(served, k) else {
        return;
    };
    for (place, lane) in table.lanes().iter().enumerate() {
        if lane.waiting() > MOST_AHEAD {
            say_apart_at(rt, output_at(outputs, k, place));
        }
    }
}

/// Says that too many tokens of a channel wait for those of another one of its file.
fn say_apart_at<R: Eprint>(rt: &R, pair: Option<&Pair<'_>>) {
    if let Some(pair) = pair {
        let (channel, file) = (pair.channel, output_name(pair.file));
        let _ = eprintln!(rt;
            "hox: channel {channel}: more than {MOST_AHEAD} of its tokens wait for the other columns of {file}; write it to its own file"
        );
    }
}
