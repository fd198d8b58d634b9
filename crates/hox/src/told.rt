//! What is told of a run or a stream that ended.
use crate::unused::say_unused_by_stream;
use hox_execute::{FileNote, Pair, StreamEnds, Streamed};
use hox_messages::{
    Failing, Written, all_written, failure_at, input_name, lines_before, needed, record_name,
    say_all_clipped, say_apart, say_clipped, say_misfit, say_no_memory, say_output_unwritten,
    say_record, say_token, say_unreadable,
};
use hox_stream::{EndedStream, Inlet, LONGEST_RECORD, Refusal, StreamFinish};
use kpn_body::Body;
use kpn_compute::Computes;
use kpn_flow::Flow;
use kpn_flow_verdict::{Judged, judge};
use kpn_front::{ExitStatus, Sink, Source};
use kpn_model::{End, Verdict};
use std::alloc::{AllocError, Global};
use std::io;

/// Says on standard error how a stream ended and, unless it is not wanted, what was read and written. Returns the exit
/// status. What was left unused is said anyhow, but nothing where the reader of a pipe is gone.
pub(crate) fn say_told<
    R: Eprint + AllocGlobal,
    F: Computes,
    I: Source + Failing,
    O: Sink + Failing,
>(rt: &R, streamed: &Streamed<'_, F, I, O>, is_quiet: bool) -> u8 {
    let (ends, served) = (&streamed.ends, &streamed.served);
    if is_reader_gone(served) {
        return ExitStatus::WriteFailed.code();
    }
    match all_written(rt.alloc(), served) {
        Ok(written) => say_counted(rt, ends, served, written.as_slice(), is_quiet),
        Err(_) => {
            let _ = say_no_memory(rt);
        }
    }
    say_fault(rt, ends, served);
    let status = say_verdict(rt, served, is_quiet);
    say_unused_by_stream(rt, streamed);
    status
}

/// Says of each file of a run's streams which token does not fit, and how many were clipped.
pub(crate) fn say_files<R: Eprint>(rt: &R, outputs: &[Pair<'_>], files: &[FileNote]) {
    for (pair, file) in outputs.iter().zip(files) {
        say_clipped(rt, pair, file.clipped as u64);
        if file.is_misfit {
            say_misfit(rt, pair, (file.tokens as u64).saturating_add(1));
        }
    }
}

/// Says the verdict on how a stream left its network, unless it is not wanted, and returns the exit status.
fn say_verdict<R: Eprint + AllocGlobal, F: Computes, I: Source, O: Sink>(
    rt: &R,
    served: &EndedStream<F, I, O>,
    is_quiet: bool,
) -> u8 {
    match judged(rt.alloc(), &served.flow, served.finish) {
        Ok(Judged { verdict, text }) => {
            if !is_quiet {
                let _ = eprint!(rt; "{text}");
            }
            served.finish.status(verdict).code()
        }
        Err(_) => say_no_memory(rt),
    }
}

/// Says what was read and written, unless it is not wanted; and for how many tokens the nearest that fits.
fn say_counted<R: Eprint, F: Computes, I: Source, O: Sink>(
    rt: &R,
    ends: &StreamEnds<'_>,
    served: &EndedStream<F, I, O>,
    written: &[Written],
    is_quiet: bool,
) {
    if !is_quiet {
        say_counts(rt, ends, served, written);
    }
    say_all_clipped(rt, ends.outputs.as_slice(), written);
}

/// Says what was read and written.
fn say_counts<R: Eprint, F: Computes, I: Source, O: Sink>(
    rt: &R,
    ends: &StreamEnds<'_>,
    served: &EndedStream<F, I, O>,
    written: &[Written],
) {
    say_read(rt, ends.inputs.as_slice(), served.inlets.as_slice());
    say_written(rt, ends.outputs.as_slice(), written);
    let (entries, growths) = (served.flow.entries(), served.flow.growths());
    let _ = eprintln!(rt; "entries {entries} growths {growths}");
}

/// Says how many tokens were read for each input.
fn say_read<R: Eprint, I: Source>(rt: &R, inputs: &[Pair<'_>], inlets: &[Inlet<I>]) {
    for (pair, inlet) in inputs.iter().zip(inlets) {
        say_count(rt, "in", pair.channel, inlet.tokens());
    }
}

/// Says how many tokens were written of each output.
fn say_written<R: Eprint>(rt: &R, outputs: &[Pair<'_>], written: &[Written]) {
    for (pair, written) in outputs.iter().zip(written) {
        say_count(rt, "out", pair.channel, written.tokens);
    }
}

/// Says how many tokens went in by a channel, or out.
fn say_count<R: Eprint>(rt: &R, way: &str, channel: &str, tokens: u64) {
    let _ = eprintln!(rt; "{way} {channel} tokens {tokens}");
}

/// The verdict on how a stream left its network, and its text; of a stream that something else ended the text
/// is empty.
fn judged<B: Body>(
    alloc: Global,
    flow: &Flow<B>,
    finish: StreamFinish,
) -> Result<Judged, AllocError> {
    let end = match finish {
        StreamFinish::Over(end) => end,
        StreamFinish::Idle => End::Deadlock,
        _ => {
            return Ok(Judged {
                verdict: Verdict::Cut,
                text: String::new(alloc),
            });
        }
    };
    judge(alloc, flow, end)
}

/// Whether a stream ended since the reader of a pipe to which it is written is gone.
fn is_reader_gone<F: Computes, I: Source, O: Sink + Failing>(
    served: &EndedStream<F, I, O>,
) -> bool {
    match served.finish {
        StreamFinish::Unwritten(k) => match failure_at(served, k) {
            Some(error) => error.kind() == io::ErrorKind::BrokenPipe,
            None => false,
        },
        _ => false,
    }
}

/// Says what ended a stream before the network came to its end, if something did.
fn say_fault<R: Eprint + AllocGlobal, F: Computes, I: Source + Failing, O: Sink + Failing>(
    rt: &R,
    ends: &StreamEnds<'_>,
    served: &EndedStream<F, I, O>,
) {
    let (inlets, outputs) = (served.inlets.as_slice(), ends.outputs.as_slice());
    match served.finish {
        StreamFinish::Refused(k, refusal) => say_refused_record(
            rt,
            ends.inputs.as_slice(),
            inlets,
            k,
            refusal,
        ),
        StreamFinish::Unread(k) => say_input_unread(rt, ends.inputs.as_slice(), inlets, k),
        StreamFinish::Unwritten(k) => say_output_unwritten(rt, outputs, served, k),
        StreamFinish::Misfit(k) => say_token(rt, outputs, served, k),
        StreamFinish::Apart(k) => say_apart(rt, outputs, served, k),
        StreamFinish::Memory => {
            let _ = say_no_memory(rt);
        }
        _ => {}
    }
}

/// Says why the source at this place could not be read.
fn say_input_unread<R: Eprint + AllocGlobal, I: Source + Failing>(
    rt: &R,
    inputs: &[Pair<'_>],
    inlets: &[Inlet<I>],
    k: usize,
) {
    let (Some(pair), Some(inlet)) = (inputs.get(k), inlets.get(k)) else {
        return;
    };
    match inlet.source().error() {
        Some(error) => say_unreadable(rt, pair.file, error),
        None => {}
    }
}

/// Says which record of a source is refused, and what would do.
fn say_refused_record<R: Eprint, I: Source>(
    rt: &R,
    inputs: &[Pair<'_>],
    inlets: &[Inlet<I>],
    k: usize,
    refusal: Refusal,
) {
    let (Some(pair), Some(inlet)) = (inputs.get(k), inlets.get(k)) else {
        return;
    };
    let file = input_name(pair.file);
    let before = lines_before(pair.format);
    let number = before.saturating_add(inlet.records()).saturating_add(1);
    let name = record_name(pair.format);
    match refusal {
        Refusal::Fault(fault) => say_record(rt, file, name, number, needed(fault)),
        Refusal::TooLong => say_record_is_long(rt, file, name, number),
    }
}

/// Says that a record of a file is longer than one may be.
fn say_record_is_long<R: Eprint>(rt: &R, file: &str, name: &str, number: u64) {
    let _ = eprintln!(rt; "hox: {name} {number} of {file} has more than {LONGEST_RECORD} bytes");
}
