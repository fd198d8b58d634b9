//! Running a network on tokens that come, as they come.
use crate::host::Host;
use crate::screen::Screen;
use crate::stream_line::StreamProgress;
use crate::told::say_told;
use hox_args::StreamChoice;
use hox_execute::{Pair, StreamEnds, StreamStop, stream};
use hox_messages::{
    say_head, say_no_channel, say_no_memory, say_refused, say_stop, say_undescribed,
    say_unreadable, say_unwritten,
};
use hox_network::AllKinds;
use hox_stream::{NameFault, StreamFault};
use kpn_front::{ExitStatus, Refused};
use kpn_model::Text;
use kpn_net::NetFault;
use std::io;
use std::rt::{Clock, Files};

/// Runs the network that a file describes, or standard input: from each file of the inputs tokens come into a
/// channel as they are read, and what goes through each channel of the outputs is written to a file as it comes.
/// Returns the exit status.
pub(crate) fn stream_asked<R: Files + Input + Print + Eprint + AllocGlobal + Clock>(
    screen: &Screen<'_, R>,
    host: &Host<'_, R>,
    choice: &StreamChoice<'_>,
    line: &StreamProgress<'_, R>,
) -> u8 {
    let streamed = stream::<AllKinds, _, _>(screen.alloc(), host, choice, line);
    line.end();
    match streamed {
        Ok(streamed) => say_told(screen, &streamed, choice.quiet),
        Err(stop) => say_stream_stop(screen, stop),
    }
}

/// Says why a stream is not run, and returns the exit status.
fn say_stream_stop<R: Print + Eprint + AllocGlobal>(rt: &R, stop: StreamStop<'_>) -> u8 {
    match stop {
        StreamStop::Asked(stop) => say_stop(rt, &stop),
        StreamStop::OutputTwice => say_output_named_twice(rt),
        StreamStop::Refused {
            file,
            refused,
            error,
        } => say_description(rt, file, &refused, error),
        StreamStop::Unopened {
            ends,
            channels,
            fault,
        } => say_fault(rt, &ends, channels.as_slice(), &fault),
        StreamStop::Unread { file, error } => {
            say_unreadable(rt, file, error);
            ExitStatus::Refused.code()
        }
        StreamStop::Headless { file, fault } => {
            say_head(rt, file, fault);
            ExitStatus::Refused.code()
        }
        StreamStop::Unwritten { file, error } => {
            say_unwritten(rt, file, error);
            ExitStatus::WriteFailed.code()
        }
    }
}

/// Says that more than one stream goes to standard output, and returns the exit status.
fn say_output_named_twice<R: Eprint>(rt: &R) -> u8 {
    let _ = eprintln!(rt;
        "hox: standard output is named twice, but takes only one stream; use a file"
    );
    ExitStatus::WrongArguments.code()
}

/// Says why a description is refused, or could not be read for this reason, and returns the exit status.
fn say_description<R: Eprint + AllocGlobal>(
    rt: &R,
    file: &str,
    refused: &Refused,
    error: Option<io::Error>,
) -> u8 {
    if refused.fault == NetFault::Input {
        say_undescribed(rt, file, error);
    } else {
        say_refused(rt, file, refused);
    }
    match refused.fault {
        NetFault::Memory => ExitStatus::MemoryRefused.code(),
        _ => ExitStatus::Refused.code(),
    }
}

/// Says why the stream between these ends is not opened, in a network with these channels, and returns the exit
/// status.
fn say_fault<R: Eprint>(
    rt: &R,
    ends: &StreamEnds<'_>,
    channels: &[Text],
    fault: &StreamFault,
) -> u8 {
    match fault {
        StreamFault::Description(fault) => {
            let _ = eprintln!(rt; "hox: {fault}");
            ExitStatus::Refused.code()
        }
        StreamFault::Input(fault) => {
            say_name_fault(rt, channels, ends.inputs.as_slice(), true, fault)
        }
        StreamFault::Output(fault) => {
            say_name_fault(rt, channels, ends.outputs.as_slice(), false, fault)
        }
        StreamFault::Twice => {
            let _ = eprintln!(rt; "hox: a channel is named twice");
            ExitStatus::WrongArguments.code()
        }
        StreamFault::Memory => say_no_memory(rt),
    }
}

/// Says why the channel of one of these pairs can't be fed, or drained, and returns the exit status.
fn say_name_fault<R: Eprint>(
    rt: &R,
    channels: &[Text],
    pairs: &[Pair<'_>],
    is_fed: bool,
    fault: &NameFault,
) -> u8 {
    match fault {
        NameFault::NoChannel(k) => {
            say_no_channel(rt, name_at(pairs, *k), channels);
            ExitStatus::WrongArguments.code()
        }
        NameFault::Busy(k, process) => {
            let (name, process) = (name_at(pairs, *k), process.as_str());
            if is_fed {
                say_writer(rt, channels, name, process)
            } else {
                say_reader(rt, name, process)
            }
        }
        NameFault::Memory => say_no_memory(rt),
    }
}

/// Says that a process writes itself to the channel that should be fed, and returns the exit status. A copy at the
/// first channel of several has the name of a channel.
fn say_writer<R: Eprint>(rt: &R, channels: &[Text], name: &str, process: &str) -> u8 {
    let is_copy = process.starts_with("copy_")
        && channels.iter().any(|channel| channel.as_str() == process);
    let _ = eprint!(rt; "hox: --in {name}: process {process} writes to that channel itself; ");
    let _ = if is_copy {
        eprintln!(rt; "feed the first channel that leaves the input, for all of them")
    } else {
        eprintln!(rt; "make its kind input or input_flags")
    };
    ExitStatus::WrongArguments.code()
}

/// Says that a process reads the channel that should be drained, and returns the exit status.
fn say_reader<R: Eprint>(rt: &R, name: &str, process: &str) -> u8 {
    let _ = eprintln!(rt;
        "hox: --out {name}: process {process} reads that channel; let another channel lead from its output to a drain, drain_flags or sink, and name that"
    );
    ExitStatus::WrongArguments.code()
}

/// The name of the channel of the pair at this place.
fn name_at<'a>(pairs: &[Pair<'a>], k: usize) -> &'a str {
    match pairs.get(k) {
        Some(pair) => pair.channel,
        None => "",
    }
}
