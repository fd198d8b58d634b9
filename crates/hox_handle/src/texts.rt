//! Texts for buffers of callers: reports and messages.
ghost use Rattle.hox_handle.specs.Texts.{IsCopied};

use crate::names::names_in;
use crate::opening::SessionFault;
use hox_network::{AllKinds, KINDS, sketch_by_ports};
use hox_stream::{NameFault, StreamFault};
use kpn_message::{message_of_delayed, message_of_sketch};
use kpn_net::NetFault;
use std::alloc::{AllocError, Global};
use std::fmt::Write;

/// Copies bytes to the front of a buffer, as many as fit, and returns the number of bytes given.
pub fn copy_out(bytes: &[u8], buffer: &mut [u8]) -> usize
    ensures { IsCopied bytes.now buffer.old buffer.new result }
{
    let count = bytes.len().min(buffer.len());
    buffer[..count].copy_from_slice(&bytes[..count]);
    bytes.len()
}

/// Returns what is wrong with a description that has this fault, and where, on one line without a line feed;
/// `None` if the fault says all, or if out of memory.
pub fn message_of_fault(alloc: Global, text: &[u8], fault: NetFault) -> Option<String> {
    if matches!(fault, NetFault::Memory | NetFault::Input) {
        return None;
    }
    match sketch_by_ports::<AllKinds>(alloc, text) {
        Some(sketch) => message_of_sketch::<AllKinds>(alloc, &sketch, fault, KINDS),
        None => message_of_delayed(alloc, text),
    }
}

impl SessionFault {
    /// Returns what is wrong, on one line without a line feed, given the arguments of `open`; `None` if the
    /// number of the answer says all, or if out of memory.
    pub fn message(
        &self,
        alloc: Global,
        text: &[u8],
        inputs: &[u8],
        outputs: &[u8],
    ) -> Option<String> {
        match self {
            SessionFault::NoText => String::from_str(alloc, "the names are not UTF-8").ok(),
            SessionFault::Unopened(fault) => match fault {
                StreamFault::Description(fault) => message_of_fault(alloc, text, *fault),
                StreamFault::Input(fault) => message_of_end(alloc, &INPUT, inputs, fault),
                StreamFault::Output(fault) => message_of_end(alloc, &OUTPUT, outputs, fault),
                StreamFault::Twice => String::from_str(alloc, "a channel is named twice").ok(),
                StreamFault::Memory => None,
            },
        }
    }
}

/// What an input or an output is called, what the process at its outer end does, and the remedy.
struct EndWords {
    end: &'static str,
    does: &'static str,
    remedy: &'static str,
}

const INPUT: EndWords = EndWords {
    end: "input",
    does: "writes to that channel itself",
    remedy: "make its kind input or input_flags",
};

const OUTPUT: EndWords = EndWords {
    end: "output",
    does: "reads that channel",
    remedy: "let another channel lead from its output to a drain, and name that",
};

fn message_of_end(
    alloc: Global,
    words: &EndWords,
    names: &[u8],
    fault: &NameFault,
) -> Option<String> {
    let names = names_in(alloc, names).ok()?;
    match fault {
        NameFault::NoChannel(place) => no_channel(alloc, words, names.get(*place)?.as_str()).ok(),
        NameFault::Busy(place, process) => {
            let (name, process) = (names.get(*place)?.as_str(), process.as_str());
            busy(alloc, words, name, process).ok()
        }
        NameFault::Memory => None,
    }
}

fn no_channel(alloc: Global, words: &EndWords, name: &str) -> Result<String, AllocError> {
    let mut out = String::new(alloc);
    let end = words.end;
    write!(out, "{end} {name}: unknown channel")?;
    Ok(out)
}

fn busy(alloc: Global, words: &EndWords, name: &str, process: &str) -> Result<String, AllocError> {
    let mut out = String::new(alloc);
    let (end, does, remedy) = (words.end, words.does, words.remedy);
    write!(out, "{end} {name}: process {process} {does}; {remedy}")?;
    Ok(out)
}
