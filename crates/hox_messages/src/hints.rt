//! What is wrong with a description, and with the name of a channel, and what would do.
ghost use Rattle.std.specs.Prelude.{◌≤◌, length};

use crate::formulas::{is_formula, say_formula};
use crate::kinds::help_of;
use crate::messages::place_of;
use hox_network::{AllKinds, KINDS, sketch_by_ports};
use kpn_message::{Location, Message};
use kpn_model::Text;
use kpn_model::limits::HIGH_CEILING;
use kpn_net::faults::{is_unused_in, is_unused_out, process_named, signature_of};
use kpn_net::{ChannelSketch, Check, Delay, Net, NetFault, ProcessSketch, Sketch, read_delayed};
use kpn_standard::Help;
use std::alloc::Global;
use std::str;

/// Whether a text that is refused for this fault would not be if it were of version 2.
pub(crate) fn wants_version_2(alloc: Global, text: &[u8], fault: NetFault) -> bool {
    let Ok(text) = str::from_utf8(text) else {
        return false;
    };
    if matches!(fault, NetFault::Memory | NetFault::Input) {
        return false;
    }
    match text.replace(alloc, "version = 1", "version = 2") {
        Ok(newer) => newer.as_str() != text && !is_refused_for(alloc, newer.as_bytes(), fault),
        Err(_) => false,
    }
}

/// Whether some channel of a text has a delay for which no channel has room.
pub(crate) fn has_wrong_delay(alloc: Global, text: &[u8]) -> bool {
    match read_delayed(alloc, text) {
        Ok(own) => own.delays.as_slice().iter().any(is_wrong_delay),
        Err(_) => false,
    }
}

fn is_wrong_delay(delay: &Delay) -> bool {
    delay.tokens < 0 || delay.tokens > i64::from(HIGH_CEILING)
}

/// Whether a text is refused for this fault, or memory for telling is.
fn is_refused_for(alloc: Global, text: &[u8], fault: NetFault) -> bool {
    match fault_of(alloc, text) {
        Some(found) => found == fault || found == NetFault::Memory,
        None => false,
    }
}

/// The fault of a text, if it has one.
fn fault_of(alloc: Global, text: &[u8]) -> Option<NetFault> {
    if let Err(fault) = read_delayed(alloc, text) {
        return Some(fault);
    }
    let Some(sketch) = sketch_by_ports::<AllKinds>(alloc, text) else {
        return Some(NetFault::Memory);
    };
    let checked: Result<Net<AllKinds>, NetFault> = Net::check(alloc, &sketch);
    checked.err()
}

/// Whether a message is said. That two channels leave one output is no fault of a text: it stays in a sketch only
/// beside a fault that keeps the copies out.
pub(crate) fn is_said(message: &Message) -> bool {
    message.fault != NetFault::Twice || !message.text.as_str().contains(": output ")
}

/// Says what is wrong at a place of a sketch, in which so many processes are copies, and what would do.
pub(crate) fn say_message<R: Eprint + AllocGlobal>(
    rt: &R,
    file: &str,
    sketch: &Sketch,
    copies: usize,
    message: &Message,
) {
    let (place, colon) = place_of(file);
    let _ = eprint!(rt; "hox: {place}{colon}");
    match message.place {
        Location::Process(p) => match sketch.processes.as_slice().get(p) {
            Some(process) => say_of_process(rt, sketch, process, message),
            None => say_part(rt, "", message.text.as_str()),
        },
        Location::Channel(c) => match sketch.channels.as_slice().get(c) {
            Some(channel) => say_of_channel(rt, sketch, channel, message),
            None => say_part(rt, "", message.text.as_str()),
        },
        Location::Description => say_of_description(rt, copies, message),
    }
    let _ = eprintln!(rt; "");
}

/// Says what is wrong with a description as a whole.
fn say_of_description<R: Eprint>(rt: &R, copies: usize, message: &Message) {
    say_part(rt, "", message.text.as_str());
    if message.fault == NetFault::Counts && copies > 0 {
        let _ = eprint!(rt;
            "; each channel after the first of an output adds a process and a channel, here {copies}"
        );
    }
}

/// Says what is wrong with a process, and what would do.
fn say_of_process<R: Eprint + AllocGlobal>(
    rt: &R,
    sketch: &Sketch,
    process: &ProcessSketch,
    message: &Message,
) {
    let text = message.text.as_str();
    match message.fault {
        NetFault::Kind if is_formula(process.kind.as_str()) => say_formula(rt, process),
        NetFault::Kind => say_unknown_kind(rt, process),
        NetFault::Args => say_arguments(rt, process, text),
        NetFault::Unused => {
            say_part(rt, "", text);
            say_user(rt, sketch, process);
        }
        _ => say_part(rt, "", text),
    }
}

/// Says that the kind of a process is unknown, and which was likely meant.
fn say_unknown_kind<R: Eprint>(rt: &R, process: &ProcessSketch) {
    let (name, kind) = (process.name.as_str(), process.kind.as_str());
    let _ = eprint!(rt; "process {name:?}: unknown kind {kind:?}");
    if let Some(near) = near_kind(kind) {
        say_near(rt, near);
    }
}

/// The kind that was likely meant by a name, if one was.
pub(crate) fn near_kind(name: &str) -> Option<&'static str> {
    let mut kinds = KINDS
        .split_whitespace()
        .map(|kind| kind.trim_end_matches(','));
    kinds.find(|other| is_near(name.as_bytes(), other.as_bytes()))
}

/// Says this of the arguments of a process, and which its kind takes.
fn say_arguments<R: Eprint>(rt: &R, process: &ProcessSketch, text: &str) {
    if let ("clip", [low, high]) = (process.kind.as_str(), process.args.as_slice()) {
        if *low > *high {
            return say_turned(rt, process.name.as_str(), *low, *high);
        }
    }
    say_part(rt, "", text);
    if let Some(help) = help_of(process.kind.as_str()) {
        say_use(rt, help);
    }
}

/// Says that these bounds of a process likely stand the other way round.
fn say_turned<R: Eprint>(rt: &R, name: &str, low: i64, high: i64) {
    let _ = eprint!(rt;
        "process {name:?}: kind \"clip\" does not take args [{low}, {high}]; did you mean [{high}, {low}]?"
    );
}

/// Says how a kind is used: its name with its arguments, and what it does.
fn say_use<R: Eprint>(rt: &R, help: &Help) {
    let (name, arguments, does) = (help.name, help.arguments, help.does);
    let space = if arguments.is_empty() { "" } else { " " };
    let _ = eprint!(rt; "; {name}{space}{arguments}: {does}");
}

/// Says what could be at the first port of a process that is the end of no channel.
fn say_user<R: Eprint>(rt: &R, sketch: &Sketch, process: &ProcessSketch) {
    let Some(signature) = signature_of::<AllKinds>(process) else {
        return;
    };
    let name = process.name.as_str();
    for port in 0..3 {
        if is_unused_in::<AllKinds>(sketch, name, &signature, port) {
            return say_part(rt, "; ", "connect a channel to it");
        }
        if is_unused_out::<AllKinds>(sketch, name, &signature, port) {
            return say_part(rt, "; ", "connect it to a drain");
        }
    }
}

/// Says what is wrong with a channel, and what would do.
fn say_of_channel<R: Eprint>(rt: &R, sketch: &Sketch, channel: &ChannelSketch, message: &Message) {
    let (name, from, to) = (
        channel.name.as_str(),
        channel.from.as_str(),
        channel.to.as_str(),
    );
    if message.fault == NetFault::NoEnd {
        let processes = sketch.processes.as_slice();
        if process_named(processes, from).is_none() {
            return say_unknown_process(rt, processes, name, "from", from);
        }
        if process_named(processes, to).is_none() {
            return say_unknown_process(rt, processes, name, "to", to);
        }
    }
    say_part(rt, "", message.text.as_str());
    if message.fault == NetFault::Twice {
        say_part(
            rt,
            "; ",
            "use an add, merge, select or weave to read two channels",
        );
    }
}

/// Says that a channel ends at a process that there is not, and which was likely meant.
fn say_unknown_process<R: Eprint>(
    rt: &R,
    processes: &[ProcessSketch],
    channel: &str,
    key: &str,
    name: &str,
) {
    let _ = eprint!(rt; "channel {channel:?}: {key}: unknown process {name:?}");
    let near = processes.iter().find(|other| is_near(
        name.as_bytes(),
        other.name.as_str().as_bytes(),
    ));
    if let Some(process) = near {
        say_near(rt, process.name.as_str());
    }
}

/// How many channels are named at most where none was likely meant.
const MOST_NAMED: usize = 8;

/// Says that a channel is unknown, and which of these channels was likely meant, or if none was, which there
/// are, where they are few.
pub fn say_no_channel<R: Eprint>(rt: &R, name: &str, channels: &[Text]) {
    let _ = eprint!(rt; "hox: unknown channel {name:?}");
    match channels
        .iter()
        .find(|channel| is_meant(name, channel.as_str()))
    {
        Some(channel) => say_near(rt, channel.as_str()),
        None => say_channels(rt, channels),
    }
    let _ = eprintln!(rt; "");
}

/// Whether a channel was likely meant by a name: if only their case differs, or one is near the other. Of two
/// names of one letter neither is meant by the other.
fn is_meant(name: &str, channel: &str) -> bool {
    name.eq_ignore_ascii_case(channel)
        || (name.len() > 1 || channel.len() > 1) && is_near(name.as_bytes(), channel.as_bytes())
}

/// Says which channels there are, where they are few.
fn say_channels<R: Eprint>(rt: &R, channels: &[Text]) {
    if channels.len() > MOST_NAMED {
        return;
    }
    for (c, channel) in channels.iter().enumerate() {
        let before = match channels.len() - c {
            1 if c == 0 => "; the channel is ",
            _ if c == 0 => "; the channels are ",
            1 => " and ",
            _ => ", ",
        };
        say_part(rt, before, channel.as_str());
    }
}

/// Says this after these words.
fn say_part<R: Eprint>(rt: &R, before: &str, text: &str) {
    let _ = eprint!(rt; "{before}{text}");
}

/// Says which name was likely meant.
pub(crate) fn say_near<R: Eprint>(rt: &R, near: &str) {
    let _ = eprint!(rt; "; did you mean {near:?}?");
}

/// Whether one name becomes the other when a letter is put in, left out or changed, or two neighbours change
/// places.
fn is_near(name: &[u8], other: &[u8]) -> bool {
    let front = common_front(name, other);
    let (a, b) = (&name[front..], &other[front..]);
    match (a, b) {
        ([], rest) | (rest, []) => rest.len() <= 1,
        ([x, xs @ ..], [y, ys @ ..]) => {
            xs == ys || xs == b || a == ys || is_turned(*x, xs, *y, ys)
        }
    }
}

/// Whether the first two bytes have changed places, and the others are the same.
fn is_turned(x: u8, xs: &[u8], y: u8, ys: &[u8]) -> bool {
    match (xs, ys) {
        ([p, ps @ ..], [q, qs @ ..]) => x == *q && y == *p && ps == qs,
        _ => false,
    }
}

/// How many bytes at the front are the same.
fn common_front(a: &[u8], b: &[u8]) -> usize
    ensures { (result ≤ length a.now) × (result ≤ length b.now) }
{
    let mut front = 0;
    while front < a.len() && front < b.len() && a[front] == b[front] {
        front += 1;
    }
    front
}
