//! What is said on standard error.
use crate::formats::{lines_before, record_name, say_format};
use crate::formulas::is_unknown_name;
use crate::hints::{has_wrong_delay, is_said, say_message, say_no_channel, wants_version_2};
use crate::reasons::{say_clash, say_undescribed, say_unread};
use hox_args::WordsFault;
use hox_files::reading::Asked;
use hox_files::stops::{RefusedRequest, Stop};
use hox_network::{AllKinds, Fault, FileFault, KINDS, PresetFault, Request, sketch_by_ports};
use kpn_front::{ExitStatus, Refused};
use kpn_message::{message_of_delayed, messages_of_sketch};
use kpn_model::limits::{CEILING, GREATEST_HIGH_BUDGET, HIGH_CEILING};
use kpn_net::{NetFault, Sketch, read_delayed};
use kpn_tokens::RecordFault;
use std::alloc::Global;
use std::str;

/// Says why what the arguments ask for is not done, and returns the exit status.
pub fn say_stop<R: Print + Eprint + AllocGlobal>(rt: &R, stop: &Stop<'_>) -> u8 {
    match stop {
        Stop::Words(fault) => return say_words_refused(rt, fault),
        Stop::NoPair { option, text } => say_no_pair(rt, *option, *text),
        Stop::InputTwice => say_input_named_twice(rt),
        Stop::Clash { one, other } => say_clash(rt, one, other),
        Stop::Format(stop) => say_format(rt, *stop),
        Stop::Unread { file, error } => say_unread(rt, *file, *error),
        Stop::Refused(refusal) => say_refusal(rt, refusal),
        Stop::Memory => {
            say_no_memory(rt);
        }
    }
    stop.status().code()
}

/// Says why what is asked of the network of a description is not done.
fn say_refusal<R: Eprint + AllocGlobal>(rt: &R, refusal: &RefusedRequest<'_>) {
    if is_unread(&refusal.fault) {
        say_undescribed(rt, refusal.file, refusal.error);
    } else {
        say_fault(rt, refusal.file, &refusal.asked, &refusal.fault);
    }
}

/// Whether a description could not be read, or is too long.
fn is_unread(fault: &Fault) -> bool {
    match fault {
        Fault::Description(refused) => refused.fault == NetFault::Input,
        _ => false,
    }
}

/// Says why what is asked of the network in this file is not done.
fn say_fault<R: Eprint + AllocGlobal>(rt: &R, file: &str, asked: &Asked<'_>, fault: &Fault) {
    match fault {
        Fault::Description(refused) => say_refused(rt, file, refused),
        Fault::Tokens(stop) => say_file_fault(rt, asked, *stop),
        Fault::Budget(greatest) => say_budget(rt, *greatest),
        Fault::NoHolder(..) | Fault::NoShown(..) | Fault::NoOutput(..) => {
            say_unknown(rt, &asked.request, fault);
        }
        Fault::Memory => {
            say_no_memory(rt);
        }
        Fault::Lost => {
            let _ = eprintln!(rt;
                "hox: internal error: a worker's answer was rejected; the run was abandoned"
            );
        }
    }
}

/// Says which budgets there are, to this one.
fn say_budget<R: Eprint>(rt: &R, greatest: u64) {
    let _ = eprintln!(rt;
        "hox: --budget must be 1 to {greatest}; in version 2 it may be {GREATEST_HIGH_BUDGET}"
    );
}

/// Says that no channel has the name that this fault of the request is about.
fn say_unknown<R: Eprint>(rt: &R, request: &Request, fault: &Fault) {
    let (name, channels) = match fault {
        Fault::NoHolder(file, channels) => match request.tokens.as_slice().get(*file) {
            Some(file) => (&file.channel, channels),
            None => return,
        },
        Fault::NoShown(shown, channels) => match request.show.as_slice().get(*shown) {
            Some(text) => (&text.channel, channels),
            None => return,
        },
        Fault::NoOutput(output, channels) => match request.outputs.as_slice().get(*output) {
            Some(text) => (&text.channel, channels),
            None => return,
        },
        _ => return,
    };
    say_no_channel(rt, name.as_str(), channels.as_slice());
}

/// Says all that is wrong with the description in this file, or on standard input, and whether version 2 would
/// do.
pub fn say_refused<R: Eprint + AllocGlobal>(rt: &R, file: &str, refused: &Refused) {
    let text = refused.text.as_slice();
    say_wrong(rt, file, text, refused.fault);
    if wants_version_2(rt.alloc(), text, refused.fault) {
        say_of(rt, file, "version = 2 allows it");
    }
}

/// Says all that is wrong with this text, and what would do.
fn say_wrong<R: Eprint + AllocGlobal>(rt: &R, file: &str, text: &[u8], fault: NetFault) {
    let Some(sketch) = sketch_by_ports::<AllKinds>(rt.alloc(), text) else {
        return say_fault_of(rt, file, text, fault);
    };
    let messages = messages_of_sketch::<AllKinds>(rt.alloc(), &sketch, KINDS);
    if messages.told.is_empty() {
        return say_fault_of(rt, file, text, fault);
    }
    let copies = copies_in(rt.alloc(), text, &sketch);
    for message in &messages.told {
        if is_said(message) {
            say_message(rt, file, &sketch, copies, message);
        }
    }
    if messages.more > 0 {
        say_more(rt, file, messages.more);
    }
    if has_wrong_delay(rt.alloc(), text) {
        say_of(rt, file, "a delay is 0 to 1000000");
    }
    if messages
        .told
        .iter()
        .any(|message| is_unknown_name(&sketch, message))
    {
        say_kinds(rt);
    }
}

/// How many processes of a text's sketch are copies, which the text doesn't name; 0 if out of memory.
fn copies_in(alloc: Global, text: &[u8], sketch: &Sketch) -> usize {
    match read_delayed(alloc, text) {
        Ok(own) => sketch
            .processes
            .as_slice()
            .len()
            .saturating_sub(own.sketch.processes.as_slice().len()),
        Err(_) => 0,
    }
}

/// Says how many faults more there are.
fn say_more<R: Eprint>(rt: &R, file: &str, more: u64) {
    let (place, colon) = place_of(file);
    let _ = eprintln!(rt; "hox: {place}{colon}and {more} more");
}

/// Says which kinds there are.
pub(crate) fn say_kinds<R: Eprint>(rt: &R) {
    let _ = eprintln!(rt; "hox: the kinds are {KINDS}");
}

/// Says what is wrong with this text by its fault. Where it is of a sketch that is at hand no more, since memory was
/// refused, the fault alone is said: the text by itself does not tell what `hox` takes its arguments for.
fn say_fault_of<R: Eprint + AllocGlobal>(rt: &R, file: &str, text: &[u8], fault: NetFault) {
    let message = match fault {
        NetFault::NotToml | NetFault::Keys => message_of_delayed(rt.alloc(), text),
        _ => None,
    };
    match message {
        Some(message) => say_of(rt, file, message.as_str()),
        None => say_plain(rt, file, fault),
    }
}

/// Says this of the description in this file, or on standard input.
pub(crate) fn say_of<R: Eprint>(rt: &R, file: &str, message: &str) {
    let (place, colon) = place_of(file);
    let _ = eprintln!(rt; "hox: {place}{colon}{message}");
}

/// What a message on the description in this file begins with: the file's name and a colon, or nothing for standard
/// input.
pub(crate) fn place_of(file: &str) -> (&str, &str) {
    if file == "-" { ("", "") } else { (file, ": ") }
}

/// Says the fault of the description in this file, or on standard input.
fn say_plain<R: Eprint>(rt: &R, file: &str, fault: NetFault) {
    let (place, colon) = place_of(file);
    let _ = eprintln!(rt; "hox: {place}{colon}{fault}");
}

/// Says that a text of an option names no file.
fn say_no_pair<R: Eprint>(rt: &R, option: &str, text: &str) {
    let takes = if option == "format" { "FORMAT" } else { "FILE" };
    let _ = eprintln!(rt; "hox: --{option} {text}: it takes CHANNEL={takes}");
}

/// Says that standard input is named more than once.
fn say_input_named_twice<R: Eprint>(rt: &R) {
    let _ = eprintln!(rt;
        "hox: standard input is named twice, but can be read only once; use a file"
    );
}

/// Says why a file of tokens is refused.
fn say_file_fault<R: Eprint>(rt: &R, asked: &Asked<'_>, stop: PresetFault) {
    let Some(pair) = asked.tokens.get(stop.file) else {
        return;
    };
    let file = input_name(pair.file);
    match stop.fault {
        FileFault::TooMany { most } => say_too_many(rt, file, most),
        FileFault::Record { number, fault } => {
            let text = line_in(&asked.request, stop.file, number);
            let number = lines_before(pair.format).saturating_add(number as u64);
            match record_name(pair.format) {
                "line" => say_line(rt, file, number, text, fault),
                name => say_record(rt, file, name, number, needed(fault)),
            }
        }
        FileFault::NoChannel | FileFault::Memory => {
            say_no_memory(rt);
        }
    }
}

/// Says this of a file, or of standard input or output.
fn say_of_file<R: Eprint>(rt: &R, file: &str, what: &str) {
    let _ = eprintln!(rt; "hox: {file} {what}");
}

/// Says that a file has more tokens than this, which is as many as a channel may hold.
fn say_too_many<R: Eprint>(rt: &R, file: &str, most: usize) {
    let _ = if most == CEILING as usize {
        eprintln!(rt;
            "hox: {file} has more than {most} tokens; version = 2 of the description allows {HIGH_CEILING}, and hox stream any number"
        )
    } else {
        eprintln!(rt; "hox: {file} has more than {most} tokens; hox stream takes any number")
    };
}

/// Says what is wrong with a line of a file of tokens: it repeats the line, or of a long one how it begins, where it is
/// a text.
fn say_line<R: Eprint>(rt: &R, file: &str, number: u64, line: &str, fault: RecordFault) {
    let what = needed(fault);
    if fault == RecordFault::NoText {
        let _ = eprintln!(rt; "hox: line {number} of {file} {what}");
        return;
    }
    let begin = beginning(line);
    let dots = if begin.len() < line.len() { " .." } else { "" };
    let _ = eprintln!(rt; "hox: line {number} of {file}: {begin:?}{dots} {what}");
}

/// Says what is wrong with a record of a file.
pub fn say_record<R: Eprint>(rt: &R, file: &str, name: &str, number: u64, what: &str) {
    let _ = eprintln!(rt; "hox: {name} {number} of {file} {what}");
}

/// How many bytes of a line are said at most.
const MOST_SAID: usize = 60;

/// How a line begins: as many of its characters as have [`MOST_SAID`] bytes at most.
fn beginning(line: &str) -> &str {
    line.get(..line.floor_char_boundary(MOST_SAID))
        .unwrap_or(line)
}

/// The line with this number, counted from 1, of the file of tokens at this place.
fn line_in(request: &Request, place: usize, number: usize) -> &str {
    match request.tokens.as_slice().get(place) {
        Some(file) => line_of(file.bytes.as_slice(), number),
        None => "",
    }
}

/// What a record is not, or has too much, and what would do.
pub fn needed(fault: RecordFault) -> &'static str {
    match fault {
        RecordFault::NotAWord => {
            "is not a word; write a number from -2^63 to 2^64 - 1, or hexadecimal after 0x"
        }
        RecordFault::NotAFlag => "is not a flag; write true or false",
        RecordFault::Underscore => "is not a word; leave out the _",
        RecordFault::TooPrecise => "has too many digits after the point",
        RecordFault::OutOfRange => "doesn't fit 64 bits; a word is from -2^63 to 2^64 - 1",
        RecordFault::NoText => "is not UTF-8",
        RecordFault::NoField => "has no field for the column",
        RecordFault::EmptyField => "has an empty field in the column",
        RecordFault::OpenQuote => "has a quoted field without an end",
        RecordFault::TwoRows => "has a carriage return inside; end lines with line feeds",
        RecordFault::CutShort => "ends before its last byte",
    }
}

/// The line of a file with this number, counted from 1; nothing if it is not UTF-8.
fn line_of(bytes: &[u8], number: usize) -> &str {
    let mut lines = bytes.split(|byte| *byte == b'\n');
    let line = lines.nth(number.saturating_sub(1)).unwrap_or(b"");
    str::from_utf8(line).unwrap_or("")
}

/// How a file that is read is named: `-` is standard input.
pub fn input_name(file: &str) -> &str {
    if file == "-" { "standard input" } else { file }
}

/// Says that memory was refused, and returns the exit status.
pub fn say_no_memory<R: Eprint>(rt: &R) -> u8 {
    let _ = eprintln!(rt; "hox: out of memory");
    ExitStatus::MemoryRefused.code()
}

/// Writes help to standard output, and a fault of the arguments to standard error.
pub(crate) fn say_words_refused<R: Print + Eprint>(rt: &R, fault: &WordsFault) -> u8 {
    let said = if fault.asks_for_help() {
        print!(rt; "{fault}")
    } else {
        eprint!(rt; "{fault}")
    };
    match said {
        Ok(()) => fault.status().code(),
        Err(_) => ExitStatus::WriteFailed.code(),
    }
}
