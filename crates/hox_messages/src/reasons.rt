//! Why files can't be read, written, or used beside each other, on standard error.
use crate::messages::{input_name, say_no_memory};
use hox_files::reading::ReadError;
use hox_files::uses::{Role, Use};
use hox_network::LONGEST_FILE;
use kpn_model::limits::LONGEST_TEXT;
use std::io;

/// How a file that is written is named: `-` is standard output.
pub(crate) fn output_name(file: &str) -> &str {
    if file == "-" { "standard output" } else { file }
}

/// Says why a file of tokens could not be read.
pub(crate) fn say_unread<R: Eprint + AllocGlobal>(rt: &R, file: &str, error: ReadError) {
    match error {
        ReadError::Failed(error) => say_unreadable(rt, file, error),
        ReadError::TooLong => say_too_long(rt, file, LONGEST_FILE),
        ReadError::Memory => {
            say_no_memory(rt);
        }
    }
}

/// Says why a file could not be read, as the system does.
pub fn say_unreadable<R: Eprint + AllocGlobal>(rt: &R, file: &str, error: io::Error) {
    say_why(rt, "read", input_name(file), error);
}

/// Says why a file, or standard output, could not be written, as the system does.
pub fn say_unwritten<R: Eprint + AllocGlobal>(rt: &R, file: &str, error: io::Error) {
    say_why(rt, "write", output_name(file), error);
}

/// Says why a description could not be read: for this reason of the system's, or since it is too long.
pub fn say_undescribed<R: Eprint + AllocGlobal>(rt: &R, file: &str, error: Option<io::Error>) {
    match error {
        Some(error) => say_unreadable(rt, file, error),
        None => say_too_long(rt, file, LONGEST_TEXT),
    }
}

/// Says what can't be done with a file, and why.
fn say_why<R: Eprint + AllocGlobal>(rt: &R, what: &str, file: &str, error: io::Error) {
    match format!(in rt.alloc(); "{error}") {
        Ok(text) => say_reason(rt, what, file, reason_in(text.as_str())),
        Err(_) => {
            say_no_memory(rt);
        }
    }
}

/// Says what failed with a file, and why, in these words.
fn say_reason<R: Eprint>(rt: &R, what: &str, file: &str, reason: &str) {
    let _ = eprintln!(rt; "hox: can't {what} {file}: {reason}");
}

/// The words of the system's reason, without its number.
fn reason_in(text: &str) -> &str {
    match text.split_once(" (os error ") {
        Some((reason, _)) => reason,
        None => text,
    }
}

/// Says that a file is longer than it may be.
fn say_too_long<R: Eprint>(rt: &R, file: &str, longest: usize) {
    let file = input_name(file);
    let _ = eprintln!(rt; "hox: {file} has more than {longest} bytes");
}

/// Says which two uses of files can't stand beside each other, and what would do.
pub(crate) fn say_clash<R: Eprint>(rt: &R, one: &Use<'_>, other: &Use<'_>) {
    say_use(rt, "hox: ", one);
    say_use(rt, " and ", other);
    let why = if one.role.is_written() || other.role.is_written() {
        "are the same file; write to another"
    } else if one.role.gives_tokens() && one.channel == other.channel {
        "are for the same channel; name one file"
    } else {
        "are the same source, which can be read only once; use a file"
    };
    let _ = eprintln!(rt; " {why}");
}

/// Says what a file is used for, after these words.
fn say_use<R: Eprint>(rt: &R, before: &str, used: &Use<'_>) {
    let (channel, file) = (used.channel, used.file);
    let _ = match used.role {
        Role::Description if file == "-" => {
            eprint!(rt; "{before}the description on standard input")
        }
        Role::Description => eprint!(rt; "{before}the description {file}"),
        Role::Tokens => eprint!(rt; "{before}--tokens {channel}={file}"),
        Role::In => eprint!(rt; "{before}--in {channel}={file}"),
        Role::Out => eprint!(rt; "{before}--out {channel}={file}"),
        Role::Report => eprint!(rt; "{before}the report on standard output"),
    };
}
