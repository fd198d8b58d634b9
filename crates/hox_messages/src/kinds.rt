//! The list of the kinds of processes.
use crate::hints::{near_kind, say_near};
use crate::messages::{say_kinds, say_no_memory};
use hox_args::{FORMULA, KindsChoice};
use kpn_front::ExitStatus;
use kpn_standard::Help;
use std::alloc::{AllocError, Global};
use std::io;

/// The lines of help of the standard kinds, and of the kinds for signals.
static STANDARD: [Help; 12] = kpn_standard::HELP;

static SIGNALS: [Help; 36] = kpn_signals::HELP;

/// What stands above the table of kinds.
const HEAD: &str =
    "Kinds of processes, with their arguments and their ports, inputs -> outputs (w a word, f a flag):\n";

/// What stands below it.
const NOTES: &str = "\
Signed means two's complement: from 2^63 on, a word stands for itself minus 2^64. V of constant, hold and prefix,
K of scale and offset, A of gain, and LO and HI of clip may be negative.
A kind may be a formula, such as \"y = y + (in - y) / 8; out = y\"; hox kinds formula tells how.
";

/// The room for a kind's name and arguments in the table, but for the space between them.
const ROOM: &str = "               ";

/// Prints the table of kinds, the line of one, or how formulas are written, and returns the exit status.
pub fn list_kinds<R: Print + Eprint + AllocGlobal>(rt: &R, choice: &KindsChoice<'_>) -> u8 {
    let listed = match choice.name {
        None => table(rt.alloc()),
        Some("formula") => return status_of(print!(rt; "{FORMULA}")),
        Some(name) => match help_of(name) {
            Some(help) => line(rt.alloc(), help),
            None => return say_no_kind(rt, name),
        },
    };
    match listed {
        Ok(text) => status_of(print!(rt; "{text}")),
        Err(_) => say_no_memory(rt),
    }
}

/// The exit status after this was printed, or not.
fn status_of(printed: io::Result<()>) -> u8 {
    match printed {
        Ok(()) => ExitStatus::Success.code(),
        Err(_) => ExitStatus::WriteFailed.code(),
    }
}

/// The line of help of the kind of this name.
pub(crate) fn help_of(name: &str) -> Option<&'static Help> {
    let standard = STANDARD.iter().find(|help| help.name == name);
    standard.or_else(|| SIGNALS.iter().find(|help| help.name == name))
}

/// The table of kinds, with what stands above and below it. Errors: out of memory.
fn table(alloc: Global) -> Result<String, AllocError> {
    let mut out = String::new(alloc);
    out.push_str(HEAD)?;
    push_lines(&mut out, &STANDARD)?;
    push_lines(&mut out, &SIGNALS)?;
    out.push_str(NOTES)?;
    Ok(out)
}

/// Writes the lines of these kinds, each after two spaces. Errors: out of memory.
fn push_lines(out: &mut String, kinds: &[Help]) -> Result<(), AllocError> {
    for help in kinds {
        out.push_str("  ")?;
        push_line(out, help)?;
    }
    Ok(())
}

/// The line of a kind. Errors: out of memory.
fn line(alloc: Global, help: &Help) -> Result<String, AllocError> {
    let mut out = String::new(alloc);
    push_line(&mut out, help)?;
    Ok(out)
}

/// Writes the line of a kind: its name and arguments, its ports and what it does. Errors: out of memory.
fn push_line(out: &mut String, help: &Help) -> Result<(), AllocError> {
    let (name, arguments, ports, does) = (help.name, help.arguments, help.ports, help.does);
    let rest = ROOM.get(name.len()..).unwrap_or_default();
    let rest = rest.get(arguments.len()..).unwrap_or_default();
    write!(out, "{name} {arguments}{rest}{ports:<12}{does}\n")
}

/// Says that there is no kind of this name, and which was likely meant, and returns the exit status.
fn say_no_kind<R: Eprint>(rt: &R, name: &str) -> u8 {
    let _ = eprint!(rt; "hox: unknown kind {name:?}");
    match near_kind(name) {
        Some(near) => {
            say_near(rt, near);
            let _ = eprintln!(rt; "");
        }
        None => {
            let _ = eprintln!(rt; "");
            say_kinds(rt);
        }
    }
    ExitStatus::WrongArguments.code()
}
