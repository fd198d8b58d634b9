//! Checks and runs Kahn process networks described on standard input.
#![tactic(auto)]

use kpn_args::WordsFault;
use kpn_execute::{Served, serve};
use kpn_front::{ExitStatus, Fallible};
use std::process::ExitCode;
use std::rt::{Clock, Env};
use std::sync::Wait;
use std::thread::Threads;
use std::{env, io};

fn main(rt: HostRuntime) -> ExitCode {
    ExitCode::from(status_of(&rt))
}

fn status_of<R: Env + Input + Print + Eprint + AllocGlobal + Wait + Clock + Threads + Sync>(
    rt: &R,
) -> u8 {
    let Ok(arguments) = arguments_of(rt) else {
        return say_no_memory(rt);
    };
    let Ok(texts) = texts_of(rt, &arguments) else {
        return say_no_memory(rt);
    };
    let mut source = Fallible::new(rt.reader());
    let mut sink = Fallible::new(io::writer(rt));
    match serve(rt, rt.alloc(), texts.as_slice(), &mut source, &mut sink) {
        Ok(served) => {
            say_why(rt, &served);
            served.status
        }
        Err(fault) => {
            let status = say_words_refused(rt, &fault);
            if !fault.asks_for_help() {
                say_where_it_reads(rt, texts.as_slice());
            }
            status
        }
    }
}

/// Writes to standard error why a description was refused.
fn say_why<R: Eprint>(rt: &R, served: &Served) {
    let _ = match (&served.message, served.fault) {
        (Some(message), _) => eprintln!(rt; "kpn: {message}"),
        (None, Some(fault)) => eprintln!(rt; "kpn: {fault}"),
        (None, None) => Ok(()),
    };
}

/// Writes to standard error that the description comes from standard input, if an argument seems to name a
/// file: the first after the subcommand that is neither an option nor an option's value.
fn say_where_it_reads<R: Eprint>(rt: &R, texts: &[&str]) {
    let Some(command) = texts.get(1) else {
        return;
    };
    let mut is_value = false;
    for text in texts.iter().skip(2) {
        if !text.starts_with('-') && !is_value {
            say_input(rt, *command, *text);
            return;
        }
        is_value = matches!(*text, "--workers" | "--show");
    }
}

fn say_input<R: Eprint>(rt: &R, command: &str, file: &str) {
    let _ = eprintln!(rt;
        "\nkpn reads the description from standard input:\n  kpn {command} < {file}"
    );
}

fn say_no_memory<R: Eprint>(rt: &R) -> u8 {
    let _ = eprintln!(rt; "kpn: out of memory while reading the arguments");
    ExitStatus::WrongArguments.code()
}

/// Returns the arguments; the first is the program's name.
fn arguments_of<R: Env + AllocGlobal>(rt: &R) -> io::Result<Vec<String>> {
    let arguments: Vec<String> = env::args(rt)?.collect(rt.alloc())?;
    Ok(arguments)
}

fn texts_of<'a>(rt: &impl AllocGlobal, arguments: &'a Vec<String>) -> io::Result<Vec<&'a str>> {
    let mut texts = Vec::with_capacity(rt.alloc(), arguments.len())?;
    for argument in arguments {
        texts.push(argument.as_str())?;
    }
    Ok(texts)
}

/// Writes help to standard output, and a fault of the arguments to standard error. Returns the exit status.
fn say_words_refused<R: Print + Eprint>(rt: &R, fault: &WordsFault) -> u8 {
    let said = if fault.asks_for_help() {
        print!(rt; "{fault}")
    } else {
        eprint!(rt; "{fault}")
    };
    match said {
        Ok(()) => fault.status().code(),
        Err(_) => ExitStatus::WriteFailed.code(),
    }
}
