//! Messages about processes.
use crate::quoted::Quoted;
use kpn_net::faults::{is_name, is_unused_in, is_unused_out, signature_of};
use kpn_net::{Kinds, NetFault, ProcessSketch, Sketch};
use std::alloc::AllocError;
use std::fmt::Write;

/// The form of a name.
pub(crate) const NAME_FORM: &str =
    "a name has 1 to 16 of a to z, 0 to 9 and _, and begins with a letter";

/// Appends what is wrong with a process that has the fault.
pub(crate) fn push_process<K: Kinds>(
    out: &mut String,
    sketch: &Sketch,
    process: &ProcessSketch,
    fault: NetFault,
    kinds: &str,
) -> Result<(), AllocError> {
    write!(out, "process {}: ", Quoted(process.name.as_str()))?;
    match fault {
        NetFault::Name if is_name(process.name.as_str()) => {
            write!(out, "an earlier process has this name")
        }
        NetFault::Name => write!(out, "{NAME_FORM}"),
        NetFault::Kind => {
            let kind = Quoted(process.kind.as_str());
            write!(out, "unknown kind {kind}; the kinds are {kinds}")
        }
        NetFault::Args => push_args::<K>(out, process),
        NetFault::Unused => push_unused::<K>(out, sketch, process),
        _ => write!(out, "{fault}"),
    }
}

fn push_args<K: Kinds>(out: &mut String, process: &ProcessSketch) -> Result<(), AllocError> {
    let kind = Quoted(process.kind.as_str());
    let args = process.args.as_slice();
    let count = match K::named(process.kind.as_str()) {
        Some((_, count)) => count,
        None => 0,
    };
    if args.len() != count {
        return write!(
            out,
            "args has length {}, but kind {kind} takes {count}",
            args.len()
        );
    }
    match args.iter().position(|x| *x < 0) {
        Some(k) => {
            let arg = args.get(k).copied().unwrap_or(0);
            write!(out, "args[{k}] is {arg}; it must not be negative")
        }
        None => {
            write!(out, "kind {kind} does not take args ")?;
            push_numbers(out, args)
        }
    }
}

/// Appends the first three numbers, in brackets.
fn push_numbers(out: &mut String, numbers: &[i64]) -> Result<(), AllocError> {
    let shown = numbers.get(..3).unwrap_or(numbers);
    let end = if numbers.len() > 3 { ", ..]" } else { "]" };
    write!(out, "[")?;
    let mut comma = "";
    for number in shown {
        push_number(out, comma, *number)?;
        comma = ", ";
    }
    write!(out, "{end}")
}

fn push_number(out: &mut String, comma: &str, number: i64) -> Result<(), AllocError> {
    write!(out, "{comma}{number}")
}

/// Appends the first port of a process without a channel.
fn push_unused<K: Kinds>(
    out: &mut String,
    sketch: &Sketch,
    process: &ProcessSketch,
) -> Result<(), AllocError> {
    let Some(signature) = signature_of::<K>(process) else {
        return Ok(());
    };
    let name = process.name.as_str();
    for port in 0..3 {
        if is_unused_in::<K>(sketch, name, &signature, port) {
            return write!(out, "input {port} has no channel");
        }
        if is_unused_out::<K>(sketch, name, &signature, port) {
            return write!(out, "output {port} has no channel");
        }
    }
    Ok(())
}
