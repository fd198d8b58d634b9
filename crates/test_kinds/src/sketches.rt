//! Conditions of faults: of names, sorts and tokens; of the processes and channels of a sketch.
use crate::messages::KINDS;
use kpn_message::{locate, messages_of_sketch};
use kpn_net::faults::{
    Clash, SameIn, SameName, SameOut, has_fault, has_unknown_kind, has_unused_port, has_wrong_args,
    has_wrong_capacity, has_wrong_sort, has_wrong_tokens, in_sort, is_name, is_sort, is_token,
    is_unused_in, is_unused_out, lacks_end, out_sort, port_sort, process_named, signature_of,
    takes_other_count,
};
use kpn_net::{ChannelSketch, NetFault, ProcessSketch, Sketch, Sort, TokenSketch, read_sketch};
use kpn_standard::Standard;
use std::alloc::Global;
use std::fmt::Write;
use std::fs;
use std::rt::Files;
use test_kit::{Cells, Report, Subject};

pub(crate) struct Rows;

impl Subject for Rows {
    fn answer(&self, _alloc: Global, question: &mut Cells<'_>, answer: &mut String) {
        let _ = match question.word() {
            "name" => write!(answer, "{}", is_name(question.rest())),
            "sort" => {
                let sort = sort_in(question);
                let found = match question.word() {
                    "none" => None,
                    "words" => Some(Sort::Words),
                    _ => Some(Sort::Flags),
                };
                write!(answer, "{}", is_sort(sort, found))
            }
            "port" => {
                let ports = [Some(sort_in(question)), None, None];
                write!(answer, "{:?}", port_sort(&ports, integer_in(question)))
            }
            "token" => {
                let sort = sort_in(question);
                write!(answer, "{}", is_token(sort, token_in(question)))
            }
            _ => {
                question.is_bad();
                Ok(())
            }
        };
    }
}

fn sort_in(question: &mut Cells<'_>) -> Sort {
    match question.word() {
        "words" => Sort::Words,
        _ => Sort::Flags,
    }
}

fn integer_in(question: &mut Cells<'_>) -> i64 {
    let Ok(integer) = question.word().parse::<i64>() else {
        question.is_bad();
        return 0;
    };
    integer
}

fn token_in(question: &mut Cells<'_>) -> TokenSketch {
    match question.word() {
        "integer" => TokenSketch::Integer(integer_in(question)),
        "boolean" => TokenSketch::Boolean(question.word() == "true"),
        _ => TokenSketch::Word(question.number()),
    }
}

/// The sketch of a file.
pub(crate) fn sketch_of<R: Files + AllocGlobal>(
    rt: &R,
    report: &mut Report,
    name: &str,
) -> Option<Sketch> {
    if let Ok(text) = fs::read_to_string(rt, name) {
        if let Ok(sketch) = read_sketch(rt.alloc(), text.as_bytes()) {
            return Some(sketch);
        }
    }
    report.fail(name);
    None
}

pub(crate) fn show<R: Files + AllocGlobal>(rt: &R, report: &mut Report) {
    if let Some(sketch) = sketch_of(rt, report, "conditions.toml") {
        for name in ["src", "snk", "odd", "two", "neg", "none"] {
            match process_named(sketch.processes.as_slice(), name) {
                Some(process) => show_process(report, &sketch, process),
                None => report.line(name),
            }
        }
        for channel in sketch.channels.as_slice() {
            show_channel(report, &sketch, channel);
        }
        show_ports(report, &sketch);
        if let [first, second, third, ..] = sketch.channels.as_slice() {
            report.show("clashes of the first two", clashes(first, second));
            report.show("clashes of the first and the third", clashes(first, third));
            report.show(
                "clashes of the second and the third",
                clashes(second, third),
            );
        }
    }
    if let Some(sketch) = sketch_of(rt, report, "places.toml") {
        for fault in [NetFault::Kind, NetFault::Capacity, NetFault::Budget] {
            report.show("located", locate::<Standard>(&sketch, fault));
        }
    }
    if let Some(sketch) = sketch_of(rt, report, "faulty.toml") {
        let messages = messages_of_sketch::<Standard>(rt.alloc(), &sketch, KINDS);
        report.show("all are told", messages.are_all);
        for message in messages.told.as_slice() {
            report.line(message.text.as_str());
        }
        for fault in [NetFault::Step, NetFault::Twice] {
            report.show("is there", has_fault::<Standard>(&sketch, fault));
        }
    }
}

fn show_process(report: &mut Report, sketch: &Sketch, process: &ProcessSketch) {
    let held = [
        has_unknown_kind::<Standard>(process),
        takes_other_count::<Standard>(process),
        has_wrong_args::<Standard>(process),
        has_unused_port::<Standard>(sketch, process),
    ];
    report.show(process.name.as_str(), held);
}

fn show_channel(report: &mut Report, sketch: &Sketch, channel: &ChannelSketch) {
    let held = [
        lacks_end::<Standard>(sketch, channel),
        has_wrong_sort::<Standard>(sketch, channel),
        has_wrong_capacity(2, channel),
        has_wrong_capacity(1, channel),
        has_wrong_tokens(channel),
    ];
    report.show(channel.name.as_str(), held);
    report.show("its output", out_sort::<Standard>(sketch, channel));
    report.show("its input", in_sort::<Standard>(sketch, channel));
}

fn show_ports(report: &mut Report, sketch: &Sketch) {
    for (process, name, port) in [("src", "src", 0), ("src", "neg", 0), ("src", "neg", 1)] {
        let process = process_named(sketch.processes.as_slice(), process);
        if let Some(ports) = process.and_then(|process| signature_of::<Standard>(process)) {
            let is_unused = is_unused_out::<Standard>(sketch, name, &ports, port);
            report.show("an unused output", is_unused);
        }
    }
    for (process, name, port) in [("snk", "snk", 0), ("snk", "src", 0), ("snk", "src", 1)] {
        let process = process_named(sketch.processes.as_slice(), process);
        if let Some(ports) = process.and_then(|process| signature_of::<Standard>(process)) {
            let is_unused = is_unused_in::<Standard>(sketch, name, &ports, port);
            report.show("an unused input", is_unused);
        }
    }
}

/// Whether two channels share a name, an output, an input.
fn clashes(one: &ChannelSketch, other: &ChannelSketch) -> [bool; 3] {
    [
        <SameName as Clash<ChannelSketch>>::clash(one, other),
        SameOut::clash(one, other),
        SameIn::clash(one, other),
    ]
}
