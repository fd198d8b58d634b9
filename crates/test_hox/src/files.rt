//! Which channels files are given for, reports as JSON, and each fault of a description.
use hox_files::formats::Formats;
use hox_files::pairs::{count_standard, is_named_twice, pairs_of};
use hox_files::uses::Role;
use hox_json::json_of_report;
use hox_network::{AllKinds, KINDS, sketch_by_ports};
use kpn_message::messages_of_sketch;
use std::alloc::Global;
use std::fs;
use std::rt::Files;
use test_kit::Report;

/// Each pair of a channel and a file, with the channel's place among those of the file and their number; and what is read or
/// written.
pub(crate) fn show_pairs(alloc: Global, report: &mut Report) {
    let formats = Formats {
        texts: &["all=s16"],
        unsigned: &[],
    };
    let asked = ["x=f", "l,r=g", "z=a=b", "k=-"];
    let Ok(pairs) = pairs_of(alloc, "in", &asked, formats) else {
        report.fail("pairs");
        return;
    };
    for pair in pairs.as_slice() {
        let (file, place, count) = (pair.file, pair.place, pair.count);
        report.show(pair.channel, (file, place, count, pair.is_alone()));
    }
    report.show("standard", count_standard(pairs.as_slice()));
    report.show("twice", is_named_twice("-", pairs.as_slice()));
    report.show("once", is_named_twice("d", pairs.as_slice()));
    for role in [
        Role::Description,
        Role::Tokens,
        Role::In,
        Role::Out,
        Role::Report,
    ] {
        report.show(
            "written, gives tokens",
            (role.is_written(), role.gives_tokens()),
        );
    }
}

/// The JSON of each report of a file, which lines of three strokes separate.
pub(crate) fn show_json<R: Files + AllocGlobal>(rt: &R, report: &mut Report) {
    let Ok(text) = fs::read_to_string(rt, "reports.txt") else {
        report.fail("reports.txt");
        return;
    };
    for told in text.split("---\n") {
        match json_of_report(rt.alloc(), told) {
            Ok(json) => report.line(json.as_str()),
            Err(_) => report.fail("no memory"),
        }
    }
}

/// The message of each fault of a description.
pub(crate) fn show_messages<R: Files + AllocGlobal>(rt: &R, file: &mut Report) {
    let Ok(text) = fs::read(rt, "faulty.toml") else {
        file.fail("faulty.toml");
        return;
    };
    let Some(sketch) = sketch_by_ports::<AllKinds>(rt.alloc(), text.as_slice()) else {
        file.fail("no sketch");
        return;
    };
    for message in &messages_of_sketch::<AllKinds>(rt.alloc(), &sketch, KINDS).told {
        say_of(rt, file, message.text.as_str());
    }
}

fn say_of<R>(_rt: &R, file: &mut Report, message: &str) {
    file.line(message);
}
