//! Sketches and networks, and what they tell of themselves.
use crate::sketches::sketch_of;
use kpn_body::Body;
use kpn_compute::{Both, Computes, bodies_of};
use kpn_net::{
    Act, Answer, Check, Kinds, Listed, Net, NetFault, Sketch, Sort, Text, Token, read_sketch,
};
use kpn_network::names;
use kpn_standard::Standard;
use std::alloc::{AllocError, Global};
use std::rt::Files;
use test_kit::Report;

const FAULTS: [NetFault; 17] = [
    NetFault::NotToml,
    NetFault::Keys,
    NetFault::Version,
    NetFault::Counts,
    NetFault::Name,
    NetFault::Kind,
    NetFault::Args,
    NetFault::NoEnd,
    NetFault::Twice,
    NetFault::Unused,
    NetFault::Sorts,
    NetFault::Capacity,
    NetFault::Budget,
    NetFault::Memory,
    NetFault::Input,
    NetFault::Tokens,
    NetFault::Step,
];

pub(crate) fn show<R: Files + AllocGlobal>(rt: &R, report: &mut Report) {
    let alloc = rt.alloc();
    report.show("numbers", FAULTS.map(|fault| fault.number()));
    for name in [
        "counter.toml",
        "counter_and_tokens.toml",
        "count_from_five.toml",
    ] {
        if let Some(sketch) = sketch_of(rt, report, name) {
            show_sketch(report, &sketch);
            if let Ok(net) = Net::<Standard>::check(alloc, &sketch) {
                show_net(report, &net);
                show_found(report, &net);
                if let Ok(answers) = first_answers(alloc, &net) {
                    report.show("answers", answers.as_slice());
                }
            }
        }
    }
    if let Some(sketch) = sketch_of(rt, report, "counter.toml") {
        refuse::<Both<Standard, Standard>>(alloc, report, &sketch);
        refuse::<Both<Standard, Both<Standard, Standard>>>(alloc, report, &sketch);
    }
    if let Ok(sketch) = read_sketch(alloc, b"version = 2\nprocess = []\n") {
        refuse::<Standard>(alloc, report, &sketch);
    }
    report.show("no text", read_sketch(alloc, b"version").err());
    let equal = [
        Act::Stop == Act::Write(0, Token::Word(1)),
        Sort::Words == Sort::Flags,
        Token::Word(1) == Token::Flag(true),
    ];
    report.show("equal", equal);
    show_lists(alloc, report);
}

/// The fault for which a sketch is refused by a family.
fn refuse<K: Kinds>(alloc: Global, report: &mut Report, sketch: &Sketch) {
    report.show("refused", Net::<K>::check(alloc, sketch).err());
}

fn show_sketch(report: &mut Report, sketch: &Sketch) {
    report.show("sketch", [sketch.version, sketch.budget, sketch.step]);
    for process in sketch.processes.as_slice() {
        report.show(process.name.as_str(), process.kind.as_str());
        report.show("arguments", process.args.as_slice());
    }
    for channel in sketch.channels.as_slice() {
        let ends = [channel.from.as_str(), channel.to.as_str()];
        report.show(channel.name.as_str(), ends);
        report.show("ports", [channel.out, channel.input]);
        report.show("capacity and sort", (channel.capacity, channel.sort));
        report.show("tokens", channel.tokens.as_slice());
    }
}

fn show_net(report: &mut Report, net: &Net<Standard>) {
    report.show("processes and channels", [net.processes(), net.channels()]);
    for p in 0..net.processes() {
        report.show(net.process_name(p), net.card(p));
    }
    for c in 0..net.channels() {
        report.show(net.channel_name(c), net.ends(c));
        report.show("sort and capacity", (net.sort(c), net.capacity(c)));
        report.show("tokens", net.tokens(c));
    }
    let limits = (net.step(), net.ceiling(), net.budget());
    report.show("step, ceiling, budget", limits);
    for process in net.process_list() {
        report.line(process.name.as_str());
    }
    for channel in net.channel_list() {
        report.line(channel.name.as_str());
    }
    let names = [
        names::process_name(net, 1),
        names::process_name(net, 2),
        names::channel_name(net, 0),
        names::channel_name(net, 1),
    ];
    report.show("names, or nothing", names);
}

/// What the network of a counter into a sink finds.
fn show_found(report: &mut Report, net: &Net<Standard>) {
    report.show("c0", net.find_channel("c0"));
    report.show("c1", net.find_channel("c1"));
    if net.processes() != 2 {
        return;
    }
    let inputs = [
        net.in_of(1, 0),
        net.in_of(0, 0),
        net.in_of(2, 0),
        net.input_at(1, 0),
        net.input_at(0, 0),
        net.input_at(1, 3),
    ];
    report.show("inputs", inputs);
    let outputs = [
        net.out_of(0, 0),
        net.out_of(0, 1),
        net.out_of(2, 0),
        net.output_at(0, 0),
        net.output_at(0, 1),
        net.output_at(0, 3),
    ];
    report.show("outputs", outputs);
}

/// The first answer of the body of each process.
fn first_answers<K: Computes>(alloc: Global, net: &Net<K>) -> Result<Vec<Answer>, AllocError> {
    let mut answers = Vec::new(alloc);
    for body in bodies_of(alloc, net)? {
        let card = body.card();
        K::starts(card);
        answers.push(body.answer(K::start(&card), None))?;
    }
    Ok(answers)
}

/// A text is what it was made of, and a list what was pushed to it.
fn show_lists(alloc: Global, report: &mut Report) {
    if let Ok(text) = String::from_str(alloc, "c0") {
        let text = Text::new(text);
        report.line(text.as_str());
        report.line(text.into_string().as_str());
    }
    let mut list = Listed::new(Vec::new(alloc));
    for token in [Token::Word(7), Token::Flag(true)] {
        if list.push(token).is_err() {
            report.fail("no memory");
        }
    }
    report.show("list", list.as_slice());
    report.show("of the list", list.into_vec().len());
}
