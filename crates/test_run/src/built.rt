//! Built networks, and sketches as texts.
use anyhow::Result as Anyhow;
use kpn_builder::{Builder, NewChannel, TextFault, to_toml};
use kpn_net::{Check, Net, NetFault, TokenSketch, read_sketch};
use kpn_standard::Standard;
use std::alloc::{AllocError, Global};
use test_kit::Report;

const KINDS: &str = "count and sink";

/// Written by hand, with each table's keys in byte order.
const SWITCHED: &str = r#"budget = 77
step = 2
version = 2

[[channel]]
capacity = 3
from = "src"
in = 0
name = "c"
out = 0
sort = "words"
to = "dm"
tokens = [5, 6]

[[channel]]
capacity = 1
from = "dv"
in = 1
name = "f"
out = 0
sort = "flags"
to = "dm"
tokens = [true]

[[process]]
args = [1, 3]
kind = "count"
name = "src"

[[process]]
args = []
kind = "switch"
name = "dm"
"#;

/// Plays the scenes.
pub(crate) fn show<R: AllocGlobal>(rt: &R, report: &mut Report) {
    let alloc = rt.alloc();
    if show_built(alloc, report).is_err() {
        report.fail("no memory to build");
    }
    if show_read(alloc, report).is_err() {
        report.fail("no sketch");
    }
}

fn show_built(alloc: Global, report: &mut Report) -> Result<(), AllocError> {
    let made = switched(alloc)?;
    show_text(report, made.to_toml());
    show_fault(report, "no end", &made);
    let mut made = Builder::new(alloc);
    made.process("src", "cuont", &[1, 3])?;
    show_fault(report, "no kind", &made);
    let made = held(alloc, "cuont")?;
    show_fault(report, "no kind", &made);
    let none = made.message::<Standard>(NetFault::Memory, KINDS);
    report.show("no message", none.is_none());
    let made = held(alloc, "count")?;
    show_text(report, made.to_toml());
    if let Err(fault) = show_network(report, &made) {
        report.show("held", fault);
    }
    Ok(())
}

fn switched(alloc: Global) -> Result<Builder, AllocError> {
    let mut made = Builder::new(alloc);
    made.set_budget(77);
    made.set_step(2);
    made.process("src", "count", &[1, 3])?;
    made.process("dm", "switch", &[])?;
    let words = [TokenSketch::Integer(5), TokenSketch::Integer(6)];
    let held = NewChannel::new("c", "src", "dm").capacity(3).tokens(&words);
    made.channel(held)?;
    let flag = [TokenSketch::Boolean(true)];
    let asked = NewChannel::new("f", "dv", "dm")
        .input(1)
        .flags()
        .tokens(&flag);
    made.channel(asked)?;
    Ok(made)
}

/// A process of this kind into a sink, with the greatest word between them as start token, which no text can give.
fn held(alloc: Global, kind: &str) -> Result<Builder, AllocError> {
    let mut made = Builder::new(alloc);
    made.process("src", kind, &[1, 3])?;
    made.process("snk", "sink", &[3])?;
    let greatest = [TokenSketch::Word(u64::MAX)];
    let wire = NewChannel::new("c0", "src", "snk");
    let wire = wire.capacity(9).tokens(&greatest);
    made.channel(wire)?;
    Ok(made)
}

fn show_text(report: &mut Report, text: Result<String, TextFault>) {
    match text {
        Ok(text) => report.line(text.as_str()),
        Err(fault) => report.show("no text", fault),
    }
}

fn show_fault(report: &mut Report, name: &str, made: &Builder) {
    let Err(fault) = made.check::<Standard>() else {
        return report.fail(name);
    };
    report.show(name, fault);
    let message = made.message::<Standard>(fault, KINDS);
    report.show(name, message.as_deref());
}

fn show_network(report: &mut Report, made: &Builder) -> Result<(), NetFault> {
    let net: Net<Standard> = made.check()?;
    report.show("processes", net.processes());
    report.show("budget, ceiling", (net.budget(), net.ceiling()));
    report.show("channel", net.find_channel("c0"));
    if net.channels() == 1 {
        report.show("capacity", net.capacity(0));
        report.show("sort", net.sort(0));
        report.show("tokens", net.tokens(0));
    }
    Ok(())
}

/// Version 1 has no step and no start tokens.
fn show_read(alloc: Global, report: &mut Report) -> Anyhow<()> {
    let sketch = read_sketch(alloc, SWITCHED.as_bytes())?;
    report.show("channels", sketch.channels.as_slice().len());
    let text = to_toml(alloc, &sketch)?;
    report.line(text.as_str());
    let mut sketch = sketch;
    sketch.version = 1;
    show_text(report, to_toml(alloc, &sketch));
    let text = "version = 1\nprocess = [{ name = \"p\", kind = \"k\" }]\n";
    let mut sketch = read_sketch(alloc, text.as_bytes())?;
    show_text(report, to_toml(alloc, &sketch));
    sketch.step = 2;
    show_text(report, to_toml(alloc, &sketch));
    let refused = Net::<Standard>::check(alloc, &sketch).err();
    report.show("unknown kind", refused);
    Ok(())
}
