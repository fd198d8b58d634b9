//! Input and output that fail in mid-stream, the lines and numbers of faults, and texts that are handed back.
use crate::texts::COUNTER;
use kpn_execute::{load, say_checked, say_refused};
use kpn_front::{
    ExitStatus, Fallible, Refused, Source, load_or_refuse, net_or_refuse, read_text, say_lost,
};
use kpn_net::{Net, NetFault, Sketch, read_sketch};
use kpn_standard::Standard;
use std::alloc::Global;
use std::io;
use std::io::{Read, Write};
use test_kit::Report;

/// Reads or writes one byte a call, and fails after `before` calls. A read fails once if `fails_once`; otherwise every later
/// call fails.
#[derive(Drop)]
struct FailingStream<'a> {
    bytes: &'a [u8],
    before: usize,
    fails_once: bool,
}

impl<'a> Read for FailingStream<'a> {
    fn read(&mut self, buf: &mut [u8]) -> io::Result<usize> {
        if self.before == 0 {
            if self.fails_once {
                self.before = usize::MAX;
            }
            return Err(io::ErrorKind::Other.into());
        }
        self.before -= 1;
        if self.bytes.is_empty() || buf.is_empty() {
            return Ok(0);
        }
        buf[0] = self.bytes[0];
        self.bytes = &self.bytes[1..];
        Ok(1)
    }
}

impl<'a> Write for FailingStream<'a> {
    fn write(&mut self, buf: &[u8]) -> io::Result<usize> {
        if self.before == 0 {
            return Err(io::ErrorKind::Other.into());
        }
        self.before -= 1;
        Ok(buf.len().min(1))
    }

    fn flush(&mut self) -> io::Result<()> {
        Ok(())
    }
}

/// Returns 0 if there is no fault.
fn number_from<S: Source>(alloc: Global, source: &mut S) -> u8 {
    let net: Result<Net<Standard>, NetFault> = load(alloc, source);
    match net {
        Ok(_) => 0,
        Err(fault) => fault.number(),
    }
}

/// The faults of reading the counter's text, where reading fails once or from then on, before its first byte, in its midst,
/// after its last byte, and not at all; and the exit statuses of writing a line of eleven bytes.
pub(crate) fn show_failures(alloc: Global, report: &mut Report) {
    for before in [0, 10, COUNTER.len(), COUNTER.len().saturating_add(1)] {
        for fails_once in [false, true] {
            let mut source = Fallible::new(FailingStream {
                bytes: COUNTER.as_bytes(),
                before,
                fails_once,
            });
            report.show("read", number_from(alloc, &mut source));
        }
    }
    for before in [0, 10, 11] {
        let mut sink = Fallible::new(FailingStream {
            bytes: b"",
            before,
            fails_once: false,
        });
        report.show("written", say_refused(&NetFault::Memory, &mut sink));
    }
}

/// The numbers of exit statuses, and lines with their statuses.
pub(crate) fn show_lines(alloc: Global, report: &mut Report) {
    let statuses = [
        ExitStatus::Success,
        ExitStatus::WrongArguments,
        ExitStatus::Refused,
        ExitStatus::BudgetSpent,
        ExitStatus::MemoryRefused,
        ExitStatus::Deadlocked,
        ExitStatus::AtCeiling,
        ExitStatus::WriteFailed,
        ExitStatus::Lost,
    ];
    for status in statuses {
        report.show("status", status.code());
    }
    let mut source = COUNTER.as_bytes();
    let net: Result<Net<Standard>, NetFault> = load(alloc, &mut source);
    let Ok(net) = net else {
        report.fail("the counter");
        return;
    };
    let mut out = Vec::new(alloc);
    let codes = [
        say_checked(&net, &mut out),
        say_refused(&NetFault::Memory, &mut out),
        say_refused(&NetFault::Twice, &mut out),
        say_lost(&mut out),
    ];
    report.show("lines", codes);
    report.show("written", std::str::from_utf8(out.as_slice()));
}

/// What is made of texts and sketches: the number of processes; or that of the fault, with the text that comes back.
pub(crate) fn show_refused(alloc: Global, report: &mut Report) {
    let mut source = "version = 1\nprocess = []\n".as_bytes();
    show_net(report, load_or_refuse(alloc, &mut source));
    show_sketch(alloc, report, read_sketch(alloc, COUNTER.as_bytes()));
    let Ok(twice) = COUNTER.replace(alloc, "\"snk\"", "\"src\"") else {
        report.fail("no memory");
        return;
    };
    show_sketch(alloc, report, read_sketch(alloc, twice.as_bytes()));
    show_sketch(alloc, report, Err(NetFault::Keys));
    show_net(report, Err(Refused::unread(alloc, NetFault::Input)));
    let mut source = "version = 1\n".as_bytes();
    match read_text(alloc, &mut source) {
        Ok(text) => report.show("text", std::str::from_utf8(text.as_slice())),
        Err(_) => report.fail("unread"),
    }
}

fn show_sketch(alloc: Global, report: &mut Report, sketch: Result<Sketch, NetFault>) {
    match Vec::from_slice(alloc, b"text") {
        Ok(text) => show_net(report, net_or_refuse(alloc, text, sketch)),
        Err(_) => report.fail("no memory"),
    }
}

fn show_net(report: &mut Report, net: Result<Net<Standard>, Refused>) {
    match net {
        Ok(net) => report.show("processes", net.processes()),
        Err(refused) => {
            report.show("refused", refused.fault.number());
            report.show("text", std::str::from_utf8(refused.text.as_slice()));
        }
    }
}
