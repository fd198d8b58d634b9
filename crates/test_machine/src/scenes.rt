//! Who waits at channels, keepers of entries, and dry processes.
ghost use Rattle.std.specs.Prelude.{◌≡◌, ◌≤◌, [], length};

use crate::networks::Networks;
use kpn_dry::{is_complete, is_dry, push_active_line};
use kpn_machine::Deed::{Put, Stopped, Took};
use kpn_machine::Entry::{Did, Grew};
use kpn_machine::{Entry, OpenFault, Outcome};
use kpn_model::Token::{Flag, Word};
use kpn_model::{Act, Answer};
use kpn_state::{Candidates, Keeper, Marks, Packed, Recall, Standing, Unkept, Waiting, Wide};
use std::alloc::{AllocError, Global};
use std::fmt::Write;
use test_cells::show_bytes;
use test_kit::{Cells, Report, Subject};

pub(crate) fn show(alloc: Global, report: &mut Report) {
    report.show("no memory", OpenFault::Memory.number());
    report.show("equal", Outcome::Parked(0) == Outcome::LaidBack);
    let shown = show_candidates(alloc, report)
        .and_then(|_| show_marks(alloc, report))
        .and_then(|_| show_keepers(alloc, report));
    if shown.is_err() {
        report.fail("no memory for a scene");
    }
}

/// Candidates for a growth stand by capacity, then by number.
fn show_candidates(alloc: Global, report: &mut Report) -> Result<(), AllocError> {
    let mut candidates = Candidates::new(alloc, 4)?;
    report.show("none", candidates.first());
    candidates.insert(2, 0);
    report.show("one", candidates.first());
    candidates.insert(1, 7);
    report.show("less capacity", candidates.first());
    candidates.insert(1, 5);
    report.show("the lesser number", candidates.first());
    candidates.insert(1, 6);
    report.show("neither", candidates.first());
    candidates.remove(1, 5);
    report.show("the next number", candidates.first());
    candidates.remove(2, 7);
    candidates.remove(1, 6);
    report.show("the last of its capacity", candidates.first());
    candidates.remove(1, 7);
    report.show("the next capacity", candidates.first());
    candidates.remove(2, 0);
    report.show("none again", candidates.first());
    Ok(())
}

/// Whether a reader and a writer wait at channel 0, and at channel 1.
fn show_waiting(report: &mut Report, name: &str, marks: &Marks)
    requires readers { 2 ≤ length marks.now.readers }
    requires writers { 2 ≤ length marks.now.writers }
{
    let at_first = [marks.reader_waits(0), marks.writer_waits(0)];
    let at_second = [marks.reader_waits(1), marks.writer_waits(1)];
    report.show(name, [at_first, at_second]);
}

fn show_marks(alloc: Global, report: &mut Report) -> Result<(), AllocError> {
    let mut marks = Marks::new(alloc, 2)?;
    show_waiting(report, "nobody at first", &marks);
    marks.note_reader(1, true);
    show_waiting(report, "a reader of this channel", &marks);
    marks.note_writer(0, true);
    show_waiting(report, "a writer, and no reader", &marks);
    marks.note_reader(1, false);
    show_waiting(report, "the writer waits on", &marks);
    marks.note_writer(0, false);
    show_waiting(report, "the writer has written", &marks);
    let waiting = Waiting::new(alloc, 3, 2)?;
    report.show("no candidate", waiting.candidates.first());
    show_waiting(report, "nobody", &waiting.marks);
    Ok(())
}

/// Entries with numbers above those of any network.
const TOLD: [Entry; 6] = [
    Did {
        process: 65535,
        deed: Took {
            channel: 65535,
            token: Word(u64::MAX),
        },
    },
    Did {
        process: 300,
        deed: Put {
            channel: 256,
            token: Word(1099511627776),
        },
    },
    Did {
        process: 1,
        deed: Put {
            channel: 2,
            token: Flag(true),
        },
    },
    Did {
        process: 2,
        deed: Took {
            channel: 255,
            token: Flag(false),
        },
    },
    Did {
        process: 63,
        deed: Stopped,
    },
    Grew {
        channel: 300,
        to: 65536,
    },
];

fn keep_all<H: Keeper>(keeper: &mut H)
    requires none { H.entries keeper.old ≡ [] }
    requires room { 6 ≤ H.room keeper.old }
{
    let [first, second, third, fourth, fifth, sixth] = TOLD;
    keeper.keep(first);
    keeper.keep(second);
    keeper.keep(third);
    keeper.keep(fourth);
    keeper.keep(fifth);
    keeper.keep(sixth);
}

fn show_kept<H: Recall>(report: &mut Report, keeper: &H) {
    report.show("kept", keeper.count());
    for place in 0..keeper.count() {
        report.show("entry", keeper.entry(place));
    }
}

fn show_keepers(alloc: Global, report: &mut Report) -> Result<(), AllocError> {
    let mut wide = Wide::with_room(alloc, 6)?;
    keep_all(&mut wide);
    show_kept(report, &wide);
    let mut packed = Packed::with_room(alloc, 6)?;
    keep_all(&mut packed);
    show_kept(report, &packed);
    let mut unkept = Unkept::with_room(alloc, 6)?;
    keep_all(&mut unkept);
    report.show("counted", unkept.count());
    Ok(())
}

/// Rows on dry processes, worked out by hand from the standings.
#[derive(Drop)]
pub(crate) struct Dry<'a> {
    networks: &'a Networks,
}

impl<'a> Dry<'a> {
    pub(crate) fn new(networks: &'a Networks) -> Dry<'a> {
        Dry { networks }
    }
}

impl Subject for Dry<'_> {
    /// Reads a network, and how each of four processes stands. Answers which processes are dry, which channels are
    /// complete, and the line of those that are not dry.
    fn answer(&self, alloc: Global, question: &mut Cells<'_>, answer: &mut String) {
        let parts = self.networks.parts(alloc, question.word());
        let standings = [
            standing_in(question),
            standing_in(question),
            standing_in(question),
            standing_in(question),
        ];
        let Some(parts) = parts else {
            return;
        };
        let net = &parts.net;
        for process in 0..net.processes() {
            let _ = write!(answer, "{} ", is_dry(net, &standings, process));
        }
        let _ = answer.push_str("/ ");
        for channel in 0..net.channels() {
            let _ = write!(answer, "{} ", is_complete(net, &standings, channel));
        }
        if let Ok(mut line) = String::from_str(alloc, "> ") {
            let _ = push_active_line(&mut line, net, &standings);
            show_bytes(answer, line.as_bytes());
        }
    }
}

fn standing_in(question: &mut Cells<'_>) -> Standing {
    let act = match question.word() {
        "stopped" => return Standing::Stopped,
        "ready" => return Standing::Ready,
        "out" => return Standing::Out,
        "reads" => Act::Read(0),
        _ => Act::Write(0, Word(7)),
    };
    Standing::Parked(Answer { next: [0; 4], act })
}
