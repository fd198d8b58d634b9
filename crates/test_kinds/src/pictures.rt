//! Pictures of networks at their start and of how runs ended, and verdicts on such ends.
use crate::sketches::sketch_of;
use example_signals::{Gains, MovingSums};
use kpn_compute::{Both, Filtered};
use kpn_net::{Check, End, Kinds, Listed, Net, Place, Text, Token};
use kpn_picture::{Direction, Left, Style, Titled, is_jammed, picture_of};
use kpn_standard::Standard;
use kpn_verdict::{Verdict, push_verdict, verdict_of, verdict_text};
use std::alloc::{AllocError, Global};
use std::rt::Files;
use test_kit::Report;

const ENDS: [End; 5] = [
    End::Terminated,
    End::Deadlock,
    End::Ceiling,
    End::Budget,
    End::Memory,
];

const LOOP_PLACES: [Place; 4] = [
    Place::Stopped,
    Place::Reads(1),
    Place::Reads(2),
    Place::Reads(3),
];

pub(crate) fn show<R: Files + AllocGlobal>(rt: &R, report: &mut Report) {
    let alloc = rt.alloc();
    if show_all(rt, alloc, report).is_err() {
        report.fail("no memory for a picture");
    }
}

/// What is known of a run of which nothing is known.
fn nothing() -> Left<'static> {
    Left {
        places: &[],
        capacities: &[],
        rests: &[],
    }
}

fn show_all<R: Files + AllocGlobal>(
    rt: &R,
    alloc: Global,
    report: &mut Report,
) -> Result<(), AllocError> {
    if let Some(net) = net_of::<Standard, R>(rt, report, "drawn_counter.toml") {
        draw(alloc, report, &net, &[], None, &nothing())?;
        let titles = texts(alloc, &["say \"out\"\n\\\u{e9}~\u{7f}\t!"])?;
        draw_processes(alloc, report, &net, titles.as_slice())?;
        draw_ends(alloc, report, &net)?;
        judge(
            alloc,
            report,
            &net,
            &[Place::Stopped, Place::Reads(0)],
            End::Deadlock,
        )?;
        for end in ENDS {
            if end != End::Deadlock {
                judge(alloc, report, &net, &[Place::Stopped; 2], end)?;
            }
        }
    }
    if let Some(net) = net_of::<Standard, R>(rt, report, "drawn_switch.toml") {
        draw(alloc, report, &net, &[], None, &nothing())?;
    }
    if let Some(net) = net_of::<Standard, R>(rt, report, "drawn_loop.toml") {
        draw_loop(alloc, report, &net)?;
    }
    if let Some(net) = net_of::<Standard, R>(rt, report, "drawn_weave.toml") {
        show_jams(report, &net);
    }
    if let Some(net) = net_of::<Standard, R>(rt, report, "drawn_ring.toml") {
        let waits = [Place::Reads(2), Place::Reads(0), Place::Reads(1)];
        judge(alloc, report, &net, &waits, End::Deadlock)?;
    }
    type OwnKinds = Both<Gains, Filtered<MovingSums>>;
    if let Some(net) = net_of::<OwnKinds, R>(rt, report, "drawn_own_kinds.toml") {
        draw(alloc, report, &net, &[], None, &nothing())?;
    }
    Ok(())
}

fn net_of<K: Kinds, R: Files + AllocGlobal>(
    rt: &R,
    report: &mut Report,
    name: &str,
) -> Option<Net<K>> {
    let sketch = sketch_of(rt, report, name)?;
    let net = Net::check(rt.alloc(), &sketch).ok();
    if net.is_none() {
        report.fail(name);
    }
    net
}

fn texts(alloc: Global, texts: &[&str]) -> Result<Vec<Text>, AllocError> {
    let mut all = Vec::new(alloc);
    for text in texts {
        all.push(Text::new(String::from_str(alloc, text)?))?;
    }
    Ok(all)
}

fn drawn<K: Titled>(
    alloc: Global,
    net: &Net<K>,
    titles: &[Text],
    end: Option<End>,
    left: &Left<'_>,
) -> Result<String, AllocError> {
    let style = Style {
        direction: Direction::Right,
        titles,
    };
    picture_of(alloc, net, &style, end, left)
}

/// Appends a whole picture.
fn draw<K: Titled>(
    alloc: Global,
    report: &mut Report,
    net: &Net<K>,
    titles: &[Text],
    end: Option<End>,
    left: &Left<'_>,
) -> Result<(), AllocError> {
    let picture = drawn(alloc, net, titles, end, left)?;
    report.line(picture.as_str());
    Ok(())
}

/// Appends the lines of the processes of a picture with these titles.
fn draw_processes(
    alloc: Global,
    report: &mut Report,
    net: &Net<Standard>,
    titles: &[Text],
) -> Result<(), AllocError> {
    let picture = drawn(alloc, net, titles, None, &nothing())?;
    for line in picture.lines() {
        if line.starts_with("  \"") && !line.contains("\" -> \"") {
            report.line(line);
        }
    }
    Ok(())
}

/// Appends the line of each end in a picture of it.
fn draw_ends(alloc: Global, report: &mut Report, net: &Net<Standard>) -> Result<(), AllocError> {
    for end in ENDS {
        let picture = drawn(alloc, net, &[], Some(end), &nothing())?;
        for line in picture.lines() {
            if line.starts_with("  label=") {
                report.line(line);
            }
        }
    }
    Ok(())
}

/// A deadlock whose cycle is drawn, with four tokens on the first channel; and pictures of titles.
fn draw_loop(alloc: Global, report: &mut Report, net: &Net<Standard>) -> Result<(), AllocError> {
    let mut rests = Vec::new(alloc);
    for count in [4, 0, 0, 0] {
        rests.push(Listed::new(vec![in alloc; Token::Word(2); count]?))?;
    }
    let left = Left {
        places: &LOOP_PLACES,
        capacities: &[4, 1, 1, 1],
        rests: rests.as_slice(),
    };
    draw(alloc, report, net, &[], Some(End::Deadlock), &left)?;
    let titles = [
        "",
        "y = y + (in - y) / 8; z = y * 3; out = z",
        "y = y + (in - y) / 16; z = y * 3; out = z",
    ];
    let titles = texts(alloc, &titles)?;
    draw_processes(alloc, report, net, titles.as_slice())?;
    judge(alloc, report, net, &LOOP_PLACES, End::Deadlock)?;
    report.show("first", verdict_of(net, &LOOP_PLACES, End::Deadlock));
    let mut title = String::from_str(alloc, "title: ")?;
    push_verdict(&mut title, net, &LOOP_PLACES, Verdict::Cycle(1))?;
    report.line(title.as_str());
    Ok(())
}

/// Which channels of a copy whose outputs are woven are on a cycle: as it waits for room in the second, and the weaver
/// for a token of the first; as all wait for a counter that has ended; and as nothing is known.
fn show_jams(report: &mut Report, net: &Net<Standard>) {
    let stuck = [
        Place::Writes(0),
        Place::Writes(2),
        Place::Reads(1),
        Place::Reads(3),
    ];
    let served = [
        Place::Stopped,
        Place::Reads(0),
        Place::Reads(1),
        Place::Reads(3),
    ];
    for places in [stuck.as_slice(), served.as_slice(), &[]] {
        for c in 0..net.channels() {
            report.show(net.channel_name(c), is_jammed(net, places, c));
        }
    }
}

/// Appends the line of a verdict.
fn judge(
    alloc: Global,
    report: &mut Report,
    net: &Net<Standard>,
    places: &[Place],
    end: End,
) -> Result<(), AllocError> {
    let verdict = verdict_of(net, places, end);
    let line = verdict_text(alloc, net, places, verdict)?;
    report.line(line.as_str());
    Ok(())
}
