//! Rows on streams from one source into one sink.
use crate::networks::Networks;
use hox_stream::{
    EndedStream, Exits, LaidEnds, LaidOut, NameFault, NoOnlooker, Onlooker, OpenStream,
    StreamFault, open_stream, serve,
};
use kpn_compute::Both;
use kpn_flow_verdict::judge;
use kpn_model::{End, Text, Verdict};
use kpn_standard::Standard;
use kpn_tokens::{Coding, Column, Decimals, Endian, Frame, Layout, Sample, Separator, Width};
use std::alloc::Global;
use std::fmt::Write;
use test_cells::{bytes_in, show_bytes};
use test_kit::{Cells, Subject};

pub(crate) type Kinds = Both<Standard, Exits>;

#[derive(Drop)]
pub(crate) struct Streams<'a> {
    networks: &'a Networks,
}

impl<'a> Streams<'a> {
    pub(crate) fn new(networks: &'a Networks) -> Streams<'a> {
        Streams { networks }
    }
}

impl Subject for Streams<'_> {
    fn answer(&self, alloc: Global, question: &mut Cells<'_>, answer: &mut String) {
        match question.word() {
            "open" => {
                let opened = opened_in(alloc, self.networks, question);
                show_opened(answer, opened);
            }
            "serve" => {
                let (from, to) = (layout_in(question), layout_in(question));
                let bytes = bytes_in(alloc, question);
                show_served(alloc, self.networks, from, to, bytes.as_slice(), answer);
            }
            "long" => {
                let count = question.below(10000);
                let rest = bytes_in(alloc, question);
                let mut bytes = Vec::new(alloc);
                let is_built = bytes.resize(count, b'#').is_ok()
                    && bytes.extend_from_slice(rest.as_slice()).is_ok();
                if !is_built {
                    question.is_bad();
                }
                let plain = Layout::PLAIN;
                show_served(alloc, self.networks, plain, plain, bytes.as_slice(), answer);
            }
            "counts" => {
                let (from, to) = (layout_in(question), layout_in(question));
                let bytes = bytes_in(alloc, question);
                show_counts(alloc, self.networks, from, to, bytes.as_slice(), answer);
            }
            "judge" => show_judged(alloc, self.networks, question.word(), answer),
            what => {
                let bytes = bytes_in(alloc, question);
                show_left(alloc, self.networks, what, bytes.as_slice(), answer);
            }
        }
    }
}

pub(crate) fn text(alloc: Global, word: &str) -> Option<Text> {
    Some(Text::new(String::from_str(alloc, word).ok()?))
}

/// Reads the name of a network and those of the channels that are fed and drained, each with commas between.
fn opened_in(
    alloc: Global,
    networks: &Networks,
    question: &mut Cells<'_>,
) -> Option<Result<OpenStream<Kinds>, StreamFault>> {
    let sketch = networks.sketch(alloc, question.word())?;
    let fed = texts_in(alloc, question)?;
    let drained = texts_in(alloc, question)?;
    Some(open_stream::<Standard>(alloc, sketch, fed.as_slice(), drained.as_slice()))
}

fn texts_in(alloc: Global, question: &mut Cells<'_>) -> Option<Vec<Text>> {
    let mut texts = Vec::new(alloc);
    for word in question.word().split(",") {
        if word != "-" {
            texts.push(text(alloc, word)?).ok()?;
        }
    }
    Some(texts)
}

/// How the flow of a stream stands, its inputs and outputs; or why it is not opened.
fn show_opened(answer: &mut String, opened: Option<Result<OpenStream<Kinds>, StreamFault>>) {
    let _ = match opened {
        Some(Ok(stream)) => {
            let (flow, inputs, outputs) = stream.into_parts();
            let stand = flow.stand();
            write!(
                answer,
                "{stand:?} {:?} {:?}",
                inputs.as_slice(),
                outputs.as_slice()
            )
        }
        Some(Err(StreamFault::Input(NameFault::Busy(place, process)))) => {
            write!(answer, "input {place} busy {}", process.as_str())
        }
        Some(Err(StreamFault::Output(NameFault::Busy(place, process)))) => {
            write!(answer, "output {place} busy {}", process.as_str())
        }
        Some(Err(StreamFault::Output(NameFault::NoChannel(place)))) => {
            write!(answer, "output {place} no channel")
        }
        Some(Err(StreamFault::Twice)) => answer.push_str("twice"),
        _ => answer.push_str("another fault"),
    };
}

/// Samples of so many bytes, signed.
fn samples(width: Width, endian: Endian, clips: bool) -> Layout {
    Layout::Frames(Frame::of(Sample {
        width,
        coding: Coding::Signed,
        endian,
        clips,
    }))
}

fn layout_in(question: &mut Cells<'_>) -> Layout {
    match question.word() {
        "little" => samples(Width::Two, Endian::Little, false),
        "big" => samples(Width::Two, Endian::Big, false),
        "byte" => samples(Width::One, Endian::Little, false),
        "clipped" => samples(Width::One, Endian::Little, true),
        "column" => Layout::Fields(Column {
            place: 1,
            separator: Separator::Semicolon,
            decimals: Decimals {
                digits: 2,
                is_unsigned: false,
            },
        }),
        _ => Layout::PLAIN,
    }
}

/// One source, of bytes that are laid out so.
pub(crate) fn sources_of<'a>(
    alloc: Global,
    stream: &'a [u8],
    layout: Layout,
) -> Option<Vec<LaidOut<&'a [u8]>>> {
    let mut sources = Vec::new(alloc);
    sources.push(LaidOut { stream, layout }).ok()?;
    Some(sources)
}

/// What is left of a stream of a network, from these bytes, which are fed into x, into one sink, of y.
pub(crate) fn served<'a, L: Onlooker>(
    alloc: Global,
    networks: &Networks,
    name: &str,
    from: Layout,
    to: Layout,
    bytes: &'a [u8],
    onlooker: &L,
) -> Option<EndedStream<Kinds, &'a [u8], Vec<u8>>> {
    let (fed, drained) = (text(alloc, "x")?, text(alloc, "y")?);
    let sketch = networks.sketch(alloc, name)?;
    let stream = open_stream::<Standard>(alloc, sketch, &[fed], &[drained]).ok()?;
    let mut sinks = Vec::new(alloc);
    let sink = LaidOut {
        stream: Vec::new(alloc),
        layout: to,
    };
    sinks.push(sink).ok()?;
    let ends = LaidEnds {
        sources: sources_of(alloc, bytes, from)?,
        sinks,
        tables: Vec::new(alloc),
    };
    serve(alloc, stream, ends, onlooker).ok()
}

/// Why a stream ended, the exit status, and what was written.
fn show_served(
    alloc: Global,
    networks: &Networks,
    from: Layout,
    to: Layout,
    bytes: &[u8],
    answer: &mut String,
) {
    let Some(served) = served(alloc, networks, "sums", from, to, bytes, &NoOnlooker) else {
        return;
    };
    let code = served.finish.status(Verdict::RanDry).code();
    let _ = write!(answer, "{:?} {code} ", served.finish);
    let mut outlets = served.outlets;
    if let Some(outlet) = outlets.pop() {
        show_bytes(answer, outlet.into_sink().as_slice());
    }
}

/// The records read, the tokens written, and those of them that were clipped.
fn show_counts(
    alloc: Global,
    networks: &Networks,
    from: Layout,
    to: Layout,
    bytes: &[u8],
    answer: &mut String,
) {
    let Some(served) = served(alloc, networks, "sums", from, to, bytes, &NoOnlooker) else {
        return;
    };
    let ends = (
        served.inlets.as_slice().first(),
        served.outlets.as_slice().first(),
    );
    if let (Some(inlet), Some(outlet)) = ends {
        let counts = (inlet.records(), outlet.tokens(), outlet.clipped());
        let _ = write!(answer, "{counts:?}");
    }
}

/// Whether nothing more can come out; or how many bytes are held of the source; or how many of the source are unread and
/// of the sink unwritten, and what was written.
fn show_left(alloc: Global, networks: &Networks, what: &str, bytes: &[u8], answer: &mut String) {
    let plain = Layout::PLAIN;
    let Some(served) = served(alloc, networks, "sums", plain, plain, bytes, &NoOnlooker) else {
        return;
    };
    let ends = (
        served.inlets.as_slice().first(),
        served.outlets.as_slice().first(),
    );
    let (Some(inlet), Some(outlet)) = ends else {
        return;
    };
    let _ = match what {
        "exhausted" => write!(answer, "{}", served.flow.is_exhausted()),
        "held" => write!(answer, "{}", inlet.held()),
        _ => {
            let _ = write!(answer, "{:?} ", (inlet.source().len(), outlet.waiting()));
            show_bytes(answer, outlet.sink().as_slice());
            Ok(())
        }
    };
}

/// Feeds two words into x of a network, and drains y until the flow is at its ceiling: the end, how many words came out,
/// the verdict, and its lines.
fn show_judged(alloc: Global, networks: &Networks, name: &str, answer: &mut String) {
    let plain = Layout::PLAIN;
    let Some(served) = served(alloc, networks, name, plain, plain, b"1\n2\n", &NoOnlooker) else {
        return;
    };
    let _ = write!(answer, "{:?} ", served.finish);
    if let Some(outlet) = served.outlets.as_slice().first() {
        let _ = write!(answer, "{} ", outlet.tokens());
    }
    if let Ok(judged) = judge(alloc, &served.flow, End::Ceiling) {
        let _ = write!(answer, "{:?} ", judged.verdict);
        show_bytes(answer, judged.text.as_bytes());
    }
}
