//! Rows on streams into files of several channels.
use crate::networks::Networks;
use crate::streams::{Kinds, sources_of, text};
use hox_stream::{
    EndedStream, LaidEnds, LaidOut, LaidTable, MOST_AHEAD, NoOnlooker, StreamFinish, TableOutlet,
    open_stream, serve,
};
use kpn_model::{Text, Verdict};
use kpn_standard::Standard;
use kpn_tokens::{Coding, Decimals, Endian, Layout, Sample, Separator, Table, Width};
use std::alloc::Global;
use std::fmt::Write;
use test_cells::{bytes_in, show_bytes};
use test_kit::{Cells, Subject};

#[derive(Drop)]
pub(crate) struct Tables<'a> {
    networks: &'a Networks,
}

impl<'a> Tables<'a> {
    pub(crate) fn new(networks: &'a Networks) -> Tables<'a> {
        Tables { networks }
    }
}

impl Subject for Tables<'_> {
    fn answer(&self, alloc: Global, question: &mut Cells<'_>, answer: &mut String) {
        match question.word() {
            "pairs" => pairs(alloc, self.networks, question, answer),
            "apart" => {
                let words = question.below(1000);
                show_apart(alloc, self.networks, words, answer);
            }
            "apart_status" => {
                let status = StreamFinish::Apart(0).status(Verdict::RanDry);
                let _ = write!(answer, "{} {MOST_AHEAD}", status.code());
            }
            _ => question.is_bad(),
        }
    }
}

/// Reads what is asked for, the channels to drain, how many of these have a sink, the table and the words.
fn pairs(alloc: Global, networks: &Networks, question: &mut Cells<'_>, answer: &mut String) {
    let is_counted = question.word() == "counts";
    let (first, second) = (question.word(), question.word());
    let sinks = question.below(2);
    let table = table_in(question);
    let bytes = bytes_in(alloc, question);
    let Some(drained) = names_of(alloc, first, second) else {
        return;
    };
    if let Some(served) = paired(alloc, networks, &drained, sinks, table, bytes.as_slice()) {
        show_pairs(served, is_counted, answer);
    }
}

fn names_of(alloc: Global, first: &str, second: &str) -> Option<[Text; 2]> {
    Some([text(alloc, first)?, text(alloc, second)?])
}

fn table_in(question: &mut Cells<'_>) -> Table {
    let (width, clips) = match question.word() {
        "comma" => return Table::Rows(Separator::Comma),
        "tab" => return Table::Rows(Separator::Tab),
        "two" => (Width::Two, false),
        "clipped" => (Width::One, true),
        _ => (Width::One, false),
    };
    Table::Samples(Sample {
        width,
        coding: Coding::Signed,
        endian: Endian::Little,
        clips,
    })
}

fn table_of(alloc: Global, table: Table, width: usize) -> Option<Vec<LaidTable<Vec<u8>>>> {
    let mut columns = Vec::new(alloc);
    for _ in 0..width {
        columns.push(Decimals::WHOLE).ok()?;
    }
    let mut tables = Vec::new(alloc);
    let laid = LaidTable {
        stream: Vec::new(alloc),
        table,
        columns,
    };
    tables.push(laid).ok()?;
    Some(tables)
}

/// Streams words through `pairs`. Of the drained channels the first `sinks` have a sink each, the others one table.
fn paired<'a>(
    alloc: Global,
    networks: &Networks,
    drained: &[Text; 2],
    sinks: usize,
    table: Table,
    bytes: &'a [u8],
) -> Option<EndedStream<Kinds, &'a [u8], Vec<u8>>> {
    let mut laid = Vec::new(alloc);
    for _ in 0..sinks {
        let sink = LaidOut {
            stream: Vec::new(alloc),
            layout: Layout::PLAIN,
        };
        laid.push(sink).ok()?;
    }
    let fed = text(alloc, "x")?;
    let sketch = networks.sketch(alloc, "pairs")?;
    let stream = open_stream::<Standard>(alloc, sketch, &[fed], drained).ok()?;
    let ends = LaidEnds {
        sources: sources_of(alloc, bytes, Layout::PLAIN)?,
        sinks: laid,
        tables: table_of(alloc, table, 2usize.saturating_sub(sinks))?,
    };
    serve(alloc, stream, ends, &NoOnlooker).ok()
}

/// Why a stream ended; what is told of its table; and what the table and the sink hold.
fn show_pairs(served: EndedStream<Kinds, &[u8], Vec<u8>>, is_counted: bool, answer: &mut String) {
    let _ = write!(answer, "{:?} ", served.finish);
    let mut tables = served.tables;
    if let Some(table) = tables.pop() {
        show_table(answer, &table, is_counted);
        let sink = table.into_sink();
        show_bytes(answer, sink.as_slice());
    }
    let mut outlets = served.outlets;
    if let Some(outlet) = outlets.pop() {
        let _ = answer.push_str(" sink ");
        show_bytes(answer, outlet.into_sink().as_slice());
    }
}

/// The width, how many rows wait, and of each column the tokens that it took, and those that were clipped; or of each
/// column its channel, the tokens that wait for their rows, and whether one did not fit.
fn show_table(answer: &mut String, table: &TableOutlet<Vec<u8>>, is_counted: bool) {
    if is_counted {
        let _ = write!(answer, "{} {} ", table.width(), table.waiting());
    }
    for lane in table.lanes() {
        let _ = if is_counted {
            write!(answer, "{:?} ", (lane.tokens(), lane.clipped()))
        } else {
            write!(
                answer,
                "{:?} ",
                (lane.channel(), lane.waiting(), lane.is_misfit())
            )
        };
    }
}

/// Streams words through `apart`, in which a second input is fed nothing: why that ends, and the bytes of the table.
fn show_apart(alloc: Global, networks: &Networks, words: usize, answer: &mut String) {
    let mut bytes = Vec::new(alloc);
    for _ in 0..words {
        let _ = bytes.extend_from_slice(b"7\n");
    }
    if let Some((finish, count)) = apart(alloc, networks, bytes.as_slice()) {
        let _ = write!(answer, "{finish:?} {count}");
    }
}

fn apart(alloc: Global, networks: &Networks, bytes: &[u8]) -> Option<(StreamFinish, usize)> {
    let sketch = networks.sketch(alloc, "apart")?;
    let fed = [text(alloc, "x")?, text(alloc, "u")?];
    let drained = [text(alloc, "y")?, text(alloc, "v")?];
    let stream = open_stream::<Standard>(alloc, sketch, &fed, &drained).ok()?;
    let sinks: Vec<LaidOut<Vec<u8>>> = Vec::new(alloc);
    let ends = LaidEnds {
        sources: sources_of(alloc, bytes, Layout::PLAIN)?,
        sinks,
        tables: table_of(alloc, Table::Rows(Separator::Comma), 2)?,
    };
    let served = serve(alloc, stream, ends, &NoOnlooker).ok()?;
    let mut tables = served.tables;
    let written = tables.pop()?.into_sink();
    Some((served.finish, written.len()))
}
