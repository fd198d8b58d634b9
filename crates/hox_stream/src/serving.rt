//! Runs a stream from its start to its end.
ghost use Rattle.std.specs.Prelude.{◌≡◌, IfOk};
ghost use Rattle.kpn_model.specs.Network.{channel_of};
ghost use Rattle.kpn_model.specs.Families.{family};
ghost use Rattle.hox_stream.specs.Serves.{ServesEnds, new_inlets, new_outs, laid_inlet, flow_inlets};

use crate::finish::StreamFinish;
use crate::inlet::Inlet;
use crate::outlet::Outlet;
use crate::placing::outs_of;
use crate::starting::OpenStream;
use crate::streaming::stream_out;
use crate::table::TableOutlet;
use crate::telling::Outs;
use crate::watching::Onlooker;
use kpn_compute::{CardBody, Computes};
use kpn_flow::Flow;
use kpn_front::{Sink, Source};
use kpn_model::{Kinds, Sort};
use kpn_net::Net;
use kpn_tokens::{Decimals, Layout, Table};
use std::alloc::{AllocError, Global};

/// A source or a sink, and the layout of its tokens.
#[derive(Drop)]
pub struct LaidOut<S> {
    pub stream: S,
    pub layout: Layout,
}

/// A sink for several channels: their arrangement, and how each column's words are written (ignored for samples).
#[derive(Drop)]
pub struct LaidTable<S> {
    pub stream: S,
    pub table: Table,
    pub columns: Vec<Decimals>,
}

/// The sources and sinks of a stream: the sources belong to the channels that are fed, in order; the sinks, and
/// then the columns of the tables, to those that are drained.
#[derive(Drop)]
pub struct LaidEnds<I, O> {
    pub sources: Vec<LaidOut<I>>,
    pub sinks: Vec<LaidOut<O>>,
    pub tables: Vec<LaidTable<O>>,
}

/// What is left of a stream that ended: its flow, sources and sinks, in order, and why it ended.
#[derive(Drop)]
pub struct EndedStream<F: Computes, I: Source, O: Sink> {
    pub flow: Flow<CardBody<F>>,
    pub inlets: Vec<Inlet<I>>,
    pub outlets: Vec<Outlet<O>>,
    pub tables: Vec<TableOutlet<O>>,
    pub finish: StreamFinish,
}

/// Runs a stream until it ends. Superfluous ends are dropped. A source is read only when a process waits for
/// its tokens, after all output is written. In a table a token waits until its row has one in each column; at
/// the end the remaining rows are written, with gaps. The onlooker sees how the stream goes.
///
/// The tokens fed into a channel are those of the records read from its source. The tokens drained from a
/// channel are written to its sink, each as a record, or to its column, up to one that does not fit the
/// layout. So the output is a prefix of the streams of every run of the network on the same input (Kahn
/// 1974), and the sizes of the pieces that are read don't matter (docs/endless.md).
///
/// Memory: at most 8,192 bytes for each source; for each sink, 4,096 bytes and the records of 64 tokens or a
/// row; for each channel of a table, at most 1,000,064 tokens that wait for their rows; and the growths.
///
/// Errors: out of memory, before anything is read or written.
pub fn serve<F: Computes, I: Source + Drop, O: Sink + Drop, L: Onlooker>(
    alloc: Global,
    opened: OpenStream<F>,
    ends: LaidEnds<I, O>,
    onlooker: &L,
) -> Result<EndedStream<F, I, O>, AllocError>
    ensures { IfOk result (λ r. ServesEnds (family F.Kinds) I.remaining I.has_failed O.seen opened ends r) }
{
    let LaidEnds {
        sources,
        sinks,
        tables,
    } = ends;
    let StreamPorts {
        mut inlets,
        mut outs,
    } = ports_of(alloc, &opened, sources, sinks, tables)?;
    let OpenStream {
        mut flow,
        inputs: _,
        outputs: _,
    } = opened;
    let finish = stream_out(alloc, &mut flow, inlets.as_mut_slice(), &mut outs, onlooker);
    let Outs { sinks, tables } = outs;
    Ok(EndedStream {
        flow,
        inlets,
        outlets: sinks,
        tables,
        finish,
    })
}

/// What a stream reads from, and what it writes to.
#[derive(Drop)]
struct StreamPorts<I: Source, O: Sink> {
    inlets: Vec<Inlet<I>>,
    outs: Outs<O>,
}

fn ports_of<F: Computes, I: Source + Drop, O: Sink + Drop>(
    alloc: Global,
    opened: &OpenStream<F>,
    sources: Vec<LaidOut<I>>,
    sinks: Vec<LaidOut<O>>,
    tables: Vec<LaidTable<O>>,
) -> Result<StreamPorts<I, O>, AllocError>
    ensures inlets { IfOk result (λ r. r.inlets.items ≡ flow_inlets I.remaining I.has_failed opened.now sources.items) }
    ensures outs { IfOk result (λ r. r.outs ≡ new_outs O.seen opened.now.outputs sinks.items tables.items) }
{
    let net = opened.flow.net();
    Ok(StreamPorts {
        inlets: inlets_of(alloc, net, opened.inputs.as_slice(), sources)?,
        outs: outs_of(alloc, opened.outputs.as_slice(), sinks, tables)?,
    })
}

fn inlets_of<K: Kinds, S: Source + Drop>(
    alloc: Global,
    net: &Net<K>,
    channels: &[usize],
    sources: Vec<LaidOut<S>>,
) -> Result<Vec<Inlet<S>>, AllocError>
    ensures { IfOk result (λ v. v.items ≡ new_inlets S.remaining S.has_failed net.now channels.now sources.items) }
{
    let mut inlets = Vec::new(alloc);
    let mut left = channels;
    for source in sources {
        let Some((channel, later)) = left.split_first() else {
            continue;
        };
        left = later;
        inlets.push(inlet_for(alloc, net, *channel, source))?;
    }
    Ok(inlets)
}

fn inlet_for<K: Kinds, S: Source>(
    alloc: Global,
    net: &Net<K>,
    channel: usize,
    source: LaidOut<S>,
) -> Inlet<S>
    ensures { result ≡ laid_inlet S.remaining S.has_failed net.now channel source }
{
    let sort = sort_of(net, channel);
    Inlet::new(alloc, channel, source.layout, sort, source.stream)
}

/// Returns the sort of a channel; words if there is no such channel.
pub(crate) fn sort_of<K: Kinds>(net: &Net<K>, channel: usize) -> Sort
    ensures { result ≡ (channel_of net.now channel).sort }
{
    if channel < net.channels() {
        net.sort(channel)
    } else {
        Sort::Words
    }
}
