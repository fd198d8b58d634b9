//! Opens a stream.
ghost use Rattle.std.specs.Prelude.{◌≡◌, ◌<◌, ◌⊎◌, false, IfOk, IfErr, length, map};
ghost use Rattle.std.specs.List.{list_any};
ghost use Rattle.kpn_model.specs.Network.{channel_of};
ghost use Rattle.kpn_model.specs.Families.{family};
ghost use Rattle.kpn_flow.specs.Ends.{is_no_channel};
ghost use Rattle.hox_stream.specs.Starts.{AreNamed, IsFresh, IsNameFault, IsNameOf, IsStart, IsStarted, IsStartFault, IsStreamFault, MayFlow, cards_in, is_busy, outer_process, OpensNoStream, OpensStream};

use crate::exits::Exits;
use crate::opening::net_with_exits;
use kpn_body::Body;
use kpn_compute::{Both, CardBody, Computes, bodies_of};
use kpn_flow::{Flow, FlowFault, stops_at_once};
use kpn_model::{Kinds, Text};
use kpn_net::{Net, NetFault, Sketch};
use std::alloc::{AllocError, Global};
use std::marker::Model;

/// The direction of tokens at an end of a stream.
#[derive(Clone, Copy, Debug, PartialEq, Eq)]
pub(crate) enum Way {
    In,
    Out,
}

/// Names of channels at which tokens go in, or out.
#[derive(Clone, Copy)]
struct NamedEnds<'a> {
    way: Way,
    names: &'a [Text],
}

/// Why the channel of a name can't be fed or drained. Names are numbered from 0.
#[derive(Drop)]
pub enum NameFault {
    /// No channel has the name.
    NoChannel(usize),
    /// The process at the outer end of the channel does more than stop: the writer of one to be fed, the
    /// reader of one to be drained. Its name follows.
    Busy(usize, Text),
    /// Out of memory.
    Memory,
}

/// Why a stream was not opened.
#[derive(Drop)]
pub enum StreamFault {
    /// The description has this fault.
    Description(NetFault),
    /// A channel can't be fed.
    Input(NameFault),
    /// A channel can't be drained.
    Output(NameFault),
    /// A channel is named twice.
    Twice,
    /// Out of memory.
    Memory,
}

/// A stream at its start: a flow, and its channels that are fed and drained. Contracts see the flow.
#[derive(Drop)]
pub struct OpenStream<F: Computes> {
    pub(crate) flow: Flow<CardBody<F>>,
    pub(crate) inputs: Vec<usize>,
    pub(crate) outputs: Vec<usize>,
}

impl<F: Computes> Model for OpenStream<F> {
    ghost use Rattle.kpn_model.specs.Families.{family};
    ghost use Rattle.kpn_flow.specs.Flows.{FlowView};
    ghost use Rattle.hox_stream.specs.Starts.{IsStart};

    ghost Value = { FlowView };

    ghost view = { λ m. m.flow };

    ghost invariant = { λ m. IsStart (family F.Kinds) m.flow m.inputs.items m.outputs.items };
}

impl<F: Computes> OpenStream<F> {
    /// Returns the flow, and the numbers of the channels that are fed and that are drained, in order of names.
    pub fn into_parts(self) -> (Flow<CardBody<F>>, Vec<usize>, Vec<usize>)
        ensures flow { result.0 ≡ self }
        ensures inputs { result.1.items ≡ self.inputs }
        ensures outputs { result.2.items ≡ self.outputs }
    {
        let OpenStream {
            flow,
            inputs,
            outputs,
        } = self;
        (flow, inputs, outputs)
    }
}

/// Opens a stream of a sketch's network, at its start, which feeds and drains the channels of these names.
/// Processes that only read a drained channel stop at once, as [`Exits`] do.
///
/// Errors: the fault of the changed sketch; the first name of a channel that can't be fed, then of one that
/// can't be drained; a channel named twice; or out of memory.
pub fn open_stream<K: Computes>(
    alloc: Global,
    sketch: Sketch,
    fed: &[Text],
    drained: &[Text],
) -> Result<OpenStream<Both<K, Exits>>, StreamFault>
    ensures ok { IfOk result (OpensStream K.Kinds sketch fed.now drained.now) }
    ensures fault { IfErr result (OpensNoStream K.Kinds sketch fed.now drained.now) }
{
    match net_with_exits::<K>(alloc, sketch, drained) {
        Ok(net) => open_net(alloc, net, fed, drained),
        Err(fault) => Err(StreamFault::Description(fault)),
    }
}

fn open_net<F: Computes>(
    alloc: Global,
    net: Net<F>,
    fed: &[Text],
    drained: &[Text],
) -> Result<OpenStream<F>, StreamFault>
    ensures ok { IfOk result (IsStarted (family F.Kinds) net fed.now drained.now) }
    ensures fault { IfErr result (IsStreamFault (family F.Kinds) net (λ _. ⊥) fed.now drained.now) }
{
    let Ok(bodies) = bodies_of(alloc, &net) else {
        return Err(StreamFault::Memory);
    };
    let named_in = NamedEnds {
        way: Way::In,
        names: fed,
    };
    let named_out = NamedEnds {
        way: Way::Out,
        names: drained,
    };
    let inputs = match channels_at(alloc, &net, bodies.as_slice(), &named_in) {
        Ok(inputs) => inputs,
        Err(fault) => return Err(StreamFault::Input(fault)),
    };
    let outputs = match channels_at(alloc, &net, bodies.as_slice(), &named_out) {
        Ok(outputs) => outputs,
        Err(fault) => return Err(StreamFault::Output(fault)),
    };
    start(alloc, net, bodies, inputs, outputs)
}

fn start<F: Computes>(
    alloc: Global,
    net: Net<F>,
    bodies: Vec<CardBody<F>>,
    inputs: Vec<usize>,
    outputs: Vec<usize>,
) -> Result<OpenStream<F>, StreamFault>
    requires { MayFlow (family F.Kinds) net (map ⟦<CardBody<F> as Body>⟧.card bodies.items) inputs.items outputs.items }
    ensures fresh { IfOk result (IsFresh (family F.Kinds) net) }
    ensures inputs { IfOk result (λ s. s.inputs ≡ inputs.items) }
    ensures outputs { IfOk result (λ s. s.outputs ≡ outputs.items) }
    ensures fault { IfErr result (IsStartFault inputs.items outputs.items) }
{
    match Flow::open(alloc, net, bodies, inputs.as_slice(), outputs.as_slice()) {
        Ok(flow) => Ok(OpenStream {
            flow,
            inputs,
            outputs,
        }),
        Err(refused) => Err(fault_of(refused.fault)),
    }
}

fn fault_of(fault: FlowFault) -> StreamFault
    requires { (fault ≡ FlowFault.Twice) ⊎ (fault ≡ FlowFault.Memory) }
    ensures twice { fault ≡ FlowFault.Twice → result ≡ StreamFault.Twice }
    ensures memory { fault ≡ FlowFault.Memory → result ≡ StreamFault.Memory }
{
    match fault {
        FlowFault::Twice => StreamFault::Twice,
        FlowFault::Memory => StreamFault::Memory,
        _ => unreachable!(),
    }
}

/// Finds the channels of these names, in order.
fn channels_at<B: Body>(
    alloc: Global,
    net: &Net<B::Kinds>,
    bodies: &[B],
    ends: &NamedEnds<'_>,
) -> Result<Vec<usize>, NameFault>
    requires { map B.card bodies.now ≡ cards_in net.now }
    ensures named { IfOk result (λ v. AreNamed net.now ends.now.names.now v.items) }
    ensures within { IfOk result (λ v. list_any (is_no_channel net.now) v.items ≡ false) }
    ensures idle { IfOk result (λ v. list_any (is_busy (family B.Kinds.Kinds) net.now ends.now.way) v.items ≡ false) }
    ensures fault { IfErr result (IsNameFault (family B.Kinds.Kinds) net.now ends.now.way ends.now.names.now) }
{
    let mut channels = Vec::new(alloc);
    for k in 0..ends.names.len() {
        let Some(channel) = net.find_channel(ends.names[k].as_str()) else {
            return Err(NameFault::NoChannel(k));
        };
        let process = outer_process(net, ends.way, channel);
        if !stops_at_once(bodies, process) {
            let Ok(name) = name_of(alloc, net, process) else {
                return Err(NameFault::Memory);
            };
            return Err(NameFault::Busy(k, name));
        }
        if channels.push(channel).is_err() {
            return Err(NameFault::Memory);
        }
    }
    Ok(channels)
}

/// Returns the writer of a channel to be fed, or the reader of one to be drained.
fn outer_process<K: Kinds>(net: &Net<K>, way: Way, channel: usize) -> usize
    requires { channel < length net.now.channels }
    ensures is { result ≡ outer_process way (channel_of net.now channel) }
    ensures within { result < length net.now.processes }
{
    net.assure_valid();
    let ends = net.ends(channel);
    match way {
        Way::In => ends.writer,
        Way::Out => ends.reader,
    }
}

fn name_of<K: Kinds>(alloc: Global, net: &Net<K>, process: usize) -> Result<Text, AllocError>
    requires { process < length net.now.processes }
    ensures { IfOk result (IsNameOf net.now process) }
{
    Ok(Text::new(String::from_str(alloc, net.process_name(process))?))
}
