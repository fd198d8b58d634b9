//! Opens a flow from the first lines.
use crate::piped::{CardFlow, Piped, Port};
use anyhow::{Result, bail};
use kpn_compute::{CardBody, bodies_of};
use kpn_flow::{Flow, stops_at_once};
use kpn_net::{Check, Net, NetFault, read_sketch};
use kpn_standard::Standard;
use std::alloc::Global;
use std::io::BufRead;

/// The text of a description, and the lines that name the inputs and the outputs.
#[derive(Drop)]
pub struct Description {
    text: String,
    inputs: String,
    outputs: String,
}

#[derive(Drop)]
struct Ports {
    inputs: Vec<Port>,
    outputs: Vec<Port>,
}

/// Reads the lines of a description, and the two that follow.
pub fn read_description<S: BufRead>(alloc: Global, source: &mut S) -> Result<Description> {
    let mut text = String::new(alloc);
    let inputs = read_text(alloc, source, &mut text)?;
    let mut outputs = String::new(alloc);
    source.read_line(&mut outputs)?;
    Ok(Description {
        text,
        inputs,
        outputs,
    })
}

/// Appends the lines of a description to `text`, and returns the next one, which begins with `inputs`.
fn read_text<S: BufRead>(alloc: Global, source: &mut S, text: &mut String) -> Result<String> {
    for _ in 0..u64::MAX {
        let line = next_line(alloc, source)?;
        if line.starts_with("inputs") {
            return Ok(line);
        }
        text.push_str(line.as_str())?;
    }
    bail!("the description does not end");
}

fn next_line<S: BufRead>(alloc: Global, source: &mut S) -> Result<String> {
    let mut line = String::new(alloc);
    match source.read_line(&mut line)? {
        0 => bail!("no line that begins with `inputs`"),
        _ => Ok(line),
    }
}

/// Opens a flow of the described network.
pub fn open(alloc: Global, description: &Description) -> Result<Piped> {
    match net_of(alloc, description.text.as_str()) {
        Ok(net) => open_net(alloc, net, description),
        Err(fault) => bail!("{fault}"),
    }
}

fn net_of(alloc: Global, text: &str) -> Result<Net<Standard>, NetFault> {
    let sketch = read_sketch(alloc, text.as_bytes())?;
    Net::check(alloc, &sketch)
}

fn open_net(alloc: Global, net: Net<Standard>, description: &Description) -> Result<Piped> {
    let ports = ports_of(alloc, &net, description)?;
    let flow = flow_between(alloc, net, &ports)?;
    Ok(Piped::new(flow, ports.inputs, ports.outputs))
}

fn ports_of(alloc: Global, net: &Net<Standard>, description: &Description) -> Result<Ports> {
    let inputs = named_in(alloc, net, description.inputs.as_str())?;
    let outputs = named_in(alloc, net, description.outputs.as_str())?;
    Ok(Ports { inputs, outputs })
}

/// Returns the channels that a line names after its first word.
fn named_in(alloc: Global, net: &Net<Standard>, line: &str) -> Result<Vec<Port>> {
    let mut ports = Vec::new(alloc);
    for word in line.split_whitespace().skip(1) {
        ports.push(port_of(alloc, net, word)?)?;
    }
    Ok(ports)
}

fn port_of(alloc: Global, net: &Net<Standard>, word: &str) -> Result<Port> {
    let Some(channel) = net.find_channel(word) else {
        bail!("no channel {word}");
    };
    let name = String::from_str(alloc, word)?;
    Ok(Port { channel, name })
}

fn flow_between(alloc: Global, net: Net<Standard>, ports: &Ports) -> Result<CardFlow> {
    let bodies = bodies_of(alloc, &net)?;
    let mut fed = Vec::new(alloc);
    for port in &ports.inputs {
        fed.push(fed_alone(&net, bodies.as_slice(), port.channel)?)?;
    }
    let drained: Vec<usize> = ports
        .outputs
        .iter()
        .map(|port| port.channel)
        .collect(alloc)?;
    match Flow::open(alloc, net, bodies, fed.as_slice(), drained.as_slice()) {
        Ok(flow) => Ok(flow),
        Err(refused) => bail!("{:?}", refused.fault),
    }
}

/// Returns the channel if its writer stops at once, so that it can be fed.
fn fed_alone(net: &Net<Standard>, bodies: &[CardBody<Standard>], channel: usize) -> Result<usize> {
    if channel >= net.channels() {
        bail!("no channel {channel}");
    }
    let process = net.ends(channel).writer;
    if process < bodies.len() {
        if stops_at_once(bodies, process) {
            return Ok(channel);
        }
    }
    bail!("channel {} has a writer", net.channel_name(channel));
}
