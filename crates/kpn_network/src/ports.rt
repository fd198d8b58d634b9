//! A table of the channels at the ports of the processes.
ghost use Rattle.std.specs.Prelude.{◌≡◌, IfOk};
ghost use Rattle.kpn_network.specs.Ports.{in_at, out_at, ports_at, HasPorts};

use kpn_model::Channel;
use std::alloc::{AllocError, Global};

/// The numbers of the channels at a process's inputs and outputs.
#[derive(Clone, Copy, Debug, PartialEq, Eq)]
pub struct Ports {
    pub ins: [Option<usize>; 3],
    pub outs: [Option<usize>; 3],
}

/// Returns the channel at input `port` of process `p`, searching all channels.
pub(crate) fn find_in(channels: &[Channel], p: usize, port: usize) -> Option<usize>
    ensures { result ≡ in_at channels.now p port }
{
    channels
        .iter()
        .position(|c| c.reader == p && c.input == port)
}

/// Returns the channel at output `port` of process `p`, searching all channels.
pub(crate) fn find_out(channels: &[Channel], p: usize, port: usize) -> Option<usize>
    ensures { result ≡ out_at channels.now p port }
{
    channels.iter().position(|c| c.writer == p && c.out == port)
}

fn ports_at(channels: &[Channel], p: usize) -> Ports
    ensures { result ≡ ports_at channels.now p }
{
    Ports {
        ins: [
            find_in(channels, p, 0),
            find_in(channels, p, 1),
            find_in(channels, p, 2),
        ],
        outs: [
            find_out(channels, p, 0),
            find_out(channels, p, 1),
            find_out(channels, p, 2),
        ],
    }
}

/// Returns the table for the first `count` processes. Errors: out of memory.
pub(crate) fn table_of(
    alloc: Global,
    channels: &[Channel],
    count: usize,
) -> Result<Vec<Ports>, AllocError>
    ensures { IfOk result (λ v. HasPorts channels.now count v.items) }
{
    let mut table = Vec::new(alloc);
    for p in 0..count {
        table.push(ports_at(channels, p))?;
    }
    Ok(table)
}
