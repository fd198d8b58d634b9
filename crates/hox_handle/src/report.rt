//! Reports how a flow stands.
ghost use Rattle.std.specs.Prelude.{◌≡◌, IfOk, OnOk, string_bytes};
ghost use Rattle.kpn_state.specs.Standings.{is_busy, standing};
ghost use Rattle.kpn_report.specs.Text.{AppendsText};
ghost use Rattle.hox_handle.specs.Reports.{channel_line, count_line, lines_of_channels, lines_of_processes, process_line, stand_line, TellsStand};
ghost use Rattle.hox_handle.specs.Sessions.{flow_kinds};

use crate::session::Session;
use kpn_body::Body;
use kpn_flow::{Flow, Pause};
use kpn_model::{End, Kinds, Place};
use kpn_network::Net;
use kpn_network::names::{channel_name, process_name};
use kpn_report::places_of;
use kpn_state::Standing;
use std::alloc::{AllocError, Global};
use std::fmt::Write;

impl Session {
    /// Returns the report: how the flow stands, what each process does, the tokens and the capacity of each
    /// channel, and the numbers of entries and growths.
    ///
    /// Errors: out of memory.
    pub fn report(&self, alloc: Global) -> Result<String, AllocError>
        ensures { IfOk result (λ text. TellsStand flow_kinds self.now (string_bytes text)) }
    {
        let net = self.flow.net();
        let standings = self.flow.standings();
        let places = places_of(alloc, net, standings)?;
        let mut out = String::new(alloc);
        push_stand(&mut out, self.flow.stand())?;
        push_processes(&mut out, net, standings, places.as_slice())?;
        push_channels(&mut out, &self.flow)?;
        push_counts(&mut out, &self.flow)?;
        Ok(out)
    }
}

fn push_stand(out: &mut String, stand: Pause) -> Result<(), AllocError>
    ensures { OnOk result (AppendsText out.old out.new (stand_line stand)) }
{
    out.push_str(match stand {
        Pause::Cut => "goes on\n",
        Pause::Starved => "starved\n",
        Pause::Blocked => "blocked\n",
        Pause::Over(End::Terminated) => "end terminated\n",
        Pause::Over(End::Deadlock) => "end deadlock\n",
        Pause::Over(End::Ceiling) => "end ceiling\n",
        Pause::Over(End::Budget) => "end budget\n",
        Pause::Over(End::Memory) => "end memory\n",
    })
}

fn is_busy(standings: &[Standing], p: usize) -> bool
    ensures { result ≡ is_busy (standing standings.now p) }
{
    matches!(standings.get(p), Some(Standing::Ready | Standing::Out))
}

fn push_process<K: Kinds>(
    out: &mut String,
    net: &Net<K>,
    standings: &[Standing],
    places: &[Place],
    p: usize,
) -> Result<(), AllocError>
    ensures { OnOk result (AppendsText out.old out.new (process_line net.now standings.now places.now p)) }
{
    let name = process_name(net, p);
    if is_busy(standings, p) {
        return write!(out, "process {name} goes on\n");
    }
    match places.get(p).copied().unwrap_or(Place::Stopped) {
        Place::Stopped => write!(out, "process {name} stopped\n"),
        Place::Reads(c) => {
            let channel = channel_name(net, c);
            write!(out, "process {name} reads {channel}\n")
        }
        Place::Writes(c) => {
            let channel = channel_name(net, c);
            write!(out, "process {name} writes {channel}\n")
        }
    }
}

fn push_processes<K: Kinds>(
    out: &mut String,
    net: &Net<K>,
    standings: &[Standing],
    places: &[Place],
) -> Result<(), AllocError>
    ensures { OnOk result (AppendsText out.old out.new (lines_of_processes net.now standings.now places.now)) }
{
    for p in 0..net.processes() {
        push_process(out, net, standings, places, p)?;
    }
    Ok(())
}

fn push_channel<B: Body>(out: &mut String, flow: &Flow<B>, c: usize) -> Result<(), AllocError>
    ensures { OnOk result (AppendsText out.old out.new (channel_line flow.now.network flow.now.state c)) }
{
    let name = channel_name(flow.net(), c);
    let (left, capacity) = flow.tokens_and_capacity(c);
    write!(out, "channel {name} left {left} capacity {capacity}\n")
}

fn push_channels<B: Body>(out: &mut String, flow: &Flow<B>) -> Result<(), AllocError>
    ensures { OnOk result (AppendsText out.old out.new (lines_of_channels flow.now.network flow.now.state)) }
{
    for c in 0..flow.net().channels() {
        push_channel(out, flow, c)?;
    }
    Ok(())
}

fn push_counts<B: Body>(out: &mut String, flow: &Flow<B>) -> Result<(), AllocError>
    ensures { OnOk result (AppendsText out.old out.new (count_line flow.now)) }
{
    let (entries, growths) = (flow.entries(), flow.growths());
    write!(out, "entries {entries} growths {growths}\n")
}
