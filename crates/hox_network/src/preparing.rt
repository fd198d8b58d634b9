//! Prepares the network of a description for a request.
ghost use Rattle.std.specs.Prelude.{◌≡◌, OnOk, IfErr};
ghost use Rattle.kpn_network.specs.Parts.{network_of};
ghost use Rattle.hox_network.specs.Preparing.{GivesNet, IsFault, Prepares, ServesSource};

use crate::described::load_by_ports;
use crate::names::channel_names;
use crate::parts::parts_of;
use crate::presets::{FileFault, greatest_budget, preset, set_budget};
use crate::request::{Fault, Request};
use kpn_front::Source;
use kpn_model::Kinds;
use kpn_network::{Net, Parts};
use std::alloc::Global;

/// Reads a description, and returns its network with the tokens of the request's files and the request's
/// budget, without running it.
///
/// Errors: see [`Fault`], except `NoShown`, `NoOutput` and `Lost`.
pub fn prepare<K: Kinds, I: Source>(
    alloc: Global,
    request: &Request,
    source: &mut I,
) -> Result<Net<K>, Fault>
    ensures { ServesSource K.named K.signature (GivesNet request.now) I.Source source.old source.new result }
{
    let loaded: Result<Net<K>, _> = load_by_ports(alloc, source);
    match loaded {
        Ok(net) => prepare_net(alloc, request, &net),
        Err(refused) => Err(Fault::Description(refused)),
    }
}

fn prepare_net<K: Kinds>(alloc: Global, request: &Request, net: &Net<K>) -> Result<Net<K>, Fault>
    ensures { GivesNet request.now net.now result }
{
    net.assure_valid();
    let mut parts = parts_of(alloc, net)?;
    prepare_parts(alloc, request, net, &mut parts)?;
    Ok(Net::of_parts(alloc, parts)?)
}

fn prepare_parts<K: Kinds>(
    alloc: Global,
    request: &Request,
    net: &Net<K>,
    parts: &mut Parts,
) -> Result<(), Fault>
    requires { network_of parts.old ≡ net.now }
    ensures ok { OnOk result (Prepares request.now net.now (network_of parts.new)) }
    ensures fault { IfErr result (IsFault request.now net.now) }
{
    if let Err(stop) = preset(alloc, parts, request.tokens.as_slice()) {
        return match stop.fault {
            FileFault::NoChannel => Err(Fault::NoHolder(stop.file, channel_names(alloc, net)?)),
            _ => Err(Fault::Tokens(stop)),
        };
    }
    if let Some(budget) = request.budget {
        if !set_budget(parts, budget) {
            return Err(Fault::Budget(greatest_budget(parts.ceiling)));
        }
    }
    Ok(())
}
