//! The description of a network.
ghost use Rattle.std.specs.Prelude.{◌≡◌, ◌++◌, IfOk, OnOk, string_bytes};
ghost use Rattle.std.specs.List.{list_any};
ghost use Rattle.hox_expanded.specs.Description.{description, has_tokens, head, is_second, version_part};

use crate::channels::push_channels;
use crate::processes::push_processes;
use kpn_model::Kinds;
use kpn_model::limits::CEILING;
use kpn_network::Net;
use kpn_picture::Titled;
use std::alloc::{AllocError, Global};
use std::fmt::Write;

/// Whether only a description of version 2 says the network: it has a higher ceiling, or start tokens.
fn is_second<K: Kinds>(net: &Net<K>) -> bool
    ensures { result ≡ is_second net.now }
{
    net.ceiling() > CEILING as usize || holds_tokens(net)
}

fn holds_tokens<K: Kinds>(net: &Net<K>) -> bool
    ensures { result ≡ list_any has_tokens net.now.channels }
{
    for c in 0..net.channels() {
        if !net.tokens(c).is_empty() {
            return true;
        }
    }
    false
}

fn push_version(out: &mut String, is_second: bool, step: usize) -> Result<(), AllocError>
    ensures { OnOk result (string_bytes out.new ≡ string_bytes out.old ++ version_part is_second step) }
{
    if is_second {
        write!(out, "version = 2\nstep = {step}")
    } else {
        out.push_str("version = 1")
    }
}

fn push_head<K: Kinds>(out: &mut String, net: &Net<K>) -> Result<(), AllocError>
    ensures { OnOk result (string_bytes out.new ≡ string_bytes out.old ++ head net.now) }
{
    push_version(out, is_second(net), net.step())?;
    let budget = net.budget();
    write!(out, "\nbudget = {budget}\nprocess = [\n")
}

/// Returns a network as a description for `hox`, with a process and a channel a line, and keys only where they
/// differ from their defaults. It has the start tokens, and version 2 if there are any. Errors: out of memory.
pub fn description_of<K: Titled>(alloc: Global, net: &Net<K>) -> Result<String, AllocError>
    ensures { IfOk result (λ text. string_bytes text ≡ description net.now K.title) }
{
    let mut out = String::new(alloc);
    push_head(&mut out, net)?;
    push_processes(&mut out, net)?;
    out.push_str("]\nchannel = [\n")?;
    push_channels(&mut out, net)?;
    out.push_str("]\n")?;
    Ok(out)
}
