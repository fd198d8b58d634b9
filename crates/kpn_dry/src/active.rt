//! Which processes could go on, as text.
ghost use Rattle.std.specs.Prelude.{◌≡◌, ◌++◌, OnOk, string_bytes};
ghost use Rattle.kpn_dry.specs.ActiveLine.{told_line, told_names, told_name};

use crate::telling::is_dry;
use kpn_model::Kinds;
use kpn_network::Net;
use kpn_network::names::process_name;
use kpn_state::Standing;
use std::alloc::AllocError;
use std::fmt::Write;

/// Appends a line with the processes that are not dry, in order, as `active left right`. Errors: out of memory.
pub fn push_active_line<K: Kinds>(
    out: &mut String,
    net: &Net<K>,
    standings: &[Standing],
) -> Result<(), AllocError>
    ensures { OnOk result (string_bytes out.new ≡ string_bytes out.old ++ told_line net.now standings.now) }
{
    out.push_str("active")?;
    push_active_names(out, net, standings)?;
    out.push_str("\n")
}

fn push_active_names<K: Kinds>(
    out: &mut String,
    net: &Net<K>,
    standings: &[Standing],
) -> Result<(), AllocError>
    ensures { OnOk result (string_bytes out.new ≡ string_bytes out.old ++ told_names net.now standings.now) }
{
    for p in 0..net.processes() {
        push_active_name(out, net, standings, p)?;
    }
    Ok(())
}

fn push_active_name<K: Kinds>(
    out: &mut String,
    net: &Net<K>,
    standings: &[Standing],
    process: usize,
) -> Result<(), AllocError>
    ensures { OnOk result (string_bytes out.new ≡ string_bytes out.old ++ told_name net.now standings.now process) }
{
    if is_dry(net, standings, process) {
        return Ok(());
    }
    let name = process_name(net, process);
    write!(out, " {name}")
}
