//! Names of processes and channels that a network may have.
ghost use Rattle.std.specs.Prelude.{◌≡◌};
ghost use Rattle.kpn_model.specs.texts.Names.{channel_name, process_name};

use crate::net::Net;
use kpn_model::Kinds;

/// Returns the name of a process; empty if the network has no such process.
pub fn process_name<K: Kinds>(net: &Net<K>, process: usize) -> &str
    ensures { result.now ≡ process_name net.now process }
{
    if process < net.processes() {
        net.process_name(process)
    } else {
        ""
    }
}

/// Returns the name of a channel; empty if the network has no such channel.
pub fn channel_name<K: Kinds>(net: &Net<K>, channel: usize) -> &str
    ensures { result.now ≡ channel_name net.now channel }
{
    if channel < net.channels() {
        net.channel_name(channel)
    } else {
        ""
    }
}
