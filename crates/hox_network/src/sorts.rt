//! The sorts of channels by their ports.
ghost use Rattle.std.specs.Prelude.{◌≡◌};
ghost use Rattle.hox_network.specs.Ports.{agreed, sort_by_ports};

use kpn_model::{Kinds, Sort};
use kpn_net::faults::{in_sort, out_sort};
use kpn_net::{ChannelSketch, Sketch};

/// Returns the sort of a channel's two ports if they agree, else the one that its description says.
pub(crate) fn sort_by_ports<K: Kinds>(sketch: &Sketch, channel: &ChannelSketch) -> Sort
    ensures { result ≡ sort_by_ports K.named K.signature sketch.now channel.now }
{
    let out = out_sort::<K>(sketch, channel);
    agreed(out, in_sort::<K>(sketch, channel), channel.sort)
}

/// Returns the sort of two ports if they agree, else `sort`.
fn agreed(out: Option<Sort>, input: Option<Sort>, sort: Sort) -> Sort
    ensures { result ≡ agreed out input sort }
{
    match (out, input) {
        (Some(Sort::Words), Some(Sort::Words)) => Sort::Words,
        (Some(Sort::Flags), Some(Sort::Flags)) => Sort::Flags,
        _ => sort,
    }
}
