//! The names of a network's channels.
ghost use Rattle.std.specs.Prelude.{◌≡◌, IfOk};
ghost use Rattle.hox_network.specs.Preparing.{channel_names};

use kpn_model::{Kinds, Listed, Text};
use kpn_network::Net;
use std::alloc::{AllocError, Global};

/// Returns the names of a network's channels, in order.
///
/// Errors: out of memory.
pub fn channel_names<K: Kinds>(alloc: Global, net: &Net<K>) -> Result<Listed<Text>, AllocError>
    ensures { IfOk result (λ names. names ≡ channel_names net.now) }
{
    let channels = net.channel_list();
    let mut names = Vec::with_capacity(alloc, channels.len())?;
    for channel in channels {
        names.push(Text::new(String::from_str(alloc, channel.name.as_str())?))?;
    }
    Ok(Listed::new(names))
}
