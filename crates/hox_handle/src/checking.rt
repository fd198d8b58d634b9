//! Checks a description.
ghost use Rattle.hox_handle.specs.Checking.{Checks, LoadsText};

use crate::answers::ReturnCode;
use hox_network::{AllKinds, load_by_ports};
use kpn_net::{Net, NetFault};
use std::alloc::Global;

pub(crate) fn net_of(alloc: Global, text: &[u8]) -> Result<Net<AllKinds>, NetFault>
    ensures { LoadsText text.now result }
{
    let mut source = text;
    let loaded: Result<Net<AllKinds>, _> = load_by_ports(alloc, &mut source);
    match loaded {
        Ok(net) => Ok(net),
        Err(refused) => Err(refused.fault),
    }
}

/// Checks a description. Returns `Done` if it describes a network, else its fault.
pub fn check(alloc: Global, text: &[u8]) -> ReturnCode
    ensures { Checks text.now result }
{
    match net_of(alloc, text) {
        Ok(_) => ReturnCode::Done,
        Err(fault) => ReturnCode::Description(fault),
    }
}
