//! The first fault of a sketch, and the condition of each.
ghost use Rattle.std.specs.Prelude.{◌≡◌};
ghost use Rattle.kpn_net.specs.Faults.{first_fault, has_fault};

use crate::limits::{
    has_channel_with_wrong_tokens, has_wrong_budget, has_wrong_capacities, has_wrong_counts,
    has_wrong_step, has_wrong_version,
};
pub use crate::limits::{has_wrong_capacity, has_wrong_tokens, is_token};
use crate::names::has_wrong_names;
pub use crate::names::{Clash, SameName, is_name, process_named};
use crate::ports::{
    has_channel_without_end, has_process_with_wrong_args, has_unknown_kinds, has_unused_ports,
    has_wrong_sorts, shares_port,
};
pub use crate::ports::{
    SameIn, SameOut, has_unknown_kind, has_unused_port, has_wrong_args, has_wrong_sort, in_sort,
    is_sort, is_unused_in, is_unused_out, lacks_end, out_sort, port_sort, signature_of,
    takes_other_count,
};
use kpn_model::Kinds;
use kpn_sketch::{NetFault, Sketch};

/// Returns the fault with the lowest number whose condition holds, if any.
pub(crate) fn first_fault<K: Kinds>(sketch: &Sketch) -> Option<NetFault>
    ensures { result ≡ first_fault K.named K.signature sketch.now }
{
    if has_wrong_version::<K>(sketch) {
        Some(NetFault::Version)
    } else if has_wrong_counts::<K>(sketch) {
        Some(NetFault::Counts)
    } else if has_wrong_names::<K>(sketch) {
        Some(NetFault::Name)
    } else if has_unknown_kinds::<K>(sketch) {
        Some(NetFault::Kind)
    } else if has_process_with_wrong_args::<K>(sketch) {
        Some(NetFault::Args)
    } else if has_channel_without_end::<K>(sketch) {
        Some(NetFault::NoEnd)
    } else if shares_port::<K>(sketch) {
        Some(NetFault::Twice)
    } else if has_unused_ports::<K>(sketch) {
        Some(NetFault::Unused)
    } else if has_wrong_sorts::<K>(sketch) {
        Some(NetFault::Sorts)
    } else if has_wrong_capacities::<K>(sketch) {
        Some(NetFault::Capacity)
    } else if has_wrong_budget::<K>(sketch) {
        Some(NetFault::Budget)
    } else if has_channel_with_wrong_tokens::<K>(sketch) {
        Some(NetFault::Tokens)
    } else if has_wrong_step::<K>(sketch) {
        Some(NetFault::Step)
    } else {
        None
    }
}

/// Whether the condition of a fault holds; never for `NotToml`, `Keys`, `Memory` and `Input`.
pub fn has_fault<K: Kinds>(sketch: &Sketch, fault: NetFault) -> bool
    ensures { result ≡ has_fault K.named K.signature sketch.now fault }
{
    match fault {
        NetFault::Version => has_wrong_version::<K>(sketch),
        NetFault::Counts => has_wrong_counts::<K>(sketch),
        NetFault::Name => has_wrong_names::<K>(sketch),
        NetFault::Kind => has_unknown_kinds::<K>(sketch),
        NetFault::Args => has_process_with_wrong_args::<K>(sketch),
        NetFault::NoEnd => has_channel_without_end::<K>(sketch),
        NetFault::Twice => shares_port::<K>(sketch),
        NetFault::Unused => has_unused_ports::<K>(sketch),
        NetFault::Sorts => has_wrong_sorts::<K>(sketch),
        NetFault::Capacity => has_wrong_capacities::<K>(sketch),
        NetFault::Budget => has_wrong_budget::<K>(sketch),
        NetFault::Tokens => has_channel_with_wrong_tokens::<K>(sketch),
        NetFault::Step => has_wrong_step::<K>(sketch),
        NetFault::NotToml | NetFault::Keys | NetFault::Memory | NetFault::Input => false,
    }
}
