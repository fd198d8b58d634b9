//! The tally of entries that were counted while they were kept.
ghost use Rattle.std.specs.Prelude.{◌≡◌, ◌<◌, [], IfOk};
ghost use Rattle.kpn_model.specs.History.{growths as growths_of};
ghost use Rattle.kpn_report.specs.Tally.{CountsSteps, KeepsCounts};

use crate::channel_counts::ChannelCounts;
use crate::tallied::Tallied;
use crate::tally::Tally;
use kpn_model::Kinds;
use kpn_network::Net;
use std::alloc::{AllocError, Global};

/// Returns the tally of counted entries without growths. Errors: out of memory.
pub(crate) fn counted_tally<K: Kinds>(
    alloc: Global,
    net: &Net<K>,
    tallied: &Tallied,
) -> Result<Tally, AllocError>
    requires none { growths_of tallied.now.entries ≡ [] }
    ensures steps { IfOk result (λ t. CountsSteps net.now tallied.now.entries t.steps.items) }
    ensures channel_counts { IfOk result (λ t. KeepsCounts net.now tallied.now.entries t.channel_counts.items) }
    ensures growths { IfOk result (λ t. t.growths.items ≡ growths_of tallied.now.entries) }
{
    net.assure_valid();
    let mut channel_counts = Vec::with_capacity(alloc, net.channels())?;
    for c in 0..net.channels() {
        let (put, taken) = tallied.put_and_taken(c);
        channel_counts.push(ChannelCounts {
            put: put as usize,
            taken: taken as usize,
            capacity: net.capacity(c),
        })?;
    }
    Ok(Tally {
        steps: counted_steps(alloc, net, tallied)?,
        channel_counts,
        growths: Vec::new(alloc),
    })
}

fn counted_steps<K: Kinds>(
    alloc: Global,
    net: &Net<K>,
    tallied: &Tallied,
) -> Result<Vec<u64>, AllocError>
    ensures { IfOk result (λ v. CountsSteps net.now tallied.now.entries v.items) }
{
    net.assure_valid();
    let mut steps = Vec::with_capacity(alloc, net.processes())?;
    for p in 0..net.processes() {
        steps.push(tallied.steps(p))?;
    }
    Ok(steps)
}
