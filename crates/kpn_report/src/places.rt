//! Where a run left the processes.
ghost use Rattle.std.specs.Prelude.{◌≡◌, IfOk};
ghost use Rattle.kpn_model.specs.History.{place_of};
ghost use Rattle.kpn_report.specs.Reported.{parked_places};

use kpn_model::{Act, Answer, Kinds, Place};
use kpn_network::Net;
use kpn_state::Standing;
use kpn_state::standing::parked;
use std::alloc::{AllocError, Global};

/// Returns the place of a process with this answer, if any.
fn place<K: Kinds>(net: &Net<K>, process: usize, wanted: Option<Answer>) -> Place
    ensures { result ≡ place_of net.now process wanted }
{
    match wanted.map(|answer| answer.act) {
        Some(Act::Read(port)) => match net.in_of(process, usize::from(port)) {
            Some(channel) => Place::Reads(channel),
            None => Place::Stopped,
        },
        Some(Act::Write(port, _)) => match net.out_of(process, usize::from(port)) {
            Some(channel) => Place::Writes(channel),
            None => Place::Stopped,
        },
        Some(Act::Stop) | None => Place::Stopped,
    }
}

/// Returns each process's place: a parked process reads or writes the channel at which it waits; any other
/// counts as stopped. If none is ready or out, these are the places in the report. Errors: out of memory.
///
/// ```text
/// let places = places_of(alloc, net, flow.standings())?;
/// ```
pub fn places_of<K: Kinds>(
    alloc: Global,
    net: &Net<K>,
    standings: &[Standing],
) -> Result<Vec<Place>, AllocError>
    ensures { IfOk result (λ v. v.items ≡ parked_places net.now standings.now) }
{
    let mut places = Vec::with_capacity(alloc, net.processes())?;
    for process in 0..net.processes() {
        let wanted = parked(standings, process);
        places.push(place(net, process, wanted))?;
    }
    Ok(places)
}
