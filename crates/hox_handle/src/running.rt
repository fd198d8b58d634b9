//! Runs the network of a description.
ghost use Rattle.std.specs.Prelude.{IfOk, IsSome};
ghost use Rattle.hox_handle.specs.Running.{IsRunTold, Runs};

use crate::checking::net_of;
use hox_network::AllKinds;
use kpn_compute::{CardBody, bodies_of};
use kpn_laws::{determinacy_of, least_room_of, least_solution_of};
use kpn_machine::{Chronicle, Machine};
use kpn_model::End;
use kpn_net::{Net, NetFault};
use kpn_report::{Tallied, places_of, text_of_entries};
use std::alloc::{AllocError, Global};

/// The end of a run, and its report.
#[derive(Drop)]
pub struct RunReport {
    pub end: End,
    pub report: String,
}

/// Runs the network of a description from start to end, in the calling thread, within its budget.
///
/// Errors: the fault of the description; `Memory` if out of memory before the run or for the report.
pub fn run(alloc: Global, text: &[u8]) -> Result<RunReport, NetFault>
    ensures { Runs text.now result }
{
    let net = net_of(alloc, text)?;
    match run_net(alloc, net) {
        Ok(told) => Ok(told),
        Err(_) => Err(NetFault::Memory),
    }
}

fn run_net(alloc: Global, net: Net<AllKinds>) -> Result<RunReport, AllocError>
    ensures { IfOk result (IsRunTold net) }
{
    let bodies = bodies_of(alloc, &net)?;
    let opened = Machine::<CardBody<AllKinds>, Tallied>::open_with_keeper(alloc, net, bodies);
    let Ok(mut machine) = opened else {
        return Err(AllocError);
    };
    machine.finish_alone();
    tell_run(alloc, &machine.into_chronicle())
}

fn tell_run(
    alloc: Global,
    chronicle: &Chronicle<AllKinds, Tallied>,
) -> Result<RunReport, AllocError>
    requires { IsSome chronicle.now.end }
    ensures { IfOk result (IsRunTold chronicle.now.network) }
{
    let Some(end) = chronicle.end() else {
        unreachable!()
    };
    determinacy_of::<AllKinds>();
    least_room_of::<AllKinds>();
    least_solution_of::<AllKinds>();
    let net = chronicle.net();
    let places = places_of(alloc, net, chronicle.standings())?;
    let entries = chronicle.keeper();
    let report = text_of_entries(alloc, net, entries, places.as_slice(), end, None)?;
    Ok(RunReport { end, report })
}
