//! A run of Parks's case with a counter of five, against an end, growths and a length worked out by hand.
ghost use Rattle.std.specs.Prelude.{◌≡◌};
ghost use Rattle.test_laws.specs.WorkedRoom.{longer_parks_case as the_case};

use example_least_room::{finish, longer_parks_case};
use kpn_compute::{CardBody, bodies_of};
use kpn_machine::Machine;
use kpn_net::{Entry, Net};
use kpn_standard::Standard;
use std::alloc::Global;
use test_kit::Report;

/// By hand: the counter fills channel 0 while the copy waits to put its second token on channel 2, which the weave reads only
/// after three tokens of channel 1. Channels 0 and 2 are full with capacity one; channel 0 grows first, having the lower
/// number. When it is full, channel 2 grows. From then on no process waits for room. The counter puts 5 tokens and stops, the
/// copy takes 5 and puts 10, the weave takes 8 and puts 8, the sink takes 8 and stops; the copy and the weave wait for more.
/// With two growths these are 6 + 15 + 16 + 9 + 2 entries.
pub(crate) fn show(alloc: Global, report: &mut Report) {
    let Ok(net) = longer_parks_case(alloc) else {
        report.fail("no memory");
        return;
    };
    match bodies_of(alloc, &net) {
        Ok(bodies) => show_run(alloc, report, net, bodies),
        Err(_) => report.fail("no memory"),
    }
}

fn show_run(alloc: Global, report: &mut Report, net: Net<Standard>, bodies: Vec<CardBody<Standard>>)
    requires { net ≡ the_case }
{
    let Ok(mut machine) = Machine::open(alloc, net, bodies) else {
        report.fail("no machine");
        return;
    };
    report.show("growths in the end", finish(&mut machine));
    report.show("entries", machine.history().len());
    report.show("end", machine.end());
    for entry in machine.history() {
        if matches!(entry, Entry::Grew { .. }) {
            report.show("growth", entry);
        }
    }
}
