//! The roster of the processes, which a machine takes from. A queue is expected.
use kpn_net::{Act, Answer};
use kpn_state::standing::is_parked;
use kpn_state::{Roster, Standing};
use std::alloc::Global;
use test_kit::Report;

const READS: Standing = Standing::Parked(Answer {
    next: [0; 4],
    act: Act::Read(0),
});

pub(crate) fn show(alloc: Global, report: &mut Report) {
    if let (Ok(first), Ok(second)) = (Roster::new(alloc, 3), Roster::new(alloc, 3)) {
        ready_processes_take_turns(report, first);
        processes_are_counted(report, second);
    } else {
        report.fail("no roster");
    }
}

fn ready_processes_take_turns(report: &mut Report, mut roster: Roster) {
    let first = roster.turn(None);
    let again = roster.if_ready(0);
    let turns = [first, again, roster.turn(again), roster.turn(None)];
    report.show("turns", turns);
    if roster.as_slice().len() > 1 {
        roster.update(1, READS);
    }
    let parked = [1, 2, 3].map(|process| is_parked(roster.as_slice(), process));
    report.show("one is parked, one ready, one none", parked);
    report.show("neither is asked", [roster.if_ready(1), roster.if_ready(3)]);
    let turns = [roster.turn(None), roster.turn(None), roster.turn(None)];
    report.show("the second is left out", turns);
    report.show("ready ones", roster.ready());
}

/// How many are ready, out, parked and live.
fn show_counts(report: &mut Report, roster: &Roster) {
    let counts = (roster.ready(), roster.out(), roster.parked(), roster.live());
    report.show("ready, out, parked, live", counts);
}

fn processes_are_counted(report: &mut Report, mut roster: Roster) {
    show_counts(report, &roster);
    report.show("sent out", roster.send_out());
    show_counts(report, &roster);
    for (process, standing) in [
        (1, READS),
        (0, Standing::Stopped),
        (1, Standing::Stopped),
        (2, Standing::Stopped),
    ] {
        if process < roster.as_slice().len() {
            roster.update(process, standing);
        }
        show_counts(report, &roster);
    }
    report.show("all stopped", roster.all_stopped());
}
