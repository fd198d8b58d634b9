//! Lines of flip, a scale by three, the first answers of a counter and a sink, and a run of a flip that waits for its own
//! output.
use crate::counting::network_of;
use crate::examples::flips::{FlipsRequest, run_flips};
use crate::texts::COUNTER;
use example_own_kinds::{Flips, first_answers, flip_answer, line_of, scale_answer};
use kpn_machine::cards_of;
use kpn_net::{Check, Net, Token, read_sketch};
use std::alloc::Global;
use std::rt::Clock;
use std::sync::Wait;
use std::thread::Threads;
use test_kit::Report;

/// A flip that waits for its own output.
const FLIP_LOOP: &str = "version = 1

[[process]]
name = \"k\"
kind = \"flip\"

[[channel]]
name = \"c0\"
from = \"k\"
to = \"k\"
sort = \"flags\"
";

pub(crate) fn show<R: Threads + Wait + Clock + AllocGlobal + Sync>(rt: &R, report: &mut Report) {
    let alloc = rt.alloc();
    report.show("flip waits", flip_answer(alloc, None));
    report.show("flip of true", flip_answer(alloc, Some(true)));
    report.show("flip of false", flip_answer(alloc, Some(false)));
    report.show("its line of true", line_of(Some(Token::Flag(true))));
    report.show("a scale", scale_answer(alloc, 3, 14));
    match network_of(alloc, COUNTER) {
        Ok(net) => report.show("first of each", first_answers(alloc, &net)),
        Err(_) => report.fail("the counter"),
    }
    show_loop(rt, alloc, report);
}

fn show_loop<R: Threads + Wait + Clock + Sync>(rt: &R, alloc: Global, report: &mut Report) {
    let Ok(sketch) = read_sketch(alloc, FLIP_LOOP.as_bytes()) else {
        report.fail("no sketch");
        return;
    };
    let checked: Result<Net<Flips>, _> = Net::check(alloc, &sketch);
    let Ok(net) = checked else {
        report.fail("no network");
        return;
    };
    let Ok(cards) = cards_of(alloc, &net) else {
        report.fail("no memory");
        return;
    };
    let request = FlipsRequest {
        cards: cards.as_slice(),
        net: Some(net),
        show: Some("c0"),
    };
    let mut out = Vec::new(alloc);
    report.show("a loop", run_flips(rt, alloc, request, &mut out));
    report.show("written", std::str::from_utf8(out.as_slice()));
}
