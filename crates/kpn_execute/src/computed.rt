//! Networks of families with a plain function for their answers.
ghost use Rattle.kpn_execute.specs.Execution.{MakesAndExecutesNet};

use crate::execution::execute;
use kpn_compute::{Computes, bodies_of};
use kpn_front::{Sink, say_refused};
use kpn_net::{Net, NetFault};
use std::alloc::Global;
use std::rt::Clock;
use std::sync::Wait;
use std::thread::Threads;

/// Runs a network of a family with a plain function for its answers, like `execute`, and makes a body for each
/// process.
///
/// Returns the exit status of `execute`, or 4 if out of memory for the bodies (`refused 14`).
pub fn execute_net<K: Computes, S: Sink, R: Wait + Clock + Threads + Sync>(
    rt: &R,
    alloc: Global,
    net: Net<K>,
    workers: usize,
    show: Option<&str>,
    sink: &mut S,
) -> u8
    ensures { MakesAndExecutesNet K.Kinds net workers show.entry (S.seen sink.old) (S.seen sink.new) result }
{
    match bodies_of(alloc, &net) {
        Ok(bodies) => execute(rt, alloc, net, bodies, workers, show, sink),
        Err(_) => say_refused(&NetFault::Memory, sink),
    }
}
