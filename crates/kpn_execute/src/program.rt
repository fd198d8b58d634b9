//! The program, from its arguments and input to its output.
ghost use Rattle.std.specs.Prelude.{◌≡◌, ◌≢◌, ◌+◌, [], Some, None, string_bytes, IfSome, IfOk, IfErr, OnErr, map};
ghost use Rattle.kpn_args.specs.Choices.{IsWordsFault};
ghost use Rattle.kpn_front.specs.Loading.{ConsumesAtMost, longest};
ghost use Rattle.kpn_execute.specs.Execution.{Writes};
ghost use Rattle.kpn_execute.specs.Program.{TellsOf, SaysRefused, Serving};

use crate::standard::execute_standard;
use kpn_args::{Choice, WordsFault, read_words};
use kpn_front::{Refused, Sink, Source, load_or_refuse, say_checked, say_refused};
use kpn_message::message_of;
use kpn_net::{Net, NetFault};
use kpn_standard::Standard;
use std::alloc::Global;
use std::rt::Clock;
use std::sync::Wait;
use std::thread::Threads;

/// The names of the standard kinds, as messages list them.
pub const KINDS: &str =
    "add, copy, count, divides, merge, prefix, scale, select, sink, switch, take and weave";

/// The exit status, and the fault of a refused description and what is wrong with it and where.
///
/// There is no message if the description was accepted, if the fault says all (`Memory` and `Input`), or if
/// out of memory for it. Contracts only say that a message isn't empty.
#[derive(Drop)]
pub struct Served {
    pub status: u8,
    pub fault: Option<NetFault>,
    pub message: Option<String>,
}

/// Does what the arguments ask for; the first is the program's name. Reads a description, and writes that it
/// is a network (`check`), how its run ended (`run`), or that it is refused.
///
/// The status is 2 if the description is refused (4 if out of memory), and 7 if a write fails; otherwise 0
/// for `check`, and for `run` that of `execute_standard`.
///
/// Errors: the arguments ask for neither; the fault is that of `read_words`. Reads and writes nothing.
pub fn serve<'a, I: Source, O: Sink, R: Wait + Clock + Threads + Sync>(
    rt: &R,
    alloc: Global,
    arguments: &'a [&'a str],
    source: &mut I,
    sink: &mut O,
) -> Result<Served, WordsFault>
    ensures served { IfOk result (Serving I.Source O.Sink arguments.entry.now source.old source.new sink.old sink.new) }
    ensures accepted { IfOk result (λ served. served.fault ≡ None → served.message ≡ None) }
    ensures memory { IfOk result (λ served. served.fault ≡ Some NetFault.Memory → served.message ≡ None) }
    ensures input { IfOk result (λ served. served.fault ≡ Some NetFault.Input → served.message ≡ None) }
    ensures said { IfOk result (λ served. IfSome served.message (λ message. string_bytes message ≢ [])) }
    ensures arguments { IfErr result (IsWordsFault (map (λ w. w.now) arguments.entry.now)) }
    ensures untouched { OnErr result ((source.new ≡ source.old) × (sink.new ≡ sink.old)) }
    ensures taken { ConsumesAtMost (longest + 1) (I.remaining source.old) (I.remaining source.new) }
{
    let choice = read_words(alloc, arguments)?;
    let net: Net<Standard> = match load_or_refuse(alloc, source) {
        Ok(net) => net,
        Err(refused) => return Ok(serve_refused(alloc, &refused, sink)),
    };
    Ok(Served {
        status: serve_net(rt, alloc, choice, net, sink),
        fault: None,
        message: None,
    })
}

fn serve_refused<O: Sink>(alloc: Global, refused: &Refused, sink: &mut O) -> Served
    ensures memory { result.fault ≡ Some NetFault.Memory → result.message ≡ None }
    ensures input { result.fault ≡ Some NetFault.Input → result.message ≡ None }
    ensures said { IfSome result.message (λ message. string_bytes message ≢ []) }
    ensures fault { result.fault ≡ Some refused.now.fault }
    ensures says { SaysRefused refused.now.fault (O.seen sink.old) (O.seen sink.new) result.status }
{
    Served {
        status: say_refused(&refused.fault, sink),
        fault: Some(refused.fault),
        message: message_of::<Standard>(alloc, refused.text.as_slice(), refused.fault, KINDS),
    }
}

fn serve_net<O: Sink, R: Wait + Clock + Threads + Sync>(
    rt: &R,
    alloc: Global,
    choice: Choice<'_>,
    net: Net<Standard>,
    sink: &mut O,
) -> u8
    ensures { Writes (TellsOf choice.entry net) (O.seen sink.old) (O.seen sink.new) result }
{
    match choice {
        Choice::Check => say_checked(&net, sink),
        Choice::Run { workers, show } => execute_standard(rt, alloc, net, workers, show, sink),
    }
}
