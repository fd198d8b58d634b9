//! Checks and runs networks of the standard kinds, `gain` and `moving_sum`, with the arguments of
//! `kpn`.
#![tactic(auto)]

use example_signals::{Gains, MovingSums};
use kpn_args::{Choice, read_words};
use kpn_compute::{Both, Filtered};
use kpn_execute::execute_net;
use kpn_front::{Fallible, Refused, load_or_refuse, say_checked, say_refused};
use kpn_message::message_of;
use kpn_net::Net;
use kpn_standard::Standard;
use std::process::ExitCode;
use std::{env, io};

type Mixed = Both<Standard, Both<Gains, Filtered<MovingSums>>>;

/// What a message lists where a kind is unknown.
const KINDS: &str = "gain, moving_sum and the kinds of kpn";

fn main(rt: HostRuntime) -> io::Result<ExitCode> {
    let alloc = rt.alloc();
    let words: Vec<String> = env::args(&rt)?.collect(alloc)?;
    let texts: Vec<&str> = words.iter().map(String::as_str).collect(alloc)?;
    let choice = match read_words(alloc, texts.as_slice()) {
        Ok(choice) => choice,
        Err(fault) => {
            if fault.asks_for_help() {
                print!(rt; "{fault}")?;
            } else {
                eprint!(rt; "{fault}")?;
            }
            return Ok(ExitCode::from(fault.status().code()));
        }
    };
    let mut source = Fallible::new(rt.reader());
    let mut sink = Fallible::new(io::writer(&rt));
    let loaded: Result<Net<Mixed>, _> = load_or_refuse(alloc, &mut source);
    let status = match (loaded, choice) {
        (Err(refused), _) => {
            say_why(&rt, &refused);
            say_refused(&refused.fault, &mut sink)
        }
        (Ok(net), Choice::Check) => say_checked(&net, &mut sink),
        (Ok(net), Choice::Run { workers, show }) => {
            execute_net(&rt, alloc, net, workers, show, &mut sink)
        }
    };
    Ok(ExitCode::from(status))
}

/// Says on standard error what is wrong with a refused description, and where.
fn say_why<R: Eprint + AllocGlobal>(rt: &R, refused: &Refused) {
    let text = refused.text.as_slice();
    if let Some(message) = message_of::<Mixed>(rt.alloc(), text, refused.fault, KINDS) {
        let _ = eprintln!(rt; "example_mixed: {message}");
    }
}
