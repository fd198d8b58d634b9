//! What is said of what a run or a stream left unused.
use hox_execute::{Pair, Ran, Streamed};
use hox_messages::input_name;
use hox_run::{Notes, SourceNote};
use hox_stream::{Inlet, StreamFinish};
use kpn_compute::{CardBody, Computes, bodies_of};
use kpn_flow::stops_at_once;
use kpn_front::{Sink, Source};
use kpn_model::Channel;
use kpn_model::limits::{GREATEST_BUDGET, GREATEST_HIGH_BUDGET};
use kpn_net::Net;
use std::alloc::Global;

/// Says what a run left unused: sources without tokens, tokens that were not read, and the budget if it was spent.
pub(crate) fn say_unused_by_run<R: Eprint>(rt: &R, ran: &Ran<'_>) {
    let Notes { sources, budget } = &ran.notes;
    for source in sources {
        say_source(rt, source, ran.tokens.as_slice(), budget.is_some());
    }
    if let Some(budget) = budget {
        say_budget_spent(rt, *budget);
    }
}

/// Says what a run left unused of a source, whose tokens are those of a file if it is among these. Of a run that was
/// cut only that there were no tokens.
fn say_source<R: Eprint>(rt: &R, source: &SourceNote, given: &[Pair<'_>], is_cut: bool) {
    let channel = source.channel.as_str();
    if source.tokens == 0 {
        say_without_tokens(rt, channel, given);
    } else if source.unread > 0 && !is_cut {
        say_not_read(rt, channel, source.unread, source.tokens);
    }
}

/// Says that a channel has no tokens: that its file has none, or which option would give it some.
fn say_without_tokens<R: Eprint>(rt: &R, channel: &str, given: &[Pair<'_>]) {
    match given.iter().find(|pair| pair.channel == channel) {
        Some(pair) => say_empty(rt, channel, input_name(pair.file)),
        None => say_no_tokens(rt, channel, "tokens"),
    }
}

/// Says that the file for a channel has no tokens.
fn say_empty<R: Eprint>(rt: &R, channel: &str, file: &str) {
    let _ = eprintln!(rt; "hox: channel {channel}: {file} has no tokens");
}

/// Says that a channel has no tokens, and which option would give it some.
fn say_no_tokens<R: Eprint>(rt: &R, channel: &str, option: &str) {
    let _ = eprintln!(rt;
        "hox: channel {channel}: no tokens; --{option} {channel}=FILE gives some"
    );
}

/// Says how many tokens of a channel were not read.
fn say_not_read<R: Eprint>(rt: &R, channel: &str, unread: usize, tokens: usize) {
    let _ = eprintln!(rt; "hox: channel {channel}: {unread} of its {tokens} tokens were not read");
}

/// Says which budget was spent, and what would do.
fn say_budget_spent<R: Eprint>(rt: &R, budget: u64) {
    let _ = eprintln!(rt;
        "hox: the budget of {budget} entries is spent; --budget allows up to {GREATEST_BUDGET}, in version 2 up to {GREATEST_HIGH_BUDGET}, and hox stream has no budget"
    );
}

/// Says what a stream left unused: sources for which no file was given, and files that were not read to their ends
/// where the network came to its own.
pub(crate) fn say_unused_by_stream<R: Eprint + AllocGlobal, F: Computes, I: Source, O: Sink>(
    rt: &R,
    streamed: &Streamed<'_, F, I, O>,
) {
    let inputs = streamed.ends.inputs.as_slice();
    say_without_file(rt, rt.alloc(), streamed.served.flow.net(), inputs);
    if matches!(
        streamed.served.finish,
        StreamFinish::Over(_) | StreamFinish::Idle
    ) {
        say_not_at_end(rt, inputs, streamed.served.inlets.as_slice());
    }
}

/// Says of each channel without tokens for which a file could be given that none was.
fn say_without_file<R: Eprint, K: Computes>(
    rt: &R,
    alloc: Global,
    net: &Net<K>,
    inputs: &[Pair<'_>],
) {
    let Ok(bodies) = bodies_of(alloc, net) else {
        return;
    };
    for channel in net.channel_list() {
        let name = channel.name.as_str();
        if is_source(channel, bodies.as_slice()) && !is_given(inputs, name) {
            say_no_tokens(rt, name, "in");
        }
    }
}

/// Whether the writer of a channel stops at once, and the channel holds nothing at first.
fn is_source<K: Computes>(channel: &Channel, bodies: &[CardBody<K>]) -> bool {
    let writer = channel.writer;
    channel.tokens.as_slice().is_empty() && writer < bodies.len() && stops_at_once(bodies, writer)
}

/// Whether a channel of this name is fed from a file.
fn is_given(inputs: &[Pair<'_>], name: &str) -> bool {
    inputs.iter().any(|pair| pair.channel == name)
}

/// Says which files were not read to their ends, as far as it is known without another read, which might wait.
fn say_not_at_end<R: Eprint, I: Source>(rt: &R, inputs: &[Pair<'_>], inlets: &[Inlet<I>]) {
    for (pair, inlet) in inputs.iter().zip(inlets) {
        if inlet.held() > 0 || is_untouched(inlet) {
            say_rest(rt, pair.channel, pair.file);
        }
    }
}

/// Whether nothing was read of a source.
fn is_untouched<I: Source>(inlet: &Inlet<I>) -> bool {
    !inlet.is_over() && inlet.records() == 0
}

/// Says that the rest of a file was not read.
fn say_rest<R: Eprint>(rt: &R, channel: &str, file: &str) {
    let file = input_name(file);
    let _ = eprintln!(rt; "hox: channel {channel}: the rest of {file} was not read");
}
