//! Feeds, runs and drains a flow.
ghost use Rattle.std.specs.Prelude.{◌≡◌, ⊤};
ghost use Rattle.hoxburen.specs.Calls.{Advances, DrainsFlow, EndsInput, FeedsFlow, OnFlow};

use crate::handle::HoxFlow;
use hox_handle::{ReturnCode, pause_number};
use std::alloc::Global;

/// Feeds words into the input at a place; `fed` is the number taken.
#[unsafe(no_mangle)]
pub extern "C" fn hox_feed(
    alloc: Global,
    flow: &mut HoxFlow,
    input: usize,
    words: &[u64],
    fed: &mut usize,
) -> u32
    ensures { FeedsFlow flow.old.kept flow.new.kept result input words.now fed.new }
{
    *fed = 0;
    match flow.take(alloc) {
        Some(mut session) => {
            let moved = session.feed(input, words);
            flow.put(session);
            *fed = moved.count;
            moved.answer.number()
        }
        None => ReturnCode::Closed.number(),
    }
}

/// Runs the flow for at most `most` entries; `pause` is why it stopped.
#[unsafe(no_mangle)]
pub extern "C" fn hox_advance(alloc: Global, flow: &mut HoxFlow, most: u64, pause: &mut u32) -> u32
    ensures { OnFlow flow.old.kept flow.new.kept result (pause.new ≡ 0) (λ s t. Advances s t most pause.new result) }
{
    *pause = 0;
    match flow.take(alloc) {
        Some(mut session) => {
            let why = session.advance(most);
            flow.put(session);
            *pause = pause_number(why);
            ReturnCode::Done.number()
        }
        None => ReturnCode::Closed.number(),
    }
}

/// Moves words of the output at a place to the front of a buffer; `drained` is how many.
#[unsafe(no_mangle)]
pub extern "C" fn hox_drain(
    alloc: Global,
    flow: &mut HoxFlow,
    output: usize,
    words: &mut [u64],
    drained: &mut usize,
) -> u32
    ensures { DrainsFlow flow.old.kept flow.new.kept result output words.old words.new drained.new }
{
    *drained = 0;
    match flow.take(alloc) {
        Some(mut session) => {
            let moved = session.drain(output, words);
            flow.put(session);
            *drained = moved.count;
            moved.answer.number()
        }
        None => ReturnCode::Closed.number(),
    }
}

/// Ends the input at a place.
#[unsafe(no_mangle)]
pub extern "C" fn hox_end_input(alloc: Global, flow: &mut HoxFlow, input: usize) -> u32
    ensures { OnFlow flow.old.kept flow.new.kept result ⊤ (λ s t. EndsInput s t input result) }
{
    match flow.take(alloc) {
        Some(mut session) => {
            let answer = session.end_input(input);
            flow.put(session);
            answer.number()
        }
        None => ReturnCode::Closed.number(),
    }
}
