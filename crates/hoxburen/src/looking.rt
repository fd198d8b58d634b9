//! How a flow stands, and how full its channels are.
ghost use Rattle.std.specs.Prelude.{◌≡◌};
ghost use Rattle.hoxburen.specs.Calls.{LooksAt, ReportsFlow, TellsEntries, TellsFill, TellsFlag, TellsHoldsUp, TellsInputFill, TellsMayFeed, TellsOutputFill, TellsStarves, TellsVerdict};

use crate::handle::HoxFlow;
use hox_handle::{ReturnCode, copy_out, pause_number};
use kpn_net::NetFault;
use std::alloc::Global;

/// Sets `may` to 1 if an input has room and has not ended, else to 0.
#[unsafe(no_mangle)]
pub extern "C" fn hox_may_feed(
    alloc: Global,
    flow: &mut HoxFlow,
    input: usize,
    may: &mut u32,
) -> u32
    ensures { TellsMayFeed flow.old.kept flow.new.kept result input may.new }
{
    *may = 0;
    match flow.take(alloc) {
        Some(session) => {
            let told = session.may_feed(input);
            flow.put(session);
            tell_flag(told, may)
        }
        None => ReturnCode::Closed.number(),
    }
}

/// Sets `waits` to 1 if a process waits for a word of an input, else to 0.
#[unsafe(no_mangle)]
pub extern "C" fn hox_waits_for_input(
    alloc: Global,
    flow: &mut HoxFlow,
    input: usize,
    waits: &mut u32,
) -> u32
    ensures { TellsStarves flow.old.kept flow.new.kept result input waits.new }
{
    *waits = 0;
    match flow.take(alloc) {
        Some(session) => {
            let told = session.waits_for_input(input);
            flow.put(session);
            tell_flag(told, waits)
        }
        None => ReturnCode::Closed.number(),
    }
}

/// Sets `waits` to 1 if a process waits for room in an output, else to 0.
#[unsafe(no_mangle)]
pub extern "C" fn hox_waits_for_output(
    alloc: Global,
    flow: &mut HoxFlow,
    output: usize,
    waits: &mut u32,
) -> u32
    ensures { TellsHoldsUp flow.old.kept flow.new.kept result output waits.new }
{
    *waits = 0;
    match flow.take(alloc) {
        Some(session) => {
            let told = session.waits_for_output(output);
            flow.put(session);
            tell_flag(told, waits)
        }
        None => ReturnCode::Closed.number(),
    }
}

fn tell_flag(told: Option<bool>, out: &mut u32) -> u32
    ensures { TellsFlag told out.new result }
{
    match told {
        Some(flag) => {
            *out = u32::from(flag);
            ReturnCode::Done.number()
        }
        None => {
            *out = 0;
            ReturnCode::NoChannel.number()
        }
    }
}

/// Sets `held` and `capacity` to an input's number of words and current capacity.
#[unsafe(no_mangle)]
pub extern "C" fn hox_input_fill(
    alloc: Global,
    flow: &mut HoxFlow,
    input: usize,
    held: &mut u64,
    capacity: &mut u64,
) -> u32
    ensures { TellsInputFill flow.old.kept flow.new.kept result input held.new capacity.new }
{
    *held = 0;
    *capacity = 0;
    match flow.take(alloc) {
        Some(session) => {
            let told = session.input_fill(input);
            flow.put(session);
            tell_fill(told, held, capacity)
        }
        None => ReturnCode::Closed.number(),
    }
}

/// Sets `held` and `capacity` to an output's number of words and current capacity.
#[unsafe(no_mangle)]
pub extern "C" fn hox_output_fill(
    alloc: Global,
    flow: &mut HoxFlow,
    output: usize,
    held: &mut u64,
    capacity: &mut u64,
) -> u32
    ensures { TellsOutputFill flow.old.kept flow.new.kept result output held.new capacity.new }
{
    *held = 0;
    *capacity = 0;
    match flow.take(alloc) {
        Some(session) => {
            let told = session.output_fill(output);
            flow.put(session);
            tell_fill(told, held, capacity)
        }
        None => ReturnCode::Closed.number(),
    }
}

fn tell_fill(told: Option<(usize, usize)>, held: &mut u64, capacity: &mut u64) -> u32
    ensures { TellsFill told held.new capacity.new result }
{
    match told {
        Some((tokens, room)) => {
            *held = tokens as u64;
            *capacity = room as u64;
            ReturnCode::Done.number()
        }
        None => {
            *held = 0;
            *capacity = 0;
            ReturnCode::NoChannel.number()
        }
    }
}

/// Sets `entries` to the number of entries so far, `growths` to how many were growths.
#[unsafe(no_mangle)]
pub extern "C" fn hox_entries(
    alloc: Global,
    flow: &mut HoxFlow,
    entries: &mut u64,
    growths: &mut u64,
) -> u32
    ensures { TellsEntries flow.old.kept flow.new.kept result entries.new growths.new }
{
    *entries = 0;
    *growths = 0;
    match flow.take(alloc) {
        Some(session) => {
            (*entries, *growths) = session.entries();
            flow.put(session);
            ReturnCode::Done.number()
        }
        None => ReturnCode::Closed.number(),
    }
}

/// Sets `verdict` to how the flow stands, without running it.
#[unsafe(no_mangle)]
pub extern "C" fn hox_verdict(alloc: Global, flow: &mut HoxFlow, verdict: &mut u32) -> u32
    ensures { LooksAt flow.old.kept flow.new.kept result (verdict.new ≡ 0) (λ s. TellsVerdict s verdict.new result) }
{
    *verdict = 0;
    match flow.take(alloc) {
        Some(session) => {
            *verdict = pause_number(session.stand());
            flow.put(session);
            ReturnCode::Done.number()
        }
        None => ReturnCode::Closed.number(),
    }
}

/// Writes the flow's report to the front of a buffer; `length` is its full length.
#[unsafe(no_mangle)]
pub extern "C" fn hox_report(
    alloc: Global,
    flow: &mut HoxFlow,
    report: &mut [u8],
    length: &mut usize,
) -> u32
    ensures { ReportsFlow flow.old.kept flow.new.kept result report.old report.new length.new }
{
    *length = 0;
    match flow.take(alloc) {
        Some(session) => {
            let told = session.report(alloc);
            flow.put(session);
            match told {
                Ok(text) => {
                    *length = copy_out(text.as_bytes(), report);
                    ReturnCode::Done.number()
                }
                Err(_) => ReturnCode::Description(NetFault::Memory).number(),
            }
        }
        None => ReturnCode::Closed.number(),
    }
}
