//! Checks and runs descriptions.
ghost use Rattle.std.specs.Prelude.{◌≡◌};
ghost use Rattle.hoxburen.specs.Calls.{ChecksText, IsMessage, RunsText};

use crate::slices::bytes_of;
use hox_handle::{ReturnCode, check, copy_out, end_number, message_of_fault, run};
use kpn_net::NetFault;
use std::alloc::Global;

/// The version of the library: 10000 * major + 100 * minor + patch.
const VERSION: u32 = 100;

/// Returns the version of the library.
#[unsafe(no_mangle)]
pub extern "C" fn hox_version() -> u32
    ensures { result ≡ 100 }
{
    VERSION
}

/// Checks a description. An error's message goes into the buffer, its full length into `length`.
#[unsafe(no_mangle)]
pub extern "C" fn hox_check(
    alloc: Global,
    text: &[u8],
    message: &mut [u8],
    length: &mut usize,
) -> u32
    ensures { ChecksText text.now message.old message.new length.new result }
{
    let text = bytes_of(text);
    let answer = check(alloc, text);
    *length = say_answer(alloc, text, answer, message);
    answer.number()
}

/// Runs a description's network from start to end. The report or an error's message goes into the buffer, its
/// full length into `length`.
#[unsafe(no_mangle)]
pub extern "C" fn hox_run(alloc: Global, text: &[u8], report: &mut [u8], length: &mut usize) -> u32
    ensures { RunsText text.now report.old report.new length.new result }
{
    let text = bytes_of(text);
    match run(alloc, text) {
        Ok(told) => {
            *length = copy_out(told.report.as_bytes(), report);
            end_number(told.end)
        }
        Err(fault) => {
            *length = say_fault(alloc, text, fault, report);
            ReturnCode::Description(fault).number()
        }
    }
}

fn say_answer(alloc: Global, text: &[u8], answer: ReturnCode, buffer: &mut [u8]) -> usize
    ensures message { IsMessage buffer.old buffer.new result }
    ensures none { answer ≡ ReturnCode.Done → result ≡ 0 }
{
    match answer {
        ReturnCode::Description(fault) => say_fault(alloc, text, fault, buffer),
        _ => 0,
    }
}

/// Writes the fault's message to the front of a buffer, and returns its full length.
fn say_fault(alloc: Global, text: &[u8], fault: NetFault, buffer: &mut [u8]) -> usize
    ensures { IsMessage buffer.old buffer.new result }
{
    match message_of_fault(alloc, text, fault) {
        Some(message) => copy_out(message.as_bytes(), buffer),
        None => 0,
    }
}
