//! Opens and closes flows, and finds their channels.
ghost use Rattle.std.specs.Prelude.{◌≡◌, None, IfErr, IfNone, IfOk, IfSome};
ghost use Rattle.hox_handle.specs.Answers.{answer_number};
ghost use Rattle.hox_handle.specs.Opening.{IsSessionFault, Opens};
ghost use Rattle.hoxburen.specs.Calls.{close_number, FindsInput, FindsOutput, IsMessage, OpensFlow};

use crate::handle::HoxFlow;
use crate::slices::bytes_of;
use hox_handle::{ReturnCode, Session, SessionFault, copy_out};
use hox_stream::StreamFault;
use std::alloc::Global;

/// Opens a closed flow at the start of a description's network. `inputs` and `outputs` name the channels to
/// feed and to drain, separated by white space. An error's message goes into the buffer, its full length into
/// `length`.
#[unsafe(no_mangle)]
pub extern "C" fn hox_open(
    alloc: Global,
    flow: &mut HoxFlow,
    text: &[u8],
    inputs: &[u8],
    outputs: &[u8],
    message: &mut [u8],
    length: &mut usize,
) -> u32
    ensures opened { OpensFlow text.now inputs.now outputs.now flow.old.kept flow.new.kept result }
    ensures message { IsMessage message.old message.new length.new }
{
    *length = 0;
    match flow.take(alloc) {
        Some(session) => {
            flow.put(session);
            ReturnCode::Open.number()
        }
        None => {
            let (text, inputs, outputs) = (bytes_of(text), bytes_of(inputs), bytes_of(outputs));
            match open_boxed(alloc, text, inputs, outputs) {
                Ok(session) => {
                    flow.put(session);
                    ReturnCode::Done.number()
                }
                Err(fault) => {
                    if let Some(said) = fault.message(alloc, text, inputs, outputs) {
                        *length = copy_out(said.as_bytes(), message);
                    }
                    fault.answer().number()
                }
            }
        }
    }
}

fn open_boxed(
    alloc: Global,
    text: &[u8],
    inputs: &[u8],
    outputs: &[u8],
) -> Result<Box<Session>, SessionFault>
    ensures ok { IfOk result (λ session. Opens text.now inputs.now outputs.now session.value) }
    ensures fault { IfErr result (IsSessionFault text.now inputs.now outputs.now) }
{
    let session = Session::open(alloc, text, inputs, outputs)?;
    match Box::new(alloc, session) {
        Ok(session) => Ok(session),
        Err(_) => Err(SessionFault::Unopened(StreamFault::Memory)),
    }
}

/// Closes a flow, and frees its memory.
#[unsafe(no_mangle)]
pub extern "C" fn hox_close(alloc: Global, flow: &mut HoxFlow) -> u32
    ensures closed { flow.new.kept ≡ None }
    ensures answer { result ≡ close_number flow.old.kept }
{
    match flow.take(alloc) {
        Some(_) => ReturnCode::Done.number(),
        None => ReturnCode::Closed.number(),
    }
}

/// Sets `input` to the place of the input with this name.
#[unsafe(no_mangle)]
pub extern "C" fn hox_input(
    alloc: Global,
    flow: &mut HoxFlow,
    name: &[u8],
    input: &mut usize,
) -> u32
    ensures { FindsInput flow.old.kept flow.new.kept result name.now input.new }
{
    *input = 0;
    match flow.take(alloc) {
        Some(session) => {
            let found = session.input_named(bytes_of(name));
            flow.put(session);
            place_told(found, input)
        }
        None => ReturnCode::Closed.number(),
    }
}

/// Sets `output` to the place of the output with this name.
#[unsafe(no_mangle)]
pub extern "C" fn hox_output(
    alloc: Global,
    flow: &mut HoxFlow,
    name: &[u8],
    output: &mut usize,
) -> u32
    ensures { FindsOutput flow.old.kept flow.new.kept result name.now output.new }
{
    *output = 0;
    match flow.take(alloc) {
        Some(session) => {
            let found = session.output_named(bytes_of(name));
            flow.put(session);
            place_told(found, output)
        }
        None => ReturnCode::Closed.number(),
    }
}

fn place_told(found: Option<usize>, place: &mut usize) -> u32
    ensures found { IfSome found (λ k. (place.new ≡ k) × (result ≡ 0)) }
    ensures none { IfNone found ((place.new ≡ 0) × (result ≡ answer_number ReturnCode.NoChannel)) }
{
    match found {
        Some(k) => {
            *place = k;
            ReturnCode::Done.number()
        }
        None => {
            *place = 0;
            ReturnCode::NoChannel.number()
        }
    }
}
