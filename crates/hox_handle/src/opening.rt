//! Opens a session.
ghost use Rattle.std.specs.Prelude.{◌≡◌, IfOk, IfErr};
ghost use Rattle.hox_handle.specs.Opening.{answer_of, answer_of_stream, IsSessionFault, IsUnopened, Opens, OpensBetween};

use crate::answers::ReturnCode;
use crate::names::names_in;
use crate::session::Session;
use hox_network::{AllKinds, sketch_by_ports};
use hox_stream::{NameFault, StreamFault, open_stream};
use kpn_model::Text;
use kpn_model::limits::LONGEST_TEXT;
use kpn_net::{NetFault, read_delayed};
use std::alloc::Global;

/// Why a session was not opened.
#[derive(Drop)]
pub enum SessionFault {
    /// The names are not UTF-8.
    NoText,
    /// The text describes no network, or one that can't be fed and drained at these channels.
    Unopened(StreamFault),
}

impl SessionFault {
    /// Returns the answer for this fault.
    pub fn answer(&self) -> ReturnCode
        ensures { result ≡ answer_of self.now }
    {
        match self {
            SessionFault::NoText => ReturnCode::NoText,
            SessionFault::Unopened(fault) => answer_of(fault),
        }
    }
}

fn answer_of(fault: &StreamFault) -> ReturnCode
    ensures { result ≡ answer_of_stream fault.now }
{
    match fault {
        StreamFault::Description(fault) => ReturnCode::Description(*fault),
        StreamFault::Input(NameFault::Memory) | StreamFault::Output(NameFault::Memory) => {
            ReturnCode::Description(NetFault::Memory)
        }
        StreamFault::Input(_) => ReturnCode::NoInput,
        StreamFault::Output(_) => ReturnCode::NoOutput,
        StreamFault::Twice => ReturnCode::Twice,
        StreamFault::Memory => ReturnCode::Description(NetFault::Memory),
    }
}

impl Session {
    /// Opens a session at the start of the network of `text`. `inputs` and `outputs` name the channels to
    /// feed and to drain, separated by white space. A process that only reads a drained channel stops at
    /// once.
    ///
    /// Errors: names that are not UTF-8; a text that is longer than 1,048,576 bytes or describes no network;
    /// a channel that can't be fed or drained, or is named twice; out of memory.
    pub fn open(
        alloc: Global,
        text: &[u8],
        inputs: &[u8],
        outputs: &[u8],
    ) -> Result<Session, SessionFault>
        ensures ok { IfOk result (Opens text.now inputs.now outputs.now) }
        ensures fault { IfErr result (IsSessionFault text.now inputs.now outputs.now) }
    {
        let fed = match names_in(alloc, inputs) {
            Ok(fed) => fed,
            Err(fault) => return Err(fault),
        };
        let drained = match names_in(alloc, outputs) {
            Ok(drained) => drained,
            Err(fault) => return Err(fault),
        };
        match open_between(alloc, text, fed.as_slice(), drained.as_slice()) {
            Ok(session) => Ok(session),
            Err(fault) => Err(SessionFault::Unopened(fault)),
        }
    }
}

fn open_between(
    alloc: Global,
    text: &[u8],
    fed: &[Text],
    drained: &[Text],
) -> Result<Session, StreamFault>
    ensures ok { IfOk result (OpensBetween text.now fed.now drained.now) }
    ensures fault { IfErr result (IsUnopened text.now fed.now drained.now) }
{
    if text.len() > LONGEST_TEXT {
        return Err(StreamFault::Description(NetFault::Input));
    }
    if let Err(fault) = read_delayed(alloc, text) {
        return Err(StreamFault::Description(fault));
    }
    let Some(sketch) = sketch_by_ports::<AllKinds>(alloc, text) else {
        return Err(StreamFault::Description(NetFault::Memory));
    };
    match open_stream::<AllKinds>(alloc, sketch, fed, drained) {
        Ok(opened) => {
            let (flow, inputs, outputs) = opened.into_parts();
            Ok(Session {
                flow,
                inputs,
                outputs,
            })
        }
        Err(fault) => Err(fault),
    }
}
