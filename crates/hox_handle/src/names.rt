//! Finds channels by name, and names in a text.
ghost use Rattle.std.specs.Prelude.{◌≡◌, IfOk, IfErr, IfSome, IfNone, IsUtf8};
ghost use Rattle.hox_handle.specs.Names.{AreNames};
ghost use Rattle.hox_handle.specs.Opening.{IsNoNames};
ghost use Rattle.hox_handle.specs.Sessions.{IsNamedAt, IsNotNamed};

use crate::opening::SessionFault;
use crate::session::Session;
use hox_stream::StreamFault;
use kpn_model::{Kinds, Text};
use kpn_network::Net;
use std::alloc::{AllocError, Global};
use std::str;

pub(crate) fn names_in(alloc: Global, bytes: &[u8]) -> Result<Vec<Text>, SessionFault>
    ensures ok { IfOk result (λ v. AreNames bytes.now v.items) }
    ensures fault { IfErr result (IsNoNames bytes.now) }
{
    let Ok(text) = str::from_utf8(bytes) else {
        return Err(SessionFault::NoText);
    };
    match words_of(alloc, text) {
        Ok(names) => Ok(names),
        Err(_) => Err(SessionFault::Unopened(StreamFault::Memory)),
    }
}

fn words_of(alloc: Global, text: &str) -> Result<Vec<Text>, AllocError>
    ensures { IfOk result (λ v. AreNames text.now v.items) }
{
    let mut names = Vec::new(alloc);
    let mut words = text.split_whitespace();
    while let Some(word) = words.next() {
        names.push(Text::new(String::from_str(alloc, word)?))?;
    }
    Ok(names)
}

fn place_named<K: Kinds>(net: &Net<K>, channels: &[usize], name: &[u8]) -> Option<usize>
    ensures some { IfSome result (IsNamedAt net.now channels.now name.now) }
    ensures none { IfNone result (IsUtf8 name.now → IsNotNamed net.now channels.now name.now) }
{
    let text = str::from_utf8(name).ok()?;
    let channel = net.find_channel(text)?;
    channels.iter().position(|c| *c == channel)
}

impl Session {
    /// Returns the place of the input of this name; `None` if there is none.
    pub fn input_named(&self, name: &[u8]) -> Option<usize>
        ensures some { IfSome result (IsNamedAt self.now.network self.now.inputs name.now) }
        ensures none { IfNone result (IsUtf8 name.now → IsNotNamed self.now.network self.now.inputs name.now) }
    {
        place_named(self.flow.net(), self.inputs.as_slice(), name)
    }

    /// Returns the place of the output of this name; `None` if there is none.
    pub fn output_named(&self, name: &[u8]) -> Option<usize>
        ensures some { IfSome result (IsNamedAt self.now.network self.now.outputs name.now) }
        ensures none { IfNone result (IsUtf8 name.now → IsNotNamed self.now.network self.now.outputs name.now) }
    {
        place_named(self.flow.net(), self.outputs.as_slice(), name)
    }
}
