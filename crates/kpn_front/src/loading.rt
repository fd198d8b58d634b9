//! Reads a network from a source.
ghost use Rattle.std.specs.Prelude.{◌≡◌, ◌≢◌, false, ◌≤◌, ◌<◌, ◌+◌, ◌⊎◌, [], IsTrue, IfOk, IfErr, IfSome};
ghost use Rattle.kpn_front.specs.Loading.{Loads, LoadsFrom, ReadsFrom, longest, IsTextOf, CannotBeRead, IsAllLeft, IsChecked, LoadsNet, without_text};

use crate::streams::Source;
use kpn_model::limits::LONGEST_TEXT;
use kpn_net::{Check, Kinds, Net, NetFault, Sketch, read_sketch};
use std::alloc::Global;

/// The most bytes to read in one call.
const CHUNK: usize = 4096;

/// The fault of a description, and its text. With `Input` or `Memory` the text may be empty.
#[derive(Drop)]
pub struct Refused {
    pub fault: NetFault,
    pub text: Vec<u8>,
}

impl Refused {
    /// Returns a fault that was found before the text was read to its end.
    pub fn unread(alloc: Global, fault: NetFault) -> Refused
        ensures fault { result.fault ≡ fault }
        ensures text { result.text.items ≡ [] }
    {
        let text = Vec::new(alloc);
        Refused { fault, text }
    }
}

/// Reads a description to its end, and makes its network. Reads at most 1,048,577 bytes.
///
/// Errors: `Input` if the source has more than 1,048,576 bytes or a read fails, whatever the bytes; the fault
/// that `read_sketch` or `Net::check` finds; or `Memory` if out of memory. The bytes read are consumed.
pub fn load<K: Kinds, S: Source>(alloc: Global, source: &mut S) -> Result<Net<K>, NetFault>
    ensures { LoadsFrom (Loads K.named K.signature) S.is_steady S.has_failed S.remaining source.old source.new result }
{
    load_or_refuse(alloc, source).map_err(|refused| refused.fault)
}

/// Loads a network like `load`, and returns a refused description's text, too.
pub fn load_or_refuse<K: Kinds, S: Source>(alloc: Global, source: &mut S) -> Result<Net<K>, Refused>
    ensures loaded { LoadsNet K.named K.signature S.is_steady S.has_failed S.remaining source.old source.new result }
    ensures text { IfSome (S.remaining source.old) (λ text. IfErr result (IsTextOf text)) }
{
    let text = read_text(alloc, source).map_err(|fault| Refused::unread(alloc, fault))?;
    let sketch = read_sketch(alloc, text.as_slice());
    net_or_refuse(alloc, text, sketch)
}

/// Checks the sketch of a text, and makes its network.
///
/// Errors: the fault for which there is no sketch, or the one that `Net::check` finds, with the text.
pub fn net_or_refuse<K: Kinds>(
    alloc: Global,
    text: Vec<u8>,
    sketch: Result<Sketch, NetFault>,
) -> Result<Net<K>, Refused>
    ensures checked { IsChecked K.named K.signature sketch (without_text result) }
    ensures text { IfErr result (λ refused. refused.text.items ≡ text.items) }
{
    let checked = sketch.and_then(|sketch| Net::check(alloc, &sketch));
    checked.map_err(|fault| Refused { fault, text })
}

/// Reads a source to its end and returns its bytes, at most 1 MiB.
///
/// Errors: `Input` if a read fails or there are more bytes; `Memory` if out of memory. The bytes read are
/// consumed.
pub fn read_text<S: Source>(alloc: Global, source: &mut S) -> Result<Vec<u8>, NetFault>
    ensures ok { IfOk result (λ t. IsAllLeft (S.remaining source.old) t.items) }
    ensures input { result ≡ Err NetFault.Input → CannotBeRead (S.has_failed source.new) (S.remaining source.old) }
    ensures fault { IfErr result (λ e. (e ≡ NetFault.Input) ⊎ (e ≡ NetFault.Memory)) }
    ensures failed { result ≢ Err NetFault.Input → S.has_failed source.new ≡ S.has_failed source.old }
    ensures source { ReadsFrom S.is_steady S.has_failed S.remaining source.old source.new }
{
    let mut text = Vec::new(alloc);
    let mut chunk = [0; CHUNK];
    while goes_on(text.len()) {
        let room = CHUNK.min(LONGEST_TEXT + 1 - text.len());
        match source.read(&mut chunk[..room]) {
            Ok(0) => return Ok(text),
            Ok(n) => {
                if text.extend_from_slice(&chunk[..n]).is_err() {
                    return Err(NetFault::Memory);
                }
            }
            Err(_) => return Err(NetFault::Input),
        }
    }
    Err(NetFault::Input)
}

/// Whether a text of `len` bytes is within the limit.
fn goes_on(len: usize) -> bool
    ensures on { IsTrue result → len ≤ longest }
    ensures over { result ≡ false → longest < len }
{
    len <= LONGEST_TEXT
}
