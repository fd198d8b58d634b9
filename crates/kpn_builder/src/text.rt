//! Writes sketches as texts.
ghost use Rattle.std.specs.Prelude.{◌≡◌, ◌↔◌, false, Err, IfOk, string_bytes};
ghost use Rattle.std.specs.List.{list_all};
ghost use Rattle.toml.specs.View.{table_view};
ghost use Rattle.kpn_sketch.specs.Description.{Describes};
ghost use Rattle.kpn_builder.specs.Written.{has_no_tokens, has_said_tokens, is_describable, is_said, sketch_members, version_members};

use crate::value::put_held;
use kpn_model::version::is_two;
use kpn_sketch::{ChannelSketch, Sketch, TokenSketch};
use std::alloc::{AllocError, Global};
use thiserror::Error;
use toml::Table;

/// Why a sketch was not written.
#[derive(Clone, Copy, Debug, PartialEq, Eq, Error)]
pub enum TextFault {
    /// No description says it: its version is not 2, and it has a step other than 1, or start tokens; or a
    /// start token is a word by its value.
    #[error("only descriptions of version 2 have a step and start tokens, which are integers or booleans")]
    Version,
    /// Memory was refused.
    #[error("out of memory")]
    Memory,
}

/// Writes a sketch as a description, with every key of its version, each table's keys in byte order. Reading
/// it gives the same sketch, so the same check result and the same network.
///
/// Errors: `Version` exactly if no description can say the sketch; `Memory` if out of memory.
///
/// ```text
/// let sketch = read_sketch(alloc, SWITCHED.as_bytes()).expect(&rt, "a fault");
/// let text = to_toml(alloc, &sketch).expect(&rt, "a fault");
/// ```
pub fn to_toml(alloc: Global, sketch: &Sketch) -> Result<String, TextFault>
    ensures text { IfOk result (λ text. Describes (string_bytes text) sketch.now) }
    ensures version { (result ≡ Err TextFault.Version) ↔ (is_describable sketch.now ≡ false) }
{
    if !is_describable(sketch) {
        return Err(TextFault::Version);
    }
    let Ok(table) = table_of(alloc, sketch) else {
        return Err(TextFault::Memory);
    };
    match toml::table_to_string(alloc, &table) {
        Ok(text) => Ok(text),
        Err(_) => Err(TextFault::Memory),
    }
}

fn has_no_tokens(channel: &ChannelSketch) -> bool
    ensures { result ≡ has_no_tokens channel.now }
{
    channel.tokens.as_slice().is_empty()
}

fn none_has_tokens(channels: &[ChannelSketch]) -> bool
    ensures { result ≡ list_all has_no_tokens channels.now }
{
    channels.iter().all(|c| has_no_tokens(c))
}

/// Whether a text can say the start token.
fn is_said(token: TokenSketch) -> bool
    ensures { result ≡ is_said token }
{
    !matches!(token, TokenSketch::Word(_))
}

fn has_said_tokens(channel: &ChannelSketch) -> bool
    ensures { result ≡ has_said_tokens channel.now }
{
    channel.tokens.as_slice().iter().all(|t| is_said(*t))
}

fn all_have_said_tokens(channels: &[ChannelSketch]) -> bool
    ensures { result ≡ list_all has_said_tokens channels.now }
{
    channels.iter().all(|c| has_said_tokens(c))
}

fn is_describable(sketch: &Sketch) -> bool
    ensures { result ≡ is_describable sketch.now }
{
    let channels = sketch.channels.as_slice();
    if is_two(sketch.version) {
        all_have_said_tokens(channels)
    } else {
        sketch.step == 1 && none_has_tokens(channels)
    }
}

/// Returns a table of the last members of the top level, put in key order.
fn version_table(alloc: Global, sketch: &Sketch) -> Result<Table, AllocError>
    ensures { IfOk result (λ t. table_view t ≡ version_members sketch.now) }
{
    let mut table = Table::new(alloc);
    let two = is_two(sketch.version);
    put_held(alloc, &mut table, "version", &sketch.version, two)?;
    if two {
        put_held(alloc, &mut table, "step", &sketch.step, two)?;
    }
    Ok(table)
}

fn table_of(alloc: Global, sketch: &Sketch) -> Result<Table, AllocError>
    ensures { IfOk result (λ t. table_view t ≡ sketch_members sketch.now) }
{
    let two = is_two(sketch.version);
    let mut table = version_table(alloc, sketch)?;
    put_held(alloc, &mut table, "process", &sketch.processes, two)?;
    put_held(alloc, &mut table, "channel", &sketch.channels, two)?;
    put_held(alloc, &mut table, "budget", &sketch.budget, two)?;
    Ok(table)
}
