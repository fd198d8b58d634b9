//! Reading a description.
ghost use Rattle.std.specs.Prelude.{◌≡◌, ℕ, pos, codes, List, None, IfOk, IfErr};
ghost use Rattle.toml.specs.Data.{as_integer};
ghost use Rattle.toml.specs.View.{table_view};
ghost use Rattle.kpn_model.specs.declared.limits.TheConstants.{DEFAULT_BUDGET};
ghost use Rattle.kpn_sketch.specs.Form.{Reads, required, optional, has_only};
ghost use Rattle.kpn_sketch.specs.Description.{Describes, DescribesDelayed, IsDelayedFault, IsReadFault, delayed_of, sketch_by, top_keys, channel_keys, channel_from, IsTomlErrorOf};

use crate::fault::NetFault;
use crate::form::{Reading, TomlForm, find, has_only, optional, required};
use crate::sketch::{ChannelSketch, Delay, Delayed, ProcessSketch, Sketch, TokenSketch};
use kpn_model::limits::DEFAULT_BUDGET;
use kpn_model::version::is_two;
use kpn_model::{Listed, Sort};
use std::alloc::Global;
use toml::de::Error;
use toml::{Table, Value};

/// Reads a description, a TOML document in UTF-8, and fills in its defaults. It does not check ranges and
/// names; `Net::check` does.
///
/// The top level has `version`, `budget` and `step` (integers; by default the budget is 10000 and the step 1),
/// `process` (an array of tables) and `channel` (an array of tables, by default empty). A process has `name`
/// and `kind` (texts) and `args` (an array of integers, by default empty). A channel has `name`, `from` and
/// `to` (texts), `out` and `in` (integers, by default 0), `sort` (`words` or `flags`, by default `words`),
/// `capacity` (an integer, by default 1) and `tokens` (an array of integers and booleans, by default empty).
/// Only version 2 has `step` and `tokens`. There are no other keys.
///
/// Errors: `NotToml` if the bytes are not UTF-8 or not TOML; `Keys` if a key is missing or unknown or its
/// value has the wrong type; `Memory` at any time, if out of memory.
///
/// ```text
/// let sketch = read_sketch(alloc, text.as_bytes())?;
/// ```
pub fn read_sketch(alloc: Global, text: &[u8]) -> Result<Sketch, NetFault>
    ensures ok { IfOk result (Describes text.now) }
    ensures fault { IfErr result (IsReadFault text.now) }
{
    match toml::table_from_slice(alloc, text) {
        Ok(table) => sketch_by(alloc, false, &table),
        Err(error) => Err(fault_of(&error)),
    }
}

/// Reads a description like [`read_sketch`], whose channels in version 2 may also have `delay` (an integer, by
/// default 0).
pub fn read_delayed(alloc: Global, text: &[u8]) -> Result<Delayed, NetFault>
    ensures ok { IfOk result (DescribesDelayed text.now) }
    ensures fault { IfErr result (IsDelayedFault text.now) }
{
    match toml::table_from_slice(alloc, text) {
        Ok(table) => delayed_of(alloc, &table),
        Err(error) => Err(fault_of(&error)),
    }
}

fn delayed_of(alloc: Global, table: &Table) -> Result<Delayed, NetFault>
    ensures { Reads result (delayed_of (table_view table.now)) }
{
    let sketch = sketch_by(alloc, true, table)?;
    let reading = Reading {
        version: sketch.version,
        has_delays: true,
    };
    let none = Listed::new(Vec::new(alloc));
    let delays = optional(alloc, reading, table, "channel", none)?;
    Ok(Delayed { sketch, delays })
}

fn fault_of(error: &Error) -> NetFault
    ensures plain { (text : List ℕ) → IsTomlErrorOf error.now text → IsReadFault text result }
    ensures delayed { (text : List ℕ) → IsTomlErrorOf error.now text → IsDelayedFault text result }
{
    if error.is_memory() {
        NetFault::Memory
    } else {
        NetFault::NotToml
    }
}

fn version_of(table: &Table) -> Result<i64, NetFault>
    ensures { Reads result (required as_integer (codes "version") (table_view table.now)) }
{
    match find(table, "version") {
        Some(value) => value.as_integer().ok_or(NetFault::Keys),
        None => Err(NetFault::Keys),
    }
}

fn has_only_top_keys(version: i64, table: &Table) -> bool
    ensures { result ≡ has_only (top_keys version) (table_view table.now) }
{
    if is_two(version) {
        has_only(table, &["version", "budget", "process", "channel", "step"])
    } else {
        has_only(table, &["version", "budget", "process", "channel"])
    }
}

fn budget_of(alloc: Global, reading: Reading, table: &Table) -> Result<i64, NetFault>
    ensures { Reads result (optional as_integer (pos DEFAULT_BUDGET) (codes "budget") (table_view table.now)) }
{
    let default = i64::from(DEFAULT_BUDGET);
    optional(alloc, reading, table, "budget", default)
}

fn sketch_by(alloc: Global, has_delays: bool, table: &Table) -> Result<Sketch, NetFault>
    ensures { Reads result (sketch_by has_delays (table_view table.now)) }
{
    let version = version_of(table)?;
    if !has_only_top_keys(version, table) {
        return Err(NetFault::Keys);
    }
    let reading = Reading {
        version,
        has_delays,
    };
    Ok(Sketch {
        version,
        budget: budget_of(alloc, reading, table)?,
        step: optional(alloc, reading, table, "step", 1)?,
        processes: required(alloc, reading, table, "process")?,
        channels: optional(
            alloc,
            reading,
            table,
            "channel",
            Listed::new(Vec::new(alloc)),
        )?,
    })
}

impl TomlForm for ProcessSketch {
    ghost use Rattle.kpn_sketch.specs.Description.{described_process};

    ghost form = { λ reading. described_process };

    fn read(alloc: Global, reading: Reading, value: &Value) -> Result<ProcessSketch, NetFault> {
        let table = match value.as_table() {
            Some(table) if has_only(table, &["name", "kind", "args"]) => table,
            _ => return Err(NetFault::Keys),
        };
        Ok(ProcessSketch {
            name: required(alloc, reading, table, "name")?,
            kind: required(alloc, reading, table, "kind")?,
            args: optional(alloc, reading, table, "args", Listed::new(Vec::new(alloc)))?,
        })
    }
}

fn has_only_channel_keys(reading: Reading, table: &Table) -> bool
    ensures { result ≡ has_only (channel_keys reading) (table_view table.now) }
{
    match (is_two(reading.version), reading.has_delays) {
        (true, true) => has_only(
            table,
            &[
                "name", "from", "to", "out", "in", "sort", "capacity", "tokens", "delay",
            ],
        ),
        (true, false) => has_only(
            table,
            &[
                "name", "from", "to", "out", "in", "sort", "capacity", "tokens",
            ],
        ),
        (false, _) => has_only(
            table,
            &["name", "from", "to", "out", "in", "sort", "capacity"],
        ),
    }
}

fn input_of(alloc: Global, reading: Reading, table: &Table) -> Result<i64, NetFault>
    ensures { Reads result (optional as_integer (pos 0) (codes "in") (table_view table.now)) }
{
    optional(alloc, reading, table, "in", 0)
}

/// Reads a channel; other keys are ignored.
fn channel_from(alloc: Global, reading: Reading, table: &Table) -> Result<ChannelSketch, NetFault>
    ensures { Reads result (channel_from (table_view table.now)) }
{
    Ok(ChannelSketch {
        name: required(alloc, reading, table, "name")?,
        from: required(alloc, reading, table, "from")?,
        to: required(alloc, reading, table, "to")?,
        out: optional(alloc, reading, table, "out", 0)?,
        input: input_of(alloc, reading, table)?,
        sort: optional(alloc, reading, table, "sort", Sort::Words)?,
        capacity: optional(alloc, reading, table, "capacity", 1)?,
        tokens: optional(
            alloc,
            reading,
            table,
            "tokens",
            Listed::new(Vec::new(alloc)),
        )?,
    })
}

impl TomlForm for ChannelSketch {
    ghost use Rattle.kpn_sketch.specs.Description.{described_channel};

    ghost form = { described_channel };

    fn read(alloc: Global, reading: Reading, value: &Value) -> Result<ChannelSketch, NetFault> {
        match value.as_table() {
            Some(table) if has_only_channel_keys(reading, table) => {
                channel_from(alloc, reading, table)
            }
            _ => Err(NetFault::Keys),
        }
    }
}

impl TomlForm for Delay {
    ghost use Rattle.kpn_sketch.specs.Description.{described_delay};

    ghost form = { λ reading. described_delay };

    fn read(alloc: Global, reading: Reading, value: &Value) -> Result<Delay, NetFault> {
        let Some(table) = value.as_table() else {
            return Err(NetFault::Keys);
        };
        Ok(Delay {
            tokens: optional(alloc, reading, table, "delay", 0)?,
        })
    }
}

impl TomlForm for TokenSketch {
    ghost use Rattle.kpn_sketch.specs.Description.{token_of};

    ghost form = { λ reading. token_of };

    fn read(_alloc: Global, _reading: Reading, value: &Value) -> Result<TokenSketch, NetFault> {
        match value {
            Value::Integer(integer) => Ok(TokenSketch::Integer(*integer)),
            Value::Boolean(boolean) => Ok(TokenSketch::Boolean(*boolean)),
            _ => Err(NetFault::Keys),
        }
    }
}

impl TomlForm for Sort {
    ghost use Rattle.kpn_sketch.specs.Description.{described_sort};

    ghost form = { λ reading. described_sort };

    fn read(_alloc: Global, _reading: Reading, value: &Value) -> Result<Sort, NetFault> {
        let Some(text) = value.as_str() else {
            return Err(NetFault::Keys);
        };
        if text == "words" {
            Ok(Sort::Words)
        } else if text == "flags" {
            Ok(Sort::Flags)
        } else {
            Err(NetFault::Keys)
        }
    }
}
