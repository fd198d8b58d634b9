//! Messages about keys of a description and the types of their values.
use crate::lines::line_of_table;
use crate::quoted::Quoted;
use Presence::{Optional, Required};
use kpn_net::version::is_two;
use std::alloc::{AllocError, Global};
use std::fmt::Write;
use toml::{Table, Value};

/// The type that a key's value must have.
#[derive(Clone, Copy)]
enum ValueType {
    Integer,
    Text,
    Sort,
    Integers,
    Tokens,
    Array,
}

impl ValueType {
    fn fits(self, value: &Value) -> bool {
        match self {
            ValueType::Integer => value.is_integer(),
            ValueType::Text => value.is_str(),
            ValueType::Sort => matches!(value.as_str(), Some("words" | "flags")),
            ValueType::Integers => are_integers(value),
            ValueType::Tokens => are_tokens(value),
            ValueType::Array => value.is_array(),
        }
    }

    fn words(self) -> &'static str {
        match self {
            ValueType::Integer => "an integer",
            ValueType::Text => "a text",
            ValueType::Sort => "\"words\" or \"flags\"",
            ValueType::Integers => "an array of integers",
            ValueType::Tokens => "an array of integers and booleans",
            ValueType::Array => "an array of tables",
        }
    }
}

#[derive(Clone, Copy)]
enum Presence {
    Required,
    Optional,
}

#[derive(Clone, Copy)]
struct Key(&'static str, ValueType, Presence);

/// The keys at the top level: the first is the version, the last only in version 2.
static TOP: [Key; 5] = [
    Key("version", ValueType::Integer, Required),
    Key("budget", ValueType::Integer, Optional),
    Key("process", ValueType::Array, Required),
    Key("channel", ValueType::Array, Optional),
    Key("step", ValueType::Integer, Optional),
];

static PROCESS: [Key; 3] = [
    Key("name", ValueType::Text, Required),
    Key("kind", ValueType::Text, Required),
    Key("args", ValueType::Integers, Optional),
];

/// The keys of a channel: the last two only in version 2, and the last only where channels may have delays.
static CHANNEL: [Key; 9] = [
    Key("name", ValueType::Text, Required),
    Key("from", ValueType::Text, Required),
    Key("to", ValueType::Text, Required),
    Key("out", ValueType::Integer, Optional),
    Key("in", ValueType::Integer, Optional),
    Key("sort", ValueType::Sort, Optional),
    Key("capacity", ValueType::Integer, Optional),
    Key("tokens", ValueType::Tokens, Optional),
    Key("delay", ValueType::Integer, Optional),
];

/// An array of tables: its key, the header of each table, and the keys of each.
#[derive(Clone, Copy)]
struct Tables<'a>(&'static str, &'static str, &'a [Key]);

/// Appends the first thing that is wrong with the keys of `table`, read from `text`, if anything is.
pub(crate) fn push_misfit(
    alloc: Global,
    out: &mut String,
    text: &[u8],
    table: &Table,
    has_delays: bool,
) -> Result<(), AllocError> {
    if push_key(out, table, TOP[0])? {
        return Ok(());
    }
    let version = match table.get("version") {
        Some(Value::Integer(version)) => *version,
        _ => 1,
    };
    let (top, channel): (&[Key], &[Key]) = match (is_two(version), has_delays) {
        (true, true) => (&TOP, &CHANNEL),
        (true, false) => (&TOP, &CHANNEL[..8]),
        (false, _) => (&TOP[..4], &CHANNEL[..7]),
    };
    let processes = Tables("process", "[[process]]", &PROCESS);
    let channels = Tables("channel", "[[channel]]", channel);
    if push_keys(out, table, top)? || push_items(alloc, out, text, table, processes)? {
        return Ok(());
    }
    push_items(alloc, out, text, table, channels)?;
    Ok(())
}

/// Appends the first thing that is wrong with an array's tables. Returns whether anything is.
fn push_items(
    alloc: Global,
    out: &mut String,
    text: &[u8],
    table: &Table,
    tables: Tables,
) -> Result<bool, AllocError> {
    let Tables(key, header, keys) = tables;
    let Some(Value::Array(items)) = table.get(key) else {
        return Ok(false);
    };
    for (k, item) in items.iter().enumerate() {
        let mut fault = String::new(alloc);
        if push_item(&mut fault, item, keys)? {
            write!(out, "{key}[{k}]")?;
            if let Some(line) = line_of_table(text, header.as_bytes(), items.len(), k) {
                write!(out, " at line {line}")?;
            }
            write!(out, ": {fault}")?;
            return Ok(true);
        }
    }
    Ok(false)
}

/// Appends what is wrong with an item of an array. Returns whether anything is.
fn push_item(out: &mut String, item: &Value, keys: &[Key]) -> Result<bool, AllocError> {
    match item.as_table() {
        Some(table) => push_keys(out, table, keys),
        None => {
            write!(out, "it must be a table")?;
            Ok(true)
        }
    }
}

/// Appends the first thing that is wrong with a table of these keys, unknown ones first. Returns whether
/// anything is.
fn push_keys(out: &mut String, table: &Table, keys: &[Key]) -> Result<bool, AllocError> {
    if let Some(unknown) = table.keys().find(|key| !is_among(keys, key.as_str())) {
        write!(
            out,
            "unknown key {}; the keys are",
            Quoted(unknown.as_str())
        )?;
        push_names(out, keys)?;
        return Ok(true);
    }
    for key in keys {
        if push_key(out, table, *key)? {
            return Ok(true);
        }
    }
    Ok(false)
}

/// Appends what is wrong with a key of a table. Returns whether anything is.
fn push_key(out: &mut String, table: &Table, key: Key) -> Result<bool, AllocError> {
    let Key(name, form, presence) = key;
    match table.get(name) {
        Some(value) if !form.fits(value) => {
            write!(out, "key \"{name}\" must be {}", form.words())?;
            Ok(true)
        }
        None if matches!(presence, Required) => {
            write!(out, "key \"{name}\" is missing")?;
            Ok(true)
        }
        _ => Ok(false),
    }
}

fn push_names(out: &mut String, keys: &[Key]) -> Result<(), AllocError> {
    let mut comma = "";
    for key in keys {
        push_name(out, comma, key.0)?;
        comma = ",";
    }
    Ok(())
}

fn push_name(out: &mut String, comma: &str, name: &str) -> Result<(), AllocError> {
    write!(out, "{comma} {name}")
}

fn is_among(keys: &[Key], name: &str) -> bool {
    keys.iter().any(|key| key.0 == name)
}

fn are_integers(value: &Value) -> bool {
    match value.as_array() {
        Some(items) => items.iter().all(|item| item.is_integer()),
        None => false,
    }
}

fn are_tokens(value: &Value) -> bool {
    match value.as_array() {
        Some(items) => items.iter().all(|item| item.is_integer() || item.is_bool()),
        None => false,
    }
}
