//! The parts of a sketch as TOML values.
ghost use Rattle.std.specs.Prelude.{◌≡◌, Bool, IfOk, OnOk, map};
ghost use Rattle.toml.specs.Data.{Data, string};
ghost use Rattle.toml.specs.View.{view, table_view};
ghost use Rattle.kpn_builder.specs.Written.{channel_value, last_members, process_value, with_member};

use kpn_model::{Listed, Sort, Text};
use kpn_sketch::{ChannelSketch, ProcessSketch, TokenSketch};
use std::alloc::{AllocError, Global};
use toml::{Table, Value};

/// A type that is written as a TOML value; how depends on whether the version is 2.
pub(crate) trait ToValue {
    ghost value: { Bool → Self → Data };

    fn to_value(&self, alloc: Global, two: bool) -> Result<Value, AllocError>
        ensures { IfOk result (λ v. view v ≡ value two self.now) };
}

pub(crate) fn put(
    alloc: Global,
    table: &mut Table,
    key: &str,
    value: Value,
) -> Result<(), AllocError>
    ensures { OnOk result (table_view table.new ≡ with_member key.now (view value) (table_view table.old)) }
{
    let key = String::from_str(alloc, key)?;
    match table.insert(key, value) {
        Ok(_) => Ok(()),
        Err(_) => Err(AllocError),
    }
}

pub(crate) fn put_held<T: ToValue>(
    alloc: Global,
    table: &mut Table,
    key: &str,
    held: &T,
    two: bool,
) -> Result<(), AllocError>
    ensures { OnOk result (table_view table.new ≡ with_member key.now (T.value two held.now) (table_view table.old)) }
{
    put(alloc, table, key, held.to_value(alloc, two)?)
}

fn string_value(alloc: Global, text: &str) -> Result<Value, AllocError>
    ensures { IfOk result (λ v. view v ≡ string text.now) }
{
    Ok(Value::from(String::from_str(alloc, text)?))
}

impl ToValue for i64 {
    ghost use Rattle.toml.specs.Data.{integer};

    ghost value = { λ two. integer };

    fn to_value(&self, _alloc: Global, _two: bool) -> Result<Value, AllocError> {
        Ok(Value::from(*self))
    }
}

impl ToValue for Text {
    ghost use Rattle.toml.specs.Data.{string};

    ghost value = { λ two. string };

    fn to_value(&self, alloc: Global, _two: bool) -> Result<Value, AllocError> {
        string_value(alloc, self.as_str())
    }
}

impl ToValue for Sort {
    ghost use Rattle.kpn_builder.specs.Written.{sort_value};

    ghost value = { λ two. sort_value };

    fn to_value(&self, alloc: Global, _two: bool) -> Result<Value, AllocError> {
        match self {
            Sort::Words => string_value(alloc, "words"),
            Sort::Flags => string_value(alloc, "flags"),
        }
    }
}

impl ToValue for TokenSketch {
    ghost use Rattle.kpn_builder.specs.Written.{token_value};

    ghost value = { λ two. token_value };

    fn to_value(&self, _alloc: Global, _two: bool) -> Result<Value, AllocError> {
        match self {
            TokenSketch::Integer(integer) => Ok(Value::from(*integer)),
            TokenSketch::Boolean(boolean) => Ok(Value::from(*boolean)),
            TokenSketch::Word(word) => Ok(Value::from(word.cast_signed())),
        }
    }
}

impl<T: ToValue> ToValue for Listed<T> {
    ghost use Rattle.std.specs.Prelude.{map};
    ghost use Rattle.toml.specs.Data.{array};
    ghost use Rattle.toml.specs.View.{items_of};

    ghost value = { λ two xs. array (items_of (map (T.value two) xs)) };

    fn to_value(&self, alloc: Global, two: bool) -> Result<Value, AllocError> {
        Ok(Value::from(values_of(alloc, two, self.as_slice())?))
    }
}

fn values_of<T: ToValue>(alloc: Global, two: bool, items: &[T]) -> Result<Vec<Value>, AllocError>
    ensures { IfOk result (λ v. map view v.items ≡ map (T.value two) items.now) }
{
    let mut values = Vec::new(alloc);
    for item in items {
        values.push(item.to_value(alloc, two)?)?;
    }
    Ok(values)
}

impl ToValue for ProcessSketch {
    ghost use Rattle.kpn_builder.specs.Written.{process_value};

    ghost value = { λ two. process_value };

    fn to_value(&self, alloc: Global, two: bool) -> Result<Value, AllocError> {
        let mut table = Table::new(alloc);
        put_held(alloc, &mut table, "name", &self.name, two)?;
        put_held(alloc, &mut table, "kind", &self.kind, two)?;
        put_held(alloc, &mut table, "args", &self.args, two)?;
        Ok(Value::from(table))
    }
}

/// Returns a table of the last members of a channel, put in key order.
fn last_members(alloc: Global, channel: &ChannelSketch, two: bool) -> Result<Table, AllocError>
    ensures { IfOk result (λ t. table_view t ≡ last_members two channel.now) }
{
    let mut table = Table::new(alloc);
    if two {
        put_held(alloc, &mut table, "tokens", &channel.tokens, two)?;
    }
    put_held(alloc, &mut table, "to", &channel.to, two)?;
    Ok(table)
}

impl ToValue for ChannelSketch {
    ghost use Rattle.kpn_builder.specs.Written.{channel_value};

    ghost value = { channel_value };

    fn to_value(&self, alloc: Global, two: bool) -> Result<Value, AllocError> {
        let mut table = last_members(alloc, self, two)?;
        put_held(alloc, &mut table, "sort", &self.sort, two)?;
        put_held(alloc, &mut table, "out", &self.out, two)?;
        put_held(alloc, &mut table, "name", &self.name, two)?;
        put_held(alloc, &mut table, "in", &self.input, two)?;
        put_held(alloc, &mut table, "from", &self.from, two)?;
        put_held(alloc, &mut table, "capacity", &self.capacity, two)?;
        Ok(Value::from(table))
    }
}
