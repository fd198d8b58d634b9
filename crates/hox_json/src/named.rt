//! Values by names.
ghost use Rattle.std.specs.Prelude.{◌≡◌, IfOk, OnOk, map};
ghost use Rattle.serde_json.specs.Data.{object};
ghost use Rattle.serde_json.specs.View.{members_view, view};
ghost use Rattle.hox_json.specs.Entries.{named_put};
ghost use Rattle.hox_json.specs.Json.{named};
ghost use Rattle.hox_json.specs.Told.{data_of};

use crate::lines::words_after;
use crate::values::{sizes, state, tokens};
use serde_json::{Map, Value, put};
use std::alloc::{AllocError, Global};

/// What a line tells of the name after its first word.
#[derive(Clone, Copy)]
pub(crate) enum Fact {
    State,
    Sizes,
    Tokens,
}

/// Returns what each of these lines tells, by the name that it tells it of.
pub(crate) fn named(alloc: Global, told: Fact, lines: &[&str]) -> Result<Value, AllocError>
    ensures { IfOk result (λ v. view v ≡ object (named (data_of told) (map (λ s. s.now) lines.now))) }
{
    let mut values = Map::new(alloc);
    for line in lines {
        let words = words_after(alloc, line)?;
        put_named(&mut values, alloc, told, words.as_slice())?;
    }
    Ok(Value::from(values))
}

fn put_named(
    values: &mut Map<String, Value>,
    alloc: Global,
    told: Fact,
    words: &[&str],
) -> Result<(), AllocError>
    ensures { OnOk result (members_view values.new.entries ≡ named_put told words.now values.old.entries) }
{
    match words {
        [] => Ok(()),
        [name, words @ ..] => put(values, alloc, name, value_of(alloc, told, words)?),
    }
}

fn value_of(alloc: Global, told: Fact, words: &[&str]) -> Result<Value, AllocError>
    ensures { IfOk result (λ v. view v ≡ data_of told (map (λ s. s.now) words.now)) }
{
    match told {
        Fact::State => state(alloc, words),
        Fact::Sizes => sizes(alloc, words),
        Fact::Tokens => tokens(alloc, words),
    }
}
