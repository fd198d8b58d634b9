//! The values of parts of a report.
ghost use Rattle.std.specs.Prelude.{◌≡◌, ◌-◌, IfOk, OnOk, length, map};
ghost use Rattle.serde_json.specs.View.{members_view, view};
ghost use Rattle.hox_json.specs.Entries.{value_put_if};
ghost use Rattle.hox_json.specs.Json.{growth_data, growths_data, is_plain, names_data, put_if, sizes_data, state_data, token_data, tokens_data, waits, word_at};

use crate::lines::words_after;
use serde_json::{Map, Value, json, put};
use std::alloc::{AllocError, Global};

/// Returns a token or a number as JSON: an integer or a flag as what it is, another as a string.
#[tactic(auto, unfolding(crate::specs::Json::token_data))]
pub(crate) fn token(alloc: Global, word: &str) -> Result<Value, AllocError>
    ensures { IfOk result (λ v. view v ≡ token_data word.now) }
{
    match Value::from_str(alloc, word) {
        Ok(value) if is_plain(&value) => Ok(value),
        Err(error) if error.is_memory() => Err(AllocError),
        _ => Value::try_from_str(alloc, word),
    }
}

/// Returns whether a value is an integer or a flag.
fn is_plain(value: &Value) -> bool
    ensures { result ≡ is_plain (view value.now) }
{
    value.is_boolean() || value.is_u64() || value.is_i64()
}

pub(crate) fn tokens(alloc: Global, words: &[&str]) -> Result<Value, AllocError>
    ensures { IfOk result (λ v. view v ≡ tokens_data (map (λ s. s.now) words.now)) }
{
    let mut items = Vec::with_capacity(alloc, words.len())?;
    for word in words {
        items.push(token(alloc, word)?)?;
    }
    Ok(Value::from(items))
}

pub(crate) fn names(alloc: Global, words: &[&str]) -> Result<Value, AllocError>
    ensures { IfOk result (λ v. view v ≡ names_data (map (λ s. s.now) words.now)) }
{
    let mut items = Vec::with_capacity(alloc, words.len())?;
    for word in words {
        items.push(Value::try_from_str(alloc, word)?)?;
    }
    Ok(Value::from(items))
}

/// Returns the state of a process, the channel for which it waits, and its steps, if the report has them.
pub(crate) fn state(alloc: Global, words: &[&str]) -> Result<Value, AllocError>
    ensures { IfOk result (λ v. view v ≡ state_data (map (λ s. s.now) words.now)) }
{
    let mut members = Map::new(alloc);
    let state = Value::try_from_str(alloc, word_at(words, 0))?;
    let channel = Value::try_from_str(alloc, word_at(words, 1))?;
    let steps = token(alloc, last_word(words))?;
    put(&mut members, alloc, "state", state)?;
    put_if(&mut members, alloc, waits(words), "channel", channel)?;
    put_if(&mut members, alloc, words.len() > 2, "steps", steps)?;
    Ok(Value::from(members))
}

/// Returns whether a process waits for a channel.
fn waits(words: &[&str]) -> bool
    ensures { result ≡ waits (map (λ s. s.now) words.now) }
{
    let state = word_at(words, 0);
    state == "reads" || state == "writes"
}

fn word_at<'a>(words: &[&'a str], k: usize) -> &'a str
    ensures { result.now ≡ word_at (map (λ s. s.now) words.now) k }
{
    match words.get(k) {
        Some(word) => *word,
        None => "",
    }
}

fn last_word<'a>(words: &[&'a str]) -> &'a str
    ensures { result.now ≡ word_at (map (λ s. s.now) words.now) (length (map (λ s. s.now) words.now) - 1) }
{
    word_at(words, words.len().saturating_sub(1))
}

/// Returns how many tokens were put on a channel and are left, and its capacity.
pub(crate) fn sizes(alloc: Global, words: &[&str]) -> Result<Value, AllocError>
    ensures { IfOk result (λ v. view v ≡ sizes_data (map (λ s. s.now) words.now)) }
{
    let put = token(alloc, word_at(words, 1))?;
    let left = token(alloc, word_at(words, 3))?;
    let capacity = token(alloc, word_at(words, 5))?;
    json!(in alloc; {"put": put, "left": left, "capacity": capacity})
}

pub(crate) fn growths(alloc: Global, lines: &[&str]) -> Result<Value, AllocError>
    ensures { IfOk result (λ v. view v ≡ growths_data (map (λ s. s.now) lines.now)) }
{
    let mut items = Vec::with_capacity(alloc, lines.len())?;
    for line in lines {
        let words = words_after(alloc, line)?;
        items.push(growth(alloc, words.as_slice())?)?;
    }
    Ok(Value::from(items))
}

/// Returns a growth: the channel and its new capacity.
fn growth(alloc: Global, words: &[&str]) -> Result<Value, AllocError>
    ensures { IfOk result (λ v. view v ≡ growth_data (map (λ s. s.now) words.now)) }
{
    let channel = word_at(words, 0);
    let capacity = token(alloc, word_at(words, 1))?;
    json!(in alloc; {"channel": channel, "capacity": capacity})
}

/// Puts a member into an object, if it is told.
pub(crate) fn put_if(
    members: &mut Map<String, Value>,
    alloc: Global,
    is_told: bool,
    key: &str,
    value: Value,
) -> Result<(), AllocError>
    ensures { OnOk result (members_view members.new.entries ≡ value_put_if is_told key.now value members.old.entries) }
{
    if is_told {
        put(members, alloc, key, value)
    } else {
        Ok(())
    }
}
