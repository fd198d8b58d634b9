//! Faults of numbers: version, counts, capacities, budget, start tokens and step.
ghost use Rattle.std.specs.Prelude.{◌≡◌, not, int_lt, pos};
ghost use Rattle.std.specs.List.{list_any};
ghost use Rattle.kpn_model.specs.texts.Version.{ceiling_in};
ghost use Rattle.kpn_net.specs.Faults.{is_outside, is_token, has_wrong_tokens, has_fault};

use kpn_model::limits::{GREATEST_STEP, MOST_CHANNELS, MOST_PROCESSES};
use kpn_model::version::{ceiling_in, greatest_budget_in, is_two};
use kpn_model::{Kinds, Sort};
use kpn_sketch::{ChannelSketch, NetFault, Sketch, TokenSketch};

fn is_outside(low: i64, high: i64, x: i64) -> bool
    ensures { result ≡ is_outside low high x }
{
    x < low || high < x
}

/// Fault 3: the version is neither 1 nor 2.
pub(crate) fn has_wrong_version<K: Kinds>(sketch: &Sketch) -> bool
    ensures { result ≡ has_fault K.named K.signature sketch.now NetFault.Version }
{
    sketch.version != 1 && !is_two(sketch.version)
}

/// Fault 4: no process, or too many processes or channels.
pub(crate) fn has_wrong_counts<K: Kinds>(sketch: &Sketch) -> bool
    ensures { result ≡ has_fault K.named K.signature sketch.now NetFault.Counts }
{
    let processes = sketch.processes.as_slice();
    processes.len() == 0
        || processes.len() > MOST_PROCESSES
        || sketch.channels.as_slice().len() > MOST_CHANNELS
}

/// Whether the capacity is outside 1 to the version's ceiling.
pub fn has_wrong_capacity(version: i64, channel: &ChannelSketch) -> bool
    ensures { result ≡ is_outside (pos 1) (pos (ceiling_in version)) channel.now.capacity }
{
    is_outside(1, i64::from(ceiling_in(version)), channel.capacity)
}

/// Fault 12: some capacity is out of range.
pub(crate) fn has_wrong_capacities<K: Kinds>(sketch: &Sketch) -> bool
    ensures { result ≡ has_fault K.named K.signature sketch.now NetFault.Capacity }
{
    sketch
        .channels
        .as_slice()
        .iter()
        .any(|c| has_wrong_capacity(sketch.version, c))
}

/// Fault 13: the budget is outside 1 to the version's greatest.
pub(crate) fn has_wrong_budget<K: Kinds>(sketch: &Sketch) -> bool
    ensures { result ≡ has_fault K.named K.signature sketch.now NetFault.Budget }
{
    let greatest = i64::from(greatest_budget_in(sketch.version));
    is_outside(1, greatest, sketch.budget)
}

/// Whether a start token has this sort: words are integers from 0 on or given by value, flags are booleans.
pub fn is_token(sort: Sort, token: TokenSketch) -> bool
    ensures { result ≡ is_token sort token }
{
    match (sort, token) {
        (Sort::Words, TokenSketch::Integer(integer)) => integer >= 0,
        (Sort::Words, TokenSketch::Word(_)) => true,
        (Sort::Flags, TokenSketch::Boolean(_)) => true,
        _ => false,
    }
}

fn has_other_token(sort: Sort, tokens: &[TokenSketch]) -> bool
    ensures { result ≡ list_any (λ t. not (is_token sort t)) tokens.now }
{
    tokens.iter().any(|t| !is_token(sort, *t))
}

fn is_below(capacity: i64, count: usize) -> bool
    ensures { result ≡ int_lt capacity (pos count) }
{
    match usize::try_from(capacity) {
        Ok(capacity) => capacity < count,
        Err(_) => true,
    }
}

/// Whether some start token is not of the channel's sort, or there are more than its capacity.
pub fn has_wrong_tokens(channel: &ChannelSketch) -> bool
    ensures { result ≡ has_wrong_tokens channel.now }
{
    let tokens = channel.tokens.as_slice();
    has_other_token(channel.sort, tokens) || is_below(channel.capacity, tokens.len())
}

/// Fault 16: some channel has wrong start tokens.
pub(crate) fn has_channel_with_wrong_tokens<K: Kinds>(sketch: &Sketch) -> bool
    ensures { result ≡ has_fault K.named K.signature sketch.now NetFault.Tokens }
{
    sketch
        .channels
        .as_slice()
        .iter()
        .any(|c| has_wrong_tokens(c))
}

/// Fault 17: the step is out of range.
pub(crate) fn has_wrong_step<K: Kinds>(sketch: &Sketch) -> bool
    ensures { result ≡ has_fault K.named K.signature sketch.now NetFault.Step }
{
    is_outside(1, i64::from(GREATEST_STEP), sketch.step)
}
