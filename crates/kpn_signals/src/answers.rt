//! The answer of any kind for signals.
ghost use Rattle.std.specs.Prelude.{◌≡◌, true};
ghost use Rattle.kpn_signals.specs.Family.{answer_of};
ghost use Rattle.kpn_signals.specs.Signatures.{accepts};

use crate::arithmetic::{
    abs, div, gain, left, max, min, mul, offset, remainder, scale, shift, sub,
};
use crate::bits::Bits;
use crate::ends::{constant, copy_flags, count_up, prefix};
use crate::filters::{average, clip, counter, delay, difference, hold, low_pass, sum};
use crate::logic::{and, edge, equal, less, not, or};
use crate::noise::noise;
use crate::rates::{decimate, gate, repeat};
use crate::signal::Signal;
use crate::signs::{bound, word_below};
use crate::times::Times;
use crate::turns::{reads, stops};
use kpn_model::{Answer, Local, Token};

/// Returns the answer of a process of a kind with these arguments in this local state, after it read `last`
/// (`None` if its last act was no read). The kind must accept the arguments.
#[inline(always)]
pub fn answer(kind: Signal, args: [u64; 3], local: Local, last: Option<Token>) -> Answer
    requires { accepts kind args ≡ true }
    ensures { result ≡ answer_of kind args local last }
{
    let [a, b, c] = args;
    match kind {
        Signal::Input | Signal::InputFlags => stops(local),
        Signal::Drain | Signal::DrainFlags => reads(local),
        Signal::Constant => constant(a, local),
        Signal::CountUp => count_up(local),
        Signal::Sub => sub(local, last),
        Signal::Mul => mul(local, last),
        Signal::Shift => shift(Bits::new(a), local, last),
        Signal::Left => left(Bits::new(a), local, last),
        Signal::Less => less(local, last),
        Signal::Equal => equal(local, last),
        Signal::Not => not(local, last),
        Signal::And => and(local, last),
        Signal::Or => or(local, last),
        Signal::Decimate => decimate(Times { number: a }, local, last),
        Signal::Repeat => repeat(Times { number: a }, local, last),
        Signal::Hold => hold(local, last),
        Signal::Delay => delay(Times { number: a }, local, last),
        Signal::LowPass => low_pass(Bits::new(a), local, last),
        Signal::Clip => clip(a, b, local, last),
        Signal::SignedConstant => constant(word_below(a), local),
        Signal::SignedHold => hold(local, last),
        Signal::SignedClip => clip(word_below(a), bound(b, c), local, last),
        Signal::SignedScale => scale(word_below(a), local, last),
        Signal::SignedPrefix => prefix(word_below(a), local, last),
        Signal::CopyFlags => copy_flags(local, last),
        Signal::Min => min(local, last),
        Signal::Max => max(local, last),
        Signal::Abs => abs(local, last),
        Signal::Offset => offset(a, local, last),
        Signal::Gain => gain(a, b, local, last),
        Signal::Div => div(local, last),
        Signal::Mod => remainder(local, last),
        Signal::Sum => sum(local, last),
        Signal::Difference => difference(local, last),
        Signal::Average => average(Times { number: a }, local, last),
        Signal::Counter => counter(local, last),
        Signal::Edge => edge(local, last),
        Signal::Noise => noise(local),
        Signal::Gate => gate(local, last),
        Signal::SignedOffset => offset(word_below(a), local, last),
        Signal::SignedGain => gain(word_below(a), b, local, last),
    }
}
