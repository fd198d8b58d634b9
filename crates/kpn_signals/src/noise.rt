//! The generator SplitMix64 (Steele, Lea and Flood 2014).
ghost use Rattle.std.specs.Prelude.{◌≡◌};
ghost use Rattle.kpn_signals.specs.Noise.{moved, mixed, noise_answer};

use crate::turns::writes_word;
use kpn_model::{Answer, Local};

const STEP: u64 = 0x9e37_79b9_7f4a_7c15;

const FIRST_FACTOR: u64 = 0xbf58_476d_1ce4_e5b9;

const SECOND_FACTOR: u64 = 0x94d0_49bb_1331_11eb;

/// Writes the generator's next word, forever.
pub(crate) fn noise(local: Local) -> Answer
    ensures { result ≡ noise_answer local }
{
    let state = moved(local[0]);
    writes_word([state, 0, 0, 0], mixed(state))
}

fn moved(state: u64) -> u64
    ensures { result ≡ moved state }
{
    state.wrapping_add(STEP)
}

fn mixed(state: u64) -> u64
    ensures { result ≡ mixed state }
{
    let once = (state ^ (state >> 30)).wrapping_mul(FIRST_FACTOR);
    let twice = (once ^ (once >> 27)).wrapping_mul(SECOND_FACTOR);
    twice ^ (twice >> 31)
}
