//! Words as signed numbers of 128 bits, in which no sum or product of two words wraps.
ghost use Rattle.std.specs.Prelude.{◌≡◌, ◌≤◌, ◌<◌, ◌^◌, unsigned_abs};
ghost use Rattle.kpn_signals.specs.Words.{signed, wrapped, floor_div};

/// Returns the number for which a word stands.
pub(crate) fn signed(word: u64) -> i128
    ensures value { result ≡ signed word }
    ensures bound { unsigned_abs result ≤ 2 ^ 63 }
{
    i128::from(word.cast_signed())
}

/// Returns the word of a number modulo 2^64.
pub(crate) fn wrapped(number: i128) -> u64
    ensures { result ≡ wrapped number }
{
    number.rem_euclid(1 << 64) as u64
}

/// Returns the quotient, rounded down.
pub(crate) fn floor_div(number: i128, divisor: i128) -> i128
    requires number { unsigned_abs number < 2 ^ 127 }
    requires divisor { unsigned_abs divisor < 2 ^ 127 }
    requires nonzero { 0 < unsigned_abs divisor }
    ensures { result ≡ floor_div number divisor }
{
    if divisor > 0 {
        number.div_euclid(divisor)
    } else {
        (-number).div_euclid(-divisor)
    }
}
