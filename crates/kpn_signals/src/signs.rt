//! Negative arguments: a card has n for -1 - n.
ghost use Rattle.std.specs.Prelude.{◌≡◌};
ghost use Rattle.kpn_signals.specs.Words.{word_below, bound};

/// 2^63, the first word that stands for a negative number. The n of a negative argument is less.
pub(crate) const FIRST_BELOW: u64 = 0x8000_0000_0000_0000;

/// Returns the word of -1 - n.
pub(crate) fn word_below(n: u64) -> u64
    ensures { result ≡ word_below n }
{
    u64::MAX - n
}

/// Returns the word of the second of two arguments, if the first `below` of them are negative.
pub(crate) fn bound(n: u64, below: u64) -> u64
    ensures { result ≡ bound n below }
{
    if below == 2 { word_below(n) } else { n }
}
