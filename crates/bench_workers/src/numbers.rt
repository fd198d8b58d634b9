//! Work for bodies: random numbers. Loops of pauses measure little: on a virtual machine they slow each other down.

/// Returns the next random number (Marsaglia's xorshift).
pub fn following(number: u64) -> u64 {
    let first = number ^ (number << 13);
    let second = first ^ (first >> 7);
    second ^ (second << 17)
}

/// Computes random numbers, each from the one before it. Returns the last, so that the compiler leaves none out.
pub fn burn(numbers: u64) -> u64 {
    let mut number: u64 = 1;
    for _ in 0..numbers {
        number = following(number);
    }
    number
}
