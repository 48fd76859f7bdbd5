//! A TIME: seconds, a `.`, and its decimals.
//!
//! ```text
//!     7.360695      7 s and 360,695 µs: 7,360,695,000 ns
//!     ^ ^^^^^^
//!     1 to 10       1 to 9 digits
//! ```
//!
//! So a time in nanoseconds has at most 19 digits, which a `u64` has room for.
ghost use Rattle.std.specs.Prelude.{◌≡◌, ◌≤◌, ◌<◌, ◌+◌, ◌*◌, ◌^◌, ◌-◌, IfSome, length, take};
ghost use Rattle.std.specs.List.{prefix_len};
ghost use Rattle.std.specs.Str.Parse.{digits_value};
ghost use Rattle.histories.specs.Times.{is_decimal, leading_digits, time_of, timestamp_in};

use texts::digit_of;

/// A TIME with which bytes begin.
#[derive(Clone, Copy, Debug, Drop)]
pub struct Timestamp {
    pub nanoseconds: u64,
    /// How many digits follow its `.`.
    pub decimals: usize,
    /// How many bytes it has.
    pub length: usize,
}

/// The number that the first bytes are, as far as these are digits, and how many digits it has.
fn digits_in(bytes: &[u8]) -> (u64, usize)
    requires { length bytes.now ≤ 10 }
    ensures count { result.1 ≡ prefix_len is_decimal bytes.now }
    ensures within { result.1 ≤ length bytes.now }
    ensures value { result.0 ≡ digits_value 10 (take result.1 bytes.now) }
    ensures fits { result.0 < 10 ^ result.1 }
{
    let mut value = 0u64;
    let mut i = 0;
    while i < bytes.len() {
        let digit = digit_of(bytes[i]);
        if digit >= 10 {
            return (value, i);
        }
        value = value * 10 + digit;
        i += 1;
    }
    (value, i)
}

/// The number that the first bytes are, at most `most` of them, and how many digits it has; none if
/// the first byte is no digit.
#[tactic(auto, using(crate::proofs::TimeLemmas::few_fit))]
fn leading_digits(most: usize, bytes: &[u8]) -> Option<(u64, usize)>
    requires { most ≤ 10 }
    ensures is { result ≡ leading_digits most bytes.now }
    ensures within { IfSome result (λ r. r.1 ≤ length bytes.now) }
    ensures few { IfSome result (λ r. r.1 ≤ most) }
    ensures fits { IfSome result (λ r. r.0 < 10 ^ r.1) }
    ensures small { IfSome result (λ r. r.0 < 10000000000) }
{
    let front = &bytes[..bytes.len().min(most)];
    let (value, count) = digits_in(front);
    if count == 0 {
        None
    } else {
        Some((value, count))
    }
}

/// How many nanoseconds the last of this many decimals counts.
fn last_decimal(decimals: usize) -> u64
    requires { decimals ≤ 9 }
    ensures { result ≡ 10 ^ (9 - decimals) }
{
    match decimals {
        0 => 1_000_000_000,
        1 => 100_000_000,
        2 => 10_000_000,
        3 => 1_000_000,
        4 => 100_000,
        5 => 10_000,
        6 => 1_000,
        7 => 100,
        8 => 10,
        _ => 1,
    }
}

/// How many nanoseconds a number of this many decimals is.
#[tactic(auto, using(crate::proofs::TimeLemmas::fraction_fits))]
fn fraction(value: u64, decimals: usize) -> u64
    requires few { decimals ≤ 9 }
    requires fits { value < 10 ^ decimals }
    ensures is { result ≡ value * 10 ^ (9 - decimals) }
    ensures fits { result < 1000000000 }
{
    value * last_decimal(decimals)
}

/// The TIME with which the bytes begin: 1 to 10 digits, a `.`, and 1 to 9 digits. More digits are
/// no part of it.
pub fn timestamp_in(bytes: &[u8]) -> Option<Timestamp>
    ensures is { result ≡ timestamp_in bytes.now }
    ensures within { IfSome result (λ t. t.length ≤ length bytes.now) }
{
    let (seconds, digits) = leading_digits(10, bytes)?;
    if !bytes[digits..].starts_with(b".") {
        return None;
    }
    let (value, decimals) = leading_digits(9, &bytes[digits + 1..])?;
    Some(Timestamp {
        nanoseconds: seconds * 1_000_000_000 + fraction(value, decimals),
        decimals,
        length: digits + 1 + decimals,
    })
}

/// The nanoseconds of a text that is a TIME, with nothing before or after it.
pub fn time_of(text: &[u8]) -> Option<u64>
    ensures { result ≡ time_of text.now }
{
    let time = timestamp_in(text)?;
    if time.length == text.len() {
        Some(time.nanoseconds)
    } else {
        None
    }
}
