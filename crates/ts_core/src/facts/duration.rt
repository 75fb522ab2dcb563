//! Parses durations: sums of numbers with units.
ghost use Rattle.std.specs.Prelude.{◌≡◌, ◌+◌, ◌*◌, ◌<◌, ◌≤◌, ◌^◌, ◌≤ℤ◌, pos, option_and_then, IfSome};
ghost use Rattle.std.specs.Option.{SomeIff};
ghost use Rattle.ts_core.specs.facts.Durations.{in_64_bits, sum_in_64_bits, with_term, before_digit, duration_of, span_of, offset_of, keeping_of};

use crate::facts::TimeUnit;

/// Appends a digit to a number. Returns `None` if the result doesn't fit 64 bits.
pub fn with_digit(number: u64, digit: u8) -> Option<u64>
    ensures { SomeIff result (number * 10 + digit < 2 ^ 64) (number * 10 + digit) }
{
    number.checked_mul(10)?.checked_add(u64::from(digit))
}

/// Adds `number` times `unit` to a sum. Returns `None` if the result doesn't fit 64 bits.
pub fn with_units(sum: u64, number: u64, unit: u64) -> Option<u64>
    requires { 1 ≤ unit }
    ensures { SomeIff result (sum + number * unit < 2 ^ 64) (sum + number * unit) }
{
    sum.checked_add(number.checked_mul(unit)?)
}

/// Adds a term, in nanoseconds, to a sum. Returns `None` if `name` is no unit, or if the result doesn't fit 64 bits.
fn with_term(sum: u64, number: u64, name: &[u8]) -> Option<u64>
    ensures { result ≡ option_and_then in_64_bits (with_term sum number name.now) }
{
    let unit = TimeUnit::of_duration_name(name)?;
    with_units(sum, number, unit.nanoseconds().unsigned_abs())
}

/// Returns the sum and the number to which the next digit belongs. After a unit's name, the digit begins a new term, so
/// the term before it is added to the sum.
fn before_digit(sum: u64, number: u64, name: &[u8]) -> Option<(u64, u64)>
    ensures { result ≡ option_and_then sum_in_64_bits (before_digit sum number name.now) }
{
    if name.is_empty() {
        return Some((sum, number));
    }
    Some((with_term(sum, number, name)?, 0))
}

/// Parses the terms of a duration. Returns their sum in nanoseconds, or `None` if the text is malformed or the sum
/// doesn't fit 64 bits.
fn nanoseconds(text: &[u8]) -> Option<u64>
    ensures { result ≡ option_and_then in_64_bits (duration_of text.now) }
{
    let Some((first, _)) = text.split_first() else {
        return None;
    };
    if !first.is_ascii_digit() {
        return None;
    }
    let mut sum = 0u64;
    let mut number = 0u64;
    let mut name = 0;
    for (at, byte) in text.iter().enumerate() {
        if byte.is_ascii_digit() {
            let (whole, begun) = before_digit(sum, number, &text[name..at])?;
            sum = whole;
            number = with_digit(begun, *byte - b'0')?;
            name = at + 1;
        }
    }
    with_term(sum, number, &text[name..])
}

/// Parses a duration without a sign. Returns its nanoseconds, or `None` if the text is malformed or the value doesn't
/// fit 63 bits.
#[tactic(auto, unfolding(crate::specs::facts::Durations::span_of))]
fn span(text: &[u8]) -> Option<i64>
    ensures value { result ≡ span_of text.now }
    ensures lasting { IfSome result (λ n. pos 0 ≤ℤ n) }
{
    0i64.checked_add_unsigned(nanoseconds(text)?)
}

/// Parses an interval. Returns its nanoseconds, or `None` if the text is malformed or the value doesn't fit an `i64`.
pub(crate) fn interval(text: &str) -> Option<i64>
    ensures { result ≡ span_of text.now }
{
    span(text.as_bytes())
}

/// Parses an offset: a duration with an optional minus sign. Returns its nanoseconds, or `None` if the text is
/// malformed or the value doesn't fit an `i64`.
#[tactic(auto, unfolding(crate::specs::facts::Durations::offset_of))]
pub(crate) fn offset(text: &str) -> Option<i64>
    ensures { result ≡ offset_of text.now }
{
    let (first, after) = text.as_bytes().split_first()?;
    if *first == b'-' {
        return 0i64.checked_sub_unsigned(nanoseconds(after)?);
    }
    span(text.as_bytes())
}

/// Parses a retention duration: a duration, or `INF` for ever. Returns its nanoseconds, 0 for ever, or `None` if the
/// text is malformed or the value doesn't fit an `i64`.
#[tactic(auto, unfolding(crate::specs::facts::Durations::keeping_of))]
pub(crate) fn keeping(text: &str) -> Option<i64>
    ensures value { result ≡ keeping_of text.now }
    ensures lasting { IfSome result (λ n. pos 0 ≤ℤ n) }
{
    if text == "INF" {
        return Some(0);
    }
    span(text.as_bytes())
}
