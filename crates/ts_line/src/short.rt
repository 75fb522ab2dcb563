//! One-pass parsers for short numbers.
ghost use Rattle.std.specs.Char.{is_ascii_digit, digit_value};
ghost use Rattle.std.specs.Prelude.{◌≡◌, ◌≤◌, ◌<◌, length, slice_range, true, Ok, Some, IfSome, ℕ};
ghost use Rattle.ts_core.specs.text.Cursors.{IsOffsetFrom};
ghost use Rattle.ts_line.specs.Digits.{AreDigits, IsShortInteger};
ghost use Rattle.ts_core.specs.text.Numbers.{is_number, whole_of};
ghost use Rattle.ts_line.specs.Values.{value_begun_at};

use crate::value::is_value_end;
use ts_core::{after, byte_at};

/// Number of digits that always fit in a `u64`.
const DIGIT_LIMIT: usize = 19;

/// Returns the value of a digit, or a number over 9 for another byte.
fn digit_of(byte: u8) -> u64
    ensures digit { result ≤ 9 → is_ascii_digit byte ≡ true }
    ensures value { result ≤ 9 → result ≡ digit_value byte }
{
    u64::from(byte).wrapping_sub(u64::from(b'0'))
}

/// Parses up to 19 digits at `from`; returns their value and the offset after them. It stays a function of its own,
/// whose loop keeps its variables in registers.
#[inline(never)]
fn digits_at(line: &str, from: usize) -> (u64, usize)
    requires { from ≤ length line.now }
    ensures digits { AreDigits line.now from result.1 result.0 }
    ensures short { result.0 < 10_000_000_000_000_000_000 }
{
    let bytes = line.as_bytes();
    let last = bytes.len().min(from + DIGIT_LIMIT);
    let mut at = from;
    let mut number = 0;
    while at < last {
        let digit = digit_of(bytes[at]);
        if digit > 9 {
            break;
        }
        number = number * 10 + digit;
        at += 1;
    }
    (number, at)
}

/// Parses an unsigned integer such as `42i` at `first`; returns its value and the offset of the `i`. Returns `None` for
/// more than 19 digits, for a value over 63 bits and for anything else.
#[inline(always)]
fn unsigned_integer(line: &str, first: usize) -> Option<(i64, usize)>
    requires { first ≤ length line.now }
    ensures { IfSome result (λ x. IsShortInteger line.now first x.1 x.0) }
{
    let (number, end) = digits_at(line, first);
    if end == first || byte_at(line, end) != b'i' {
        return None;
    }
    if !is_value_end(&line.as_bytes()[end + 1..]) {
        return None;
    }
    let number = i64::try_from(number).ok()?;
    Some((number, end))
}

/// Parses an integer value such as `-42i` at `at`; returns it and the offset after the `i`. Returns `None` for more
/// than 19 digits and for anything else.
#[inline(always)]
pub(crate) fn short_integer(line: &str, at: usize) -> Option<(i64, usize)>
    requires { at ≤ length line.now }
    ensures value { IfSome result (λ x. (start : ℕ) → value_begun_at start line.now at ≡ Ok x) }
    ensures offset { IfSome result (λ x. IsOffsetFrom line.now at x.1) }
{
    if byte_at(line, at) == b'-' {
        let (number, end) = unsigned_integer(line, at + 1)?;
        return Some((-number, after(line, end)));
    }
    let (number, end) = unsigned_integer(line, at)?;
    Some((number, after(line, end)))
}

/// Parses the rest of the line from `start` as a number. Returns `None` if it has a sign, more than 19 digits or more
/// than 63 bits, or isn't a number.
pub(crate) fn short_number(line: &str, start: usize) -> Option<i64>
    requires { start ≤ length line.now }
    ensures number { IfSome result (λ n. is_number (slice_range line.now start (length line.now)) ≡ true) }
    ensures value { IfSome result (λ n. Some n ≡ whole_of (slice_range line.now start (length line.now))) }
{
    let (number, end) = digits_at(line, start);
    if end == start || end != line.len() {
        return None;
    }
    i64::try_from(number).ok()
}
