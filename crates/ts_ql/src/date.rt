//! Parses timestamps in quotes. The syntax is InfluxQL's, the calendar jiff's.
ghost use Rattle.std.specs.Prelude.{◌≡◌, ◌≤ℤ◌, pos, neg_ℤ, IfSome, unsigned_abs, ◌≤◌, ◌^◌};
ghost use Rattle.ts_ql.specs.Dates.{digits, midnight, date_of, place_value, fraction, clock_nanos, time_of_day, without_zone, timestamp_of};

use jiff::civil::{Date, date};
use ts_core::{are_digits, whole};

/// Parses one or more digits. Returns `None` for any other text, and for a number over 63 bits.
#[tactic(auto, unfolding(crate::specs::Dates::digits))]
fn digits(text: &[u8]) -> Option<u64>
    ensures { result ≡ digits text.now }
{
    if !are_digits(text) {
        return None;
    }
    let Ok(text) = str::from_utf8(text) else {
        unreachable!()
    };
    Some(whole(text)?.unsigned_abs())
}

/// Returns midnight of a day, in nanoseconds of the Unix epoch; `None` if the calendar has no such day.
#[tactic(auto, unfolding(crate::specs::Dates::midnight))]
fn midnight(year: u64, month: u64, day: u64) -> Option<i128>
    ensures value { result ≡ midnight year month day }
    ensures bound { IfSome result (λ t. unsigned_abs t ≤ 2 ^ 100) }
{
    if year > 9999 || month > 12 || day > 31 {
        return None;
    }
    match Date::new(year as i16, month as i8, day as i8) {
        Ok(day) => Some(day.duration_since(date(1970, 1, 1)).as_nanos()),
        Err(_) => None,
    }
}

#[tactic(auto, unfolding(crate::specs::Dates::date_of))]
fn date_of(text: &[u8]) -> Option<i128>
    ensures value { result ≡ date_of text.now }
    ensures bound { IfSome result (λ t. unsigned_abs t ≤ 2 ^ 100) }
{
    if text.len() != 10 || text[4] != b'-' || text[7] != b'-' {
        return None;
    }
    let year = digits(&text[0..4])?;
    let month = digits(&text[5..7])?;
    let day = digits(&text[8..10])?;
    midnight(year, month, day)
}

/// Returns the weight, in nanoseconds, of the last of `places` decimals of a second.
#[tactic(auto, unfolding(crate::specs::Dates::place_value))]
fn place_value(places: usize) -> u64
    ensures { result ≡ place_value places }
{
    match places {
        1 => 100_000_000,
        2 => 10_000_000,
        3 => 1_000_000,
        4 => 100_000,
        5 => 10_000,
        6 => 1_000,
        7 => 100,
        8 => 10,
        _ => 1,
    }
}

/// Parses a fraction of a second such as `.25`; returns its nanoseconds. Empty means 0.
#[tactic(auto, unfolding(crate::specs::Dates::fraction))]
fn fraction(text: &[u8]) -> Option<u64>
    ensures { result ≡ fraction text.now }
{
    if text.is_empty() {
        return Some(0);
    }
    if text[0] != b'.' || text.len() < 2 || text.len() > 10 {
        return None;
    }
    let number = digits(&text[1..])?;
    number.checked_mul(place_value(text.len() - 1))
}

/// Returns the nanoseconds from midnight to a time of day; `None` if it isn't one.
fn clock_nanos(hour: u64, minute: u64, second: u64, nanos: u64) -> Option<u128>
    ensures value { result ≡ clock_nanos hour minute second nanos }
    ensures bound { IfSome result (λ t. t ≤ 2 ^ 100) }
{
    if hour < 24 && minute < 60 && second < 60 {
        let seconds = (hour * 60 + minute) * 60 + second;
        Some(u128::from(seconds) * 1_000_000_000 + u128::from(nanos))
    } else {
        None
    }
}

#[tactic(auto, unfolding(crate::specs::Dates::time_of_day))]
fn time_of_day(text: &[u8]) -> Option<u128>
    ensures value { result ≡ time_of_day text.now }
    ensures bound { IfSome result (λ t. t ≤ 2 ^ 100) }
{
    if text.len() < 8 || text[2] != b':' || text[5] != b':' {
        return None;
    }
    let hour = digits(&text[0..2])?;
    let minute = digits(&text[3..5])?;
    let second = digits(&text[6..8])?;
    let nanos = fraction(&text[8..])?;
    clock_nanos(hour, minute, second, nanos)
}

/// Strips a trailing `Z`.
#[tactic(auto, unfolding(crate::specs::Dates::without_zone))]
fn without_zone(text: &[u8]) -> &[u8]
    ensures { result.now ≡ without_zone text.now }
{
    match text {
        [front @ .., b'Z'] => front,
        _ => text,
    }
}

/// Parses a timestamp; returns its nanoseconds of the Unix epoch, or `None` if it isn't one.
#[tactic(auto, unfolding(crate::specs::Dates::timestamp_of))]
pub(crate) fn timestamp_of(text: &str) -> Option<i128>
    ensures { result ≡ timestamp_of text.now }
{
    let bytes = text.as_bytes();
    if bytes.len() <= 10 {
        return date_of(bytes);
    }
    if bytes[10] != b'T' && bytes[10] != b' ' {
        return None;
    }
    let day = date_of(&bytes[..10])?;
    let nanos = time_of_day(without_zone(&bytes[11..]))?;
    Some(day + nanos as i128)
}
