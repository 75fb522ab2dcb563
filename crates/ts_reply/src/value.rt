//! Writes values and times as JSON.
ghost use Rattle.std.specs.Prelude.{◌≡◌, ◌++◌, true, false, IfOk, OnOk, MatchOption, string_bytes};
ghost use Rattle.serde_json.specs.Written.{compact_text};
ghost use Rattle.ts_reply.specs.AppendedData.{AppendsData};
ghost use Rattle.ts_reply.specs.Replies.{integer_data, ratio_text, value_data, is_valid_time, IsTextOrCount, IsTimeData};

use crate::clock::time_text;
use crate::epoch::Epoch;
use crate::text::push_quoted;
use itoa::Buffer;
use std::alloc::{AllocError, Global};
use ts_core::{Frac, Time};

/// Appends an integer: as a number if it fits in signed 64 bits, else as a string of its digits.
fn push_integer(alloc: Global, text: &mut String, number: &i128) -> Result<(), AllocError>
    ensures { OnOk result (string_bytes text.new ≡ string_bytes text.old ++ compact_text (integer_data number.now)) }
{
    match i64::try_from(*number) {
        Ok(number) => text.push_str(Buffer::new().format(number)),
        Err(_) => push_quoted(alloc, text, Buffer::new().format(*number)),
    }
}

/// Formats a fraction as `n/d`.
fn ratio_text(alloc: Global, ratio: &Frac) -> Result<String, AllocError>
    ensures { IfOk result (λ s. string_bytes s ≡ ratio_text ratio.now) }
{
    let mut text = String::from_str(alloc, Buffer::new().format(ratio.numerator))?;
    text.push_str("/")?;
    text.push_str(Buffer::new().format(ratio.denominator))?;
    Ok(text)
}

/// Appends the value of a column.
pub(crate) fn push_cell(
    alloc: Global,
    text: &mut String,
    value: &ts_core::Value,
) -> Result<(), AllocError>
    ensures { OnOk result (string_bytes text.new ≡ string_bytes text.old ++ compact_text (value_data value.now)) }
{
    match value {
        ts_core::Value::Null => text.push_str("null"),
        ts_core::Value::Number(number) => push_integer(alloc, text, number),
        ts_core::Value::Fraction(ratio) => {
            let words = ratio_text(alloc, ratio)?;
            push_quoted(alloc, text, words.as_str())
        }
    }
}

/// Returns the time of this many nanoseconds, or `None` if it isn't valid.
fn valid_time(nanos: &i128) -> Option<Time>
    ensures { MatchOption result (is_valid_time nanos.now ≡ false)
        (λ t. (t ≡ nanos.now) × (is_valid_time nanos.now ≡ true)) }
{
    match i64::try_from(*nanos) {
        Ok(nanos) => Time::new(nanos),
        Err(_) => None,
    }
}

/// Appends a time as RFC 3339 text, or as nanoseconds if it isn't valid.
fn push_time_text(alloc: Global, text: &mut String, nanos: &i128) -> Result<(), AllocError>
    ensures { OnOk result (AppendsData
        (IsTextOrCount (is_valid_time nanos.now) nanos.now) (string_bytes text.old) (string_bytes text.new)) }
{
    match valid_time(nanos) {
        Some(time) => {
            let words = time_text(alloc, time)?;
            push_quoted(alloc, text, words.as_str())
        }
        None => push_integer(alloc, text, nanos),
    }
}

/// Appends a time, in nanoseconds of the Unix epoch, in the reply's format.
pub(crate) fn push_time(
    alloc: Global,
    text: &mut String,
    epoch: Epoch,
    nanos: &i128,
) -> Result<(), AllocError>
    ensures { OnOk result (AppendsData (IsTimeData epoch nanos.now) (string_bytes text.old) (string_bytes text.new)) }
{
    match epoch {
        Epoch::Text => push_time_text(alloc, text, nanos),
        Epoch::Units(unit) => {
            let units = nanos.div_euclid(i128::from(unit.nanoseconds()));
            push_integer(alloc, text, &units)
        }
    }
}
