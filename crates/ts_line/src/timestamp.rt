//! Parses timestamps.
ghost use Rattle.std.specs.Prelude.{◌≡◌, ◌≤ℤ◌, pos, true, Some};
ghost use Rattle.ts_core.specs.text.Numbers.{is_number, whole_of};
ghost use Rattle.ts_line.specs.Lines.{time_of};

use ts_core::{Time, whole};

/// Parses a timestamp in units of `unit` nanoseconds. Returns `None` if it isn't a valid time.
#[tactic(auto, unfolding(crate::specs::Lines::time_of))]
pub fn moment(text: &str, unit: i64) -> Option<Time>
    requires number { is_number text.now ≡ true }
    requires unit { pos 1 ≤ℤ unit }
    ensures { result ≡ time_of unit text.now }
{
    let number = whole(text)?;
    time_of(text, number, unit)
}

/// Converts `number` units of `unit` nanoseconds to a time. Returns `None` if it isn't a valid time. `text` is the text
/// of `number`; only the contract uses it.
#[tactic(auto, unfolding(crate::specs::Lines::time_of))]
pub(crate) fn time_of(text: &str, number: i64, unit: i64) -> Option<Time>
    requires number { Some number ≡ whole_of text.now }
    requires unit { pos 1 ≤ℤ unit }
    ensures { result ≡ time_of unit text.now }
{
    Time::new(number.checked_mul(unit)?)
}
