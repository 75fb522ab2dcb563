//! Parses the times of commands: a number with an optional unit.
ghost use Rattle.std.specs.Prelude.{◌≡◌, ◌==◌, ◌||◌};
ghost use Rattle.std.specs.Char.{is_ascii_digit};
ghost use Rattle.std.specs.Str.{IsCharBoundary};
ghost use Rattle.ts_core.specs.facts.TimeUnits.{nanoseconds_of};
ghost use Rattle.ts_script.specs.Moments.{moment_in, moment_of, number_len};

use ts_core::{Time, TimeUnit, is_number};
use ts_line::moment;

/// Parses a number of units; returns the time, or `None` if the number is malformed or the time isn't valid.
#[tactic(auto, unfolding(crate::specs::Moments::moment_in))]
pub(crate) fn moment_in(unit: TimeUnit, number: &str) -> Option<Time>
    ensures { result ≡ moment_in (nanoseconds_of unit) number.now }
{
    if !is_number(number.as_bytes()) {
        return None;
    }
    moment(number, unit.nanoseconds())
}

fn is_in_number(b: u8) -> bool
    ensures { result ≡ (b == 45 || is_ascii_digit b) }
{
    b == b'-' || b.is_ascii_digit()
}

/// Returns the length of the leading digits and minus signs, in bytes.
fn number_len(text: &str) -> usize
    ensures len { result ≡ number_len text.now }
    ensures cut { IsCharBoundary text.now result }
{
    for (i, b) in text.as_bytes().iter().enumerate() {
        if !is_in_number(*b) {
            return i;
        }
    }
    text.len()
}

/// Parses a number with a unit; returns the time, or `None` if the text is malformed or the time isn't valid.
#[tactic(auto, unfolding(crate::specs::Moments::moment_of))]
pub(crate) fn moment_of(text: &str) -> Option<Time>
    ensures { result ≡ moment_of text.now }
{
    let end = number_len(text);
    moment_in(TimeUnit::of_moment(&text[end..])?, &text[..end])
}
