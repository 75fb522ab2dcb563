//! Formats times as RFC 3339 in UTC.
ghost use Rattle.std.specs.Prelude.{◌≡◌, IfOk, string_bytes};
ghost use Rattle.jiff.specs.Words.{civil_nanos};
ghost use Rattle.ts_core.specs.facts.Facts.{Text};
ghost use Rattle.ts_reply.specs.TimeTexts.{IsTimeText};

use jiff::Timestamp;
use jiff::civil::DateTime;
use jiff::tz::Offset;
use std::alloc::{AllocError, Allocator};
use ts_core::Time;

/// Converts a time to the date and time of day in UTC.
fn clock(time: Time) -> DateTime
    ensures { civil_nanos result ≡ time }
{
    let Ok(timestamp) = Timestamp::from_nanosecond(i128::from(time.nanos())) else {
        unreachable!()
    };
    Offset::UTC.to_datetime(timestamp)
}

/// Formats a time as RFC 3339 in UTC, such as `1970-01-01T00:00:01.5Z`. The fraction has no trailing zeros.
pub fn time_text<A: Allocator + Copy>(alloc: A, time: Time) -> Result<String<A>, AllocError>
    ensures text { IfOk result (λ s. IsTimeText time (string_bytes s)) }
    ensures alone { (other : Text) → IsTimeText time other → IfOk result (λ s. string_bytes s ≡ other) }
{
    let clock = clock(time);
    format!(in alloc; "{clock}Z")
}
