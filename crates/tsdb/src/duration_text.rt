//! Durations as settings state them.
ghost use Rattle.std.specs.Prelude.{◌≡◌, ◌<◌, ◌^◌, ◌%◌, pos, ◌≤ℤ◌, Some, IfOk, string_bytes};
ghost use Rattle.ts_core.specs.facts.Durations.{duration_of, keeping_of, offset_of, span_of};
ghost use Rattle.tsdb.specs.SettingsShown.{IsUnit};

use itoa::Buffer;
use std::alloc::{AllocError, Global};

/// A unit of a duration: its nanoseconds and its name.
type Unit = (u64, &'static str);

/// Units of durations, the longest first; each is a multiple of the next.
const UNITS: [Unit; 6] = [
    (86_400_000_000_000, "d"),
    (3_600_000_000_000, "h"),
    (60_000_000_000, "m"),
    (1_000_000_000, "s"),
    (1_000_000, "ms"),
    (1_000, "u"),
];

/// Returns the longest unit that divides a number of nanoseconds.
fn unit_of(nanos: u64) -> Unit
    ensures divides { (0 < result.0) × (nanos % result.0 ≡ 0) }
    ensures unit { IsUnit result.0 result.1.now }
{
    for unit in UNITS {
        if nanos % unit.0 == 0 {
            return unit;
        }
    }
    (1, "ns")
}

/// Returns a duration in its longest unit, such as `90s`.
fn duration_text(alloc: Global, nanos: u64) -> Result<String, AllocError>
    ensures { IfOk result (λ text. duration_of (string_bytes text) ≡ Some nanos) }
{
    let (length, name) = unit_of(nanos);
    let mut text = String::new(alloc);
    text.push_str(Buffer::new().format(nanos / length))?;
    text.push_str(name)?;
    Ok(text)
}

/// Returns an offset, or an interval, in nanoseconds, as settings state it.
pub fn offset_text(alloc: Global, nanos: i64) -> Result<String, AllocError>
    ensures offset { IfOk result (λ text. offset_of (string_bytes text) ≡ Some nanos) }
    ensures interval { pos 0 ≤ℤ nanos → IfOk result (λ text. span_of (string_bytes text) ≡ Some nanos) }
{
    if nanos == 0 {
        return String::from_str(alloc, "0s");
    }
    let size = duration_text(alloc, nanos.unsigned_abs())?;
    if nanos > 0 {
        return Ok(size);
    }
    let mut text = String::from_str(alloc, "-")?;
    text.push_str(size.as_str())?;
    Ok(text)
}

/// Returns a retention duration in nanoseconds as settings state it; 0 is for ever.
pub fn keeping_text(alloc: Global, nanos: u64) -> Result<String, AllocError>
    requires { nanos < 2 ^ 63 }
    ensures { IfOk result (λ text. keeping_of (string_bytes text) ≡ Some (pos nanos)) }
{
    if nanos == 0 {
        return String::from_str(alloc, "INF");
    }
    duration_text(alloc, nanos)
}
