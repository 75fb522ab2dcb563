//! Units of time, and their names in timestamps, durations and scripts.
ghost use Rattle.std.specs.Prelude.{◌≡◌};
ghost use Rattle.ts_core.specs.facts.TimeUnits.{nanoseconds_of, precision_of, duration_unit_of, moment_unit_of, unit_begun};

/// A unit of time.
#[derive(Clone, Copy, Debug, PartialEq, Eq)]
pub enum TimeUnit {
    Nanoseconds,
    Microseconds,
    Milliseconds,
    Seconds,
    Minutes,
    Hours,
    Days,
    Weeks,
}

impl TimeUnit {
    /// Returns the unit in nanoseconds.
    pub fn nanoseconds(self) -> i64
        ensures { result ≡ nanoseconds_of self }
    {
        match self {
            TimeUnit::Nanoseconds => 1,
            TimeUnit::Microseconds => 1_000,
            TimeUnit::Milliseconds => 1_000_000,
            TimeUnit::Seconds => 1_000_000_000,
            TimeUnit::Minutes => 60_000_000_000,
            TimeUnit::Hours => 3_600_000_000_000,
            TimeUnit::Days => 86_400_000_000_000,
            TimeUnit::Weeks => 604_800_000_000_000,
        }
    }

    /// Parses the name of a timestamp precision: `ns`, `n`, `u`, `ms`, `s`, `m` or `h`.
    #[tactic(auto, unfolding(crate::specs::facts::TimeUnits::precision_of))]
    pub fn of_precision(name: &str) -> Option<TimeUnit>
        ensures { result ≡ precision_of name.now }
    {
        match name {
            "ns" | "n" => Some(TimeUnit::Nanoseconds),
            "u" => Some(TimeUnit::Microseconds),
            "ms" => Some(TimeUnit::Milliseconds),
            "s" => Some(TimeUnit::Seconds),
            "m" => Some(TimeUnit::Minutes),
            "h" => Some(TimeUnit::Hours),
            _ => None,
        }
    }

    /// Parses the name of a duration's unit: `ns`, `u`, `µ`, `ms`, `s`, `m`, `h`, `d` or `w`.
    pub fn of_duration(name: &str) -> Option<TimeUnit>
        ensures { result ≡ duration_unit_of name.now }
    {
        TimeUnit::of_duration_name(name.as_bytes())
    }

    /// Parses the bytes of the name of a duration's unit.
    #[tactic(auto, unfolding(crate::specs::facts::TimeUnits::duration_unit_of))]
    pub(crate) fn of_duration_name(name: &[u8]) -> Option<TimeUnit>
        ensures { result ≡ duration_unit_of name.now }
    {
        match name {
            b"ns" => Some(TimeUnit::Nanoseconds),
            b"u" | [0xc2, 0xb5] => Some(TimeUnit::Microseconds),
            b"ms" => Some(TimeUnit::Milliseconds),
            b"s" => Some(TimeUnit::Seconds),
            b"m" => Some(TimeUnit::Minutes),
            b"h" => Some(TimeUnit::Hours),
            b"d" => Some(TimeUnit::Days),
            b"w" => Some(TimeUnit::Weeks),
            _ => None,
        }
    }

    /// Parses a duration's unit at the start of a text whose first two bytes are these. Returns the unit with the
    /// longest matching name, and the length of the name in bytes.
    #[tactic(auto, unfolding(crate::specs::facts::TimeUnits::unit_begun))]
    pub fn begun_by(byte: u8, next: u8) -> Option<(TimeUnit, usize)>
        ensures { result ≡ unit_begun byte next }
    {
        if let Some(unit) = TimeUnit::of_duration_name(&[byte, next]) {
            return Some((unit, 2));
        }
        let unit = TimeUnit::of_duration_name(&[byte])?;
        Some((unit, 1))
    }

    /// Parses the unit of a time in a script: a duration's unit, or the empty text for nanoseconds.
    #[tactic(auto, unfolding(crate::specs::facts::TimeUnits::moment_unit_of, crate::specs::facts::TimeUnits::duration_unit_of))]
    pub fn of_moment(name: &str) -> Option<TimeUnit>
        ensures { result ≡ moment_unit_of name.now }
    {
        if name.is_empty() {
            return Some(TimeUnit::Nanoseconds);
        }
        TimeUnit::of_duration(name)
    }
}
