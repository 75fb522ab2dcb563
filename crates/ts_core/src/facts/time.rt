//! Valid times: nanoseconds of the Unix epoch, without three of the values of an `i64`.
ghost use Rattle.std.specs.Prelude.{◌≡◌, ◌↔◌, IsSome, IfSome};
ghost use Rattle.ts_core.specs.facts.Times.{IsTime, least_time};

use std::marker::Model;

/// Least valid time, in nanoseconds of the Unix epoch.
pub const LEAST_TIME: i64 = -9_223_372_036_854_775_806;

/// Greatest valid time, in nanoseconds of the Unix epoch.
pub const GREATEST_TIME: i64 = 9_223_372_036_854_775_806;

/// A valid time, in nanoseconds of the Unix epoch: from -9223372036854775806 to 9223372036854775806.
#[derive(Clone, Copy, Debug, PartialEq, Eq, PartialOrd, Ord)]
pub struct Time {
    nanos: i64,
}

impl Model for Time {
    ghost use Rattle.std.specs.Prelude.{ℤ};
    ghost use Rattle.ts_core.specs.facts.Times.{IsTime};

    ghost Value = { ℤ };

    ghost view = { λ t. t.nanos };

    ghost invariant = { λ t. IsTime t.nanos };

    ghost inverse = { λ z. record { nanos = z } };
}

impl Time {
    /// Creates a time of nanoseconds of the Unix epoch, or returns `None` if it isn't valid.
    pub fn new(nanos: i64) -> Option<Time>
        ensures valid { IsSome result ↔ IsTime nanos }
        ensures value { IfSome result (λ t. t ≡ nanos) }
    {
        if nanos < LEAST_TIME || nanos > GREATEST_TIME {
            None
        } else {
            Some(Time { nanos })
        }
    }

    /// Returns the least valid time.
    pub fn least() -> Time
        ensures { result ≡ least_time }
    {
        Time { nanos: LEAST_TIME }
    }

    /// Returns the nanoseconds of the Unix epoch.
    pub fn nanos(self) -> i64
        ensures value { result ≡ self }
        ensures valid { IsTime result }
    {
        self.nanos
    }
}
