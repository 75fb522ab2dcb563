//! Times in a query's range at which pieces may start and end.
ghost use Rattle.std.specs.Prelude.{◌≡◌, ◌+ℤ◌, ◌<ℤ◌, ◌≤ℤ◌, pos, ◌^◌, MatchOption};
ghost use Rattle.ts_plan.specs.Instants.{IsInstant};

use std::marker::Model;

/// A time, in nanoseconds of the Unix epoch.
#[derive(Clone, Copy, Debug, PartialEq, Eq, PartialOrd, Ord)]
pub(crate) struct Instant {
    nanos: i64,
}

impl Model for Instant {
    ghost use Rattle.std.specs.Prelude.{ℤ};
    ghost use Rattle.ts_plan.specs.Instants.{IsInstant};

    ghost Value = { ℤ };

    ghost view = { λ p. p.nanos };

    ghost invariant = { λ p. IsInstant p.nanos };

    ghost inverse = { λ z. record { nanos = z } };
}

impl Instant {
    pub(crate) fn new(nanos: i64) -> Instant
        ensures { result ≡ nanos }
    {
        Instant { nanos }
    }

    /// Returns the time in nanoseconds of the Unix epoch.
    pub(crate) fn nanos(self) -> i64
        ensures value { result ≡ self }
        ensures range { IsInstant result }
    {
        self.nanos
    }

    /// Adds `width` nanoseconds; returns `None` if the sum is after `end`.
    pub(crate) fn checked_add(self, width: i128, end: Instant) -> Option<Instant>
        requires forward { pos 0 ≤ℤ width }
        requires bound { width ≤ℤ pos (2 ^ 64) }
        ensures { MatchOption result (end <ℤ (self +ℤ width)) (λ p. (p ≡ self +ℤ width) × (p ≤ℤ end)) }
    {
        let at = i128::from(self.nanos) + width;
        if at > i128::from(end.nanos) {
            None
        } else {
            Some(Instant { nanos: at as i64 })
        }
    }
}
