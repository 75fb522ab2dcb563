//! Mergeable aggregates.
ghost use Rattle.std.specs.Prelude.{◌≡◌, ℕ, ◌+◌, ◌^◌, ◌≤◌, ℤ};
ghost use Rattle.ts_core.specs.aggregates.Partials.{PartialLaws};
ghost use Rattle.ts_core.specs.lists.Changes.{joined_within};

use crate::aggregates::aggregate::MAX_COUNT;
use crate::facts::Time;

/// A partial aggregate of points. Merging is associative and commutative, and adds up counts.
pub trait Partial: Copy {
    ghost nil: { Self };

    ghost one: { ℤ → ℤ → Self };

    ghost join: { Self → Self → Self };

    ghost size: { Self → ℕ };

    /// Returns the aggregate of no points.
    fn empty() -> Self
        ensures { result ≡ nil };

    /// Returns the aggregate of one point.
    fn single(time: Time, value: i64) -> Self
        ensures { result ≡ one time value };

    /// Returns the number of points.
    fn count(&self) -> u64
        ensures { result ≡ size self.now };

    /// Merges two aggregates, which may have up to 2^62 points together.
    fn merge(self, other: Self) -> Self
        requires { size self + size other ≤ 2 ^ 62 }
        ensures { result ≡ join self other };

    ghost laws: { PartialLaws nil one join size };
}

/// Merges `part` into `kept`, if their counts add up to at most 2^62; else returns `kept`.
pub fn merge_within<P: Partial>(kept: P, part: P) -> P
    ensures { result ≡ joined_within P.size P.join part kept }
{
    let count = kept.count();
    let more = part.count();
    if count <= MAX_COUNT && more <= MAX_COUNT - count {
        kept.merge(part)
    } else {
        kept
    }
}
