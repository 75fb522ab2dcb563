//! Folds of points that keep parts of an aggregate.
ghost use Rattle.std.specs.Prelude.{◌≡◌, ◌+◌, ◌^◌, ◌<◌, ◌≤◌, length};
ghost use Rattle.ts_core.specs.aggregates.Aggregates.{Aggregate, merged, sum_of_points, IsSound, IsSpread};
ghost use Rattle.ts_exec.specs.declared.aggregate_parts.AggregateParts.{AggregateParts};
ghost use Rattle.ts_exec.specs.declared.aggregate_parts.AggregateParts.TheVariants.{CountAlone, CountAndSum, Bounds, Whole};
ghost use Rattle.ts_exec.specs.RowParts.{bounds, count_part, part_of, part_of_point, part_with, wide_extremes};

use std::marker::Model;
use ts_core::{Agg, Extremes, Partial, Time};

/// Fold of points: keeps some parts of their aggregate.
pub(crate) trait Fold: Copy {
    ghost parts: { AggregateParts };

    ghost folded: { Self → Aggregate };

    /// Returns the fold of one point.
    fn single(time: Time, value: i64) -> Self
        ensures { folded result ≡ part_of_point parts time value };

    /// Adds a point.
    fn with(self, time: Time, value: i64) -> Self
        requires { (folded self).count < 2 ^ 62 }
        ensures { folded result ≡ merged (folded self) (part_of_point parts time value) };

    /// Adds points.
    #[inline]
    fn with_all(self, points: &[(Time, i64)]) -> Self
        requires { (folded self).count + length points.now ≤ 2 ^ 62 }
        ensures { folded result ≡ part_with parts (folded self) points.now }
    {
        self.with_each(points)
    }

    /// Adds points, one by one.
    #[inline]
    fn with_each(self, points: &[(Time, i64)]) -> Self
        requires { (folded self).count + length points.now ≤ 2 ^ 62 }
        ensures { folded result ≡ part_with parts (folded self) points.now }
    {
        let mut fold = self;
        for point in points {
            fold = fold.with(point.0, point.1);
        }
        fold
    }

    /// Returns the fold of some points by their aggregate.
    fn from_agg(part: Agg) -> Self
        requires some { 0 < part.count }
        requires sound { IsSound part }
        requires few { part.count ≤ 2 ^ 62 }
        ensures { folded result ≡ part_of parts part };

    /// Merges the parts that are kept of the aggregate of some points.
    fn with_part(self, part: Agg) -> Self
        requires some { 0 < part.count }
        requires sound { IsSound part }
        requires few { (folded self).count + part.count ≤ 2 ^ 62 }
        ensures { folded result ≡ merged (folded self) (part_of parts part) };

    /// Returns an aggregate with the parts that are kept.
    fn part(self) -> Agg
        ensures { result ≡ folded self };
}

/// Returns extremes with these bounds, and with 0 at time 0 for the first and the last point.
fn bounds(min: i64, max: i64) -> Extremes
    ensures { result ≡ bounds min max }
{
    let zero = match Time::new(0) {
        Some(time) => time,
        None => unreachable!(),
    };
    Extremes {
        min,
        max,
        first: (zero, 0),
        last: (zero, 0),
    }
}

/// Returns extremes that don't depend on the points: the least and the greatest value of 64 bits, and 0 at time 0.
fn wide_extremes() -> Extremes
    ensures { result ≡ wide_extremes }
{
    bounds(i64::MIN, i64::MAX)
}

/// Count of at least one point.
#[derive(Clone, Copy, Debug)]
pub(crate) struct Counted {
    count: u64,
}

impl Model for Counted {
    ghost use Rattle.std.specs.Prelude.{pos, ◌^◌, ◌≤◌, ◌<◌, Some};
    ghost use Rattle.ts_core.specs.aggregates.Aggregates.{Aggregate};
    ghost use Rattle.ts_exec.specs.RowParts.{wide_extremes};

    ghost Value = { Aggregate };

    ghost view = { λ c. record { count = c.count; sum = pos 0; extremes = Some wide_extremes } };

    ghost invariant = { λ c. (0 < c.count) × (c.count ≤ 2 ^ 62) };

    ghost inverse = { λ v. record { count = v.count } };
}

impl Counted {
    /// Creates the count of this many points.
    pub(crate) fn new(count: u64) -> Counted
        requires some { 0 < count }
        requires few { count ≤ 2 ^ 62 }
        ensures { result ≡ count_part count }
    {
        Counted { count }
    }
}

impl Fold for Counted {
    ghost parts = { CountAlone };

    ghost folded = { λ c. c };

    fn single(_time: Time, _value: i64) -> Counted {
        Counted { count: 1 }
    }

    fn with(self, _time: Time, _value: i64) -> Counted {
        Counted {
            count: self.count + 1,
        }
    }

    fn with_all(self, points: &[(Time, i64)]) -> Counted {
        Counted {
            count: self.count + points.len() as u64,
        }
    }

    fn from_agg(part: Agg) -> Counted {
        Counted {
            count: part.count(),
        }
    }

    fn with_part(self, part: Agg) -> Counted {
        Counted {
            count: self.count + part.count(),
        }
    }

    fn part(self) -> Agg {
        Agg::of_points(self.count, 0, wide_extremes())
    }
}

/// Count and sum of at least one point.
#[derive(Clone, Copy, Debug)]
pub(crate) struct Summed {
    count: u64,
    sum: i128,
}

impl Model for Summed {
    ghost use Rattle.std.specs.Prelude.{◌^◌, ◌≤◌, Some};
    ghost use Rattle.ts_core.specs.aggregates.Aggregates.{Aggregate, IsSpread};
    ghost use Rattle.ts_exec.specs.RowParts.{wide_extremes};

    ghost Value = { Aggregate };

    ghost view = { λ s. record { count = s.count; sum = s.sum; extremes = Some wide_extremes } };

    ghost invariant = { λ s. (s.count ≤ 2 ^ 62) × IsSpread s.count s.sum wide_extremes };

    ghost inverse = { λ v. record { count = v.count; sum = v.sum } };
}

/// Returns the sum of the values of at least one point. Each value lies between the least and the greatest of 64 bits.
fn sum_of(part: &Agg) -> i128
    requires some { 0 < part.now.count }
    requires sound { IsSound part.now }
    ensures value { result ≡ part.now.sum }
    ensures spread { IsSpread part.now.count part.now.sum wide_extremes }
{
    match (part.min(), part.max()) {
        (Some(_), Some(_)) => part.sum(),
        _ => unreachable!(),
    }
}

/// Returns the sum of the values of at most 2^31 points. A point costs two additions of 64 bits: of its value, whose
/// sum may wrap around, and of its high half, whose sum can't. The low halves add up to less than 2^63.
fn sum_of_values(points: &[(Time, i64)]) -> i128
    requires some { 0 < length points.now }
    requires few { length points.now ≤ 2 ^ 31 }
    ensures value { result ≡ sum_of_points points.now }
    ensures spread { IsSpread (length points.now) (sum_of_points points.now) wide_extremes }
{
    let mut wrapped = 0i64;
    let mut high = 0i64;
    for point in points {
        wrapped = wrapped.wrapping_add(point.1);
        high += point.1 >> 32;
    }
    let low = wrapped.wrapping_sub(high.wrapping_mul(1 << 32));
    i128::from(high) * (1 << 32) + i128::from(low)
}

impl Fold for Summed {
    ghost parts = { CountAndSum };

    ghost folded = { λ s. s };

    fn single(_time: Time, value: i64) -> Summed {
        Summed {
            count: 1,
            sum: i128::from(value),
        }
    }

    fn with(self, _time: Time, value: i64) -> Summed {
        Summed {
            count: self.count + 1,
            sum: self.sum + i128::from(value),
        }
    }

    // few points are added one by one: to join the halves costs more than it saves
    fn with_all(self, points: &[(Time, i64)]) -> Summed {
        let length = points.len();
        match length {
            16..=0x8000_0000 => Summed {
                count: self.count + length as u64,
                sum: self.sum + sum_of_values(points),
            },
            _ => self.with_each(points),
        }
    }

    fn from_agg(part: Agg) -> Summed {
        Summed {
            count: part.count(),
            sum: sum_of(&part),
        }
    }

    fn with_part(self, part: Agg) -> Summed {
        Summed {
            count: self.count + part.count(),
            sum: self.sum + sum_of(&part),
        }
    }

    fn part(self) -> Agg {
        Agg::of_points(self.count, self.sum, wide_extremes())
    }
}

/// Count, sum, minimum and maximum of at least one point.
#[derive(Clone, Copy, Debug)]
pub(crate) struct Bounded {
    count: u64,
    sum: i128,
    min: i64,
    max: i64,
}

impl Model for Bounded {
    ghost use Rattle.std.specs.Prelude.{◌^◌, ◌≤◌, Some, unwrap_or};
    ghost use Rattle.ts_core.specs.declared.aggregates.aggregate.Extremes.{Extremes};
    ghost use Rattle.ts_core.specs.aggregates.Aggregates.{Aggregate, IsSpread};
    ghost use Rattle.ts_exec.specs.RowParts.{bounds, wide_extremes};

    ghost Value = { Aggregate };

    ghost view = { λ b. record { count = b.count; sum = b.sum; extremes = Some (bounds b.min b.max) } };

    ghost invariant = { λ b. (b.count ≤ 2 ^ 62) × IsSpread b.count b.sum (bounds b.min b.max) };

    ghost inverse = { λ v. let e : Extremes = unwrap_or v.extremes wide_extremes in
        record { count = v.count; sum = v.sum; min = e.min; max = e.max } };
}

impl Bounded {
    /// Merges the parts of some points with those of others.
    fn merge(self, other: Bounded) -> Bounded
        requires { self.count + other.count ≤ 2 ^ 62 }
        ensures { result ≡ merged self other }
    {
        Bounded {
            count: self.count + other.count,
            sum: self.sum + other.sum,
            min: self.min.min(other.min),
            max: self.max.max(other.max),
        }
    }
}

impl Fold for Bounded {
    ghost parts = { Bounds };

    ghost folded = { λ b. b };

    fn single(_time: Time, value: i64) -> Bounded {
        Bounded {
            count: 1,
            sum: i128::from(value),
            min: value,
            max: value,
        }
    }

    fn with(self, time: Time, value: i64) -> Bounded {
        self.merge(<Bounded as Fold>::single(time, value))
    }

    fn from_agg(part: Agg) -> Bounded {
        match (part.min(), part.max()) {
            (Some(min), Some(max)) => Bounded {
                count: part.count(),
                sum: part.sum(),
                min,
                max,
            },
            _ => unreachable!(),
        }
    }

    fn with_part(self, part: Agg) -> Bounded {
        self.merge(<Bounded as Fold>::from_agg(part))
    }

    fn part(self) -> Agg {
        Agg::of_points(self.count, self.sum, bounds(self.min, self.max))
    }
}

impl Fold for Agg {
    ghost parts = { Whole };

    ghost folded = { λ a. a };

    fn single(time: Time, value: i64) -> Agg {
        <Agg as Partial>::single(time, value)
    }

    fn with(self, time: Time, value: i64) -> Agg {
        self.merge(<Agg as Partial>::single(time, value))
    }

    fn from_agg(part: Agg) -> Agg {
        part
    }

    fn with_part(self, part: Agg) -> Agg {
        self.merge(part)
    }

    fn part(self) -> Agg {
        self
    }
}
