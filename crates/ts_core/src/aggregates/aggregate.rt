//! Aggregates of points: count, sum and extremes.
ghost use Rattle.std.specs.Prelude.{◌≡◌, ◌↔◌, ◌+◌, ◌*◌, ◌^◌, ◌≤◌, ℤ, pos, ◌*ℤ◌, unsigned_abs, IsTrue, IsNone, IsSome, IfSome, Some, option_map};
ghost use Rattle.std.specs.declared.cmp.Ordering.{Ordering};
ghost use Rattle.ts_core.specs.aggregates.Orders.{lesser, early_cmp, late_cmp};
ghost use Rattle.ts_core.specs.aggregates.Aggregates.{Aggregate, empty_aggregate, aggregate_of_one, merged, merged_extremes, extremes_of_both, IsSpread, IsSound, IsCountable};
ghost use Rattle.ts_core.specs.aggregates.MergeLaws.{aggregate_laws};
ghost use Rattle.ts_core.specs.aggregates.SoundLaws.{sound_laws};
ghost use Rattle.ts_core.specs.aggregates.Remainders.{AreBeyond, LiesInside, inner_rest, IsDetermined};

use crate::aggregates::{Partial, Remainder};
use crate::facts::Time;
use std::marker::Model;

/// Greatest number of points in an aggregate: 2^62.
pub const MAX_COUNT: u64 = 4_611_686_018_427_387_904;

/// Extremes of at least one point. A point is a time with a value.
#[derive(Clone, Copy, Debug, PartialEq, Eq)]
pub struct Extremes {
    /// Least value.
    pub min: i64,
    /// Greatest value.
    pub max: i64,
    /// Point with the earliest time; if there are several, the one with the greatest value.
    pub first: (Time, i64),
    /// Point with the latest time; if there are several, the one with the greatest value.
    pub last: (Time, i64),
}

/// Count, sum, min, max, first and last of at most 2^62 points.
#[derive(Clone, Copy, Debug, PartialEq, Eq)]
pub struct Agg {
    sum: i128,
    count: u64,
    extremes: Option<Extremes>,
}

impl Model for Agg {
    ghost use Rattle.std.specs.Prelude.{◌*◌, ◌^◌, ◌≤◌, unsigned_abs};
    ghost use Rattle.ts_core.specs.aggregates.Aggregates.{Aggregate, IsSound};

    ghost Value = { Aggregate };

    ghost view = { λ a. record { count = a.count; sum = a.sum; extremes = a.extremes } };

    ghost invariant = { λ a. (a.count ≤ 2 ^ 62) × (unsigned_abs a.sum ≤ a.count * 2 ^ 63)
        × IsSound (record { count = a.count; sum = a.sum; extremes = a.extremes }) };

    ghost inverse = { λ v. record { count = v.count; sum = v.sum; extremes = v.extremes } };
}

#[inline]
fn earlier(a: (Time, i64), b: (Time, i64)) -> (Time, i64)
    ensures { result ≡ lesser early_cmp a b }
{
    if a.0 < b.0 || (a.0 == b.0 && a.1 >= b.1) {
        a
    } else {
        b
    }
}

#[inline]
fn later(a: (Time, i64), b: (Time, i64)) -> (Time, i64)
    ensures { result ≡ lesser late_cmp a b }
{
    if a.0 > b.0 || (a.0 == b.0 && a.1 >= b.1) {
        a
    } else {
        b
    }
}

fn is_earlier(a: (Time, i64), b: (Time, i64)) -> bool
    ensures { IsTrue result ↔ (early_cmp a b ≡ Ordering.Less) }
{
    a.0 < b.0 || (a.0 == b.0 && a.1 > b.1)
}

fn is_later(a: (Time, i64), b: (Time, i64)) -> bool
    ensures { IsTrue result ↔ (late_cmp a b ≡ Ordering.Less) }
{
    a.0 > b.0 || (a.0 == b.0 && a.1 > b.1)
}

impl Extremes {
    #[inline]
    fn both(self, other: Extremes) -> Extremes
        ensures { result ≡ extremes_of_both self other }
    {
        Extremes {
            min: self.min.min(other.min),
            max: self.max.max(other.max),
            first: earlier(self.first, other.first),
            last: later(self.last, other.last),
        }
    }

    fn are_beyond(&self, part: &Extremes) -> bool
        ensures { IsTrue result ↔ AreBeyond self.now part.now }
    {
        if self.min >= part.min || part.max >= self.max {
            return false;
        }
        is_earlier(self.first, part.first) && is_later(self.last, part.last)
    }

    fn are_spread(&self, count: u64, sum: i128) -> bool
        requires { count ≤ 2 ^ 62 }
        ensures { IsTrue result ↔ IsSpread count sum self.now }
    {
        if count == 0 {
            return false;
        }
        times(count, self.min) <= sum && sum <= times(count, self.max)
    }
}

/// Returns the sum of `count` times the value.
pub fn times(count: u64, value: i64) -> i128
    ensures { result ≡ pos count *ℤ value }
{
    i128::from(count) * i128::from(value)
}

#[inline]
fn merge_extremes(a: Option<Extremes>, b: Option<Extremes>) -> Option<Extremes>
    ensures { result ≡ merged_extremes a b }
{
    match (a, b) {
        (None, other) => other,
        (Some(x), None) => Some(x),
        (Some(x), Some(y)) => Some(x.both(y)),
    }
}

/// Returns true if some aggregate can have these parts.
fn are_countable(count: u64, sum: i128, extremes: &Option<Extremes>) -> bool
    ensures { IsTrue result ↔ IsCountable (record { count = count; sum = sum; extremes = extremes.now }) }
{
    match extremes {
        None => count == 0 && sum == 0,
        Some(bounds) => count <= MAX_COUNT && bounds.are_spread(count, sum),
    }
}

impl Agg {
    /// Creates an aggregate, or returns `None` if no aggregate of at most 2^62 points can have these parts. Without
    /// points there are no extremes and the sum is 0. With points, the sum lies between `count` times the minimum and
    /// `count` times the maximum.
    pub fn from_parts(count: u64, sum: i128, extremes: Option<Extremes>) -> Option<Agg>
        ensures possible { IsSome result ↔ IsCountable (record { count = count; sum = sum; extremes = extremes }) }
        ensures parts { IfSome result (λ a. a ≡ record { count = count; sum = sum; extremes = extremes }) }
    {
        if !are_countable(count, sum, &extremes) {
            return None;
        }
        Some(Agg {
            count,
            sum,
            extremes,
        })
    }

    /// Creates the aggregate of at least one point, whose sum lies between `count` times the minimum and `count` times
    /// the maximum. Tests nothing.
    #[inline]
    pub fn of_points(count: u64, sum: i128, extremes: Extremes) -> Agg
        requires few { count ≤ 2 ^ 62 }
        requires spread { IsSpread count sum extremes }
        ensures { result ≡ record { count = count; sum = sum; extremes = Some extremes } }
    {
        Agg {
            count,
            sum,
            extremes: Some(extremes),
        }
    }

    fn without_inner(self, part: Agg) -> Option<Agg>
        ensures inside { IsSome result ↔ LiesInside part self }
        ensures rest { IfSome result (λ rest. rest ≡ inner_rest self part) }
    {
        let whole = self.extremes?;
        let inner = part.extremes?;
        let count = self.count.saturating_sub(part.count);
        let sum = self.sum - part.sum;
        if !whole.are_beyond(&inner) || !whole.are_spread(count, sum) {
            return None;
        }
        Some(Agg {
            count,
            sum,
            extremes: self.extremes,
        })
    }

    /// Returns the sum of the values, or 0 without points.
    pub fn sum(&self) -> i128
        ensures value { result ≡ self.now.sum }
        ensures bound { unsigned_abs result ≤ self.now.count * 2 ^ 63 }
        ensures counted { self.now.count ≤ 2 ^ 62 }
    {
        self.sum
    }

    /// Returns the extremes, or `None` without points.
    pub fn extremes(&self) -> Option<Extremes>
        ensures value { result ≡ self.now.extremes }
        ensures none { IsNone result ↔ (self.now.count ≡ 0) }
    {
        self.extremes
    }

    /// Returns the least value, or `None` without points.
    pub fn min(&self) -> Option<i64>
        ensures value { result ≡ option_map (λ e. e.min) self.now.extremes }
        ensures none { IsNone result ↔ (self.now.count ≡ 0) }
    {
        self.extremes().map(|e| e.min)
    }

    /// Returns the greatest value, or `None` without points.
    pub fn max(&self) -> Option<i64>
        ensures value { result ≡ option_map (λ e. e.max) self.now.extremes }
        ensures none { IsNone result ↔ (self.now.count ≡ 0) }
    {
        self.extremes().map(|e| e.max)
    }

    /// Returns the earliest time with the greatest value there, or `None` without points.
    pub fn first(&self) -> Option<(Time, i64)>
        ensures value { result ≡ option_map (λ e. e.first) self.now.extremes }
        ensures none { IsNone result ↔ (self.now.count ≡ 0) }
    {
        self.extremes().map(|e| e.first)
    }

    /// Returns the latest time with the greatest value there, or `None` without points.
    pub fn last(&self) -> Option<(Time, i64)>
        ensures value { result ≡ option_map (λ e. e.last) self.now.extremes }
        ensures none { IsNone result ↔ (self.now.count ≡ 0) }
    {
        self.extremes().map(|e| e.last)
    }
}

impl Partial for Agg {
    ghost nil = { empty_aggregate };

    ghost one = { aggregate_of_one };

    ghost join = { merged };

    ghost size = { λ a. a.count };

    fn empty() -> Agg {
        Agg {
            count: 0,
            sum: 0,
            extremes: None,
        }
    }

    fn single(time: Time, value: i64) -> Agg {
        Agg {
            count: 1,
            sum: i128::from(value),
            extremes: Some(Extremes {
                min: value,
                max: value,
                first: (time, value),
                last: (time, value),
            }),
        }
    }

    fn count(&self) -> u64 {
        self.count
    }

    #[inline]
    fn merge(self, other: Agg) -> Agg {
        Agg {
            count: self.count + other.count,
            sum: self.sum + other.sum,
            extremes: merge_extremes(self.extremes, other.extremes),
        }
    }

    ghost laws = { aggregate_laws };
}

impl Remainder for Agg {
    ghost possible = { IsSound };

    ghost determined = { IsDetermined };

    fn without(self, part: Agg) -> Option<Agg> {
        if part.count == 0 {
            Some(self)
        } else if part == self {
            Some(Agg::empty())
        } else {
            self.without_inner(part)
        }
    }

    ghost possible_laws = { sound_laws };
}
