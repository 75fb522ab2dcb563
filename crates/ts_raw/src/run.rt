//! Points that are read at once.
ghost use Rattle.std.specs.Prelude.{◌≡◌, ◌↔◌, ◌+◌, ◌≤◌, ℕ, ℤ, List, ◌∷◌, ◌++◌, [], length, Some, IfSome, MatchOption, IsTrue, true};
ghost use Rattle.std.specs.Iterator.{YieldsFirst};
ghost use Rattle.std.specs.List.{prefix_len, take_while};
ghost use Rattle.ts_block.specs.Decoding.{AreSpacedIf};
ghost use Rattle.ts_core.specs.facts.Facts.{is_within};
ghost use Rattle.ts_raw.specs.PlainColumns.{IsRising, IsStartOf};
ghost use Rattle.ts_raw.specs.PointRuns.{IsInside};

use crate::plain_column::count_before;
use std::marker::Model;
use ts_core::Time;

/// Points in the order of time, each time once, that are read at once. Its model is the list of those left.
#[derive(Drop)]
pub struct Run<'a> {
    points: &'a [(Time, i64)],
    // The nanoseconds, less one, from each time to the next, if they are known to be the same.
    step: Option<u64>,
    // The number of points that were taken last, which is often the next one.
    guess: usize,
}

impl<'a> Model for Run<'a> {
    ghost use Rattle.std.specs.Prelude.{ℤ, List};
    ghost use Rattle.ts_block.specs.Decoding.{AreSpacedIf};
    ghost use Rattle.ts_raw.specs.PlainColumns.{IsRising};

    ghost Value = { List (ℤ × ℤ) };

    ghost view = { λ r. r.points.now };

    ghost invariant = { λ r. IsRising r.points.now × AreSpacedIf r.step r.points.now };
}

/// Returns the nanoseconds from each time to the next by a step, if they fit.
fn distance_of(step: Option<u64>) -> Option<u64>
    ensures { IfSome result (λ distance. (n : ℕ) × (step ≡ Some n) × (distance ≡ n + 1)) }
{
    step?.checked_add(1)
}

/// Returns true if exactly the first `count` points are before `end` (nanoseconds), and some points are before it and
/// some are not.
fn is_count_before(points: &[(Time, i64)], count: usize, end: i64) -> bool
    requires { IsRising points.now }
    ensures bound { result ≡ true → count ≤ length points.now }
    ensures start { result ≡ true → IsStartOf end points.now count }
{
    let (Some(last), Some(next)) = (count.checked_sub(1), points.get(count)) else {
        return false;
    };
    points[last].0.nanos() < end && end <= next.0.nanos()
}

/// Returns the number of points before `end` (nanoseconds), which is after the first time and not after the last. Tries
/// `guess` first. Else divides if the points are known to lie apart by one step, or searches.
fn count_inside(
    points: &[(Time, i64)],
    step: Option<u64>,
    guess: usize,
    first: i64,
    end: i64,
) -> usize
    requires rising { IsRising points.now }
    requires spaced { AreSpacedIf step points.now }
    requires ends { IsInside first end points.now }
    ensures start { IsStartOf end points.now result }
    ensures bound { result ≤ length points.now }
{
    if is_count_before(points, guess, end) {
        return guess;
    }
    match distance_of(step) {
        Some(distance) => end.abs_diff(first).div_ceil(distance) as usize,
        None => count_before(points, end),
    }
}

/// Returns the number of points before the first that isn't from `low`, inclusive, to `high`, exclusive (nanoseconds).
fn count_within(
    points: &[(Time, i64)],
    step: Option<u64>,
    guess: usize,
    low: i64,
    high: i64,
) -> usize
    requires rising { IsRising points.now }
    requires spaced { AreSpacedIf step points.now }
    ensures { result ≡ prefix_len (λ p. is_within low high p.0) points.now }
{
    let (Some(first), Some(last)) = (points.first(), points.last()) else {
        return 0;
    };
    let first = first.0.nanos();
    if first < low || high <= first {
        return 0;
    }
    if last.0.nanos() < high {
        return points.len();
    }
    count_inside(points, step, guess, first, high)
}

impl<'a> Run<'a> {
    /// Returns a run of points. They lie apart by a step, if one is given.
    pub(crate) fn new(points: &'a [(Time, i64)], step: Option<u64>) -> Run<'a>
        requires rising { IsRising points.now }
        requires spaced { AreSpacedIf step points.now }
        ensures { result ≡ points.now }
    {
        Run {
            points,
            step,
            guess: 0,
        }
    }

    /// Returns true if no point is left.
    #[inline]
    pub fn is_empty(&self) -> bool
        ensures { IsTrue result ↔ (self.now ≡ []) }
    {
        self.points.is_empty()
    }

    /// Returns the number of points left.
    #[inline]
    pub fn len(&self) -> usize
        ensures { result ≡ length self.now }
    {
        self.points.len()
    }

    /// Returns the first point, if there is one.
    #[inline]
    pub fn first(&self) -> Option<&'a (Time, i64)>
        ensures { MatchOption result (self.now ≡ []) (λ point. (rest : List (ℤ × ℤ)) × (self.now ≡ point.now ∷ rest)) }
    {
        self.points.first()
    }

    /// Removes the first point and returns it, if there is one.
    #[inline]
    pub fn take_first(&mut self) -> Option<(Time, i64)>
        ensures { YieldsFirst (λ p. p) self.old result self.new }
    {
        let (first, others) = self.points.split_first()?;
        self.points = others;
        Some(*first)
    }

    /// Removes the points before the first that isn't from `low`, inclusive, to `high`, exclusive (nanoseconds), and
    /// returns them. Tries the number of the points taken before; else divides if all points are known to lie apart by
    /// one step, or searches.
    #[inline]
    pub fn take_within(&mut self, low: i64, high: i64) -> &'a [(Time, i64)]
        ensures points { result.now ≡ take_while (λ p. is_within low high p.0) self.old }
        ensures left { self.old ≡ result.now ++ self.new }
    {
        let (within, others) = self.points.split_at(count_within(
            self.points,
            self.step,
            self.guess,
            low,
            high,
        ));
        self.points = others;
        self.guess = within.len();
        within
    }
}
