//! Interface of a column to the store: its points, and at most one staged point.
ghost use Rattle.std.specs.Prelude.{◌≡◌, ◌+◌, ◌≤◌, ◌≤ℤ◌, pos, ℤ, Option, IsSome, IfSome, is_ok, if◌then◌else◌};
ghost use Rattle.std.specs.FinMap as map;
ghost use Rattle.ts_raw.specs.Columns.{PointMap, AreTimed, points_within, points_from, points_in_bucket};

use crate::bounds::bounds_of;
use crate::points::Points;
use std::alloc::AllocError;
use ts_core::Time;

/// Points of one series and one field, at most one per time. Inserting takes two calls: `prepare` allocates and may
/// fail, `commit` can't fail. This lets a caller insert the points of many columns all or none.
pub trait Column {
    // The points, as a map from times to values.
    ghost points: { Self → PointMap };

    // The staged point, if there is one.
    ghost staged: { Self → Option (ℤ × ℤ) };

    /// Allocates the capacity for a point and stages it, replacing an older staged one. On allocation failure, no point
    /// is staged.
    fn prepare(&mut self, time: Time, value: i64) -> Result<(), AllocError>
        ensures unchanged { points self.new ≡ points self.old }
        ensures staged { staged self.new ≡ (if is_ok result then Some (time, value) else None) };

    /// Inserts the staged point, replacing the point with its time.
    fn commit(&mut self)
        requires { IsSome (staged self.old) }
        ensures put { IfSome (staged self.old) (λ p. points self.new ≡ map.insert (points self.old) p.0 p.1) }
        ensures none_staged { staged self.new ≡ None };

    /// Returns the points from `from`, inclusive, to `to`, exclusive (nanoseconds), ordered by time. Empty unless
    /// `from` is below `to`.
    fn range(&self, from: i64, to: i64) -> Points<'_>
        ensures points { result ≡ points_within (points self.now) from to }
        ensures timed { AreTimed result }
        ensures all_timed { AreTimed (map.entries (points self.now)) };

    /// Returns the points of the bucket with this index, ordered by time. `interval` and `offset` are in nanoseconds.
    fn bucket(&self, index: &i128, interval: i64, offset: i64) -> Points<'_>
        requires { pos 1 ≤ℤ interval }
        ensures points { result ≡ points_in_bucket (points self.now) index.now interval offset }
        ensures timed { AreTimed result }
    {
        let (from, to) = bounds_of(index, interval, offset);
        self.range(from, to)
    }

    /// Removes the points before the mark. No point is staged afterwards.
    fn drop_below(&mut self, mark: Time)
        ensures kept { points self.new ≡ points_from (points self.old) mark }
        ensures none_staged { staged self.new ≡ None };

    /// Returns the number of points.
    fn live(&self) -> usize
        ensures { result ≡ map.len (points self.now) };

    /// Returns the number of points in memory, which may include up to 256 removed ones.
    fn held(&self) -> usize
        ensures all { map.len (points self.now) ≤ result }
        ensures few_more { result ≤ map.len (points self.now) + 256 };
}
