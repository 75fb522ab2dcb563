//! A column stored as a sorted vector.
ghost use Rattle.std.specs.Prelude.{◌≡◌, ◌<◌, ◌≤◌, length, filter, vec_len, vec_capacity, drop};
ghost use Rattle.std.specs.Ordering.{int_cmp};
ghost use Rattle.std.specs.FinMap as map;
ghost use Rattle.std.specs.FinMap.{put, find};
ghost use Rattle.std.specs.List.Sorted.{IsSearchInRange};
ghost use Rattle.ts_core.specs.facts.Facts.{is_within};
ghost use Rattle.ts_raw.specs.Columns.{AreTimed, points_within};
ghost use Rattle.ts_raw.specs.PlainColumns.{IsRising, IsIndexOf, IsStartOf};

use crate::column::Column;
use crate::points::Points;
use std::alloc::{AllocError, Allocator};
use std::marker::Model;
use ts_core::Time;

/// Points in a vector sorted by time. A point after all others is appended; any other insertion moves those after it.
#[derive(Drop)]
pub struct PlainColumn<A: Allocator> {
    points: Vec<(Time, i64), A>,
    staged: Option<(Time, i64)>,
}

impl<A: Allocator> Model for PlainColumn<A> {
    ghost use Rattle.std.specs.Prelude.{vec_len, vec_capacity};
    ghost use Rattle.std.specs.FinMap as map;
    ghost use Rattle.ts_raw.specs.Columns.{ColumnState, coded_column_state};
    ghost use Rattle.ts_raw.specs.PlainColumns.{IsReady};

    ghost Value = { ColumnState };

    ghost coded = { coded_column_state };

    ghost view = { λ c. record { points = map.from_sorted c.points.items; staged = c.staged } };

    ghost invariant = { λ c. IsReady c.points.items (vec_len c.points) (vec_capacity c.points) c.staged };
}

/// Searches for a time by binary search. Returns `Ok` with its index, or `Err` with the index to insert it at.
fn index_in(points: &[(Time, i64)], time: Time) -> Result<usize, usize>
    requires { IsRising points.now }
    ensures bound { IsSearchInRange result (length points.now) }
    ensures index { IsIndexOf time points.now result }
{
    points.binary_search_by(|point| point.0.cmp(&time))
}

/// Inserts a point by binary search, replacing the point with its time.
#[cold]
fn insert_among<A: Allocator>(points: &mut Vec<(Time, i64), A>, point: (Time, i64))
    requires rising { IsRising points.old.items }
    requires spare { vec_len points.old < vec_capacity points.old }
    ensures { points.new.items ≡ put int_cmp point.0 point.1 points.old.items }
{
    match index_in(points.as_slice(), point.0) {
        Ok(at) => points[at] = point,
        Err(at) => points.insert(at, point).unwrap(),
    }
}

/// Inserts a point, replacing the point with its time. Appends it if it comes after all others.
fn insert_point<A: Allocator>(points: &mut Vec<(Time, i64), A>, point: (Time, i64))
    requires rising { IsRising points.old.items }
    requires spare { vec_len points.old < vec_capacity points.old }
    ensures { points.new.items ≡ put int_cmp point.0 point.1 points.old.items }
{
    match points.last() {
        Some(last) if last.0 < point.0 => points.push(point).unwrap(),
        _ => insert_among(points, point),
    }
}

/// Returns the number of points before a time in nanoseconds, by binary search.
pub(crate) fn count_before(points: &[(Time, i64)], time: i64) -> usize
    requires { IsRising points.now }
    ensures bound { result ≤ length points.now }
    ensures start { IsStartOf time points.now result }
{
    points.partition_point(|point| point.0.nanos() < time)
}

/// Returns the points from `from`, inclusive, to `to`, exclusive (nanoseconds).
fn between<'a>(points: &'a [(Time, i64)], from: i64, to: i64) -> &'a [(Time, i64)]
    requires { IsRising points.now }
    ensures { result.now ≡ filter (λ p. is_within from to p.0) points.now }
{
    let start = count_before(points, from);
    let end = count_before(points, to);
    if start < end {
        &points[start..end]
    } else {
        &[]
    }
}

/// Returns the value of the point at a time, if there is one, by binary search.
#[cold]
fn value_among(points: &[(Time, i64)], time: Time) -> Option<i64>
    requires { IsRising points.now }
    ensures { result ≡ find int_cmp time points.now }
{
    match index_in(points, time) {
        Ok(at) => Some(points[at].1),
        Err(_) => None,
    }
}

/// Returns the value of the point at a time, if there is one. Compares the time with the last one first.
fn value_in(points: &[(Time, i64)], time: Time) -> Option<i64>
    requires { IsRising points.now }
    ensures { result ≡ find int_cmp time points.now }
{
    let last = points.last()?;
    if last.0 < time {
        return None;
    }
    value_among(points, time)
}

/// Removes the first `count` points.
fn drop_front<A: Allocator>(points: &mut Vec<(Time, i64), A>, count: usize)
    requires { count ≤ vec_len points.old }
    ensures { points.new.items ≡ drop count points.old.items }
{
    drop(points.drain(..count));
}

impl<A: Allocator> PlainColumn<A> {
    /// Creates an empty column. Does not allocate.
    pub fn new(alloc: A) -> PlainColumn<A>
        ensures points { result.points ≡ map.empty }
        ensures none_staged { result.staged ≡ None }
    {
        PlainColumn {
            points: Vec::new(alloc),
            staged: None,
        }
    }

    /// Creates a column of points, which must be in the order of time, each time once. Moves the vector in.
    pub fn from_points(points: Vec<(Time, i64), A>) -> PlainColumn<A>
        requires rising { IsRising points.items }
        requires timed { AreTimed points.items }
        ensures points { result.points ≡ map.from_sorted points.items }
        ensures entries { map.entries result.points ≡ points.items }
        ensures none_staged { result.staged ≡ None }
    {
        PlainColumn {
            points,
            staged: None,
        }
    }

    /// Returns all points in the order of time.
    pub fn all(&self) -> Points<'_>
        ensures points { result ≡ map.entries self.now.points }
        ensures timed { AreTimed result }
    {
        Points::plain(self.as_slice())
    }

    /// Returns all points in the order of time.
    fn as_slice(&self) -> &[(Time, i64)]
        ensures points { result.now ≡ map.entries self.now.points }
        ensures timed { AreTimed result.now }
    {
        self.points.as_slice()
    }

    /// Returns the points from `from`, inclusive, to `to`, exclusive (nanoseconds).
    fn window(&self, from: i64, to: i64) -> &[(Time, i64)]
        ensures points { result.now ≡ points_within self.now.points from to }
        ensures timed { AreTimed result.now }
        ensures all_timed { AreTimed (map.entries self.now.points) }
    {
        between(self.points.as_slice(), from, to)
    }

    /// Returns the value at a time, if there is a point. Doesn't search if the time is after all others.
    pub fn value_at(&self, time: Time) -> Option<i64>
        ensures { result ≡ map.get self.now.points time }
    {
        value_in(self.points.as_slice(), time)
    }
}

impl<A: Allocator> Column for PlainColumn<A> {
    ghost points = { λ c. c.points };

    ghost staged = { λ c. c.staged };

    fn prepare(&mut self, time: Time, value: i64) -> Result<(), AllocError> {
        let spare = self.points.reserve(1);
        self.staged = spare.is_ok().then_some((time, value));
        spare
    }

    fn commit(&mut self) {
        let point = self.staged.take().unwrap();
        insert_point(&mut self.points, point);
    }

    fn range(&self, from: i64, to: i64) -> Points<'_> {
        Points::plain(self.window(from, to))
    }

    fn drop_below(&mut self, mark: Time) {
        self.staged = None;
        let count = count_before(self.points.as_slice(), mark.nanos());
        drop_front(&mut self.points, count);
    }

    fn live(&self) -> usize {
        self.points.len()
    }

    fn held(&self) -> usize
        ensures exact { result ≡ map.len self.now.points }
    {
        self.live()
    }
}
