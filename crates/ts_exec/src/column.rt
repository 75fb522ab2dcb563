//! Adds the points of a column to the rows of a group.
ghost use Rattle.std.specs.Prelude.{◌≡◌, ◌+◌, ◌^◌, ◌<◌, ◌≤◌, ◌≤ℤ◌, ◌<ℤ◌, length, get_or};
ghost use Rattle.ts_core.specs.aggregates.Aggregates.{empty_aggregate};
ghost use Rattle.ts_store.specs.read.ViewResults.{points_at};
ghost use Rattle.ts_exec.specs.declared.aggregate_parts.AggregateParts.TheVariants.{CountAlone};
ghost use Rattle.ts_exec.specs.RowParts.{with_counted, with_point_parts};

use crate::aggregate_parts::AggregateParts;
use crate::buckets::BucketCursor;
use crate::fold::{Bounded, Counted, Fold, Summed};
use crate::rows::{add_part, add_runs, can_add};
use std::alloc::Allocator;
use ts_core::Agg;
use ts_raw::{ColumnId, Points};
use ts_store::View;

/// Points of a column of a view from `from`, inclusive, to `to`, exclusive.
#[derive(Drop)]
pub(crate) struct ColumnRange<'a, V> {
    pub view: &'a V,
    pub column: ColumnId,
    pub from: i64,
    pub to: i64,
}

/// Adds the number of points of a bucket to its row, which must be able to count them.
fn add_count(rows: &mut [Agg], row_index: usize, count: u64)
    requires { (get_or rows.old row_index empty_aggregate).count + (count + 1) ≤ 2 ^ 62 }
    ensures { rows.new ≡ with_counted row_index count rows.old }
{
    if count > 0 {
        add_part(rows, row_index, Counted::new(count).part());
    }
}

/// Adds the points from `from` on that are in one bucket, without visiting them; visits all that are left if the
/// bucket's row could exceed 2^62 points. Returns the end of those added.
fn count_next<A: Allocator, V: View<A>>(
    rows: &mut [Agg],
    buckets: &mut BucketCursor,
    range: &ColumnRange<'_, V>,
    from: i64,
) -> i64
    requires column { range.now.column < length (V.seen range.now.view.now).columns }
    requires some { from <ℤ range.now.to }
    ensures value { rows.new ≡ with_point_parts CountAlone buckets.old
        (points_at (V.seen range.now.view.now).columns range.now.column from result) rows.old }
    ensures more { from <ℤ result }
    ensures end { result ≤ℤ range.now.to }
    ensures same { buckets.new ≡ buckets.old }
{
    // For the proof: the number of rows fits a `usize`.
    let _width = rows.len();
    let span = buckets.span(from);
    let end = span.high.min(range.to);
    if span.low <= from && from < end {
        let count = range.view.raw_range(range.column, from, end).len() as u64;
        if can_add(rows, span.row_index, count) {
            add_count(rows, span.row_index, count);
            return end;
        }
    }
    let points = range.view.raw_range(range.column, from, range.to);
    add_runs::<Counted>(rows, buckets, from, points);
    range.to
}

/// Adds the points bucket by bucket, without visiting them.
fn count<A: Allocator, V: View<A>>(
    rows: &mut [Agg],
    buckets: &mut BucketCursor,
    range: &ColumnRange<'_, V>,
)
    requires { range.now.column < length (V.seen range.now.view.now).columns }
    ensures value { rows.new ≡ with_point_parts CountAlone buckets.old
        (points_at (V.seen range.now.view.now).columns range.now.column range.now.from range.now.to) rows.old }
    ensures same { buckets.new ≡ buckets.old }
{
    let mut from = range.from;
    while from < range.to {
        from = count_next(rows, buckets, range, from);
    }
}

/// Adds the points of a range, each to the row of its bucket. Keeps these parts of them.
pub(crate) fn add_points<A: Allocator, V: View<A>>(
    rows: &mut [Agg],
    parts: AggregateParts,
    buckets: &mut BucketCursor,
    range: &ColumnRange<'_, V>,
    points: Points<'_>,
)
    requires column { range.now.column < length (V.seen range.now.view.now).columns }
    requires points { points_at
        (V.seen range.now.view.now).columns range.now.column range.now.from range.now.to ≡ points }
    ensures value { rows.new ≡ with_point_parts parts buckets.old points.entry rows.old }
    ensures same { buckets.new ≡ buckets.old }
{
    match parts {
        AggregateParts::CountAlone => {
            if buckets.are_full(points.len(), range.from, range.to) {
                count(rows, buckets, range);
            } else {
                add_runs::<Counted>(rows, buckets, range.from, points);
            }
        }
        AggregateParts::CountAndSum => add_runs::<Summed>(rows, buckets, range.from, points),
        AggregateParts::Bounds => add_runs::<Bounded>(rows, buckets, range.from, points),
        AggregateParts::Whole => add_runs::<Agg>(rows, buckets, range.from, points),
    }
}
