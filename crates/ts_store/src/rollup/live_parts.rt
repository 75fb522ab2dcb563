//! Live parts of cells, folded from the points of columns.
ghost use Rattle.std.specs.Prelude.{◌≡◌, ◌+◌, ◌<◌, ◌≤◌, ◌^◌, pos, ◌≤ℤ◌, length};
ghost use Rattle.ts_core.specs.aggregates.Aggregates.{merged, aggregate_of_points};
ghost use Rattle.ts_core.specs.lists.Members.{AllDistinct};
ghost use Rattle.ts_store.specs.rollup.LivePoints.{points_since, bucket_since, left_states, rollup_series_total as total_in};
ghost use Rattle.ts_store.specs.read.PointsRead.{number_of_points};

use crate::rollup::Rollup;
use crate::store::column_facts::StoredColumn;
use std::alloc::Allocator;
use ts_cells::RollupSeriesId;
use ts_core::{Agg, Partial, Rule, Time, index_of};
use ts_raw::{Column, Points};

/// Merges points into an aggregate, and returns it.
fn with_points(total: Agg, points: Points<'_>) -> Agg
    requires { total.count + length points ≤ 2 ^ 62 }
    ensures { result ≡ merged total (aggregate_of_points points.entry) }
{
    let mut all = total;
    for (time, value) in points {
        all = all.merge(Agg::single(time, value));
    }
    all
}

/// Merges the points at or above a mark into an aggregate, and returns it.
fn with_points_since(total: Agg, points: Points<'_>, mark: Time) -> Agg
    requires { total.count + length (points_since mark points) ≤ 2 ^ 62 }
    ensures { result ≡ merged total (aggregate_of_points (points_since mark points.entry)) }
{
    let mut all = total;
    for (time, value) in points {
        if time >= mark {
            all = all.merge(Agg::single(time, value));
        }
    }
    all
}

/// Merges a column's points of a bucket at or above a mark into an aggregate, and returns it. Looks for none in a
/// bucket before that of the mark.
fn with_bucket_since<A: Allocator + Copy>(
    total: Agg,
    rule: &Rule<A>,
    column: &StoredColumn<A>,
    index: &i128,
    mark: Time,
) -> Agg
    requires interval { pos 1 ≤ℤ rule.now.interval }
    requires few { total.count + length (bucket_since mark rule.now index.now column.now.points) ≤ 2 ^ 62 }
    ensures { result ≡ merged total (aggregate_of_points (bucket_since mark rule.now index.now column.now.points)) }
{
    if *index < index_of(rule, i128::from(mark.nanos())) {
        return total;
    }
    with_points_since(
        total,
        column.bucket(index, rule.interval(), rule.offset()),
        mark,
    )
}

/// Returns the aggregate of a bucket's points in the columns of a rollup series.
pub(crate) fn rollup_series_total<A: Allocator + Copy>(
    rule: &Rule<A>,
    rollup: &Rollup<A>,
    columns: &[StoredColumn<A>],
    series: RollupSeriesId,
    index: &i128,
) -> Agg
    requires interval { pos 1 ≤ℤ rule.now.interval }
    requires series { series < length rollup.now.grid.rollup_series }
    requires each { length rollup.now.series_of_column ≡ length columns.now }
    requires few { number_of_points columns.now ≤ 2 ^ 62 }
    ensures total { result ≡ total_in rule.now rollup.now columns.now series index.now }
    ensures once { AllDistinct rollup.now.grid.rollup_series }
{
    let mut total = Agg::empty();
    for column in rollup.columns_of(series) {
        let points = columns[column.number()].bucket(index, rule.interval(), rule.offset());
        total = with_points(total, points);
    }
    total
}

/// Does the same, but leaves out the points of one column below a mark.
pub(crate) fn rollup_series_left<A: Allocator + Copy>(
    rule: &Rule<A>,
    rollup: &Rollup<A>,
    columns: &[StoredColumn<A>],
    series: RollupSeriesId,
    index: &i128,
    moved: usize,
    mark: Time,
) -> Agg
    requires interval { pos 1 ≤ℤ rule.now.interval }
    requires series { series < length rollup.now.grid.rollup_series }
    requires each { length rollup.now.series_of_column ≡ length columns.now }
    requires few { number_of_points columns.now ≤ 2 ^ 62 }
    requires moved { moved < length columns.now }
    ensures total { result ≡ total_in rule.now rollup.now (left_states mark moved columns.now) series index.now }
    ensures once { AllDistinct rollup.now.grid.rollup_series }
{
    let mut total = Agg::empty();
    for column in rollup.columns_of(series) {
        let stored = &columns[column.number()];
        total = if column.number() == moved {
            with_bucket_since(total, rule, stored, index, mark)
        } else {
            with_points(total, stored.bucket(index, rule.interval(), rule.offset()))
        };
    }
    total
}
