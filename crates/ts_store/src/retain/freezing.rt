//! Moves a column's points below a mark from the live to the frozen parts of cells.
ghost use Rattle.std.specs.Prelude.{◌≡◌, ◌<◌, ◌≤◌, ◌^◌, pos, ◌≤ℤ◌, [], ◌∷◌, length};
ghost use Rattle.ts_store.specs.read.PointsRead.{number_of_points};
ghost use Rattle.ts_store.specs.retain.PointMoves.{MovesBucket, MovesPoints};
ghost use Rattle.ts_store.specs.rollup.Rollups.{with_grid_cells};

use crate::retain::points_below::PointsBelow;
use crate::rollup::Rollup;
use crate::rollup::live_parts::rollup_series_left;
use crate::store::column_facts::StoredColumn;
use std::alloc::Allocator;
use ts_core::{Agg, Partial, Remainder, Rule, Time, index_of};

/// Moves a bucket's points of a column below a mark, which have the aggregate `part`, from the live to the frozen part
/// of their cell. Folds the live part anew only if the rest isn't determined. Does nothing if the cell doesn't exist.
fn move_bucket<A: Allocator + Copy>(
    rule: &Rule<A>,
    rollup: &mut Rollup<A>,
    columns: &[StoredColumn<A>],
    column: usize,
    mark: Time,
    index: &i128,
    part: Agg,
)
    requires interval { pos 1 ≤ℤ rule.now.interval }
    requires column { column < length columns.now }
    requires each { length rollup.old.series_of_column ≡ length columns.now }
    requires few { number_of_points columns.now ≤ 2 ^ 62 }
    ensures kept { rollup.new ≡ with_grid_cells rollup.new.grid.cells rollup.old }
    ensures cells { MovesBucket rule.now columns.now column mark index.now part rollup.old rollup.new }
{
    let Some(series) = rollup.rollup_series_of(column) else {
        return;
    };
    let Some(live) = rollup.live(index, series) else {
        return;
    };
    let rest = match live.without(part) {
        Some(rest) => rest,
        None => rollup_series_left(rule, rollup, columns, series, index, column, mark),
    };
    rollup.cells.freeze(index, series, part);
    rollup.cells.correct(index, series, rest);
}

/// Moves a column's points below a mark under a rule from the live to the frozen parts of their cells. The points of a
/// bucket follow one another: folds them, and moves them at once. Does nothing if the column is of another measurement.
pub(crate) fn move_points<A: Allocator + Copy>(
    rule: &Rule<A>,
    rollup: &mut Rollup<A>,
    columns: &[StoredColumn<A>],
    column: usize,
    mark: Time,
)
    requires interval { pos 1 ≤ℤ rule.now.interval }
    requires column { column < length columns.now }
    requires each { length rollup.old.series_of_column ≡ length columns.now }
    requires few { number_of_points columns.now ≤ 2 ^ 62 }
    ensures { MovesPoints (rule.now ∷ []) columns.now column mark (rollup.old ∷ []) (rollup.new ∷ []) }
{
    if !rollup.rolls(column) {
        return;
    }
    let mut points = PointsBelow::new(&columns[column], mark);
    let Some((time, value)) = points.next() else {
        return;
    };
    let mut bucket = index_of(rule, i128::from(time.nanos()));
    let mut folded = Agg::single(time, value);
    for (time, value) in points {
        let index = index_of(rule, i128::from(time.nanos()));
        let point = Agg::single(time, value);
        if index == bucket {
            folded = folded.merge(point);
        } else {
            move_bucket(rule, rollup, columns, column, mark, &bucket, folded);
            bucket = index;
            folded = point;
        }
    }
    move_bucket(rule, rollup, columns, column, mark, &bucket, folded);
}
