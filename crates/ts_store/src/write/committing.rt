//! Commits the staged points of a line to their columns, and adds them to the cells of rules.
ghost use Rattle.std.specs.Prelude.{◌≡◌, ◌+◌, ◌<◌, ◌≤◌, ◌^◌, pos, ◌≤ℤ◌, length};
ghost use Rattle.std.specs.Bool.{OnFalse};
ghost use Rattle.std.specs.List.{AllByRecursion};
ghost use Rattle.ts_store.specs.store.ColumnStates.{all_committed, AreReady};
ghost use Rattle.ts_store.specs.write.CellsCreated.{bucket_indices};
ghost use Rattle.ts_store.specs.write.PointPuts.{PutsPoint, CommitsPoints};
ghost use Rattle.ts_store.specs.read.PointsRead.{number_of_points};
ghost use Rattle.ts_store.specs.rollup.Rollups.{rollup_series_at, cells_of};
ghost use Rattle.ts_store.specs.retain.RollupSteps.{with_all_grid_cells};

use crate::rollup::Rollup;
use crate::rollup::live_parts::rollup_series_total;
use crate::store::column_facts::StoredColumn;
use std::alloc::Allocator;
use ts_core::{Agg, Partial, Remainder, Rule, Time};
use ts_line::Field;
use ts_raw::{Column as _, ColumnId};

/// Returns true if one of the rules rolls a column up.
fn is_rolled<A: Allocator + Copy>(rollups: &[Rollup<A>], column: usize) -> bool
    requires { AllByRecursion (λ s. column < length s.series_of_column) rollups.now }
    ensures { OnFalse result (AllByRecursion (λ s. rollup_series_at s column ≡ None) rollups.now) }
{
    for rollup in rollups {
        if rollup.rolls(column) {
            return true;
        }
    }
    false
}

/// Adds a fact, which is in its column already, to its cell under each rule. Does nothing under a rule that doesn't
/// roll the column up, or if the cell doesn't exist. `buckets` has the index of the fact's bucket under each rule, and
/// `old` is the value that the fact replaced.
fn update_cells<A: Allocator + Copy>(
    rules: &[Rule<A>],
    buckets: &[i128],
    rollups: &mut [Rollup<A>],
    columns: &[StoredColumn<A>],
    column: ColumnId,
    time: Time,
    value: i64,
    old: Option<i64>,
)
    requires intervals { AllByRecursion (λ r. pos 1 ≤ℤ r.interval) rules.now }
    requires buckets { buckets.now ≡ bucket_indices rules.now time }
    requires column { column < length columns.now }
    requires rules { length rollups.old ≡ length rules.now }
    requires each { AllByRecursion (λ s. length s.series_of_column ≡ length columns.now) rollups.old }
    requires few { number_of_points columns.now ≤ 2 ^ 62 }
    ensures kept { rollups.new ≡ with_all_grid_cells (cells_of rollups.new) rollups.old }
    ensures cells { PutsPoint rules.now columns.now column time value old rollups.old rollups.new }
{
    for (i, rollup) in rollups.iter_mut().enumerate() {
        let rule = &rules[i];
        let index = &buckets[i];
        let Some(series) = rollup.rollup_series_of(column.number()) else {
            continue;
        };
        let Some(replaced) = old else {
            rollup.cells.add(index, series, Agg::single(time, value));
            continue;
        };
        let Some(live) = rollup.live(index, series) else {
            continue;
        };
        let live = match live.without(Agg::single(time, replaced)) {
            Some(rest) => Agg::single(time, value).merge(rest),
            None => rollup_series_total(rule, rollup, columns, series, index),
        };
        rollup.cells.correct(index, series, live);
    }
}

/// Commits the staged points of the columns with these ids, points of this time with the values of fields, and corrects
/// the cells of the rules. Searches for a value that is replaced only if a rule rolls the column up. Does not allocate.
pub(crate) fn commit_points<A: Allocator + Copy, L: Allocator>(
    columns: &mut Vec<StoredColumn<A>, A>,
    rules: &[Rule<A>],
    buckets: &[i128],
    rollups: &mut [Rollup<A>],
    numbers: &[ColumnId],
    fields: &[Field<'_, L>],
    time: Time,
)
    requires intervals { AllByRecursion (λ r. pos 1 ≤ℤ r.interval) rules.now }
    requires buckets { buckets.now ≡ bucket_indices rules.now time }
    requires ready { AreReady columns.old.items numbers.now }
    requires fields { length fields.now ≡ length numbers.now }
    requires rules { length rollups.old ≡ length rules.now }
    requires each { AllByRecursion (λ s. length s.series_of_column ≡ length columns.old.items) rollups.old }
    requires few { number_of_points columns.old.items + length numbers.now ≤ 2 ^ 62 }
    ensures columns { columns.new.items ≡ all_committed columns.old.items numbers.now }
    ensures kept { rollups.new ≡ with_all_grid_cells (cells_of rollups.new) rollups.old }
    ensures cells { CommitsPoints
        rules.now numbers.now time fields.now columns.old.items rollups.old columns.new.items rollups.new }
{
    for (number, field) in numbers.iter().zip(fields) {
        let at = number.number();
        if !is_rolled(rollups, at) {
            columns[at].commit();
            continue;
        }
        let old = columns[at].value_at(time);
        columns[at].commit();
        update_cells(
            rules,
            buckets,
            rollups,
            columns.as_slice(),
            *number,
            time,
            field.value(),
            old,
        );
    }
}
