//! Creates the cells of raw points, and adds the points to them.
ghost use Rattle.std.specs.Prelude.{◌≡◌, ◌≤◌, ◌<◌, ◌^◌, pos, ◌≤ℤ◌, length, map, OnOk, Some};
ghost use Rattle.std.specs.FinMap as finmap;
ghost use Rattle.std.specs.List.{AllByRecursion};
ghost use Rattle.ts_core.specs.store.StoreStates.{column_of, facts_of};
ghost use Rattle.ts_store.specs.image.BuildingParts.{AreIdle, FillsCells, KeepFrozen};
ghost use Rattle.ts_store.specs.read.PointsRead.{number_of_points};
ghost use Rattle.ts_store.specs.retain.RollupSteps.{with_all_grid_cells};
ghost use Rattle.ts_store.specs.rollup.PointsFilled.{MakesPoints, MakePoints, MakeAllPoints, AddsPoints, AddPoints, AddAllPoints};
ghost use Rattle.ts_store.specs.rollup.Rollups.{AreRollups, cells_of, rollup_series_at, with_grid_cells};

use crate::rollup::Rollup;
use crate::rollup::bucket_points::{ROOM, take_bucket};
use crate::store::column_facts::{ColumnFacts, StoredColumn};
use std::alloc::{AllocError, Allocator};
use ts_cells::RollupSeriesId;
use ts_core::{Rule, Time, aggregate_points};
use ts_raw::{Points, Run};

/// Creates the missing cells of points of a column of a rollup series under a rule, from the low index on.
fn make_run<A: Allocator + Copy>(
    rule: &Rule<A>,
    low: &i128,
    rollup: &mut Rollup<A>,
    series: RollupSeriesId,
    run: Run<'_>,
) -> Result<(), AllocError>
    requires interval { pos 1 ≤ℤ rule.now.interval }
    requires series { series < length rollup.old.grid.rollup_series }
    ensures kept { rollup.new ≡ with_grid_cells rollup.new.grid.cells rollup.old }
    ensures cells { OnOk result (MakesPoints rule.now low.now (Some series) run.entry rollup.old rollup.new) }
{
    let mut run = run;
    while let Some((index, _)) = take_bucket(rule, &mut run) {
        if index >= *low {
            rollup.make_room_in(series, &index)?;
        }
    }
    Ok(())
}

/// Creates the missing cells of a column's points under a rule, from the low index on.
fn make_cells<A: Allocator + Copy>(
    rule: &Rule<A>,
    low: &i128,
    rollup: &mut Rollup<A>,
    column: usize,
    points: Points<'_>,
) -> Result<(), AllocError>
    requires interval { pos 1 ≤ℤ rule.now.interval }
    requires column { column < length rollup.old.series_of_column }
    ensures kept { rollup.new ≡ with_grid_cells rollup.new.grid.cells rollup.old }
    ensures cells { OnOk result
        (MakesPoints rule.now low.now (rollup_series_at rollup.old column) points.entry rollup.old rollup.new) }
{
    let Some(series) = rollup.rollup_series_of(column) else {
        return Ok(());
    };
    let mut room = [(Time::least(), 0); ROOM];
    let mut points = points;
    loop {
        let run = points.next_run(&mut room);
        if run.is_empty() {
            return Ok(());
        }
        make_run(rule, low, rollup, series, run)?;
    }
}

/// Does the same under each rule.
fn make_under_all<A: Allocator + Copy>(
    rules: &[Rule<A>],
    lows: &[i128],
    rollups: &mut [Rollup<A>],
    number: usize,
    column: &StoredColumn<A>,
) -> Result<(), AllocError>
    requires intervals { AllByRecursion (λ r. pos 1 ≤ℤ r.interval) rules.now }
    requires rules { length rollups.old ≡ length rules.now }
    requires lows { length lows.now ≡ length rules.now }
    requires inside { AllByRecursion (λ s. number < length s.series_of_column) rollups.old }
    ensures kept { rollups.new ≡ with_all_grid_cells (cells_of rollups.new) rollups.old }
    ensures cells { OnOk result
        (MakePoints rules.now lows.now number (finmap.entries column.now.points) rollups.old rollups.new) }
{
    for (i, rollup) in rollups.iter_mut().enumerate() {
        make_cells(&rules[i], &lows[i], rollup, number, column.all())?;
    }
    Ok(())
}

/// Creates the missing cells of all points.
pub(crate) fn make_all_cells<A: Allocator + Copy>(
    rules: &[Rule<A>],
    lows: &[i128],
    rollups: &mut [Rollup<A>],
    columns: &[StoredColumn<A>],
) -> Result<(), AllocError>
    requires intervals { AllByRecursion (λ r. pos 1 ≤ℤ r.interval) rules.now }
    requires rules { length rollups.old ≡ length rules.now }
    requires lows { length lows.now ≡ length rules.now }
    requires each { AllByRecursion (λ s. length s.series_of_column ≡ length columns.now) rollups.old }
    ensures kept { rollups.new ≡ with_all_grid_cells (cells_of rollups.new) rollups.old }
    ensures cells { OnOk result (MakeAllPoints rules.now lows.now columns.now rollups.old rollups.new) }
{
    for number in 0..columns.len() {
        make_under_all(rules, lows, rollups, number, &columns[number])?;
    }
    Ok(())
}

/// Adds points of a column of a rollup series to the live parts of their cells under a rule. Folds the points of a
/// bucket first, and adds them at once.
fn add_run<A: Allocator + Copy>(
    rule: &Rule<A>,
    rollup: &mut Rollup<A>,
    series: RollupSeriesId,
    run: Run<'_>,
)
    requires interval { pos 1 ≤ℤ rule.now.interval }
    requires series { series < length rollup.old.grid.rollup_series }
    requires few { length run ≤ 2 ^ 62 }
    ensures { AddsPoints rule.now (Some series) run.entry rollup.old rollup.new }
{
    let mut run = run;
    while let Some((index, points)) = take_bucket(rule, &mut run) {
        rollup.add(&index, series, aggregate_points(points));
    }
}

/// Adds points of a column to the live parts of their cells under a rule.
fn add_points<A: Allocator + Copy>(
    rule: &Rule<A>,
    rollup: &mut Rollup<A>,
    column: usize,
    points: Points<'_>,
)
    requires interval { pos 1 ≤ℤ rule.now.interval }
    requires column { column < length rollup.old.series_of_column }
    requires few { length points ≤ 2 ^ 62 }
    ensures { AddsPoints rule.now (rollup_series_at rollup.old column) points.entry rollup.old rollup.new }
{
    let Some(series) = rollup.rollup_series_of(column) else {
        return;
    };
    let mut room = [(Time::least(), 0); ROOM];
    let mut points = points;
    loop {
        let run = points.next_run(&mut room);
        if run.is_empty() {
            return;
        }
        add_run(rule, rollup, series, run);
    }
}

/// Does the same under each rule.
fn add_under_all<A: Allocator + Copy>(
    rules: &[Rule<A>],
    rollups: &mut [Rollup<A>],
    number: usize,
    column: &StoredColumn<A>,
)
    requires intervals { AllByRecursion (λ r. pos 1 ≤ℤ r.interval) rules.now }
    requires rules { length rollups.old ≡ length rules.now }
    requires inside { AllByRecursion (λ s. number < length s.series_of_column) rollups.old }
    requires few { finmap.len column.now.points ≤ 2 ^ 62 }
    ensures kept { rollups.new ≡ with_all_grid_cells (cells_of rollups.new) rollups.old }
    ensures frozen { KeepFrozen (cells_of rollups.old) (cells_of rollups.new) }
    ensures live { AddPoints rules.now number (finmap.entries column.now.points) rollups.old rollups.new }
{
    for (i, rollup) in rollups.iter_mut().enumerate() {
        add_points(&rules[i], rollup, number, column.all());
    }
}

/// Adds all points to live parts, which must be empty.
pub(crate) fn add_all_points<A: Allocator + Copy>(
    rules: &[Rule<A>],
    rollups: &mut [Rollup<A>],
    columns: &[StoredColumn<A>],
)
    requires intervals { AllByRecursion (λ r. pos 1 ≤ℤ r.interval) rules.now }
    requires rules { length rollups.old ≡ length rules.now }
    requires each { AllByRecursion (λ s. length s.series_of_column ≡ length columns.now) rollups.old }
    requires few { number_of_points columns.now ≤ 2 ^ 62 }
    ensures kept { rollups.new ≡ with_all_grid_cells (cells_of rollups.new) rollups.old }
    ensures frozen { KeepFrozen (cells_of rollups.old) (cells_of rollups.new) }
    ensures live { AddAllPoints rules.now columns.now rollups.old rollups.new }
{
    for number in 0..columns.len() {
        add_under_all(rules, rollups, number, &columns[number]);
    }
}

impl<A: Allocator + Copy> ColumnFacts<A> {
    /// Creates the missing cells of raw facts, from low indices on, and adds the facts to live parts. After out of
    /// memory, some cells may be missing.
    pub(crate) fn fill_cells(&mut self, rules: &[Rule<A>], lows: &[i128]) -> Result<(), AllocError>
        requires intervals { AllByRecursion (λ r. pos 1 ≤ℤ r.interval) rules.now }
        requires rollups { AreRollups rules.now (map column_of self.old.columns) self.old.rollups }
        requires lows { length lows.now ≡ length rules.now }
        requires idle { AreIdle (cells_of self.old.rollups) }
        requires few { length (facts_of self.old.columns) ≤ 2 ^ 62 }
        ensures { OnOk result (FillsCells rules.now lows.now self.old self.new) }
    {
        let columns = self.columns.as_slice();
        let rollups = self.rollups.as_mut_slice();
        make_all_cells(rules, lows, rollups, columns)?;
        add_all_points(rules, rollups, columns);
        Ok(())
    }
}
