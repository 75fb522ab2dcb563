//! Writes a line to columns: finds or creates each of its columns once, and stages its points.
ghost use Rattle.std.specs.Prelude.{◌≡◌, ◌<◌, ◌++◌, ◌∷◌, [], length, map, IsSome, OnOk, set, get_or};
ghost use Rattle.std.specs.List.{AllByRecursion};
ghost use Rattle.ts_line.specs.Parts.{series_of};
ghost use Rattle.ts_raw.specs.Indexed.{column_in};
ghost use Rattle.ts_core.specs.lists.Numbered.{IsAt};
ghost use Rattle.ts_store.specs.store.ColumnStates.{no_column, point_maps, with_point_staged, IsColumnFor, IsSoundContent};
ghost use Rattle.ts_store.specs.write.LinesInColumns.{StagesPoint};
ghost use Rattle.ts_store.specs.rollup.Rollups.{AreRollups, KeepCells, HaveNext, with_next, cells_of};
ghost use Rattle.ts_core.specs.lists.Members.{Among};

use crate::rollup::Rollup;
use crate::store::column_facts::StoredColumn;
use std::alloc::{AllocError, Allocator};
use std::marker::Model;
use ts_core::{Key, Rule, Time, reserve_eighth};
use ts_line::Line;
use ts_raw::{Column, ColumnId, Index, SeriesId};

/// Finds the rollup series of a new column under each rule, and allocates everything that the column needs there.
fn prepare_rollups<A: Allocator + Copy>(
    rules: &[Rule<A>],
    rollups: &mut [Rollup<A>],
    key: &Key<A>,
    field: &str,
) -> Result<(), AllocError>
    requires { length rollups.old ≡ length rules.now }
    ensures kept { KeepCells rollups.old rollups.new }
    ensures next { OnOk result (HaveNext rules.now (record { series = key.now; field = field.now }) rollups.new) }
{
    for (i, rollup) in rollups.iter_mut().enumerate() {
        rollup.prepare(&rules[i], key, field)?;
    }
    Ok(())
}

/// Assigns the new column, under each rule, the rollup series that `prepare_rollups` found. Does not allocate.
fn commit_rollups<A: Allocator + Copy>(rollups: &mut [Rollup<A>], column: ColumnId)
    requires { AllByRecursion (λ s. IsSome s.next × (column ≡ length s.series_of_column)) rollups.old }
    ensures { rollups.new ≡ map with_next rollups.old }
{
    for rollup in rollups.iter_mut() {
        rollup.commit(column);
    }
}

/// Creates the column of a series and a field, without points, with its rollup series under each rule.
#[cold]
#[tactic(auto, using(crate::proofs::rollup::RollupsGrow::cells_kept, crate::proofs::rollup::RollupsGrow::rollups_kept))]
pub(crate) fn make_column<A: Allocator + Copy>(
    index: &mut Index<A>,
    columns: &mut Vec<StoredColumn<A>, A>,
    rules: &[Rule<A>],
    rollups: &mut [Rollup<A>],
    series: SeriesId,
    field: &str,
) -> Result<ColumnId, AllocError>
    requires len { length columns.old.items ≡ length index.old.columns }
    requires series { series < length index.old.series }
    requires absent { Among (column_in index.old series field.now) index.old.columns → ⊥ }
    requires rollups { AreRollups rules.now index.old.columns rollups.old }
    ensures column { IsColumnFor
        (column_in index.old series field.now) index.old columns.old.items index.new columns.new.items result }
    ensures rollups { AreRollups rules.now index.new.columns rollups.new }
    ensures cells { cells_of rollups.new ≡ cells_of rollups.old }
{
    reserve_eighth(columns, 1)?;
    prepare_rollups(rules, rollups, index.key_of(series), field)?;
    let column = index.add_column(series, field)?;
    columns
        .push(StoredColumn::new(*columns.allocator()))
        .unwrap();
    commit_rollups(rollups, column);
    Ok(column)
}

/// Returns the column of a series and a field, creating it if needed.
fn column_for<A: Allocator + Copy>(
    index: &mut Index<A>,
    columns: &mut Vec<StoredColumn<A>, A>,
    rules: &[Rule<A>],
    rollups: &mut [Rollup<A>],
    series: SeriesId,
    field: &str,
) -> Result<ColumnId, AllocError>
    requires len { length columns.old.items ≡ length index.old.columns }
    requires series { series < length index.old.series }
    requires rollups { AreRollups rules.now index.old.columns rollups.old }
    ensures column { IsColumnFor
        (column_in index.old series field.now) index.old columns.old.items index.new columns.new.items result }
    ensures rollups { AreRollups rules.now index.new.columns rollups.new }
    ensures cells { cells_of rollups.new ≡ cells_of rollups.old }
{
    match index.find_column(series, field) {
        Some(column) => Ok(column),
        None => make_column(index, columns, rules, rollups, series, field),
    }
}

/// Stages a point in a column, and appends the column to `touched`. Changes no points.
#[tactic(auto, using(crate::proofs::write::StagedColumns::staged_leaves))]
fn prepare_at<A: Allocator + Copy>(
    columns: &mut Vec<StoredColumn<A>, A>,
    touched: &mut Vec<ColumnId, A>,
    column: ColumnId,
    time: Time,
    value: i64,
) -> Result<(), AllocError>
    requires { column < length columns.old.items }
    ensures ok { OnOk result (columns.new.items
        ≡ set columns.old.items column (with_point_staged (get_or columns.old.items column no_column) time value)) }
    ensures touched { OnOk result (touched.new.items ≡ touched.old.items ++ column ∷ []) }
    ensures len { length columns.new.items ≡ length columns.old.items }
    ensures unchanged { point_maps columns.new.items ≡ point_maps columns.old.items }
{
    columns[column.number()].prepare(time, value)?;
    touched.push(column)?;
    Ok(())
}

/// Stages the points of a line, each in its column, and appends the columns to `touched`.
pub(crate) fn prepare_line<A: Allocator + Copy, L: Allocator>(
    index: &mut Index<A>,
    columns: &mut Vec<StoredColumn<A>, A>,
    rules: &[Rule<A>],
    rollups: &mut [Rollup<A>],
    touched: &mut Vec<ColumnId, A>,
    series: SeriesId,
    line: &Line<'_, L>,
) -> Result<(), AllocError>
    requires held { IsSoundContent index.old columns.old.items }
    requires rollups { AreRollups rules.now index.old.columns rollups.old }
    requires series { IsAt index.old.series series (series_of line.now) }
    requires none { touched.old.items ≡ [] }
    ensures line { StagesPoint
        line.now index.old columns.old.items index.new columns.new.items touched.new.items result }
    ensures rollups { AreRollups rules.now index.new.columns rollups.new }
    ensures cells { cells_of rollups.new ≡ cells_of rollups.old }
{
    for field in line.fields() {
        let name = field.name().text();
        let column = column_for(index, columns, rules, rollups, series, name)?;
        prepare_at(columns, touched, column, line.time(), field.value())?;
    }
    Ok(())
}
