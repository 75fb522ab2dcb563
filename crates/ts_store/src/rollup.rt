//! The rollup of a rule: its cells, the rollup series of each column, and the columns of each rollup series. A rollup
//! series is a field with the values of the kept tags.
ghost use Rattle.std.specs.Prelude.{◌≡◌, ◌<◌, length, replicate, map, IsSome, is_some, IfSome, option_map, IfOk, OnOk, OnErr, None, Some};
ghost use Rattle.std.specs.FinMap as finmap;
ghost use Rattle.std.specs.List.{AllByRecursion};
ghost use Rattle.ts_core.specs.aggregates.Aggregates.{Aggregate, empty_aggregate};
ghost use Rattle.ts_core.specs.lists.Members.{AllDistinct};
ghost use Rattle.ts_core.specs.facts.Tags.{tag_values};
ghost use Rattle.ts_cells.specs.Expiry.{LosesBelow};
ghost use Rattle.ts_cells.specs.FrozenCounts.{frozen_cell_count};
ghost use Rattle.ts_core.specs.lists.Numbered.{IsAt};
ghost use Rattle.ts_cells.specs.Grids.{rollup_series_of, rollup_series_named, borrowed_texts, cell_at, cell_in};
ghost use Rattle.ts_cells.specs.Walks.{entry_of, entries_within};
ghost use Rattle.ts_store.specs.rollup.ColumnLists.{HasCapacityAt};
ghost use Rattle.ts_store.specs.rollup.Rollups.{new_rollup, Extends, KeepsLists, KeepsCells, HasNext, with_next, with_grid_cells, cell_created_in, added_in, live_part, rollup_series_at, columns_of_rollup_series};

use series_columns::SeriesColumns;
use std::alloc::{AllocError, Allocator};
use std::hash::RandomState;
use std::marker::Model;
use ts_cells::{Cells, Parts, RollupSeriesId, Walk};
use ts_core::{Agg, Key, Rule, reserve_eighth};
use ts_raw::ColumnId;

pub(crate) mod bucket_points;
pub(crate) mod cells_filled;
pub(crate) mod live_parts;
mod series_columns;

/// Cells of a rule, with the rollup series of each column and the columns of each rollup series.
#[derive(Drop)]
pub(crate) struct Rollup<A: Allocator> {
    pub(crate) cells: Cells<Agg, A>,
    /// Rollup series of each column; `None` if the column is of another measurement.
    series_of_column: Vec<Option<RollupSeriesId>, A>,
    /// Columns of each rollup series.
    columns: Vec<SeriesColumns<A>, A>,
    /// Rollup series of the column to be created next, once `prepare` has found it and allocated the column's capacity.
    next: Option<Option<RollupSeriesId>>,
}

impl<A: Allocator> Model for Rollup<A> {
    ghost use Rattle.std.specs.Prelude.{map};
    ghost use Rattle.ts_store.specs.rollup.ColumnLists.{lists_in, capacities_in};
    ghost use Rattle.ts_store.specs.rollup.Rollups.{RollupState, coded_rollup, IsRollup, has_spare};

    ghost Value = { RollupState };

    ghost coded = { coded_rollup };

    ghost view = { λ r. record { grid = r.cells; series_of_column = r.series_of_column.items; next = r.next } };

    ghost invariant = { λ r. IsRollup r.cells.rollup_series r.series_of_column.items
        (lists_in r.columns.items) r.next (has_spare r.series_of_column) (capacities_in r.columns.items) };
}

/// Creates empty rollups for this number of rules, with a seed of the hashes of their names.
pub(crate) fn new_rollups<A: Allocator + Copy>(
    alloc: A,
    seed: RandomState,
    rules: usize,
) -> Result<Vec<Rollup<A>, A>, AllocError>
    ensures { IfOk result (λ rollups. rollups.items ≡ replicate rules new_rollup) }
{
    let mut rollups = Vec::with_capacity(alloc, rules)?;
    for _ in 0..rules {
        rollups.push(Rollup::new(alloc, seed))?;
    }
    Ok(rollups)
}

/// Returns a series' values of a rule's kept tags.
fn group_of<'a, A: Allocator + Copy>(
    alloc: A,
    rule: &Rule<A>,
    key: &'a Key<A>,
) -> Result<Vec<&'a str, A>, AllocError>
    ensures { IfOk result (λ group. borrowed_texts group.items ≡ tag_values rule.now.kept_tags key.now) }
{
    let tags = rule.kept_tags();
    let mut group = Vec::with_capacity(alloc, tags.len())?;
    for tag in tags {
        group.push(key.tag_value(tag.as_str()))?;
    }
    Ok(group)
}

/// Returns the rollup series of a field and a group, creating it and its list of columns if needed.
fn listed_rollup_series<A: Allocator + Copy>(
    cells: &mut Cells<Agg, A>,
    columns: &mut Vec<SeriesColumns<A>, A>,
    field: &str,
    group: &[&str],
) -> Result<RollupSeriesId, AllocError>
    requires each { length columns.old.items ≡ length cells.old.rollup_series }
    ensures number { IfOk result (λ n. IsAt cells.new.rollup_series n (rollup_series_named field.now group.now)) }
    ensures kept { KeepsLists cells.old columns.old.items cells.new columns.new.items }
{
    reserve_eighth(columns, 1)?;
    let series = cells.series(field, group)?;
    if columns.len() < cells.series_count() {
        columns.push(SeriesColumns::new()).unwrap();
    }
    Ok(series)
}

/// Does the same, and reserves capacity for one more column in the list.
fn rollup_series_for<A: Allocator + Copy>(
    cells: &mut Cells<Agg, A>,
    columns: &mut Vec<SeriesColumns<A>, A>,
    field: &str,
    group: &[&str],
) -> Result<RollupSeriesId, AllocError>
    requires each { length columns.old.items ≡ length cells.old.rollup_series }
    ensures number { IfOk result (λ n. IsAt cells.new.rollup_series n (rollup_series_named field.now group.now)) }
    ensures capacity { IfOk result (λ n. HasCapacityAt columns.new.items n) }
    ensures kept { KeepsLists cells.old columns.old.items cells.new columns.new.items }
{
    let series = listed_rollup_series(cells, columns, field, group)?;
    let alloc = *columns.allocator();
    columns[series.number() as usize].reserve(alloc)?;
    Ok(series)
}

/// Creates the cell of a bucket in a rollup series, which must be missing, with this frozen part. On allocation
/// failure, no cell is created.
fn add_frozen<A: Allocator + Copy>(
    cells: &mut Cells<Agg, A>,
    index: &i128,
    series: RollupSeriesId,
    frozen: Agg,
) -> Result<(), AllocError>
    requires series { series < length cells.old.rollup_series }
    requires absent { finmap.get cells.old.cells (cell_in cells.old.rollup_series index.now series) ≡ None }
    ensures kept { cells.new.rollup_series ≡ cells.old.rollup_series }
    ensures ok { OnOk result (cells.new.cells ≡ finmap.insert cells.old.cells
        (cell_in cells.old.rollup_series index.now series) (record { frozen = frozen; live = empty_aggregate })) }
    ensures err { OnErr result (cells.new.cells ≡ cells.old.cells) }
{
    cells.make_room(index, series)?;
    // for the proof: the contract of `sum` states the bound of the count that `freeze` needs
    let _ = frozen.sum();
    cells.freeze(index, series, frozen);
    Ok(())
}

impl<A: Allocator + Copy> Rollup<A> {
    /// Creates an empty rollup, with a seed of the hashes of its names. Does not allocate.
    pub(crate) fn new(alloc: A, seed: RandomState) -> Rollup<A>
        ensures { result ≡ new_rollup }
    {
        Rollup {
            cells: Cells::new(alloc, seed),
            series_of_column: Vec::new(alloc),
            columns: Vec::new(alloc),
            next: None,
        }
    }

    /// Finds the rollup series of a new column, and allocates everything that the column needs here.
    pub(crate) fn prepare(
        &mut self,
        rule: &Rule<A>,
        key: &Key<A>,
        field: &str,
    ) -> Result<(), AllocError>
        ensures kept { KeepsCells self.old self.new }
        ensures next { OnOk result (HasNext rule.now (record { series = key.now; field = field.now }) self.new) }
    {
        self.next = None;
        reserve_eighth(&mut self.series_of_column, 1)?;
        let series = if key.measurement() == rule.measurement() {
            let group = group_of(*self.series_of_column.allocator(), rule, key)?;
            Some(rollup_series_for(&mut self.cells, &mut self.columns, field, group.as_slice())?)
        } else {
            None
        };
        self.next = Some(series);
        Ok(())
    }

    /// Assigns the new column the rollup series that `prepare` found. Does not allocate.
    pub(crate) fn commit(&mut self, column: ColumnId)
        requires next { IsSome self.old.next }
        requires number { column ≡ length self.old.series_of_column }
        ensures { self.new ≡ with_next self.old }
    {
        let series = self.next.take().unwrap();
        self.series_of_column.push(series).unwrap();
        if let Some(series) = &series {
            self.columns[series.number() as usize].push(column);
        }
    }

    /// Creates the cell of a column in a bucket unless it exists. Does nothing if the column is of another measurement.
    pub(crate) fn make_room(&mut self, column: ColumnId, index: &i128) -> Result<(), AllocError>
        requires { column < length self.old.series_of_column }
        ensures ok { OnOk result (self.new
            ≡ with_grid_cells (cell_created_in self.old (rollup_series_at self.old column) index.now) self.old) }
        ensures err { OnErr result (self.new ≡ self.old) }
    {
        match self.series_of_column[column.number()] {
            Some(series) => self.cells.make_room(index, series),
            None => Ok(()),
        }
    }

    /// Creates the cell of a bucket in a rollup series unless it exists.
    pub(crate) fn make_room_in(
        &mut self,
        series: RollupSeriesId,
        index: &i128,
    ) -> Result<(), AllocError>
        requires { series < length self.old.grid.rollup_series }
        ensures ok { OnOk result
            (self.new ≡ with_grid_cells (cell_created_in self.old (Some series) index.now) self.old) }
        ensures err { OnErr result (self.new ≡ self.old) }
    {
        self.cells.make_room(index, series)
    }

    /// Creates a cell, which must be missing, with this frozen part, and its rollup series if needed. On allocation
    /// failure, no cell is created.
    pub(crate) fn add_cell(
        &mut self,
        index: &i128,
        field: &str,
        group: &[&str],
        frozen: Agg,
    ) -> Result<(), AllocError>
        requires absent { finmap.get self.old.grid.cells
            (cell_at index.now (rollup_series_named field.now group.now)) ≡ None }
        ensures made { Extends self.old.grid.rollup_series self.new.grid.rollup_series }
        ensures kept { self.new.series_of_column ≡ self.old.series_of_column }
        ensures ok { OnOk result (self.new.grid.cells ≡ finmap.insert self.old.grid.cells (cell_at index.now
            (rollup_series_named field.now group.now)) (record { frozen = frozen; live = empty_aggregate })) }
        ensures err { OnErr result (self.new.grid.cells ≡ self.old.grid.cells) }
    {
        self.next = None;
        let series = listed_rollup_series(&mut self.cells, &mut self.columns, field, group)?;
        add_frozen(&mut self.cells, index, series, frozen)
    }

    /// Merges a part into the live part of the cell of a bucket in a rollup series. Does nothing if the cell doesn't
    /// exist, or if the counts add up to more than 2^62. Does not allocate.
    pub(crate) fn add(&mut self, index: &i128, series: RollupSeriesId, part: Agg)
        requires { series < length self.old.grid.rollup_series }
        ensures { self.new ≡ with_grid_cells (added_in self.old series index.now part) self.old }
    {
        self.cells.add(index, series, part);
    }

    /// Returns the live part of the cell of a bucket in a rollup series, if the cell exists.
    pub(crate) fn live(&self, index: &i128, series: RollupSeriesId) -> Option<Agg>
        requires { series < length self.now.grid.rollup_series }
        ensures { result ≡ option_map live_part
            (finmap.get self.now.grid.cells (cell_in self.now.grid.rollup_series index.now series)) }
    {
        let parts = self.cells.get(index, series)?;
        Some(parts.live)
    }

    /// Returns true if the column is of the rule's measurement.
    pub(crate) fn rolls(&self, column: usize) -> bool
        requires { column < length self.now.series_of_column }
        ensures { result ≡ is_some (rollup_series_at self.now column) }
    {
        self.series_of_column[column].is_some()
    }

    /// Returns the rollup series of a column, or `None` if the column is of another measurement.
    pub(crate) fn rollup_series_of(&self, column: usize) -> Option<RollupSeriesId>
        requires { column < length self.now.series_of_column }
        ensures series { result ≡ rollup_series_at self.now column }
        ensures inside { IfSome result (λ l. l < length self.now.grid.rollup_series) }
    {
        self.series_of_column[column]
    }

    /// Removes up to 256 cells below an index, and returns the number of removed cells.
    pub(crate) fn expire(&mut self, low: &i128) -> usize
        ensures cells { self.new ≡ with_grid_cells self.new.grid.cells self.old }
        ensures below { LosesBelow low.now result self.old.grid.cells self.new.grid.cells }
    {
        self.cells.expire(low)
    }

    /// Returns the number of cells that have frozen facts.
    pub(crate) fn frozen_count(&self) -> u128
        ensures { result ≡ frozen_cell_count (λ (a : Aggregate). a.count) self.now.grid.cells }
    {
        self.cells.frozen_count()
    }

    /// Returns the columns of a rollup series, in creation order.
    pub(crate) fn columns_of(&self, series: RollupSeriesId) -> &[ColumnId]
        requires { series < length self.now.grid.rollup_series }
        ensures columns { result.now ≡ columns_of_rollup_series series self.now }
        ensures once { AllDistinct self.now.grid.rollup_series }
    {
        self.columns[series.number() as usize].as_slice()
    }

    /// Returns an iterator over the cells from bucket `from`, inclusive, to bucket `to`, exclusive, ordered by index,
    /// field and group. Does not allocate.
    pub(crate) fn walk(&self, from: &i128, to: &i128) -> Walk<'_, Parts<Agg>, A>
        ensures entries { map entry_of result ≡ entries_within from.now to.now self.now.grid.cells }
        ensures numbers { AllByRecursion
            (λ k. IsAt self.now.grid.rollup_series k.series (rollup_series_of k.cell)) result }
    {
        self.cells.walk(from, to)
    }
}
