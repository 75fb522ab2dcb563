//! Series, columns and cells of a store under construction.
ghost use Rattle.std.specs.Prelude.{◌≡◌, ◌<◌, ◌++◌, ◌∷◌, [], length, map, None, set, IfOk, OnOk, OnErr, List};
ghost use Rattle.std.specs.FinMap as finmap;
ghost use Rattle.ts_core.specs.aggregates.Aggregates.{empty_aggregate};
ghost use Rattle.ts_core.specs.facts.Facts.{Series};
ghost use Rattle.ts_core.specs.lists.Members.{Among};
ghost use Rattle.ts_core.specs.lists.Numbered.{IsAt};
ghost use Rattle.ts_core.specs.settings.Settings.{Rule as RuleValue};
ghost use Rattle.ts_core.specs.store.StoreStates.{column_of};
ghost use Rattle.ts_cells.specs.Grids.{cell_at, rollup_series_named};
ghost use Rattle.ts_store.specs.image.Building.{cell_map_at};
ghost use Rattle.ts_store.specs.rollup.Rollups.{AreRollups, cells_of};

use crate::store::column_facts::{ColumnFacts, StoredColumn};
use crate::write::columns::make_column;
use std::alloc::{AllocError, Allocator};
use ts_core::{Agg, KeyRef, Rule};
use ts_raw::SeriesId;

impl<A: Allocator + Copy> ColumnFacts<A> {
    /// Registers a series, which must be new. On allocation failure, nothing changes.
    pub(crate) fn add_series(&mut self, key: &KeyRef<'_>) -> Result<SeriesId, AllocError>
        requires absent { Among key.now self.old.series → ⊥ }
        requires few { length self.old.series < 1000000 }
        ensures number { IfOk result (λ n. IsAt self.new.series n key.now) }
        ensures ok { OnOk result (self.new ≡ record self.old { series = self.old.series ++ key.now ∷ [] }) }
        ensures err { OnErr result (self.new ≡ self.old) }
    {
        let series = match self.index.register(key) {
            Ok(series) => series,
            Err(_) => return Err(AllocError),
        };
        Ok(series)
    }

    /// Adds a column, which must be new, with its points. On allocation failure, no column and no cell changes.
    pub(crate) fn add_column(
        &mut self,
        rules: &[Rule<A>],
        series: SeriesId,
        field: &str,
        points: StoredColumn<A>,
    ) -> Result<(), AllocError>
        requires registered { series < length self.old.series }
        requires absent { (s : Series) → IsAt self.old.series series s
            → Among (record { series = s; field = field.now }) (map column_of self.old.columns) → ⊥ }
        requires rollups { AreRollups rules.now (map column_of self.old.columns) self.old.rollups }
        ensures ok { (s : Series) → IsAt self.old.series series s → OnOk result (self.new.columns ≡ self.old.columns
            ++ record { column = record { series = s; field = field.now }; points = finmap.entries points.points }
            ∷ []) }
        ensures err { OnErr result (self.new.columns ≡ self.old.columns) }
        ensures series { self.new.series ≡ self.old.series }
        ensures rollups { AreRollups rules.now (map column_of self.new.columns) self.new.rollups }
        ensures cells { cells_of self.new.rollups ≡ cells_of self.old.rollups }
    {
        let column = make_column(
            &mut self.index,
            &mut self.columns,
            rules,
            self.rollups.as_mut_slice(),
            series,
            field,
        )?;
        self.columns[column.number()] = points;
        Ok(())
    }

    /// Adds a cell of the rule with this index, which must be new, with its frozen part. On allocation failure, no cell
    /// changes.
    pub(crate) fn add_cell(
        &mut self,
        rule: usize,
        index: &i128,
        field: &str,
        group: &[&str],
        frozen: Agg,
    ) -> Result<(), AllocError>
        requires rule { rule < length self.old.rollups }
        requires absent { finmap.get (cell_map_at (cells_of self.old.rollups) rule)
            (cell_at index.now (rollup_series_named field.now group.now)) ≡ None }
        ensures columns { self.new.columns ≡ self.old.columns }
        ensures series { self.new.series ≡ self.old.series }
        ensures rollups { (rules : List RuleValue) → AreRollups rules (map column_of self.old.columns) self.old.rollups
            → AreRollups rules (map column_of self.old.columns) self.new.rollups }
        ensures ok { OnOk result (cells_of self.new.rollups ≡ set (cells_of self.old.rollups) rule
            (finmap.insert (cell_map_at (cells_of self.old.rollups) rule) (cell_at index.now
            (rollup_series_named field.now group.now)) (record { frozen = frozen; live = empty_aggregate }))) }
        ensures err { OnErr result (cells_of self.new.rollups ≡ cells_of self.old.rollups) }
    {
        self.rollups[rule].add_cell(index, field, group, frozen)
    }
}
