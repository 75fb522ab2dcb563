//! Creates a store from parts that were read elsewhere: series, columns with their points, and frozen parts of cells.
ghost use Rattle.std.specs.Prelude.{◌≡◌, ◌<◌, length, map, None, IfOk, OnOk, OnErr};
ghost use Rattle.std.specs.FinMap as finmap;
ghost use Rattle.ts_core.specs.facts.Facts.{Series};
ghost use Rattle.ts_core.specs.lists.Members.{Among};
ghost use Rattle.ts_core.specs.lists.Numbered.{IsAt};
ghost use Rattle.ts_core.specs.store.StoreStates.{column_of};
ghost use Rattle.ts_line.specs.Names.{IsKey, IsStatable};
ghost use Rattle.ts_cells.specs.Grids.{cell_at, rollup_series_named};
ghost use Rattle.ts_store.specs.image.Building.{new_built, with_built_series, with_built_column, with_built_cell, cell_map_at, IsBuildable, IsBuiltFrom};

use crate::retain::run::Run;
use crate::store::Store;
use crate::store::column_facts::{ColumnFacts, StoredColumn};
use std::alloc::{AllocError, Allocator};
use std::hash::RandomState;
use std::marker::Model;
use ts_core::{Agg, KeyRef, Marks, Settings};
use ts_raw::SeriesId;

/// A store under construction. Parts are added one by one; live parts of cells are computed at the end.
#[derive(Drop)]
pub struct StoreBuilder<A: Allocator> {
    settings: Settings<A>,
    marks: Marks<A>,
    running: bool,
    accepted: u64,
    facts: ColumnFacts<A>,
    /// For each column, true if it counts as moved, that is, doesn't wait for the open run.
    passed: Vec<bool, A>,
}

impl<A: Allocator> Model for StoreBuilder<A> {
    ghost use Rattle.ts_store.specs.image.Building.{Built, coded_built};
    ghost use Rattle.ts_store.specs.image.BuildingParts.{built_of, IsInOrder};

    ghost Value = { Built };

    ghost coded = { coded_built };

    ghost view = { λ b. built_of b.settings b.marks b.running b.accepted b.facts b.passed.items };

    ghost invariant = { λ b. IsInOrder b.settings b.facts b.passed.items };
}

impl<A: Allocator + Copy> StoreBuilder<A> {
    /// Begins a store without series and columns. `seed`: of the hashes of names; no answer depends on it.
    pub fn new(
        alloc: A,
        settings: Settings<A>,
        marks: Marks<A>,
        accepted: u64,
        running: bool,
        seed: RandomState,
    ) -> Result<StoreBuilder<A>, AllocError>
        ensures { IfOk result (λ b. b ≡ new_built settings marks accepted running) }
    {
        let facts = ColumnFacts::new(alloc, seed, settings.rules().len())?;
        Ok(StoreBuilder {
            settings,
            marks,
            running,
            accepted,
            facts,
            passed: Vec::new(alloc),
        })
    }

    /// Registers a series, which must be new, and returns its index. On allocation failure, nothing changes.
    pub fn add_series(&mut self, key: &KeyRef<'_>) -> Result<SeriesId, AllocError>
        requires absent { Among key.now self.old.series → ⊥ }
        requires few { length self.old.series < 1000000 }
        requires named { IsStatable key.now }
        ensures number { IfOk result (λ n. IsAt self.new.series n key.now) }
        ensures ok { OnOk result (self.new ≡ with_built_series key.now self.old) }
        ensures err { OnErr result (self.new ≡ self.old) }
    {
        self.facts.add_series(key)
    }

    /// Adds a column, which must be new, with its points. `waits` is true if the column waits for the open run. On
    /// allocation failure, nothing changes.
    pub fn add_column(
        &mut self,
        series: SeriesId,
        field: &str,
        waits: bool,
        points: StoredColumn<A>,
    ) -> Result<(), AllocError>
        requires registered { series < length self.old.series }
        requires absent { (s : Series) → IsAt self.old.series series s
            → Among (record { series = s; field = field.now }) (map column_of self.old.columns) → ⊥ }
        requires key { IsKey field.now }
        ensures ok { (s : Series) → IsAt self.old.series series s
            → OnOk result (self.new ≡ with_built_column (record {
              column = record { series = s; field = field.now };
              points = finmap.entries points.points;
            }) waits self.old) }
        ensures err { OnErr result (self.new ≡ self.old) }
    {
        self.passed.reserve(1)?;
        self.facts
            .add_column(self.settings.rules(), series, field, points)?;
        self.passed.push(!waits).unwrap();
        Ok(())
    }

    /// Adds a cell of the rule with this index, which must be new, with its frozen part. On allocation failure, nothing
    /// changes.
    pub fn add_cell(
        &mut self,
        rule: usize,
        index: &i128,
        field: &str,
        group: &[&str],
        frozen: Agg,
    ) -> Result<(), AllocError>
        requires rule { rule < length self.old.settings.rules }
        requires absent { finmap.get
            (cell_map_at self.old.cells rule) (cell_at index.now (rollup_series_named field.now group.now)) ≡ None }
        ensures ok { OnOk result (self.new
            ≡ with_built_cell rule (cell_at index.now (rollup_series_named field.now group.now)) frozen self.old) }
        ensures err { OnErr result (self.new ≡ self.old) }
    {
        self.facts.add_cell(rule, index, field, group, frozen)
    }

    /// Creates the store: creates the cells of raw facts from low indices on, and folds live parts.
    pub fn finish(self) -> Result<Store<A>, AllocError>
        requires { IsBuildable self }
        ensures { IfOk result (IsBuiltFrom self) }
    {
        let mut facts = self.facts;
        facts.fill_cells(self.settings.rules(), self.marks.lows())?;
        let columns = facts.column_count();
        Ok(Store {
            settings: self.settings,
            marks: self.marks,
            accepted: self.accepted,
            facts,
            run: Run::over(self.running, columns, self.passed),
        })
    }
}
