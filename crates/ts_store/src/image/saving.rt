//! The parts of a store that an image saves.
ghost use Rattle.std.specs.Prelude.{◌≡◌, ◌↔◌, ◌<◌, IfOk, IsTrue, length, map, slice_index_or};
ghost use Rattle.ts_core.specs.lists.Members.{Among};
ghost use Rattle.ts_core.specs.lists.Numbered.{IsAt};
ghost use Rattle.ts_core.specs.store.StoreStates.{ColumnPoints, column_of};
ghost use Rattle.ts_core.specs.store.StoreData.{RuleData};
ghost use Rattle.ts_raw.specs.Columns.{AreTimed};
ghost use Rattle.ts_raw.specs.PlainColumns.{IsRising};
ghost use Rattle.ts_store.specs.image.SavedContent.{SavesSeries, frozen_from};
ghost use Rattle.ts_store.specs.read.ViewResults.{no_points};

use crate::image::{FrozenCells, SavedSeries};
use crate::store::Store;
use std::alloc::{AllocError, Allocator};
use ts_raw::{ColumnId, Points};

impl<A: Allocator + Copy> Store<A> {
    /// Lists the registered series in the order of their keys, each with its columns in the order of their fields.
    pub fn saved_series(&self, alloc: A) -> Result<Vec<SavedSeries<'_, A>, A>, AllocError>
        ensures { IfOk result (λ all. SavesSeries self.now.series (map column_of self.now.columns) all.items) }
    {
        self.facts.saved_series(alloc)
    }

    /// Returns true if a run is open that hasn't moved the column yet.
    pub fn waits(&self, column: ColumnId) -> bool
        requires { column < length self.now.columns }
        ensures { (c : ColumnPoints)
            → IsAt self.now.columns column c → IsTrue result ↔ Among c.column self.now.waiting }
    {
        self.run.waits(column.number())
    }

    /// Returns all points of a column, in the order of time.
    pub fn points_of(&self, column: ColumnId) -> Points<'_>
        requires { column < length self.now.columns }
        ensures points { result ≡ (slice_index_or self.now.columns column no_points).points }
        ensures rising { IsRising result }
        ensures timed { AreTimed result }
    {
        self.facts.points_of(column)
    }

    /// Returns an iterator over the cells of the rule with this index that have frozen facts, from its low index on.
    /// They are ordered by index, field and group.
    pub fn frozen_cells(&self, rule: usize) -> FrozenCells<'_, A>
        requires { rule < length self.now.rules }
        ensures { (r : RuleData) → IsAt self.now.rules rule r → result ≡ frozen_from r.low r.cells }
    {
        let kept = &self.settings.rules()[rule];
        self.facts
            .frozen_cells(kept, rule, &self.marks.lows()[rule])
    }

    /// Returns the number of those cells, without a walk over them.
    pub fn frozen_count(&self, rule: usize) -> u128
        requires { rule < length self.now.rules }
        ensures { (r : RuleData) → IsAt self.now.rules rule r → result ≡ length (frozen_from r.low r.cells) }
    {
        let kept = &self.settings.rules()[rule];
        self.facts
            .frozen_count(kept, rule, &self.marks.lows()[rule])
    }
}
