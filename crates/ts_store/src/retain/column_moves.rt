//! The steps of a run: moves a column, and removes cells below low indices.
ghost use Rattle.std.specs.Prelude.{◌≡◌, ◌<◌, ◌≤◌, ◌^◌, pos, ◌≤ℤ◌, length, map};
ghost use Rattle.std.specs.Bool.{OnTrue, OnFalse};
ghost use Rattle.std.specs.List.{AllByRecursion};
ghost use Rattle.ts_core.specs.store.StoreData.{IsLive};
ghost use Rattle.ts_core.specs.store.StoreStates.{ColumnPoints, column_of, facts_of};
ghost use Rattle.ts_core.specs.moves.StoreMoves.{points_below};
ghost use Rattle.ts_core.specs.lists.Beside.{OfEach};
ghost use Rattle.ts_core.specs.lists.Numbered.{IsAt};
ghost use Rattle.ts_cells.specs.Expiry.{IsAbove};
ghost use Rattle.ts_store.specs.read.PointsRead.{HasRisingPoints};
ghost use Rattle.ts_store.specs.rollup.ChangedLists.{FirstChanges};
ghost use Rattle.ts_store.specs.rollup.Rollups.{AreRollups, cells_of};
ghost use Rattle.ts_store.specs.retain.RollupSteps.{with_all_grid_cells, content_with_cells, FreezeFit, content_moved};
ghost use Rattle.ts_store.specs.retain.WholeRuns.{LosesCells};

use crate::retain::freezing::move_points;
use crate::rollup::Rollup;
use crate::store::column_facts::ColumnFacts;
use std::alloc::Allocator;
use ts_core::{Rule, Time};
use ts_raw::Column as _;

/// Removes up to 256 cells below the low index of the first rule that has such cells. Returns true if there were any.
fn expire_first<A: Allocator + Copy>(rollups: &mut [Rollup<A>], lows: &[i128]) -> bool
    requires { length lows.now ≡ length rollups.old }
    ensures kept { rollups.new ≡ with_all_grid_cells (cells_of rollups.new) rollups.old }
    ensures some { OnTrue result
        (FirstChanges IsAbove LosesCells lows.now (cells_of rollups.old) (cells_of rollups.new)) }
    ensures none { OnFalse result ((rollups.new ≡ rollups.old) × OfEach IsAbove lows.now (cells_of rollups.old)) }
{
    for (i, rollup) in rollups.iter_mut().enumerate() {
        if rollup.expire(&lows[i]) > 0 {
            return true;
        }
    }
    false
}

impl<A: Allocator + Copy> ColumnFacts<A> {
    /// Returns the number of columns. Its contract also states that the points of each column are in the order of time.
    pub(crate) fn column_count(&self) -> usize
        ensures count { result ≡ length self.now.columns }
        ensures rising { AllByRecursion HasRisingPoints self.now.columns }
    {
        self.columns.len()
    }

    /// Moves a column: moves its points below the mark under each rule from the live to the frozen parts of their
    /// cells, and removes them. Only the removal searches for the mark. Does not allocate.
    pub(crate) fn move_column(&mut self, rules: &[Rule<A>], column: usize, mark: Time)
        requires intervals { AllByRecursion (λ r. pos 1 ≤ℤ r.interval) rules.now }
        requires rollups { AreRollups rules.now (map column_of self.old.columns) self.old.rollups }
        requires live { OfEach (IsLive self.old.columns) rules.now (cells_of self.old.rollups) }
        requires column { column < length self.old.columns }
        requires few { length (facts_of self.old.columns) ≤ 2 ^ 62 }
        ensures { (s : ColumnPoints) → IsAt self.old.columns column s
            → FreezeFit rules.now s.column (points_below mark s.points) (cells_of self.old.rollups)
            → self.new ≡ content_moved rules.now s mark self.old }
    {
        let columns = self.columns.as_slice();
        let rollups = self.rollups.as_mut_slice();
        for (i, rollup) in rollups.iter_mut().enumerate() {
            move_points(&rules[i], rollup, columns, column, mark);
        }
        self.columns[column].drop_below(mark);
    }

    /// Removes up to 256 cells below the low index of the first rule that has such cells. Returns true if there were
    /// any. Does not allocate.
    pub(crate) fn expire(&mut self, lows: &[i128]) -> bool
        requires { length lows.now ≡ length self.old.rollups }
        ensures kept { self.new ≡ content_with_cells (cells_of self.new.rollups) self.old }
        ensures some { OnTrue result
            (FirstChanges IsAbove LosesCells lows.now (cells_of self.old.rollups) (cells_of self.new.rollups)) }
        ensures none { OnFalse result ((self.new ≡ self.old) × OfEach IsAbove lows.now (cells_of self.old.rollups)) }
    {
        expire_first(self.rollups.as_mut_slice(), lows)
    }
}
