//! Runs of retention: a begin, steps that each move a column or remove cells, and the step that ends the run.
ghost use Rattle.std.specs.Prelude.{◌≡◌, OnOk};
ghost use Rattle.ts_core.specs.store.History.{Begin};
ghost use Rattle.ts_core.specs.store.StoreData.{GoesOn};
ghost use Rattle.ts_core.specs.moves.StoreMoves.{run_begun};
ghost use Rattle.ts_store.specs.retain.WholeRuns.{TakesStep, Retains, RunsWhereIdle};

use crate::store::Store;
use crate::write::RunInProgress;
use std::alloc::Allocator;
use ts_core::Time;

mod column_moves;
pub(crate) mod freezing;
mod points_below;
pub(crate) mod run;

/// Answer of a step of a run.
#[derive(Clone, Copy, Debug, PartialEq, Eq)]
pub enum StepAnswer {
    /// The step moved a column, or removed cells.
    Moved,
    /// Nothing was left: the run is over, or none was open.
    Done,
}

impl<A: Allocator + Copy> Store<A> {
    /// Begins a run at a moment: raises the marks. Each column then waits. Returns the raw mark. Does not allocate.
    pub fn begin(&mut self, now: Time) -> Result<Time, RunInProgress>
        ensures begun { RunsWhereIdle (self.new ≡ run_begun now self.old) self.old self.new result }
        ensures stands { OnOk result (GoesOn self.old (Begin now) self.new) }
    {
        if self.run.is_open() {
            return Err(RunInProgress);
        }
        self.marks.raise(&self.settings, now);
        self.run.begin(self.facts.column_count());
        Ok(self.marks.raw())
    }

    /// Moves the first waiting column of the open run. If no column waits, removes up to 256 cells of the first rule
    /// that has some below its low index. If there are none, ends the run. If no run is open, changes nothing. Does not
    /// allocate.
    pub fn step(&mut self) -> StepAnswer
        ensures { TakesStep self.old self.new result }
    {
        if !self.run.is_open() {
            return StepAnswer::Done;
        }
        if let Some(column) = self.run.take_first() {
            let mark = self.marks.raw();
            self.facts.move_column(self.settings.rules(), column, mark);
            return StepAnswer::Moved;
        }
        if self.facts.expire(self.marks.lows()) {
            return StepAnswer::Moved;
        }
        self.run.end();
        StepAnswer::Done
    }

    /// Runs retention at a moment: raises the marks, and freezes points below the raw mark into the cells of their
    /// rules. Removes these points, and the cells below low indices. Returns the raw mark. Columns keep their order.
    /// Does not allocate.
    pub fn retain(&mut self, now: Time) -> Result<Time, RunInProgress>
        ensures { RunsWhereIdle (Retains now self.old self.new) self.old self.new result }
    {
        let raw = self.begin(now)?;
        while self.step() == StepAnswer::Moved {}
        Ok(raw)
    }
}
