//! Rollups of rules that are added to a store, or dropped.
ghost use Rattle.std.specs.Prelude.{◌≡◌, ◌<◌, ◌≤◌, ◌^◌, pos, ◌≤ℤ◌, [], ◌∷◌, length, IfOk, OnOk, OnErr};
ghost use Rattle.ts_core.specs.store.StoreStates.{facts_of};
ghost use Rattle.ts_store.specs.rules.RuleRollups.{HasFirstRollupSeries, IsRollupOf, with_rollup, without_rollup};

use crate::rollup::Rollup;
use crate::rollup::cells_filled::{add_all_points, make_all_cells};
use crate::store::column_facts::ColumnFacts;
use std::alloc::{AllocError, Allocator};
use std::slice;
use ts_core::Rule;
use ts_raw::{ColumnId, Index};

/// Creates the rollup of a rule with a rollup series for each column of its measurement, without cells.
fn rollup_over<A: Allocator + Copy>(
    alloc: A,
    rule: &Rule<A>,
    index: &Index<A>,
) -> Result<Rollup<A>, AllocError>
    ensures { IfOk result (HasFirstRollupSeries rule.now index.now.columns (length index.now.columns)) }
{
    let mut rollup = Rollup::new(alloc, index.seed());
    for number in 0..index.column_count() {
        let column = ColumnId::new(number)?;
        let key = index.key_of(index.series_of(column));
        rollup.prepare(rule, key, index.field_of(column).as_str())?;
        rollup.commit(column);
    }
    Ok(rollup)
}

/// Creates a vector of one item.
fn vec_of<T: Drop, A: Allocator + Copy>(alloc: A, item: T) -> Result<Vec<T, A>, AllocError>
    ensures { IfOk result (λ v. v.items ≡ item ∷ []) }
{
    let mut items = Vec::with_capacity(alloc, 1)?;
    items.push(item)?;
    Ok(items)
}

impl<A: Allocator + Copy> ColumnFacts<A> {
    /// Returns the allocator.
    pub(crate) fn allocator(&self) -> A {
        *self.columns.allocator()
    }

    /// Creates the rollup of a rule: creates the cells of the raw facts from the low index on, and folds their live
    /// parts.
    pub(crate) fn rollup_of(&self, rule: &Rule<A>, low: &i128) -> Result<Rollup<A>, AllocError>
        requires interval { pos 1 ≤ℤ rule.now.interval }
        requires few { length (facts_of self.now.columns) ≤ 2 ^ 62 }
        ensures { IfOk result (IsRollupOf self.now rule.now low.now) }
    {
        let alloc = self.allocator();
        // Copied, since `slice::from_ref` asks for the size of a rule, which depends on the allocator's.
        let rules = vec_of(alloc, rule.try_clone(alloc)?)?;
        let mut rollups = vec_of(alloc, rollup_over(alloc, rule, &self.index)?)?;
        let columns = self.columns.as_slice();
        let one_rule = rules.as_slice();
        let one_rollup = rollups.as_mut_slice();
        make_all_cells(one_rule, slice::from_ref(low), one_rollup, columns)?;
        add_all_points(one_rule, one_rollup, columns);
        Ok(rollups.pop().unwrap())
    }

    /// Appends the rollup of one more rule. On allocation failure, nothing changes.
    pub(crate) fn add_rollup(&mut self, rollup: Rollup<A>) -> Result<(), AllocError>
        ensures ok { OnOk result (self.new ≡ with_rollup rollup self.old) }
        ensures err { OnErr result (self.new ≡ self.old) }
    {
        self.rollups.push(rollup)?;
        Ok(())
    }

    /// Removes the rollup of the rule with this index. Does not allocate.
    pub(crate) fn remove_rollup(&mut self, rule: usize)
        requires { rule < length self.old.rollups }
        ensures { self.new ≡ without_rollup rule self.old }
    {
        let _ = self.rollups.remove(rule);
    }
}
