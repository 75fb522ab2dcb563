//! Creates the cells of a line's facts before any fact is inserted.
ghost use Rattle.std.specs.Prelude.{◌≡◌, ◌<◌, ◌≤ℤ◌, pos, length, OnOk, OnErr};
ghost use Rattle.std.specs.List.{AllByRecursion};
ghost use Rattle.ts_store.specs.rollup.Rollups.{with_grid_cells};
ghost use Rattle.ts_store.specs.write.CellsCreated.{bucket_indices, cells_created_from, cells_created_under, IsCreatedInPart, AreCreatedInPart, KeepRollupSeries};

use crate::rollup::Rollup;
use std::alloc::{AllocError, Allocator};
use ts_core::{Rule, Time, index_of};
use ts_raw::ColumnId;

/// Replaces the contents of `buckets` by the index of a time's bucket under each rule.
pub(crate) fn list_buckets<A: Allocator + Copy>(
    buckets: &mut Vec<i128, A>,
    rules: &[Rule<A>],
    time: Time,
) -> Result<(), AllocError>
    requires { AllByRecursion (λ r. pos 1 ≤ℤ r.interval) rules.now }
    ensures { OnOk result (buckets.new.items ≡ bucket_indices rules.now time) }
{
    buckets.clear();
    for rule in rules {
        buckets.push(index_of(rule, i128::from(time.nanos())))?;
    }
    Ok(())
}

/// Creates the cells of columns in a bucket of a rule, unless its index is below the low index. When out of memory, the
/// cells of the first columns may exist.
fn create_cells_under<A: Allocator + Copy>(
    index: &i128,
    low: &i128,
    rollup: &mut Rollup<A>,
    touched: &[ColumnId],
) -> Result<(), AllocError>
    requires { AllByRecursion (λ n. n < length rollup.old.series_of_column) touched.now }
    ensures kept { rollup.new ≡ with_grid_cells rollup.new.grid.cells rollup.old }
    ensures ok { OnOk result (rollup.new ≡ cells_created_from low.now index.now touched.now rollup.old) }
    ensures err { OnErr result (IsCreatedInPart low.now index.now touched.now rollup.old rollup.new) }
{
    if *index < *low {
        return Ok(());
    }
    for column in touched {
        rollup.make_room(*column, index)?;
    }
    Ok(())
}

/// Creates the cells of columns in one bucket of each rule, from its low index on. When out of memory, some of them may
/// exist.
pub(crate) fn create_cells<A: Allocator + Copy>(
    buckets: &[i128],
    lows: &[i128],
    rollups: &mut [Rollup<A>],
    touched: &[ColumnId],
) -> Result<(), AllocError>
    requires buckets { length buckets.now ≡ length rollups.old }
    requires lows { length lows.now ≡ length buckets.now }
    requires each { AllByRecursion (λ s. AllByRecursion (λ n. n < length s.series_of_column) touched.now) rollups.old }
    ensures kept { KeepRollupSeries rollups.old rollups.new }
    ensures ok { OnOk result (rollups.new ≡ cells_created_under buckets.now lows.now touched.now rollups.old) }
    ensures err { OnErr result (AreCreatedInPart buckets.now lows.now touched.now rollups.old rollups.new) }
{
    for (i, rollup) in rollups.iter_mut().enumerate() {
        create_cells_under(&buckets[i], &lows[i], rollup, touched)?;
    }
    Ok(())
}
