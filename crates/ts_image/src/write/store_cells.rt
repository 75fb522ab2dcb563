//! Writes the cells of a store to an image.
ghost use Rattle.std.specs.Prelude.{◌≡◌, ◌<◌, length, map, IfOk};
ghost use Rattle.std.specs.Int.{w64};
ghost use Rattle.std.specs.List.{AllByRecursion};
ghost use Rattle.ts_core.specs.store.StoreData.{store_settings};
ghost use Rattle.ts_image.specs.Formats.{along, list_of};
ghost use Rattle.ts_image.specs.Images.{image_cell};
ghost use Rattle.ts_image.specs.FieldWriting.{PutsField, PutsAll};
ghost use Rattle.ts_image.specs.SavedParts.{image_rule_of};
ghost use Rattle.ts_image.specs.Saving.{image_cell_of, saved_cells, saved_cells_at, cell_counts, FitsCell, FitCells};

use crate::write::cells::put_cell;
use crate::write::fields::put_u64;
use std::alloc::{AllocError, Allocator};
use std::io::Write;
use ts_core::{OutputBuffer, Refused, Rule, Sink};
use ts_store::{FrozenCell, FrozenCells, Store, View};

/// Returns the number of saved cells of a rule, without a walk over them. Fails with AllocError if it doesn't fit in 64
/// bits.
fn count_cells<A: Allocator + Copy>(store: &Store<A>, number: usize) -> Result<u64, AllocError>
    requires { number < length store.now.rules }
    ensures { IfOk result (λ n. n ≡ length (saved_cells_at store.now number)) }
{
    match u64::try_from(store.frozen_count(number)) {
        Ok(count) => Ok(count),
        Err(_) => Err(AllocError),
    }
}

/// Returns the number of saved cells of each rule. Fails with AllocError too if one doesn't fit in 64 bits.
pub(crate) fn count_all_cells<A: Allocator + Copy>(
    alloc: A,
    store: &Store<A>,
) -> Result<Vec<u64, A>, AllocError>
    ensures { IfOk result (λ v. v.items ≡ cell_counts store.now) }
{
    let rules = store.settings().rules().len();
    let mut counts = Vec::with_capacity(alloc, rules)?;
    for number in 0..rules {
        counts.push(count_cells(store, number)?)?;
    }
    Ok(counts)
}

/// Writes a cell of a rule.
fn put_frozen_cell<W: Write, A: Allocator>(
    rule: &Rule<A>,
    cell: &FrozenCell<'_, A>,
    out: &mut OutputBuffer<A>,
    sink: &mut Sink<W>,
) -> Result<(), Refused>
    requires fit { FitsCell rule.now cell.now }
    requires some { 0 < cell.now.frozen.count }
    ensures { PutsField
        (image_cell (image_rule_of rule.now)) (image_cell_of cell.now) sink.old out.old result sink.new out.new }
{
    put_cell(&cell.index, cell.field, cell.group, &cell.frozen, out, sink)
}

/// Writes cells of a rule, one after another.
fn put_frozen_cells<W: Write, A: Allocator + Copy>(
    rule: &Rule<A>,
    cells: FrozenCells<'_, A>,
    out: &mut OutputBuffer<A>,
    sink: &mut Sink<W>,
) -> Result<(), Refused>
    requires fit { AllByRecursion (FitsCell rule.now) cells }
    requires some { AllByRecursion (λ c. 0 < c.frozen.count) cells }
    ensures { PutsAll
        (image_cell (image_rule_of rule.now)) (map image_cell_of cells.entry) sink.old out.old result sink.new out.new }
{
    for cell in cells {
        put_frozen_cell(rule, &cell, out, sink)?;
    }
    Ok(())
}

/// Writes the number of saved cells of a rule, and the cells.
fn put_rule_cells<W: Write, A: Allocator + Copy>(
    store: &Store<A>,
    rule: &Rule<A>,
    number: usize,
    count: u64,
    out: &mut OutputBuffer<A>,
    sink: &mut Sink<W>,
) -> Result<(), Refused>
    requires rule { number < length store.now.rules }
    requires count { count ≡ length (saved_cells_at store.now number) }
    requires fit { AllByRecursion (FitsCell rule.now) (saved_cells_at store.now number) }
    ensures { PutsField (list_of w64 (image_cell (image_rule_of rule.now)))
        (map image_cell_of (saved_cells_at store.now number)) sink.old out.old result sink.new out.new }
{
    put_u64(count, out, sink)?;
    put_frozen_cells(rule, store.frozen_cells(number), out, sink)
}

/// Writes the number of saved cells of each rule, and the cells. `counts` has the numbers.
pub(crate) fn put_all_cells<W: Write, A: Allocator + Copy>(
    store: &Store<A>,
    counts: &[u64],
    out: &mut OutputBuffer<A>,
    sink: &mut Sink<W>,
) -> Result<(), Refused>
    requires counts { counts.now ≡ cell_counts store.now }
    requires fit { FitCells store.now }
    ensures { PutsField (along (λ r. list_of w64 (image_cell r)) (map image_rule_of (store_settings store.now).rules))
        (map (map image_cell_of) (saved_cells store.now)) sink.old out.old result sink.new out.new }
{
    let rules = store.settings().rules();
    for (number, count) in counts.iter().enumerate() {
        put_rule_cells(store, &rules[number], number, *count, out, sink)?;
    }
    Ok(())
}
