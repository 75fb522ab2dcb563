//! Tests the cells of an image for contradictions. Does not allocate.
ghost use Rattle.std.specs.Prelude.{◌≡◌, ◌↔◌, pos, ◌≤ℤ◌, map, IsTrue};
ghost use Rattle.std.specs.List.{AllByRecursion};
ghost use Rattle.ts_core.specs.aggregates.Aggregates.{IsSpread};
ghost use Rattle.ts_core.specs.store.Cells.{cell_cmp};
ghost use Rattle.ts_image.specs.ImageTests.{IsBetween, IsFrozenTime, IsImageCell, AreImageCells};
ghost use Rattle.ts_store.specs.image.SavedContent.{AreRising};
ghost use Rattle.ts_image.specs.RuleParts.{rule_from_parts};
ghost use Rattle.ts_image.specs.CellParts.{cell_key_of, extremes_of_parts, cell_of_parts};
ghost use Rattle.ts_image.specs.TestParts.{key_of_cell, AreExtremesPossible};

use crate::check::series::{is_name, is_time};
use crate::read::cells::{CellKeyParts, CellParts, ExtremesParts};
use crate::read::rules::RuleParts;
use std::alloc::Allocator;
use std::cmp::Ordering;
use ts_core::times;

fn are_spread(count: u64, sum: &i128, extremes: &ExtremesParts) -> bool
    ensures { IsTrue result ↔ IsSpread count sum.now (extremes_of_parts extremes.now) }
{
    if count == 0 {
        return false;
    }
    times(count, extremes.min) <= *sum && *sum <= times(count, extremes.max)
}

fn is_between(low: &i64, high: &i64, value: &i64) -> bool
    ensures { IsTrue result ↔ IsBetween low.now high.now value.now }
{
    *low <= *value && *value <= *high
}

/// Returns true if a time is in the bucket with this index, and below the raw mark.
fn is_frozen_time<A: Allocator>(mark: &i64, rule: &RuleParts<A>, index: &i64, time: &i64) -> bool
    requires { pos 1 ≤ℤ rule.now.interval }
    ensures { IsTrue result ↔ IsFrozenTime mark.now (rule_from_parts rule.now) index.now time.now }
{
    if !is_time(time) {
        return false;
    }
    if *time >= *mark {
        return false;
    }
    rule.buckets().index(i128::from(*time)) == i128::from(*index)
}

fn are_extremes(extremes: &ExtremesParts) -> bool
    ensures { IsTrue result ↔ AreExtremesPossible (extremes_of_parts extremes.now) }
{
    if extremes.min > extremes.max || extremes.first.0 > extremes.last.0 {
        return false;
    }
    is_between(&extremes.min, &extremes.max, &extremes.first.1)
        && is_between(&extremes.min, &extremes.max, &extremes.last.1)
}

fn are_frozen<A: Allocator>(
    mark: &i64,
    rule: &RuleParts<A>,
    index: &i64,
    extremes: &ExtremesParts,
) -> bool
    requires { pos 1 ≤ℤ rule.now.interval }
    ensures { IsTrue result ↔ (IsFrozenTime mark.now (rule_from_parts rule.now) index.now extremes.now.first.0
        × IsFrozenTime mark.now (rule_from_parts rule.now) index.now extremes.now.last.0) }
{
    is_frozen_time(mark, rule, index, &extremes.first.0)
        && is_frozen_time(mark, rule, index, &extremes.last.0)
}

fn is_cell<A: Allocator>(mark: &i64, rule: &RuleParts<A>, low: &i64, cell: &CellParts<A>) -> bool
    requires { pos 1 ≤ℤ rule.now.interval }
    ensures { IsTrue result ↔ IsImageCell mark.now (rule_from_parts rule.now) low.now (cell_of_parts cell.now) }
{
    if cell.key.index < *low {
        return false;
    }
    if !is_name(cell.key.field.as_str()) {
        return false;
    }
    if cell.key.group.len() != rule.kept_tags.len() {
        return false;
    }
    if !are_spread(cell.count, &cell.sum, &cell.extremes) {
        return false;
    }
    if !are_extremes(&cell.extremes) {
        return false;
    }
    are_frozen(mark, rule, &cell.key.index, &cell.extremes)
}

fn are_cells_possible<A: Allocator>(
    mark: &i64,
    rule: &RuleParts<A>,
    low: &i64,
    cells: &[CellParts<A>],
) -> bool
    requires { pos 1 ≤ℤ rule.now.interval }
    ensures { IsTrue result
        ↔ AllByRecursion (IsImageCell mark.now (rule_from_parts rule.now) low.now) (map cell_of_parts cells.now) }
{
    for cell in cells {
        if !is_cell(mark, rule, low, cell) {
            return false;
        }
    }
    true
}

fn compare_cells<A: Allocator>(a: &CellKeyParts<A>, b: &CellKeyParts<A>) -> Ordering
    ensures { result ≡ cell_cmp (cell_key_of a.now) (cell_key_of b.now) }
{
    match a.index.cmp(&b.index) {
        Ordering::Equal => match a.field.cmp(&b.field) {
            Ordering::Equal => a.group.cmp(&b.group),
            other => other,
        },
        other => other,
    }
}

fn are_cells_rising<A: Allocator>(cells: &[CellParts<A>]) -> bool
    ensures { IsTrue result ↔ AreRising cell_cmp (map key_of_cell cells.now) }
{
    cells.is_sorted_by(|a, b| compare_cells(&a.key, &b.key).is_lt())
}

/// Returns true if the cells of a rule are possible.
pub(crate) fn are_cells<A: Allocator>(
    mark: &i64,
    rule: &RuleParts<A>,
    low: &i64,
    cells: &[CellParts<A>],
) -> bool
    requires { pos 1 ≤ℤ rule.now.interval }
    ensures { IsTrue result ↔ AreImageCells mark.now (rule_from_parts rule.now) low.now (map cell_of_parts cells.now) }
{
    are_cells_possible(mark, rule, low, cells) && are_cells_rising(cells)
}
