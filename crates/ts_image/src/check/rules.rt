//! Tests low indices, cells and counts of each rule of an image for contradictions. Does not allocate.
ghost use Rattle.std.specs.Prelude.{◌≡◌, ◌+ℤ◌, ◌^◌, ◌≤◌, ◌↔◌, pos, ◌≤ℤ◌, map, IsTrue, unsigned_abs};
ghost use Rattle.std.specs.List.{AllByRecursion};
ghost use Rattle.ts_core.specs.store.Marks.{index_of};
ghost use Rattle.ts_image.specs.ImageTests.{rule_in, ahead_of_mark, IsLow, AreLows, AreImageCells, HasCountedFacts, CellsAre};
ghost use Rattle.ts_image.specs.RuleParts.{rule_from_parts};
ghost use Rattle.ts_image.specs.SeriesParts.{series_of_parts};
ghost use Rattle.ts_image.specs.CellParts.{cells_of_parts};
ghost use Rattle.ts_image.specs.TestParts.{AreCountedAll, HasLongInterval};

use crate::check::cells::are_cells;
use crate::check::counts::{subtract_cells, subtract_measurement};
use crate::read::cells::CellParts;
use crate::read::rules::RuleParts;
use crate::read::series::SeriesParts;
use crate::version::Version;
use std::alloc::Allocator;
use ts_core::LEAST_TIME;

/// Returns the greatest distance of a low index above the index of the raw mark.
fn ahead_of_mark(version: Version) -> i128
    ensures { result ≡ ahead_of_mark version }
{
    match version {
        Version::V1 => 0,
        Version::V2 => 1,
    }
}

/// Returns the index of the rule's bucket that contains a time.
fn index_at<A: Allocator>(rule: &RuleParts<A>, time: &i64) -> i128
    requires { pos 1 ≤ℤ rule.now.interval }
    ensures index { result ≡ index_of (rule_in (rule_from_parts rule.now)) time.now }
    ensures near { unsigned_abs result ≤ 2 ^ 65 }
{
    rule.buckets().index(i128::from(*time))
}

/// Returns the greatest low index that a rule may have.
fn most_low<A: Allocator>(version: Version, mark: &i64, rule: &RuleParts<A>) -> i128
    requires { pos 1 ≤ℤ rule.now.interval }
    ensures { result ≡ index_of (rule_in (rule_from_parts rule.now)) mark.now +ℤ ahead_of_mark version }
{
    index_at(rule, mark) + ahead_of_mark(version)
}

fn is_from(least: i128, low: &i64) -> bool
    ensures { IsTrue result ↔ least ≤ℤ low.now }
{
    least <= i128::from(*low)
}

fn is_up_to(most: i128, low: &i64) -> bool
    ensures { IsTrue result ↔ low.now ≤ℤ most }
{
    i128::from(*low) <= most
}

fn is_low<A: Allocator>(version: Version, mark: &i64, rule: &RuleParts<A>, low: &i64) -> bool
    requires { pos 1 ≤ℤ rule.now.interval }
    ensures { IsTrue result ↔ IsLow version mark.now (rule_from_parts rule.now) low.now }
{
    if !is_from(index_at(rule, &LEAST_TIME), low) {
        return false;
    }
    is_up_to(most_low(version, mark, rule), low)
}

/// Returns true if each rule has a possible low index.
pub(crate) fn are_lows<A: Allocator>(
    version: Version,
    mark: &i64,
    rules: &[RuleParts<A>],
    lows: &[i64],
) -> bool
    requires { AllByRecursion HasLongInterval rules.now }
    ensures { IsTrue result ↔ AreLows version mark.now (map rule_from_parts rules.now) lows.now }
{
    for (rule, low) in rules.iter().zip(lows) {
        if !is_low(version, mark, rule, low) {
            return false;
        }
    }
    rules.len() == lows.len()
}

fn are_cells_of<A: Allocator>(
    mark: &i64,
    rule: &RuleParts<A>,
    low: &i64,
    cells: &Vec<CellParts<A>, A>,
) -> bool
    requires { pos 1 ≤ℤ rule.now.interval }
    ensures { IsTrue result ↔ AreImageCells mark.now (rule_from_parts rule.now) low.now (cells_of_parts cells.now) }
{
    are_cells(mark, rule, low, cells)
}

/// Returns true if the cells of each rule are possible.
pub(crate) fn are_all_cells<A: Allocator>(
    mark: &i64,
    rules: &[RuleParts<A>],
    lows: &[i64],
    cells: &[Vec<CellParts<A>, A>],
) -> bool
    requires { AllByRecursion HasLongInterval rules.now }
    ensures { IsTrue result
        ↔ CellsAre mark.now (map rule_from_parts rules.now) lows.now (map cells_of_parts cells.now) }
{
    for ((rule, low), cells) in rules.iter().zip(lows).zip(cells) {
        if !are_cells_of(mark, rule, low, cells) {
            return false;
        }
    }
    true
}

/// Returns true if the counts of a rule's cells and the points of its measurement are at most the accepted facts.
fn is_counted<A: Allocator>(
    accepted: u64,
    series: &[SeriesParts<A>],
    rule: &RuleParts<A>,
    cells: &Vec<CellParts<A>, A>,
) -> bool
    ensures { IsTrue result ↔ HasCountedFacts accepted
        (map series_of_parts series.now) (rule_from_parts rule.now) (cells_of_parts cells.now) }
{
    match subtract_cells(accepted, cells) {
        Some(left) => subtract_measurement(left, series, rule.measurement.as_str()).is_some(),
        None => false,
    }
}

/// Returns true if the same is true of each rule.
pub(crate) fn are_counted<A: Allocator>(
    accepted: u64,
    series: &[SeriesParts<A>],
    rules: &[RuleParts<A>],
    cells: &[Vec<CellParts<A>, A>],
) -> bool
    ensures { IsTrue result ↔ AreCountedAll accepted
        (map series_of_parts series.now) (map rule_from_parts rules.now) (map cells_of_parts cells.now) }
{
    for (rule, cells) in rules.iter().zip(cells) {
        if !is_counted(accepted, series, rule, cells) {
            return false;
        }
    }
    true
}
