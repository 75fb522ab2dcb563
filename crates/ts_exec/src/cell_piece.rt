//! Adds a piece of a rule's cells to the groups.
ghost use Rattle.std.specs.Prelude.{◌≡◌, ◌&&◌, ◌<◌, ℤ, FitsSigned, pos, ◌≤ℤ◌, true, zip, length, map, string_bytes, OnOk, IfOk};
ghost use Rattle.std.specs.Int.{w64};
ghost use Rattle.std.specs.List.{list_all};
ghost use Rattle.ts_core.specs.plans.Assembly.{representative};
ghost use Rattle.ts_core.specs.facts.Facts.{is_within};
ghost use Rattle.ts_core.specs.facts.Tags.{value_among};
ghost use Rattle.ts_core.specs.lists.Members.{AllDistinct};
ghost use Rattle.ts_core.specs.store.Marks.{index_of};
ghost use Rattle.ts_core.specs.plans.Pieces.{start_of};
ghost use Rattle.ts_core.specs.queries.Queries.{meets};
ghost use Rattle.ts_store.specs.read.ViewResults.{view_cells_at};
ghost use Rattle.ts_exec.specs.JoinedPieces.{is_small};
ghost use Rattle.ts_exec.specs.GroupTables.{with_rule_cell, with_cell_parts, is_cell_taken};
ghost use Rattle.ts_exec.specs.GroupValues.{kept_indices};

use crate::groups::Groups;
use crate::scan::Scan;
use crate::set_values::{KeptTag, kept_tags};
use std::alloc::{AllocError, Allocator};
use ts_core::{MAX_COUNT, Partial, Rule, index_of};
use ts_ql::{Condition, Query};
use ts_store::{View, ViewCell};

/// Returns a cell's value of a tag, or the empty text if the rule doesn't keep the tag.
fn kept_value<'a, A: Allocator>(kept: &[String<A>], group: &'a [String<A>], tag: &str) -> &'a str
    ensures { result.now ≡ value_among (zip (map string_bytes kept.now) (map string_bytes group.now)) tag.now }
{
    match (kept.split_first(), group.split_first()) {
        (Some((first, kept)), Some((value, group))) => {
            if first.as_str() == tag {
                value.as_str()
            } else {
                kept_value(kept, group, tag)
            }
        }
        _ => "",
    }
}

/// Returns true if a cell meets a condition.
pub(crate) fn is_met_by<A: Allocator>(
    rule: &Rule<A>,
    cell: &ViewCell<'_, A>,
    condition: &Condition<A>,
) -> bool
    ensures { result ≡ meets (representative rule.now cell.now.cell).column.series condition.now }
{
    let same = kept_value(rule.kept_tags(), cell.group, condition.tag()) == condition.value();
    if condition.negated() { !same } else { same }
}

/// Returns true if a time is in the range from `from`, inclusive, to `to`, exclusive.
fn is_within(from: i64, to: i64, moment: &i128) -> bool
    ensures { result ≡ is_within from to moment.now }
{
    i128::from(from) <= *moment && *moment < i128::from(to)
}

/// Returns true if a cell has data, is of the query's measurement and field, and starts within the range from `from` to
/// `to` and the query's range. Only its tags are left to test.
pub(crate) fn is_candidate<A: Allocator>(
    rule: &Rule<A>,
    query: &Query<A>,
    from: i64,
    to: i64,
    start: &i128,
    cell: &ViewCell<'_, A>,
) -> bool
    requires { start.now ≡ start_of rule.now cell.now.cell.index }
    ensures { (result && list_all (meets (representative rule.now cell.now.cell).column.series)
        query.now.query.conditions) ≡ is_cell_taken query.now.query rule.now from to cell.now }
{
    if !is_within(query.from(), query.to(), start) {
        return false;
    }
    if !is_within(from, to, start) {
        return false;
    }
    if cell.count() == 0 {
        return false;
    }
    rule.measurement() == query.measurement() && cell.field == query.field()
}

/// Returns true if a cell has data, matches the query, and starts within the range from `from` to `to` and the query's
/// range.
fn is_taken<A: Allocator + Copy>(
    rule: &Rule<A>,
    scan: &Scan<'_, '_, A>,
    from: i64,
    to: i64,
    start: &i128,
    cell: &ViewCell<'_, A>,
) -> bool
    requires start { start.now ≡ start_of rule.now cell.now.cell.index }
    requires once { AllDistinct rule.now.kept_tags }
    ensures { result ≡ is_cell_taken scan.now rule.now from to cell.now }
{
    is_candidate(rule, scan.query, from, to, start, cell) && scan.is_met_by(rule, cell)
}

/// Returns the start of the bucket with this index, in nanoseconds of the Unix epoch. The bucket must be one of those
/// between the buckets of two times, the first inclusive, the second exclusive.
pub(crate) fn bucket_start<A: Allocator>(rule: &Rule<A>, index: &i128) -> i128
    requires interval { pos 1 ≤ℤ rule.now.interval }
    requires within { (from : ℤ) × (to : ℤ) × FitsSigned w64 from
        × FitsSigned w64 to × (is_within (index_of rule.now from) (index_of rule.now to) index.now ≡ true) }
    ensures { result ≡ start_of rule.now index.now }
{
    rule.buckets().start(*index)
}

/// Adds a cell, if the query matches it. The rule keeps these of the query's tags.
fn add_cell<'a, A: Allocator + Copy>(
    groups: &mut Groups<'a, A>,
    scan: &mut Scan<'a, '_, A>,
    rule: &Rule<A>,
    kept: &[KeptTag],
    from: i64,
    to: i64,
    cell: &ViewCell<'a, A>,
) -> Result<(), AllocError>
    requires kept { kept.now ≡ kept_indices 0 scan.old.group_tags rule.now.kept_tags }
    requires interval { pos 1 ≤ℤ rule.now.interval }
    requires once { AllDistinct rule.now.kept_tags }
    requires within { is_within (index_of rule.now from) (index_of rule.now to) cell.now.cell.index ≡ true }
    ensures value { OnOk result (groups.new ≡ with_rule_cell scan.old rule.now from to cell.now groups.old) }
    ensures same { scan.new ≡ scan.old }
{
    // For the proof: a query's interval is positive.
    let _interval = scan.query.interval();
    let start = bucket_start(rule, &cell.index);
    if !is_taken(rule, scan, from, to, &start, cell) {
        return Ok(());
    }
    scan.values
        .read_cell(scan.query.group_tags(), kept, cell.group)?;
    let row_index = scan.buckets.row_index(start as i64);
    groups.add_part(scan.width, &scan.values.values(), row_index, cell.total())
}

/// Returns true if a cell has fewer points than half of those that a row can count.
fn is_small<A: Allocator>(cell: &ViewCell<'_, A>) -> bool
    ensures { result ≡ is_small cell.now }
{
    cell.count() < MAX_COUNT / 2
}

/// Adds the cells of a rule from `from`, inclusive, to `to`, exclusive, that the query matches. Returns true if all
/// cells there are small.
pub(crate) fn add_cells<'a, A: Allocator + Copy + 'a, V: View<A> + 'a>(
    groups: &mut Groups<'a, A>,
    scan: &mut Scan<'a, '_, A>,
    view: &'a V,
    rule: &Rule<A>,
    number: usize,
    from: i64,
    to: i64,
) -> Result<bool, AllocError>
    requires number { number < length (V.seen view.now).rules }
    requires interval { pos 1 ≤ℤ rule.now.interval }
    requires once { AllDistinct rule.now.kept_tags }
    ensures value { OnOk result (groups.new ≡ with_cell_parts scan.old rule.now from to
        (view_cells_at (V.seen view.now).rules number (index_of rule.now from) (index_of rule.now to)) groups.old) }
    ensures small { IfOk result (λ b. b ≡ list_all is_small
        (view_cells_at (V.seen view.now).rules number (index_of rule.now from) (index_of rule.now to))) }
    ensures same { scan.new ≡ scan.old }
{
    let kept = kept_tags(
        *groups.allocator(),
        scan.query.group_tags(),
        rule.kept_tags(),
    )?;
    let first = index_of(rule, i128::from(from));
    let end = index_of(rule, i128::from(to));
    let mut small = true;
    let mut cells = view.cell_walk(number, &first, &end);
    loop {
        // Matched by reference: a cell has some 200 bytes, which aren't copied out of the option.
        let found = cells.next();
        let Some(cell) = &found else {
            break;
        };
        small = small && is_small(cell);
        add_cell(groups, scan, rule, &kept, from, to, cell)?;
    }
    Ok(small)
}
