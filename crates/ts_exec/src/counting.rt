//! Counts the points that a checked plan asks for, without visiting raw points.
ghost use Rattle.std.specs.Prelude.{◌≡◌, ◌<◌, pos, ◌≤ℤ◌, true, length, min, map, filter, if◌then◌else◌};
ghost use Rattle.std.specs.List.{list_all};
ghost use Rattle.ts_core.specs.facts.Facts.{is_within};
ghost use Rattle.ts_core.specs.store.Marks.{index_of};
ghost use Rattle.ts_core.specs.plans.Assembly.{representative};
ghost use Rattle.ts_core.specs.plans.Pieces.{Raw};
ghost use Rattle.ts_core.specs.queries.Queries.{meets};
ghost use Rattle.ts_core.specs.store.StoreStates.{total_in};
ghost use Rattle.ts_store.specs.read.ViewResults.{view_cells_at};
ghost use Rattle.ts_exec.specs.Executions.{IsCountOf};
ghost use Rattle.ts_exec.specs.GroupTables.{is_cell_taken};
ghost use Rattle.ts_exec.specs.Shares.{points_of_shares, cell_share, source_shares, pieces_shares};

use crate::cell_piece::{bucket_start, is_candidate, is_met_by};
use crate::executor::is_fresh;
use crate::fault::ExecFault;
use crate::selection::are_met;
use std::alloc::Allocator;
use ts_check::{Checked, Piece, PieceSource};
use ts_core::{Partial, Rule, index_of};
use ts_ql::{Condition, Query};
use ts_store::{View, ViewCell};

/// Returns the number of raw points that match a query from `from`, inclusive, to `to`, exclusive.
fn raw_points<A: Allocator + Copy, V: View<A>>(
    view: &V,
    query: &Query<A>,
    from: i64,
    to: i64,
) -> u64
    ensures { result
        ≡ min (points_of_shares (source_shares (V.seen view.now) query.now.query Raw from to)) 18446744073709551615 }
{
    let mut count: u64 = 0;
    for column in view.columns_of(query.measurement(), query.field()) {
        if are_met(column.key, query.conditions()) {
            let points = view.raw_range(column.id, from, to);
            count = count.saturating_add(points.len() as u64);
        }
    }
    count
}

/// Returns true if a cell meets all conditions.
fn are_met_by<A: Allocator>(
    rule: &Rule<A>,
    cell: &ViewCell<'_, A>,
    conditions: &[Condition<A>],
) -> bool
    ensures { result ≡ list_all (meets (representative rule.now cell.now.cell).column.series) conditions.now }
{
    conditions
        .iter()
        .all(|condition| is_met_by(rule, cell, condition))
}

/// Returns the number of points of a cell, or 0 if the query doesn't match it.
fn cell_points<A: Allocator + Copy>(
    rule: &Rule<A>,
    query: &Query<A>,
    from: i64,
    to: i64,
    cell: &ViewCell<'_, A>,
) -> u64
    requires interval { pos 1 ≤ℤ rule.now.interval }
    requires within { is_within (index_of rule.now from) (index_of rule.now to) cell.now.cell.index ≡ true }
    ensures { result
        ≡ (if is_cell_taken query.now.query rule.now from to cell.now then (total_in cell.now.parts).count else 0) }
{
    let start = bucket_start(rule, &cell.index);
    if is_candidate(rule, query, from, to, &start, cell)
        && are_met_by(rule, cell, query.conditions())
    {
        cell.count()
    } else {
        0
    }
}

/// Returns the number of points in the cells of a rule that match a query from `from`, inclusive, to `to`, exclusive.
fn rollup_points<A: Allocator + Copy, V: View<A>>(
    view: &V,
    query: &Query<A>,
    rule: &Rule<A>,
    number: usize,
    from: i64,
    to: i64,
) -> u64
    requires number { number < length (V.seen view.now).rules }
    requires interval { pos 1 ≤ℤ rule.now.interval }
    ensures { result ≡ min (points_of_shares (map (cell_share query.now.query rule.now)
        (filter (is_cell_taken query.now.query rule.now from to)
        (view_cells_at (V.seen view.now).rules number (index_of rule.now from) (index_of rule.now to)))))
        18446744073709551615 }
{
    let first = index_of(rule, i128::from(from));
    let end = index_of(rule, i128::from(to));
    let mut count: u64 = 0;
    for cell in view.cell_walk(number, &first, &end) {
        count = count.saturating_add(cell_points(rule, query, from, to, &cell));
    }
    count
}

/// Returns the number of points of a piece that match a query.
fn piece_points<A: Allocator + Copy, V: View<A>>(view: &V, query: &Query<A>, piece: &Piece) -> u64
    ensures { result ≡ min (points_of_shares (source_shares
        (V.seen view.now) query.now.query piece.now.source piece.now.from piece.now.to)) 18446744073709551615 }
{
    match &piece.source {
        PieceSource::Raw => raw_points(view, query, piece.from, piece.to),
        PieceSource::Rollup(name) => {
            let settings = view.settings();
            match settings.rule_named(name.as_str()) {
                Some(number) => {
                    let rule = &settings.rules()[number];
                    rollup_points(view, query, rule, number, piece.from, piece.to)
                }
                None => 0,
            }
        }
    }
}

/// Returns the number of points of all pieces that match a query.
fn pieces_points<A: Allocator + Copy, V: View<A>>(
    view: &V,
    query: &Query<A>,
    pieces: &[Piece],
) -> u64
    ensures { result
        ≡ min (points_of_shares (pieces_shares (V.seen view.now) query.now.query pieces.now)) 18446744073709551615 }
{
    let mut count: u64 = 0;
    for piece in pieces {
        count = count.saturating_add(piece_points(view, query, piece));
    }
    count
}

/// Returns the number of points that match a checked plan's query, in all groups and buckets. If the view shows a
/// history, these are all matching points ever accepted. (Sums are capped at `u64::MAX`, which no history reaches.)
/// Does not allocate. Takes one search per column, however many raw points it has, and a walk over the cells of rules.
/// Fails with `Stale` as `execute` does.
pub fn count_points<'a, A: Allocator + Copy + 'a, V: View<A> + 'a>(
    view: &'a V,
    checked: &Checked<A>,
) -> Result<u64, ExecFault<'a, A>>
    ensures { IsCountOf (V.seen view.now) checked.now result }
{
    if !is_fresh(view, checked) {
        return Err(ExecFault::Stale(view.settings(), view.marks()));
    }
    let query = checked.query();
    // For the proof: the start of the range is a valid time.
    let _from = query.from();
    Ok(pieces_points(view, query, checked.pieces()))
}
