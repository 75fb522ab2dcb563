//! `execute` and `execute_selected`: answer a query by a checked plan.
ghost use Rattle.std.specs.Prelude.{◌≡◌, ◌↔◌, [], map, IsTrue, IsOk, IfOk};
ghost use Rattle.std.specs.List.{AllByRecursion, list_all};
ghost use Rattle.ts_core.specs.plans.Pieces.{IsValid};
ghost use Rattle.ts_core.specs.queries.Queries.{IsQuery};
ghost use Rattle.ts_exec.specs.declared.aggregate_parts.AggregateParts.TheVariants.{Whole};
ghost use Rattle.ts_exec.specs.Answered.{HasRows};
ghost use Rattle.ts_exec.specs.Executions.{IsCurrent, IsExecutionOf, IsSelectionOf};
ghost use Rattle.ts_exec.specs.Fillings.{functions_of};
ghost use Rattle.ts_exec.specs.GroupTables.{with_pieces, width, group_with, given};
ghost use Rattle.ts_exec.specs.JoinedPieces.{joined_pieces, has_room, have_room, have_small_parts, AreGroupsOf};
ghost use Rattle.ts_exec.specs.Selections.{HaveSameValues};

use crate::aggregate_parts::{AggregateParts, parts_for};
use crate::fault::ExecFault;
use crate::groups::{GroupRows, Groups};
use crate::pieces::{add_joined_pieces, add_pieces};
use crate::scan::Scan;
use crate::table::Table;
use std::alloc::{AllocError, Allocator};
use ts_check::{Checked, Piece};
use ts_core::{Agg, MAX_COUNT, Partial};
use ts_ql::Query;
use ts_store::View;

/// Returns the groups of the pieces of a plan, with their rows, adding one piece after the other. Keeps these parts of
/// raw points.
fn groups_in_turn<'a, A: Allocator + Copy + 'a, V: View<A> + 'a>(
    alloc: A,
    parts: AggregateParts,
    view: &'a V,
    query: &Query<A>,
    pieces: &[Piece],
) -> Result<Vec<GroupRows<'a, A>, A>, AllocError>
    ensures given { IfOk result (λ v. v.items ≡ with_pieces parts (V.seen view.now) query.now.query pieces.now []) }
    ensures rows { IfOk result (λ v. AllByRecursion (HasRows (width query.now.query)) v.items) }
    ensures query { IsOk result → IsQuery query.now.query }
{
    let mut groups = Groups::new(alloc);
    let mut scan = Scan::new(alloc, query)?;
    add_pieces(&mut groups, &mut scan, parts, view, pieces)?;
    groups.into_groups()
}

/// Returns the groups of the pieces of a plan as `groups_in_turn` does, but joins adjacent pieces of one source. Also
/// returns true if all their cells are small.
fn groups_joined<'a, A: Allocator + Copy + 'a, V: View<A> + 'a>(
    alloc: A,
    parts: AggregateParts,
    view: &'a V,
    query: &Query<A>,
    pieces: &[Piece],
) -> Result<(Vec<GroupRows<'a, A>, A>, bool), AllocError>
    ensures given { IfOk result
        (λ v. v.0.items ≡ with_pieces parts (V.seen view.now) query.now.query (joined_pieces pieces.now) []) }
    ensures small { IfOk result (λ v. v.1 ≡ have_small_parts (V.seen view.now) (joined_pieces pieces.now)) }
    ensures rows { IfOk result (λ v. AllByRecursion (HasRows (width query.now.query)) v.0.items) }
    ensures query { IsOk result → IsQuery query.now.query }
{
    let mut groups = Groups::new(alloc);
    let mut scan = Scan::new(alloc, query)?;
    let small = add_joined_pieces(&mut groups, &mut scan, parts, view, pieces)?;
    let groups = groups.into_groups()?;
    Ok((groups, small))
}

/// Returns true if each row has fewer points than half of those that it can count.
fn has_room(rows: &[Agg]) -> bool
    ensures { result ≡ list_all has_room rows.now }
{
    rows.iter().all(|row| row.count() < MAX_COUNT / 2)
}

/// Returns true if each row of all groups has fewer points than half of those that it can count.
fn have_room<A: Allocator>(groups: &[GroupRows<'_, A>]) -> bool
    ensures { result ≡ have_room groups.now }
{
    groups.iter().all(|group| has_room(group.rows()))
}

/// Returns the groups of the pieces of a plan, with their rows. Keeps these parts of raw points. Adjacent pieces of one
/// source are searched as one. If a row or a cell counts 2^61 points, a part may have been left out, and the order
/// decides which. So the pieces are then added again, one after the other.
fn groups_given<'a, A: Allocator + Copy + 'a, V: View<A> + 'a>(
    alloc: A,
    parts: AggregateParts,
    view: &'a V,
    query: &Query<A>,
    pieces: &[Piece],
) -> Result<Vec<GroupRows<'a, A>, A>, AllocError>
    ensures given { IfOk result (λ v. AreGroupsOf parts (V.seen view.now) query.now.query pieces.now v.items) }
    ensures rows { IfOk result (λ v. AllByRecursion (HasRows (width query.now.query)) v.items) }
    ensures query { IsOk result → IsQuery query.now.query }
{
    let (groups, small) = groups_joined(alloc, parts, view, query, pieces)?;
    if small && have_room(&groups) {
        return Ok(groups);
    }
    groups_in_turn(alloc, parts, view, query, pieces)
}

/// Returns the groups of the pieces of a valid plan, with all parts of their rows.
fn groups_whole<'a, A: Allocator + Copy + 'a, V: View<A> + 'a>(
    alloc: A,
    view: &'a V,
    query: &Query<A>,
    pieces: &[Piece],
) -> Result<Vec<GroupRows<'a, A>, A>, AllocError>
    requires { IsValid (V.seen view.now).settings (V.seen view.now).marks query.now.query pieces.now }
    ensures given { IfOk result (λ v. v.items ≡ with_pieces Whole (V.seen view.now) query.now.query pieces.now []) }
    ensures rows { IfOk result (λ v. AllByRecursion (HasRows (width query.now.query)) v.items) }
    ensures query { IsOk result → IsQuery query.now.query }
{
    // For the proof: the rules' intervals are positive.
    let _rules = view.settings().rules();
    groups_given(alloc, AggregateParts::Whole, view, query, pieces)
}

/// Returns the groups of the pieces of a valid plan, with the values of the query's functions alone.
fn groups_selected<'a, A: Allocator + Copy + 'a, V: View<A> + 'a>(
    alloc: A,
    view: &'a V,
    query: &Query<A>,
    pieces: &[Piece],
) -> Result<Vec<GroupRows<'a, A>, A>, AllocError>
    requires { IsValid (V.seen view.now).settings (V.seen view.now).marks query.now.query pieces.now }
    ensures values { IfOk result (λ v. HaveSameValues (functions_of query.now.columns)
        (map (group_with query.now.query) v.items) (given (V.seen view.now) query.now.query pieces.now)) }
    ensures rows { IfOk result (λ v. AllByRecursion (HasRows (width query.now.query)) v.items) }
    ensures query { IsOk result → IsQuery query.now.query }
{
    // For the proof: the rules' intervals are positive.
    let _rules = view.settings().rules();
    let parts = parts_for(query.columns());
    groups_given(alloc, parts, view, query, pieces)
}

/// Returns true if the view has the settings and marks that the plan was checked under.
pub(crate) fn is_fresh<A: Allocator, V: View<A>>(view: &V, checked: &Checked<A>) -> bool
    ensures { IsTrue result ↔ IsCurrent (V.seen view.now) checked.now }
{
    view.settings().equals(checked.settings()) && view.marks().equals(checked.marks())
}

/// Executes a checked plan over a view. If the view shows a history, the result is the answer over all points ever
/// accepted. A part that would raise a row's count above 2^62 is left out, but no history has that many points. Fails
/// with `Stale`, before anything is allocated, if the plan was checked under other settings or marks.
pub fn execute<'a, A: Allocator + Copy + 'a, V: View<A> + 'a>(
    alloc: A,
    view: &'a V,
    checked: &Checked<A>,
) -> Result<Table<'a, A>, ExecFault<'a, A>>
    ensures { IsExecutionOf (V.seen view.now) checked.now result }
{
    if !is_fresh(view, checked) {
        return Err(ExecFault::Stale(view.settings(), view.marks()));
    }
    let groups = groups_whole(alloc, view, checked.query(), checked.pieces())?;
    let query = checked.query().try_clone(alloc)?;
    Ok(Table::new(query, groups))
}

/// Executes a checked plan over a view as `execute` does, but computes only the values of the query's functions. The
/// other values of the result are unspecified. A sum needs no extremes, and a count no values of points: it visits no
/// point of a column that has many per bucket.
pub fn execute_selected<'a, A: Allocator + Copy + 'a, V: View<A> + 'a>(
    alloc: A,
    view: &'a V,
    checked: &Checked<A>,
) -> Result<Table<'a, A>, ExecFault<'a, A>>
    ensures { IsSelectionOf (V.seen view.now) checked.now result }
{
    if !is_fresh(view, checked) {
        return Err(ExecFault::Stale(view.settings(), view.marks()));
    }
    let groups = groups_selected(alloc, view, checked.query(), checked.pieces())?;
    let query = checked.query().try_clone(alloc)?;
    Ok(Table::new(query, groups))
}
