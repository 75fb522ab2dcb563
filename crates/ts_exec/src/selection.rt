//! Selects the columns of a query.
ghost use Rattle.std.specs.Prelude.{◌≡◌, IfOk, IfSome};
ghost use Rattle.std.specs.List.{list_all};
ghost use Rattle.ts_core.specs.facts.Facts.{is_of};
ghost use Rattle.ts_core.specs.queries.Queries.{meets};
ghost use Rattle.ts_store.specs.read.ViewResults.{column_refs_where};
ghost use Rattle.ts_exec.specs.GroupTables.{selected_column_refs, IsNarrowing};

use crate::tag_conditions::conditions_of;
use std::alloc::{AllocError, Allocator};
use ts_core::Key;
use ts_ql::{Condition, Query};
use ts_store::{Columns, View, ViewColumn};

/// Returns true if a series meets a condition.
fn is_met<A: Allocator + Copy>(key: &Key<A>, condition: &Condition<A>) -> bool
    ensures { result ≡ meets key.now condition.now }
{
    let same = key.tag_value(condition.tag()) == condition.value();
    if condition.negated() { !same } else { same }
}

/// Returns true if a series meets all conditions.
pub(crate) fn are_met<A: Allocator + Copy>(key: &Key<A>, conditions: &[Condition<A>]) -> bool
    ensures { result ≡ list_all (meets key.now) conditions.now }
{
    conditions.iter().all(|condition| is_met(key, condition))
}

/// Returns the condition that a tag has a value that the fewest columns have, if fewer than `limit` have it.
fn narrowing<'q, A: Allocator + Copy>(
    columns: &Columns<'_, A>,
    conditions: &'q [Condition<A>],
    limit: usize,
) -> Option<&'q Condition<A>>
    ensures { IfSome result (λ c. IsNarrowing conditions.now c.now) }
{
    let (first, others) = conditions.split_first()?;
    if first.negated() {
        return narrowing(columns, others, limit);
    }
    let count = columns.count_with_tag(first.tag(), first.value());
    if count >= limit {
        return narrowing(columns, others, limit);
    }
    match narrowing(columns, others, count) {
        Some(better) => Some(better),
        None => Some(first),
    }
}

/// Returns columns of a query's measurement and field, in creation order: at least those whose series meet its
/// conditions. If a condition leaves less than half of the columns, these are found by the index.
fn candidates<'a, A: Allocator + Copy + 'a, V: View<A> + 'a>(
    alloc: A,
    query: &Query<A>,
    view: &'a V,
) -> Result<Vec<ViewColumn<'a, A>, A>, AllocError>
    ensures { IfOk result
        (λ v. selected_column_refs query.now.query.conditions v.items ≡ selected_column_refs query.now.query.conditions
        (column_refs_where (is_of query.now.query.measurement query.now.query.field) (V.seen view.now).columns)) }
{
    let columns = view.columns_of(query.measurement(), query.field());
    match narrowing(&columns, query.conditions(), columns.len() / 2) {
        Some(condition) => columns.with_tag(alloc, condition.tag(), condition.value()),
        None => columns.to_vec(alloc),
    }
}

/// Returns true if a series meets all conditions of a list of references.
pub(crate) fn meets_each<A: Allocator + Copy>(key: &Key<A>, conditions: &[&Condition<A>]) -> bool
    ensures { result ≡ list_all (λ c. meets key.now c.now) conditions.now }
{
    conditions.iter().all(|condition| is_met(key, condition))
}

/// Returns the columns of a query, in creation order: those of its measurement and field whose series meet its
/// conditions. Tests each by its own tags. If the conditions want two values of one tag, looks at no series.
pub(crate) fn selected_columns<'a, A: Allocator + Copy + 'a, V: View<A> + 'a>(
    alloc: A,
    query: &Query<A>,
    view: &'a V,
) -> Result<Vec<ViewColumn<'a, A>, A>, AllocError>
    ensures { IfOk result (λ v. v.items ≡ selected_column_refs query.now.query.conditions
        (column_refs_where (is_of query.now.query.measurement query.now.query.field) (V.seen view.now).columns)) }
{
    let Some(tests) = conditions_of(alloc, query.conditions())? else {
        return Ok(Vec::new(alloc));
    };
    let mut found = candidates(alloc, query, view)?;
    found.retain(|column| tests.are_met(column.key));
    Ok(found)
}
