//! Queries of a text.
ghost use Rattle.std.specs.Prelude.{◌≡◌, [], ◌∷◌, ◌++◌, false, IfOk};
ghost use Rattle.ts_ql.specs.BucketLimits.{IsLimited};
ghost use Rattle.ts_ql.specs.Builders.{builder_state, meaning};
ghost use Rattle.ts_ql.specs.Statements.{repeats, query_of};

use crate::lists::shadow::Shadow;
use crate::query::{Query, Span};
use crate::statement::StatementBuilder;
use std::alloc::{AllocError, Allocator};
use std::marker::Model;
use ts_core::{Buckets, Fill};

/// Parts of a query that aren't lists, with its names as written.
#[derive(Clone, Copy)]
pub(crate) struct Outline<'a> {
    pub field: Option<&'a str>,
    pub measurement: &'a str,
    pub fill: Fill,
    pub buckets: Buckets,
    pub span: Span,
}

/// Queries of the statements of a text, in its order.
#[derive(Drop)]
pub(crate) struct Queries<A: Allocator> {
    /// `None` after memory was refused.
    queries: Option<Vec<Query<A>, A>>,
    shadow: Shadow,
}

impl<A: Allocator> Model for Queries<A> {
    ghost use Rattle.std.specs.Prelude.{◌≡◌, List, IfSome};
    ghost use Rattle.ts_ql.specs.Selects.{Select};

    ghost Value = { List Select };

    ghost view = { λ q. q.shadow.lists.queries };

    ghost invariant = { λ q. IfSome q.queries (λ v. v.items ≡ q.shadow.lists.queries) };
}

/// Returns the ghost of queries with another one.
fn shadow_with<A: Allocator + Copy>(
    before: &Shadow,
    statement: &StatementBuilder<'_, A>,
    buckets: Buckets,
    span: Span,
) -> Shadow
    ensures { result.lists.queries
        ≡ before.now.lists.queries ++ query_of (meaning (builder_state statement.now)) buckets span ∷ [] }
{
    let outline = Outline {
        field: statement.selection.call.field,
        measurement: statement.selection.call.measurement,
        fill: statement.filling.fill,
        buckets,
        span,
    };
    Shadow::with_query(
        before,
        statement.selection.columns.shadow(),
        statement.filter.conditions.shadow(),
        statement.groups.tags().shadow(),
        &outline,
    )
}

/// Appends the query of a complete statement over a time range.
fn push<A: Allocator + Copy>(
    alloc: A,
    queries: &mut Vec<Query<A>, A>,
    statement: StatementBuilder<'_, A>,
    buckets: Buckets,
    span: Span,
) -> Result<(), AllocError>
    requires columns { repeats (builder_state statement).selection.columns ≡ false }
    requires limits { IsLimited (query_of (meaning (builder_state statement)) buckets span).query }
    ensures { IfOk result (λ _. queries.new.items
        ≡ queries.old.items ++ query_of (meaning (builder_state statement.entry)) buckets span ∷ []) }
{
    queries.push(statement.over(alloc, buckets, span)?)?;
    Ok(())
}

impl<A: Allocator + Copy> Queries<A> {
    /// Creates an empty list.
    pub fn new(alloc: A) -> Queries<A>
        ensures { result ≡ [] }
    {
        Queries {
            queries: Some(Vec::new(alloc)),
            shadow: Shadow::new(),
        }
    }

    /// Appends the query of a complete statement over a time range.
    pub fn push(
        &mut self,
        alloc: A,
        statement: StatementBuilder<'_, A>,
        buckets: Buckets,
        span: Span,
    )
        requires columns { repeats (builder_state statement).selection.columns ≡ false }
        requires limits { IsLimited (query_of (meaning (builder_state statement)) buckets span).query }
        ensures { self.new ≡ self.old ++ query_of (meaning (builder_state statement.entry)) buckets span ∷ [] }
    {
        self.shadow = shadow_with(&self.shadow, &statement, buckets, span);
        if let Some(queries) = &mut self.queries {
            if push(alloc, queries, statement, buckets, span).is_err() {
                self.queries = None;
            }
        }
    }

    /// Returns the list. Fails if memory was refused.
    pub fn into_vec(self) -> Result<Vec<Query<A>, A>, AllocError>
        ensures { IfOk result (λ queries. queries.items ≡ self) }
    {
        self.queries.ok_or(AllocError)
    }
}
