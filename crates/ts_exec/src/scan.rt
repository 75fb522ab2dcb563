//! State that all pieces of a query share while they are added to the groups.
ghost use Rattle.std.specs.Prelude.{◌≡◌, IfOk};
ghost use Rattle.std.specs.List.{list_all};
ghost use Rattle.ts_core.specs.lists.Members.{AllDistinct};
ghost use Rattle.ts_core.specs.plans.Assembly.{representative};
ghost use Rattle.ts_core.specs.queries.Queries.{IsQuery, meets};

use crate::buckets::{BucketCursor, width};
use crate::group_values::GroupValuesBuf;
use crate::tag_conditions::{TagConditions, conditions_of};
use std::alloc::{AllocError, Allocator};
use std::marker::Model;
use ts_core::Rule;
use ts_ql::Query;
use ts_store::ViewCell;

/// State shared by all pieces of a query: its buckets, the tests of its conditions, and a scratch list for a group's
/// values. Its model is the query.
#[derive(Drop)]
pub(crate) struct Scan<'a, 'q, A: Allocator> {
    pub query: &'q Query<A>,
    pub width: usize,
    pub buckets: BucketCursor,
    // None if the conditions want two values of one tag.
    pub tests: Option<TagConditions<'q, A>>,
    pub values: GroupValuesBuf<'a, A>,
}

impl<'a, 'q, A: Allocator> Model for Scan<'a, 'q, A> {
    ghost use Rattle.ts_core.specs.queries.Queries.{Query as QueryValue};
    ghost use Rattle.ts_exec.specs.GroupTables.{IsScanOf};

    ghost Value = { QueryValue };

    ghost view = { λ s. s.query.now.query };

    ghost invariant = { λ s. IsScanOf s.query.now.query s.width s.buckets s.tests };
}

impl<'a, 'q, A: Allocator + Copy> Scan<'a, 'q, A> {
    /// Creates the state for a query.
    pub(crate) fn new(alloc: A, query: &'q Query<A>) -> Result<Scan<'a, 'q, A>, AllocError>
        ensures value { IfOk result (λ s. s ≡ query.now.query) }
        ensures query { IsQuery query.now.query }
    {
        let buckets = BucketCursor::new(query.from(), query.interval(), query.offset());
        Ok(Scan {
            query,
            width: width(query)?,
            buckets,
            tests: conditions_of(alloc, query.conditions())?,
            values: GroupValuesBuf::new(alloc),
        })
    }

    /// Returns true if a cell meets the query's conditions.
    pub(crate) fn is_met_by(&self, rule: &Rule<A>, cell: &ViewCell<'_, A>) -> bool
        requires { AllDistinct rule.now.kept_tags }
        ensures { result ≡ list_all (meets (representative rule.now cell.now.cell).column.series) self.now.conditions }
    {
        match &self.tests {
            Some(tests) => tests.are_met_by(rule, cell),
            None => false,
        }
    }
}
