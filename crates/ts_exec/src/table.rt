//! Answer to a query: groups with one row per bucket.
ghost use Rattle.std.specs.Prelude.{◌≡◌, map};
ghost use Rattle.std.specs.List.{AllByRecursion};
ghost use Rattle.ts_exec.specs.Answered.{HasRows};
ghost use Rattle.ts_exec.specs.GroupTables.{group_with, width};

use crate::groups::GroupRows;
use std::alloc::Allocator;
use std::marker::Model;
use ts_ql::Query;

/// Answer to a query, with the query: groups in byte order, each with one row per bucket that intersects the range.
#[derive(Drop)]
pub struct Table<'a, A: Allocator> {
    query: Query<A>,
    groups: Vec<GroupRows<'a, A>, A>,
}

impl<'a, A: Allocator> Model for Table<'a, A> {
    ghost use Rattle.std.specs.Prelude.{map};
    ghost use Rattle.std.specs.List.{AllByRecursion};
    ghost use Rattle.ts_exec.specs.Answered.{Answered, HasRows};
    ghost use Rattle.ts_exec.specs.GroupTables.{group_with, width};

    ghost Value = { Answered };

    ghost view = { λ t. record { select = t.query; groups = map (group_with t.query.query) t.groups.items } };

    ghost invariant = { λ t. AllByRecursion (HasRows (width t.query.query)) t.groups.items };
}

impl<'a, A: Allocator> Table<'a, A> {
    /// Creates an answer from its groups.
    pub(crate) fn new(query: Query<A>, groups: Vec<GroupRows<'a, A>, A>) -> Table<'a, A>
        requires { AllByRecursion (HasRows (width query.query)) groups.items }
        ensures { result ≡ record { select = query; groups = map (group_with query.query) groups.entry.items } }
    {
        Table { query, groups }
    }

    /// Returns the query.
    pub fn query(&self) -> &Query<A>
        ensures { result.now ≡ self.now.select }
    {
        &self.query
    }

    /// Returns the groups in byte order of their tag values. Each has one row per bucket that intersects the range.
    pub fn groups(&self) -> &[GroupRows<'a, A>]
        ensures value { map (group_with self.now.select.query) result.now ≡ self.now.groups }
        ensures rows { AllByRecursion (HasRows (width self.now.select.query)) result.now }
    {
        self.groups.as_slice()
    }
}
