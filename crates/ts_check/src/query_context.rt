//! A query together with the settings and marks it is planned under.
ghost use Rattle.std.specs.Prelude.{◌≡◌, ◌≤◌, ◌≤ℤ◌, length, slice_get};
ghost use Rattle.ts_core.specs.plans.Pieces.{rule_named, query_context};
ghost use Rattle.ts_check.specs.Checks.{HasPositiveIntervals};

use std::alloc::Allocator;
use std::marker::Model;
use ts_core::{Marks, Rule, Settings};
use ts_ql::Query;

/// A rule with its low index.
#[derive(Drop)]
pub struct MarkedRule<'a, A: Allocator> {
    /// Rule of the settings.
    pub rule: &'a Rule<A>,
    /// Index of the rule's first bucket that is still complete.
    pub low: i128,
}

impl<'a, A: Allocator> Model for MarkedRule<'a, A> {
    ghost use Rattle.ts_core.specs.plans.Pieces.{MarkedRule as MarkedRuleValue};

    ghost Value = { MarkedRuleValue };

    ghost view = { λ r. record { rule = r.rule.now; low = r.low } };
}

/// A query with the settings and marks that it is planned under.
#[derive(Drop)]
pub struct QueryContext<'a, A: Allocator> {
    settings: &'a Settings<A>,
    marks: &'a Marks<A>,
    query: &'a Query<A>,
}

impl<'a, A: Allocator> Model for QueryContext<'a, A> {
    ghost use Rattle.ts_core.specs.plans.Pieces.{QueryContext as QueryContextValue, query_context};

    ghost Value = { QueryContextValue };

    ghost view = { λ t. query_context t.settings.now t.marks.now t.query.now.query };
}

impl<'a, A: Allocator> QueryContext<'a, A> {
    /// Combines a query with the settings and marks of a store.
    pub fn new(
        settings: &'a Settings<A>,
        marks: &'a Marks<A>,
        query: &'a Query<A>,
    ) -> QueryContext<'a, A>
        ensures value { result ≡ query_context settings.now marks.now query.now.query }
        ensures intervals { HasPositiveIntervals result }
    {
        // For the proof: the interval is positive, and the rules satisfy their limits.
        let _interval = query.interval();
        let _rules = settings.rules();
        QueryContext {
            settings,
            marks,
            query,
        }
    }

    /// Returns the query.
    pub fn query(&self) -> &'a Query<A>
        ensures { result.now.query ≡ self.now.query }
    {
        self.query
    }

    /// Returns the start of the query's range, inclusive, in nanoseconds of the Unix epoch.
    pub fn start(&self) -> i64
        ensures value { result ≡ self.now.query.from }
        ensures range { self.now.query.from ≤ℤ self.now.query.to }
    {
        self.query.from()
    }

    /// Returns the end of the query's range, exclusive, in nanoseconds of the Unix epoch.
    pub fn end(&self) -> i64
        ensures { result ≡ self.now.query.to }
    {
        self.query.to()
    }

    /// Returns the raw mark, in nanoseconds of the Unix epoch: raw points are complete from there on.
    pub fn mark(&self) -> i64
        ensures { result ≡ self.now.mark }
    {
        self.marks.raw().nanos()
    }

    /// Returns an upper bound on the number of rules.
    pub fn rule_count(&self) -> usize
        ensures { length self.now.rules ≤ result }
    {
        self.settings.rules().len()
    }

    /// Returns the rule with this index in the settings.
    pub fn rule_at(&self, number: usize) -> Option<MarkedRule<'a, A>>
        ensures { result ≡ slice_get self.now.rules number }
    {
        let rule = self.settings.rules().get(number)?;
        let low = *self.marks.lows().get(number)?;
        Some(MarkedRule { rule, low })
    }

    /// Returns the first rule of this name.
    pub(crate) fn rule_named(&self, name: &str) -> Option<MarkedRule<'a, A>>
        ensures { result ≡ rule_named name.now self.now.rules }
    {
        self.rule_at(self.settings.rule_named(name)?)
    }
}
