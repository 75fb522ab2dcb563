//! Conditions on a rule that don't depend on its buckets.
ghost use Rattle.std.specs.Prelude.{◌≡◌};
ghost use Rattle.ts_plan.specs.Steps.{matches_query};

use std::alloc::Allocator;
use ts_check::keeps_tags;
use ts_core::Rule;
use ts_ql::Query;

/// Returns true if the rule is of the query's measurement and keeps all tags that the query uses.
pub(crate) fn matches_query<A: Allocator>(rule: &Rule<A>, query: &Query<A>) -> bool
    ensures { result ≡ matches_query query.now.query rule.now }
{
    rule.measurement() == query.measurement() && keeps_tags(rule, query)
}
