//! Limits the search for a plan.
ghost use Rattle.std.specs.Prelude.{◌≡◌, ◌↔◌, ◌<◌, pos, ◌≤ℤ◌, IsTrue, if◌then◌else◌};
ghost use Rattle.std.specs.List.{AllByRecursion};
ghost use Rattle.ts_core.specs.queries.Answers.{at_least_none};
ghost use Rattle.ts_core.specs.facts.Facts.{same_text};
ghost use Rattle.ts_core.specs.plans.Plans.{whole_between, whole_buckets, IsTooMany};

use std::alloc::Allocator;
use ts_core::{Marks, Rule, Settings, index_of};
use ts_ql::Query;

/// Returns the number, or 0 if it is negative.
fn at_least_none(number: i128) -> u128
    ensures { result ≡ at_least_none number }
{
    if number < 0 { 0 } else { number.unsigned_abs() }
}

/// Returns the number of the rule's whole buckets in the range from `from`, inclusive, to `to`, exclusive.
fn whole_between<A: Allocator>(rule: &Rule<A>, from: i64, to: i64) -> u128
    requires { pos 1 ≤ℤ rule.now.interval }
    ensures { result ≡ whole_between rule.now from to }
{
    let last = index_of(rule, i128::from(to));
    let first = index_of(rule, i128::from(from) - 1);
    at_least_none(last - first - 1)
}

/// Returns the number of the rule's whole buckets in the query's range, or 0 if the rule is of another measurement.
fn whole_buckets_of<A: Allocator>(rule: &Rule<A>, query: &Query<A>) -> u128
    requires { pos 1 ≤ℤ rule.now.interval }
    ensures { result ≡ (if same_text rule.now.measurement query.now.query.measurement
        then whole_between rule.now query.now.query.from query.now.query.to else 0) }
{
    if rule.measurement() == query.measurement() {
        whole_between(rule, query.from(), query.to())
    } else {
        0
    }
}

/// Returns true if the rules have more than `limit` whole buckets in the query's range.
fn have_more_than<A: Allocator>(limit: u128, rules: &[Rule<A>], query: &Query<A>) -> bool
    requires { AllByRecursion (λ r. pos 1 ≤ℤ r.interval) rules.now }
    ensures { IsTrue result ↔ (limit < whole_buckets rules.now query.now.query) }
{
    match rules.split_first() {
        None => false,
        Some((rule, others)) => {
            let count = whole_buckets_of(rule, query);
            count > limit || have_more_than(limit - count, others, query)
        }
    }
}

/// Returns true if planning the query would search more than 1,000,000 whole buckets of rules.
pub(crate) fn is_too_many<A: Allocator>(
    settings: &Settings<A>,
    marks: &Marks<A>,
    query: &Query<A>,
) -> bool
    ensures { IsTrue result ↔ IsTooMany settings.now marks.now query.now.query }
{
    let from = query.from();
    if from >= marks.raw().nanos() {
        return false;
    }
    if from >= query.to() {
        return false;
    }
    have_more_than(1_000_000, settings.rules(), query)
}
