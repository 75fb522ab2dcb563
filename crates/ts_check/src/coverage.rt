//! Conditions for a rule's cells to replace a query's points.
ghost use Rattle.std.specs.Prelude.{◌≡◌, ◌||◌, pos, ◌≤ℤ◌, map, string_bytes};
ghost use Rattle.std.specs.List.{list_all};
ghost use Rattle.std.specs.Int.{int_rem_euclid};
ghost use Rattle.std.specs.Ordering.{int_eq};
ghost use Rattle.ts_core.specs.plans.Faults.{is_boundary, is_aligned, is_in_one_bucket, keeps};
ghost use Rattle.ts_core.specs.plans.Pieces.{tags_of};

use std::alloc::Allocator;
use ts_core::{Rule, index_of, is_among};
use ts_ql::{Condition, Query};

/// Returns true if a bucket of the rule starts at this time, in nanoseconds.
pub(crate) fn is_boundary<A: Allocator>(rule: &Rule<A>, at: i64) -> bool
    requires { pos 1 ≤ℤ rule.now.interval }
    ensures { result ≡ is_boundary rule.now at }
{
    let interval = i128::from(rule.interval());
    let offset = i128::from(rule.offset());
    let index = index_of(rule, i128::from(at));
    index * interval + offset == i128::from(at)
}

fn is_multiple(value: i128, interval: i64) -> bool
    requires { pos 1 ≤ℤ interval }
    ensures { result ≡ int_eq (int_rem_euclid value interval) (pos 0) }
{
    value.rem_euclid(i128::from(interval)) == 0
}

/// Returns true if the rule's interval divides the query's, and their offsets agree modulo the rule's interval.
pub fn is_aligned<A: Allocator>(rule: &Rule<A>, query: &Query<A>) -> bool
    requires { pos 1 ≤ℤ rule.now.interval }
    ensures { result ≡ is_aligned rule.now query.now.query }
{
    let apart = i128::from(query.offset()) - i128::from(rule.offset());
    is_multiple(i128::from(query.interval()), rule.interval())
        && is_multiple(apart, rule.interval())
}

/// Returns true if the range from `from`, inclusive, to `to`, exclusive, is within one bucket of the query.
pub fn is_in_one_bucket<A: Allocator>(query: &Query<A>, from: i64, to: i64) -> bool
    ensures { result ≡ is_in_one_bucket query.now.query from to }
{
    let buckets = query.buckets();
    let first = buckets.index(i128::from(from));
    let last = buckets.index(i128::from(to) - 1);
    first == last
}

/// Returns true if the rule's buckets divide the query's, or if the range is within one bucket of the query. Either
/// way, no bucket of the rule in the range crosses a bucket boundary of the query.
pub(crate) fn is_aligned_in<A: Allocator>(
    rule: &Rule<A>,
    query: &Query<A>,
    from: i64,
    to: i64,
) -> bool
    requires { pos 1 ≤ℤ rule.now.interval }
    ensures { result ≡ (is_aligned rule.now query.now.query || is_in_one_bucket query.now.query from to) }
{
    is_aligned(rule, query) || is_in_one_bucket(query, from, to)
}

/// Returns true if the rule keeps a tag.
fn keeps<A: Allocator>(rule: &Rule<A>, tag: &str) -> bool
    ensures { result ≡ keeps rule.now tag.now }
{
    is_among(tag, rule.kept_tags())
}

fn keeps_each<A: Allocator>(rule: &Rule<A>, tags: &[String<A>]) -> bool
    ensures { result ≡ list_all (keeps rule.now) (map string_bytes tags.now) }
{
    match tags.split_first() {
        None => true,
        Some((tag, others)) => keeps(rule, tag.as_str()) && keeps_each(rule, others),
    }
}

fn keeps_conditions<A: Allocator>(rule: &Rule<A>, conditions: &[Condition<A>]) -> bool
    ensures { result ≡ list_all (keeps rule.now) (map (λ c. c.tag) conditions.now) }
{
    match conditions.split_first() {
        None => true,
        Some((condition, others)) => keeps(rule, condition.tag()) && keeps_conditions(rule, others),
    }
}

/// Returns true if the rule keeps all tags that the query's conditions and groups use.
pub fn keeps_tags<A: Allocator>(rule: &Rule<A>, query: &Query<A>) -> bool
    ensures { result ≡ list_all (keeps rule.now) (tags_of query.now.query) }
{
    keeps_each(rule, query.group_tags()) && keeps_conditions(rule, query.conditions())
}
