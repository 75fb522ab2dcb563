//! Reduces the conditions of a query, so that each is tested once per series.
ghost use Rattle.std.specs.Prelude.{◌≡◌, ◌&&◌, true, IfOk, MatchOption};
ghost use Rattle.ts_core.specs.facts.Facts.{Series};
ghost use Rattle.ts_core.specs.queries.Queries.{meets};
ghost use Rattle.ts_exec.specs.Borrowed.{borrowed};
ghost use Rattle.ts_exec.specs.ReducedConditions.{meets_all, AreMetAlike, IsMetByNone, Contradicts};

use std::alloc::{AllocError, Allocator};
use std::cmp::Ordering;
use ts_ql::Condition;

/// Compares two conditions by tag; of one tag, those that aren't negated come first, by value.
fn compare<A: Allocator>(a: &Condition<A>, b: &Condition<A>) -> Ordering {
    a.tag()
        .cmp(b.tag())
        .then(a.negated().cmp(&b.negated()))
        .then(a.value().cmp(b.value()))
}

/// Returns references to the conditions.
fn listed<'q, A: Allocator + Copy>(
    alloc: A,
    conditions: &'q [Condition<A>],
) -> Result<Vec<&'q Condition<A>, A>, AllocError>
    ensures { IfOk result (λ v. borrowed v.items ≡ conditions.now) }
{
    let mut all = Vec::with_capacity(alloc, conditions.len())?;
    for condition in conditions {
        all.push(condition)?;
    }
    Ok(all)
}

/// Returns the conditions sorted by `compare`.
fn sorted<'q, A: Allocator + Copy>(
    alloc: A,
    conditions: &'q [Condition<A>],
) -> Result<Vec<&'q Condition<A>, A>, AllocError>
    ensures { IfOk result (λ v. AreMetAlike (borrowed v.items) conditions.now) }
{
    let mut all = listed(alloc, conditions)?;
    all.sort_unstable_by(|a, b| compare(a, b));
    Ok(all)
}

/// Returns true if both conditions are the same.
fn is_same<A: Allocator>(a: &Condition<A>, b: &Condition<A>) -> bool
    ensures { result ≡ true → a.now ≡ b.now }
{
    a.negated() == b.negated() && a.tag() == b.tag() && a.value() == b.value()
}

/// Returns true if the conditions want two values of one tag.
fn contradicts<A: Allocator>(a: &Condition<A>, b: &Condition<A>) -> bool
    ensures { result ≡ true → Contradicts a.now b.now }
{
    !a.negated() && !b.negated() && a.tag() == b.tag() && a.value() != b.value()
}

/// Appends a condition, unless it is the last one. Returns false if it contradicts the last one.
fn keep<'q, A: Allocator + Copy>(
    kept: &mut Vec<&'q Condition<A>, A>,
    condition: &'q Condition<A>,
) -> Result<bool, AllocError>
    ensures { IfOk result (λ fits. (s : Series) → (meets_all (borrowed kept.old.items) s && meets s condition.now)
        ≡ (fits && meets_all (borrowed kept.new.items) s)) }
{
    if let Some(last) = kept.last() {
        if contradicts(last, condition) {
            return Ok(false);
        }
        if is_same(last, condition) {
            return Ok(true);
        }
    }
    kept.push(condition)?;
    Ok(true)
}

/// Returns the conditions, equal ones once, or `None` if they want two values of one tag.
pub(crate) fn reduced<'q, A: Allocator + Copy>(
    alloc: A,
    conditions: &'q [Condition<A>],
) -> Result<Option<Vec<&'q Condition<A>, A>>, AllocError>
    ensures { IfOk result
        (λ r. MatchOption r (IsMetByNone conditions.now) (λ v. AreMetAlike (borrowed v.items) conditions.now)) }
{
    let all = sorted(alloc, conditions)?;
    let mut kept = Vec::with_capacity(alloc, all.len())?;
    for condition in &all {
        if !keep(&mut kept, condition)? {
            return Ok(None);
        }
    }
    Ok(Some(kept))
}
