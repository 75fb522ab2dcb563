//! Conditions of a query, which are tested by a series' or cell's own tags, however many conditions there are.
ghost use Rattle.std.specs.Prelude.{◌≡◌, ◌&&◌, not, zip, map, string_bytes, IfOk, OnOk, MatchOption};
ghost use Rattle.std.specs.List.{list_all};
ghost use Rattle.ts_core.specs.facts.Facts.{Series};
ghost use Rattle.ts_core.specs.plans.Assembly.{representative};
ghost use Rattle.ts_core.specs.queries.Queries.{meets};
ghost use Rattle.ts_core.specs.text.Texts.{owned_pairs, borrowed_pairs, IsTagSet};
ghost use Rattle.ts_exec.specs.Borrowed.{borrowed};
ghost use Rattle.ts_exec.specs.ReducedConditions.{meets_all, IsMetByNone};
ghost use Rattle.ts_exec.specs.SeriesTests.{ArePairsSorted, AreDistinctTags, AreTestsOf, holds_empty, has_pair, is_refused, meets_tests};

use crate::cell_piece::is_met_by;
use crate::conditions::reduced;
use crate::selection::meets_each;
use std::alloc::{AllocError, Allocator};
use std::marker::Model;
use ts_core::{Key, Rule};
use ts_ql::Condition;
use ts_store::ViewCell;

/// Conditions of a query, divided by whether a series without the tag meets them.
#[derive(Drop)]
pub(crate) struct TagConditions<'q, A: Allocator> {
    // Conditions that a series without the tag doesn't meet. A series with n tags meets 2n of them at most, if none is
    // there twice.
    needed: Vec<&'q Condition<A>, A>,
    // Tags and values of the others, sorted. The tag must not have the value; if that is empty, it must have no other.
    refused: Vec<(&'q str, &'q str), A>,
}

impl<'q, A: Allocator> Model for TagConditions<'q, A> {
    ghost use Rattle.ts_core.specs.text.Texts.{borrowed_pairs};
    ghost use Rattle.ts_exec.specs.Borrowed.{borrowed};
    ghost use Rattle.ts_exec.specs.SeriesTests.{SeriesTests, ArePairsSorted};

    ghost Value = { SeriesTests };

    ghost view = { λ t. record { needed = borrowed t.needed.items; refused = borrowed_pairs t.refused.items } };

    ghost invariant = { λ t. ArePairsSorted t.refused.items };
}

/// Returns true if a series without the tag meets the condition.
fn holds_empty<A: Allocator>(condition: &Condition<A>) -> bool
    ensures { result ≡ holds_empty condition.now }
{
    let empty = condition.value().is_empty();
    if condition.negated() { !empty } else { empty }
}

/// Returns true if sorted pairs have this one.
fn has_pair(pairs: &[(&str, &str)], tag: &str, value: &str) -> bool
    requires { ArePairsSorted pairs.now }
    ensures { result ≡ has_pair (borrowed_pairs pairs.now) (tag.now, value.now) }
{
    pairs
        .binary_search_by(|pair| pair.0.cmp(tag).then(pair.1.cmp(value)))
        .is_ok()
}

/// Returns true if a tag has a value that it must not have.
fn is_refused(refused: &[(&str, &str)], tag: &str, value: &str) -> bool
    requires { ArePairsSorted refused.now }
    ensures { result ≡ is_refused (borrowed_pairs refused.now) (tag.now, value.now) }
{
    !value.is_empty() && (has_pair(refused, tag, value) || has_pair(refused, tag, ""))
}

/// Returns true if no tag has a value that it must not have.
fn are_allowed<A: Allocator>(refused: &[(&str, &str)], tags: &[(String<A>, String<A>)]) -> bool
    requires { ArePairsSorted refused.now }
    ensures { result ≡ list_all (λ t. not (is_refused (borrowed_pairs refused.now) t)) (owned_pairs tags.now) }
{
    if refused.is_empty() {
        return true;
    }
    let Some((first, others)) = tags.split_first() else {
        return true;
    };
    !is_refused(refused, first.0.as_str(), first.1.as_str()) && are_allowed(refused, others)
}

/// Returns true if none of a cell's kept tags has a value that it must not have.
fn are_kept_allowed<A: Allocator>(
    refused: &[(&str, &str)],
    kept: &[String<A>],
    group: &[String<A>],
) -> bool
    requires { ArePairsSorted refused.now }
    ensures { result ≡ list_all (λ t. not (is_refused (borrowed_pairs refused.now) t))
        (zip (map string_bytes kept.now) (map string_bytes group.now)) }
{
    if refused.is_empty() {
        return true;
    }
    match (kept.split_first(), group.split_first()) {
        (Some((tag, kept)), Some((value, group))) => {
            !is_refused(refused, tag.as_str(), value.as_str())
                && are_kept_allowed(refused, kept, group)
        }
        _ => true,
    }
}

/// Returns true if a cell meets all conditions of a list of references.
fn is_met_by_each<A: Allocator>(
    rule: &Rule<A>,
    cell: &ViewCell<'_, A>,
    conditions: &[&Condition<A>],
) -> bool
    ensures { result
        ≡ list_all (λ c. meets (representative rule.now cell.now.cell).column.series c.now) conditions.now }
{
    conditions
        .iter()
        .all(|condition| is_met_by(rule, cell, condition))
}

/// Appends a condition to `needed`, or its tag and value to `refused`.
fn add<'q, A: Allocator + Copy>(
    needed: &mut Vec<&'q Condition<A>, A>,
    refused: &mut Vec<(&'q str, &'q str), A>,
    condition: &'q Condition<A>,
) -> Result<(), AllocError>
    ensures { OnOk result ((s : Series) → AreDistinctTags s.tags
        → (meets_tests (borrowed needed.old.items) (borrowed_pairs refused.old.items) s && meets s condition.now)
        ≡ meets_tests (borrowed needed.new.items) (borrowed_pairs refused.new.items) s) }
{
    if !holds_empty(condition) {
        needed.push(condition)?;
        return Ok(());
    }
    refused.push((condition.tag(), condition.value()))?;
    Ok(())
}

impl<'q, A: Allocator + Copy> TagConditions<'q, A> {
    /// Divides conditions by whether a series without the tag meets them.
    pub(crate) fn new(
        alloc: A,
        conditions: &[&'q Condition<A>],
    ) -> Result<TagConditions<'q, A>, AllocError>
        ensures { IfOk result (λ t. (s : Series)
            → AreDistinctTags s.tags → meets_tests t.needed t.refused s ≡ meets_all (borrowed conditions.now) s) }
    {
        let mut needed = Vec::new(alloc);
        let mut refused = Vec::new(alloc);
        for condition in conditions {
            add(&mut needed, &mut refused, condition)?;
        }
        refused.sort_unstable();
        Ok(TagConditions { needed, refused })
    }

    /// Returns true if a series meets the conditions.
    pub(crate) fn are_met(&self, key: &Key<A>) -> bool
        ensures value { result ≡ meets_tests self.now.needed self.now.refused key.now }
        ensures set { IsTagSet key.now.tags }
    {
        are_allowed(self.refused.as_slice(), key.tags()) && meets_each(key, self.needed.as_slice())
    }

    /// Returns true if a cell meets the conditions.
    pub(crate) fn are_met_by(&self, rule: &Rule<A>, cell: &ViewCell<'_, A>) -> bool
        ensures { result
            ≡ meets_tests self.now.needed self.now.refused (representative rule.now cell.now.cell).column.series }
    {
        are_kept_allowed(self.refused.as_slice(), rule.kept_tags(), cell.group)
            && is_met_by_each(rule, cell, self.needed.as_slice())
    }
}

/// Returns these conditions divided, or `None` if they want two values of one tag.
pub(crate) fn conditions_of<'q, A: Allocator + Copy>(
    alloc: A,
    conditions: &'q [Condition<A>],
) -> Result<Option<TagConditions<'q, A>>, AllocError>
    ensures { IfOk result (λ r. MatchOption r (IsMetByNone conditions.now) (AreTestsOf conditions.now)) }
{
    let Some(conditions) = reduced(alloc, conditions)? else {
        return Ok(None);
    };
    let divided = TagConditions::new(alloc, conditions.as_slice())?;
    Ok(Some(divided))
}
