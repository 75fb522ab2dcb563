//! Lists the single buckets below the raw mark that are valid pieces.
ghost use Rattle.std.specs.Prelude.{◌≡◌, ◌-ℤ◌, ◌≤ℤ◌, pos, int_le, ◌&&◌, ◌||◌, Some, slice_get, IfOk};
ghost use Rattle.std.specs.Int.{int_rem_euclid};
ghost use Rattle.std.specs.List.{AllByRecursion};
ghost use Rattle.ts_core.specs.plans.Faults.{is_aligned, is_in_one_bucket};
ghost use Rattle.ts_core.specs.store.Marks.{index_of};
ghost use Rattle.ts_core.specs.lists.Members.{Among};
ghost use Rattle.ts_plan.specs.declared.steps.Step.{Step};
ghost use Rattle.ts_plan.specs.Steps.{IsPlannable, IsStep, Ascends, IsFirstStart, IsNextInstant, with_usable_step, Adds};

use crate::instant::Instant;
use crate::matching::matches_query;
use std::alloc::{AllocError, Allocator};
use ts_check::{MarkedRule, QueryContext, is_aligned, is_in_one_bucket};
use ts_core::{Rule, index_of};

/// One bucket of a rule, as a step of the walk.
#[derive(Clone, Copy, PartialEq, Eq, PartialOrd, Ord)]
pub(crate) struct Step {
    /// Start of the bucket, inclusive.
    pub from: Instant,
    /// Index of the rule.
    pub rule: usize,
    /// End of the bucket, exclusive.
    pub to: Instant,
}

/// Returns the nanoseconds from the start of the rule's bucket to `at`.
fn offset_in_bucket<A: Allocator>(rule: &Rule<A>, at: Instant) -> i128
    requires { pos 1 ≤ℤ rule.now.interval }
    ensures { result ≡ int_rem_euclid (at -ℤ rule.now.offset) rule.now.interval }
{
    (i128::from(at.nanos()) - i128::from(rule.offset())).rem_euclid(i128::from(rule.interval()))
}

/// Returns the start of the rule's first bucket in the range from `from` to `end`, both inclusive.
fn first_boundary<A: Allocator>(rule: &Rule<A>, from: Instant, end: Instant) -> Option<Instant>
    requires { pos 1 ≤ℤ rule.now.interval }
    ensures { IsFirstStart rule.now from end result }
{
    let offset_in_bucket = offset_in_bucket(rule, from);
    if offset_in_bucket == 0 {
        return from.checked_add(offset_in_bucket, end);
    }
    let ahead = i128::from(rule.interval()) - offset_in_bucket;
    from.checked_add(ahead, end)
}

/// Returns true if a bucket of the rule is still complete and doesn't cross a bucket boundary of the query. `aligned`
/// is true if no bucket of the rule does.
fn is_usable<A: Allocator>(
    context: &QueryContext<'_, A>,
    marked: &MarkedRule<'_, A>,
    aligned: bool,
    step: &Step,
) -> bool
    requires { pos 1 ≤ℤ marked.now.rule.interval }
    ensures { result ≡ (int_le marked.now.low (index_of marked.now.rule step.now.from)
        && (aligned || is_in_one_bucket context.now.query step.now.from step.now.to)) }
{
    if index_of(marked.rule, i128::from(step.from.nanos())) < marked.low {
        return false;
    }
    aligned || is_in_one_bucket(context.query(), step.from.nanos(), step.to.nanos())
}

/// Appends the step of the bucket that starts at `from`, if it is a valid piece. Returns the start of the next bucket,
/// or `None` if this one ends after the range.
fn push_step<A: Allocator>(
    steps: &mut Vec<Step, A>,
    context: &QueryContext<'_, A>,
    number: usize,
    marked: &MarkedRule<'_, A>,
    aligned: bool,
    from: Instant,
) -> Result<Option<Instant>, AllocError>
    requires rule { pos 1 ≤ℤ marked.now.rule.interval }
    requires aligned { aligned ≡ is_aligned marked.now.rule context.now.query }
    ensures next { IfOk result (λ next. IsNextInstant context.now marked.now from next) }
    ensures steps { IfOk result
        (λ next. steps.new.items ≡ with_usable_step context.now marked.now number from next steps.old.items) }
{
    let width = i128::from(marked.rule.interval());
    match from.checked_add(width, Instant::new(context.end())) {
        None => Ok(None),
        Some(to) => {
            let step = Step {
                from,
                rule: number,
                to,
            };
            if is_usable(context, marked, aligned, &step) {
                steps.push(step)?;
            }
            Ok(Some(to))
        }
    }
}

/// Appends the steps of one rule.
fn push_steps<A: Allocator>(
    steps: &mut Vec<Step, A>,
    context: &QueryContext<'_, A>,
    number: usize,
    marked: &MarkedRule<'_, A>,
) -> Result<(), AllocError>
    requires plannable { IsPlannable context.now }
    requires rule { slice_get context.now.rules number ≡ Some marked.now }
    ensures { IfOk result (λ _. Adds context.now number steps.old.items steps.new.items) }
{
    if !matches_query(marked.rule, context.query()) {
        return Ok(());
    }
    let aligned = is_aligned(marked.rule, context.query());
    let mark = Instant::new(context.mark());
    let start = Instant::new(context.start());
    let end = Instant::new(context.end());
    let mut next = first_boundary(marked.rule, start, end);
    while let Some(from) = next {
        if from >= mark {
            break;
        }
        next = push_step(steps, context, number, marked, aligned, from)?;
    }
    Ok(())
}

/// Appends the steps of the rule with this index, if there is one.
fn push_rule<A: Allocator>(
    steps: &mut Vec<Step, A>,
    context: &QueryContext<'_, A>,
    number: usize,
) -> Result<(), AllocError>
    requires { IsPlannable context.now }
    ensures { IfOk result (λ _. Adds context.now number steps.old.items steps.new.items) }
{
    match context.rule_at(number) {
        None => Ok(()),
        Some(marked) => push_steps(steps, context, number, &marked),
    }
}

/// Returns the steps of all rules, sorted by start and then by rule.
pub(crate) fn all_steps<A: Allocator + Copy>(
    alloc: A,
    context: &QueryContext<'_, A>,
) -> Result<Vec<Step, A>, AllocError>
    requires { IsPlannable context.now }
    ensures sound { IfOk result (λ steps. AllByRecursion (IsStep context.now) steps.items) }
    ensures complete { IfOk result (λ steps. (x : Step) → IsStep context.now x → Among x steps.items) }
    ensures order { IfOk result (λ steps. Ascends steps.items) }
{
    let mut steps = Vec::new(alloc);
    for number in 0..context.rule_count() {
        push_rule(&mut steps, context, number)?;
    }
    steps.sort()?;
    Ok(steps)
}
