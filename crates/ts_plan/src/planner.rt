//! Plans a query: lists the valid buckets, prunes those that can't reach the end, and walks over the rest.
ghost use Rattle.std.specs.Prelude.{◌≡◌, length, IfOk, MatchOption};
ghost use Rattle.std.specs.List.{AllByRecursion};
ghost use Rattle.ts_core.specs.lists.Members.{Among};
ghost use Rattle.ts_core.specs.plans.Pieces.{query_context};
ghost use Rattle.ts_core.specs.plans.Plans.{ReachesEnd, IsPlanOf};
ghost use Rattle.ts_plan.specs.declared.steps.Step.{Step};
ghost use Rattle.ts_plan.specs.Planning.{IsPlanFor};
ghost use Rattle.ts_plan.specs.Steps.{IsPlannable, IsStep, Ascends};

use crate::fault::{PlanError, PlanFault};
use crate::instant::Instant;
use crate::prune::{prune_steps, reaches_end, steps_from};
use crate::steps::{Step, all_steps};
use crate::too_many::is_too_many;
use crate::walk::walk;
use std::alloc::{AllocError, Allocator};
use ts_check::{Certificate, Piece, QueryContext};
use ts_core::{Marks, Settings};
use ts_ql::Query;

/// Combines a query with the settings and marks that it is planned under.
fn query_context<'a, A: Allocator>(
    settings: &'a Settings<A>,
    marks: &'a Marks<A>,
    query: &'a Query<A>,
) -> QueryContext<'a, A>
    requires { length marks.now.lows ≡ length settings.now.rules }
    ensures value { result ≡ query_context settings.now marks.now query.now.query }
    ensures plannable { IsPlannable result }
{
    // For the proof: the rules satisfy their limits.
    let _rules = settings.rules();
    QueryContext::new(settings, marks, query)
}

/// Returns the plan over all steps, or `None` if the end can't be reached from the start. Compacts the steps that reach
/// the end at the back of the slice.
fn plan_over<A: Allocator + Copy>(
    alloc: A,
    context: &QueryContext<'_, A>,
    steps: &mut [Step],
) -> Result<Option<Vec<Piece, A>>, AllocError>
    requires plannable { IsPlannable context.now }
    requires sound { AllByRecursion (IsStep context.now) steps.old }
    requires complete { (x : Step) → IsStep context.now x → Among x steps.old }
    requires order { Ascends steps.old }
    ensures { IfOk result (λ plan. MatchOption plan (ReachesEnd context.now context.now.query.from → ⊥)
        (λ pieces. IsPlanOf context.now pieces.items)) }
{
    let begin = prune_steps(context, steps);
    let kept = steps_from(steps, begin);
    if !reaches_end(context, kept, Instant::new(context.start())) {
        return Ok(None);
    }
    Ok(Some(walk(alloc, context, kept)?))
}

/// Returns the plan of a query under these settings and marks. It owns the names of its rules.
/// Below the raw mark it consists of rules' buckets. At each time it takes the first rule, in the order of the
/// settings, whose bucket leads to the end of the range. Neighbours of one rule are merged as long as they stay valid.
/// From the raw mark on it consists of raw points. Takes O(n log n) time for n whole buckets.
pub fn plan<A: Allocator + Copy>(
    alloc: A,
    settings: &Settings<A>,
    marks: &Marks<A>,
    query: &Query<A>,
) -> Result<Certificate<A>, PlanError>
    requires { length marks.now.lows ≡ length settings.now.rules }
    ensures { IsPlanFor settings.now marks.now query.now.query result }
{
    if is_too_many(settings, marks, query) {
        return Err(PlanError::Fault(PlanFault::TooManyBuckets));
    }
    // For the proof: the rules satisfy their limits, and the bounds of the range are valid times.
    let _rules = settings.rules();
    let _from = query.from();
    let _to = query.to();
    let context = query_context(settings, marks, query);
    let mut steps = all_steps(alloc, &context)?;
    match plan_over(alloc, &context, steps.as_mut_slice())? {
        None => Err(PlanError::Fault(PlanFault::NoPlan)),
        Some(pieces) => Ok(Certificate::new(pieces)),
    }
}
