//! Explains InfluxQL texts: returns the plans of their queries.
ghost use Rattle.std.specs.Prelude.{map, IfOk, string_bytes};
ghost use Rattle.ts_core.specs.store.StoreData.{OfEachHistory};
ghost use Rattle.ts_reply.specs.Answering.{AreOutcomes};
ghost use Rattle.ts_reply.specs.Explaining.{IsExplained, IsExplanation};
ghost use Rattle.ts_reply.specs.OutcomeViews.{outcome_view};

use crate::answering::QueryReply;
use crate::epoch::Epoch;
use crate::faults::{plan_fault_text, refusal_of};
use crate::reply::{Outcome, reply_json};
use std::alloc::{AllocError, Allocator, Global};
use ts_check::write_certificate;
use ts_core::Time;
use ts_plan::{PlanError, plan};
use ts_ql::{ParseError, Query, parse};
use ts_store::{Store, View};

/// Plans a query. Returns the certificate of its plan, or the error of planning.
fn explained<'a, A: Allocator + Copy + 'a>(
    alloc: A,
    json: Global,
    store: &'a Store<A>,
    query: &Query<A>,
) -> Result<Outcome<'a, A>, AllocError>
    ensures { IfOk result
        (λ o. OfEachHistory store.now (λ opening h. IsExplained opening h query.now (outcome_view o))) }
{
    match plan(alloc, store.settings(), store.marks(), query) {
        Ok(plan) => Ok(Outcome::Certificate(write_certificate(json, &plan)?)),
        Err(PlanError::Fault(fault)) => Ok(Outcome::Fault(plan_fault_text(json, fault)?)),
        Err(PlanError::OutOfMemory) => Err(AllocError),
    }
}

/// Plans queries one by one.
fn each_explained<'a, A: Allocator + Copy + 'a>(
    alloc: A,
    json: Global,
    store: &'a Store<A>,
    queries: &[Query<A>],
) -> Result<Vec<Outcome<'a, A>, A>, AllocError>
    ensures { IfOk result (λ v. OfEachHistory store.now
        (λ opening h. AreOutcomes (IsExplained opening h) queries.now (map outcome_view v.items))) }
{
    let mut outcomes = Vec::new(alloc);
    for query in queries {
        outcomes.push(explained(alloc, json, store, query)?)?;
    }
    Ok(outcomes)
}

/// Explains an InfluxQL text at time `now`: replies with the certificate of the plan that `answer` follows at present,
/// per query. The JSON is allocated in `json`, everything else in `alloc`. Fails only when out of memory.
pub fn explain<A: Allocator + Copy>(
    alloc: A,
    json: Global,
    store: &Store<A>,
    now: Time,
    text: &str,
) -> Result<QueryReply, AllocError>
    ensures { IfOk result (λ r. OfEachHistory store.now
        (λ opening h. IsExplanation opening h now text.now r.good (string_bytes r.body))) }
{
    match parse(alloc, text, now) {
        Ok(queries) => {
            let outcomes = each_explained(alloc, json, store, queries.as_slice())?;
            let body = reply_json(json, outcomes.as_slice(), Epoch::Text)?;
            Ok(QueryReply { good: true, body })
        }
        Err(ParseError::Fault(fault)) => {
            let body = refusal_of(json, &fault)?;
            Ok(QueryReply { good: false, body })
        }
        Err(ParseError::OutOfMemory) => Err(AllocError),
    }
}
