//! Answers InfluxQL texts.
ghost use Rattle.std.specs.Prelude.{◌≡◌, map, IfOk, string_bytes};
ghost use Rattle.ts_core.specs.facts.Latest.{latest_of};
ghost use Rattle.ts_core.specs.plans.Pieces.{IsValid};
ghost use Rattle.ts_core.specs.store.StoreData.{OfEachHistory, ShowsEach, store_settings, store_marks};
ghost use Rattle.ts_reply.specs.Answering.{IsPlannedOutcome, IsChecked, IsCertified, IsOutcome, AreOutcomes, is_of_several, IsReplyTo, IsReply};
ghost use Rattle.ts_reply.specs.Outcomes.{rows_outcome, rows_over};
ghost use Rattle.ts_reply.specs.OutcomeViews.{outcome_view, given_text};

use crate::epoch::Epoch;
use crate::faults::{
    certificate_fault_text, check_fault_text, plan_fault_text, refusal_of, refusal_of_several,
};
use crate::reply::{Outcome, reply_json};
use std::alloc::{AllocError, Allocator, Global};
use ts_check::{Certificate, CheckError, Checked, ReadCertificateError, check, read_certificate};
use ts_core::Time;
use ts_exec::{ExecFault, Rows, execute_selected, fill};
use ts_plan::{PlanError, plan};
use ts_ql::{ParseError, Query, parse};
use ts_store::{Store, View};

/// Reply to an InfluxQL text.
#[derive(Drop)]
pub struct QueryReply {
    /// True if the request is well formed: a valid text, and a certificate only with a single query. Queries may still
    /// have errors of their own, such as `NoPlan`.
    pub good: bool,
    /// Reply as JSON.
    pub body: String,
}

/// Executes a plan that was checked under this store's settings and marks; returns the filled rows.
fn rows_of<'a, A: Allocator + Copy + 'a>(
    alloc: A,
    store: &'a Store<A>,
    checked: &Checked<A>,
) -> Result<Rows<'a, A>, AllocError>
    requires shows { ShowsEach store.now }
    requires settings { checked.now.settings ≡ store_settings store.now }
    requires marks { checked.now.marks ≡ store_marks store.now }
    ensures { IfOk result
        (λ r. OfEachHistory store.now (λ opening h. rows_outcome r ≡ rows_over (latest_of h) checked.now.select)) }
{
    match execute_selected(alloc, store, checked) {
        Ok(table) => Ok(fill(table, checked.query().fill())),
        Err(ExecFault::OutOfMemory) => Err(AllocError),
        Err(ExecFault::Stale(_, _)) => unreachable!(),
    }
}

/// Checks and executes a valid plan of a query; returns the filled rows.
fn rows_by_plan<'a, A: Allocator + Copy + 'a>(
    alloc: A,
    store: &'a Store<A>,
    query: &Query<A>,
    plan: &Certificate<A>,
) -> Result<Rows<'a, A>, AllocError>
    requires { IsValid (store_settings store.now) (store_marks store.now) query.now.query plan.now }
    ensures { IfOk result
        (λ r. OfEachHistory store.now (λ opening h. rows_outcome r ≡ rows_over (latest_of h) query.now)) }
{
    match check(alloc, store.settings(), store.marks(), query, plan) {
        Ok(checked) => rows_of(alloc, store, &checked),
        Err(CheckError::OutOfMemory) => Err(AllocError),
        Err(CheckError::Fault(_)) => unreachable!(),
    }
}

/// Plans a query and executes it. Returns its rows, or the error of planning.
fn planned<'a, A: Allocator + Copy + 'a>(
    alloc: A,
    json: Global,
    store: &'a Store<A>,
    query: &Query<A>,
) -> Result<Outcome<'a, A>, AllocError>
    ensures { IfOk result
        (λ o. OfEachHistory store.now (λ opening h. IsPlannedOutcome opening h query.now (outcome_view o))) }
{
    match plan(alloc, store.settings(), store.marks(), query) {
        Ok(plan) => Ok(Outcome::Rows(rows_by_plan(alloc, store, query, &plan)?)),
        Err(PlanError::Fault(fault)) => Ok(Outcome::Fault(plan_fault_text(json, fault)?)),
        Err(PlanError::OutOfMemory) => Err(AllocError),
    }
}

/// Executes a query by the pieces of a given certificate. Returns its rows, or the first error of the pieces.
fn outcome_by<'a, A: Allocator + Copy + 'a>(
    alloc: A,
    json: Global,
    store: &'a Store<A>,
    query: &Query<A>,
    certificate: &Certificate<A>,
) -> Result<Outcome<'a, A>, AllocError>
    ensures { IfOk result
        (λ o. OfEachHistory store.now (λ opening h. IsChecked opening h certificate.now query.now (outcome_view o))) }
{
    match check(alloc, store.settings(), store.marks(), query, certificate) {
        Ok(checked) => Ok(Outcome::Rows(rows_of(alloc, store, &checked)?)),
        Err(CheckError::Fault(fault)) => Ok(Outcome::Fault(check_fault_text(json, fault)?)),
        Err(CheckError::OutOfMemory) => Err(AllocError),
    }
}

/// Executes a query by the text of a given certificate. Returns its rows, or the error of the text or the pieces.
fn certified<'a, A: Allocator + Copy + 'a>(
    alloc: A,
    json: Global,
    store: &'a Store<A>,
    query: &Query<A>,
    certificate: &str,
) -> Result<Outcome<'a, A>, AllocError>
    ensures { IfOk result
        (λ o. OfEachHistory store.now (λ opening h. IsCertified opening h certificate.now query.now (outcome_view o))) }
{
    match read_certificate(alloc, certificate) {
        Ok(certificate) => outcome_by(alloc, json, store, query, &certificate),
        Err(ReadCertificateError::Fault(fault)) => {
            Ok(Outcome::Fault(certificate_fault_text(json, fault)?))
        }
        Err(ReadCertificateError::OutOfMemory) => Err(AllocError),
    }
}

/// Executes a query by the given certificate, or else by its own plan.
fn outcome_of<'a, A: Allocator + Copy + 'a>(
    alloc: A,
    json: Global,
    store: &'a Store<A>,
    query: &Query<A>,
    certificate: Option<&str>,
) -> Result<Outcome<'a, A>, AllocError>
    ensures { IfOk result (λ o. OfEachHistory store.now
        (λ opening h. IsOutcome opening h (given_text certificate.entry) query.now (outcome_view o))) }
{
    match certificate {
        None => planned(alloc, json, store, query),
        Some(certificate) => certified(alloc, json, store, query, certificate),
    }
}

/// Executes queries one by one.
fn outcomes_of<'a, A: Allocator + Copy + 'a>(
    alloc: A,
    json: Global,
    store: &'a Store<A>,
    queries: &[Query<A>],
    certificate: Option<&str>,
) -> Result<Vec<Outcome<'a, A>, A>, AllocError>
    ensures { IfOk result (λ v. OfEachHistory store.now (λ opening h. AreOutcomes
        (IsOutcome opening h (given_text certificate.entry)) queries.now (map outcome_view v.items))) }
{
    let mut outcomes = Vec::new(alloc);
    for query in queries {
        outcomes.push(outcome_of(alloc, json, store, query, certificate)?)?;
    }
    Ok(outcomes)
}

/// Returns true if a certificate is given and there are several queries.
fn is_of_several<A: Allocator>(certificate: Option<&str>, queries: &[Query<A>]) -> bool
    ensures { result ≡ is_of_several (given_text certificate.entry) queries.now }
{
    match certificate {
        None => false,
        Some(_) => 1 < queries.len(),
    }
}

/// Answers queries. Refuses a certificate given with several queries.
fn reply_to<A: Allocator + Copy>(
    alloc: A,
    json: Global,
    store: &Store<A>,
    queries: &[Query<A>],
    certificate: Option<&str>,
    epoch: Epoch,
) -> Result<QueryReply, AllocError>
    ensures { IfOk result (λ r. OfEachHistory store.now (λ opening h. IsReplyTo opening h queries.now
        (given_text certificate.entry) epoch r.good (string_bytes r.body))) }
{
    if is_of_several(certificate, queries) {
        let body = refusal_of_several(json)?;
        return Ok(QueryReply { good: false, body });
    }
    let outcomes = outcomes_of(alloc, json, store, queries, certificate)?;
    let body = reply_json(json, outcomes.as_slice(), epoch)?;
    Ok(QueryReply { good: true, body })
}

/// Answers an InfluxQL text at time `now`, over all facts that the store ever accepted. Queries are executed by their
/// plans; a single query by the text of a certificate, if one is given. The JSON is allocated in `json`, everything
/// else in `alloc`. Fails only when out of memory.
pub fn answer<A: Allocator + Copy>(
    alloc: A,
    json: Global,
    store: &Store<A>,
    now: Time,
    text: &str,
    certificate: Option<&str>,
    epoch: Epoch,
) -> Result<QueryReply, AllocError>
    ensures { IfOk result (λ r. OfEachHistory store.now (λ opening h. IsReply opening h now text.now
        (given_text certificate.entry) epoch r.good (string_bytes r.body))) }
{
    match parse(alloc, text, now) {
        Ok(queries) => reply_to(alloc, json, store, queries.as_slice(), certificate, epoch),
        Err(ParseError::Fault(fault)) => {
            let body = refusal_of(json, &fault)?;
            Ok(QueryReply { good: false, body })
        }
        Err(ParseError::OutOfMemory) => Err(AllocError),
    }
}
