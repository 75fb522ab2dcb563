//! Counts the values of a field in a range of times.
ghost use Rattle.std.specs.Prelude.{◌≡◌, ◌<ℤ◌, length, filter, IfOk};
ghost use Rattle.ts_core.specs.facts.Latest.{latest_of};
ghost use Rattle.ts_core.specs.plans.Pieces.{IsValid};
ghost use Rattle.ts_core.specs.queries.Queries.{matches};
ghost use Rattle.ts_core.specs.store.StoreData.{OfEachHistory, store_settings, store_marks};
ghost use Rattle.ts_reply.specs.Counts.{IsCount, IsCounted};
ghost use Rattle.ts_reply.specs.declared.counting.CountError.TheVariants as errors;

use std::alloc::{AllocError, Allocator};
use thiserror::Error;
use ts_check::{Certificate, CheckError, check};
use ts_core::{FaultCode, Time};
use ts_exec::{ExecFault, count_points};
use ts_plan::{PlanError, PlanFault, plan};
use ts_ql::{ParseError, Query, count_query};
use ts_store::{Store, View};

/// Error of `count`.
#[derive(Clone, Copy, Debug, PartialEq, Eq, Error)]
pub enum CountError {
    /// Range of more than 2^63 - 1 nanoseconds, which no query can have as its interval.
    #[error("{}", FaultCode::OutOfRange.message())]
    BadRange,
    /// No plan for the counting query, or too many buckets to search for one.
    #[error(transparent)]
    NoPlan(PlanFault),
    /// Out of memory.
    #[error("out of memory")]
    OutOfMemory,
}

impl From<AllocError> for CountError {
    ghost from_gives = { λ _ e. e ≡ errors.OutOfMemory };

    fn from(_failed: AllocError) -> CountError {
        CountError::OutOfMemory
    }
}

/// Returns the number of points that match a query, by a valid plan, of all facts that the store ever accepted.
fn counted_by<'a, A: Allocator + Copy + 'a>(
    alloc: A,
    store: &'a Store<A>,
    query: &Query<A>,
    plan: &Certificate<A>,
) -> Result<u64, AllocError>
    requires { IsValid (store_settings store.now) (store_marks store.now) query.now.query plan.now }
    ensures { IfOk result
        (λ n. OfEachHistory store.now (λ opening h. n ≡ length (filter (matches query.now.query) (latest_of h)))) }
{
    let checked = match check(alloc, store.settings(), store.marks(), query, plan) {
        Ok(checked) => checked,
        Err(CheckError::OutOfMemory) => return Err(AllocError),
        Err(CheckError::Fault(_)) => unreachable!(),
    };
    match count_points(store, &checked) {
        Ok(count) => Ok(count),
        Err(ExecFault::Stale(_, _)) => unreachable!(),
        Err(ExecFault::OutOfMemory) => unreachable!(),
    }
}

/// Returns the number of points that match a query, of all facts that the store ever accepted. Fails with `NoPlan` or
/// `OutOfMemory`.
fn counted<'a, A: Allocator + Copy + 'a>(
    alloc: A,
    store: &'a Store<A>,
    query: &Query<A>,
) -> Result<u64, CountError>
    ensures { OfEachHistory store.now (λ opening h. IsCounted opening h query.now.query result) }
{
    match plan(alloc, store.settings(), store.marks(), query) {
        Ok(plan) => Ok(counted_by(alloc, store, query, &plan)?),
        Err(PlanError::Fault(fault)) => Err(CountError::NoPlan(fault)),
        Err(PlanError::OutOfMemory) => Err(CountError::OutOfMemory),
    }
}

/// Counts the values of a field from one time, inclusive, to another, exclusive, of all facts that the store ever
/// accepted. Fails with `BadRange` exactly if the range is too long, which is decided before anything is allocated, and
/// with `NoPlan` if the planner refuses the counting query.
pub fn count<'a, A: Allocator + Copy + 'a>(
    alloc: A,
    store: &'a Store<A>,
    measurement: &str,
    field: &str,
    from: Time,
    to: Time,
) -> Result<u64, CountError>
    requires { from <ℤ to }
    ensures { OfEachHistory store.now (λ opening h. IsCount opening h measurement.now field.now from to result) }
{
    let query = match count_query(alloc, measurement, field, from, to) {
        Ok(query) => query,
        Err(ParseError::Fault(_)) => return Err(CountError::BadRange),
        Err(ParseError::OutOfMemory) => return Err(CountError::OutOfMemory),
    };
    counted(alloc, store, &query)
}
