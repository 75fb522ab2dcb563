//! Queries: parsed, planned, checked, executed and answered.

use super::trial::{Answer, Call, Flaw, QUERIES, REPLY, Trial, UNCHANGED, replies};
use crate::stores::checked;
use std::alloc::{Allocator, Global};
use ts_check::{
    Certificate, CheckError, Checked, ReadCertificateError, check, read_certificate,
    write_certificate,
};
use ts_core::{Agg, Partial, Time};
use ts_exec::{ExecFault, Table, execute};
use ts_plan::{PlanError, plan};
use ts_ql::{ParseError, Query, parse};
use ts_store::{Store, View};
use ts_testkit::Refusing;

/// A query by host, of cells and raw points.
const QUERY: &str =
    "SELECT COUNT(v) FROM cpu WHERE host != 'c' AND time >= 0 AND time < 240s GROUP BY time(1m), host";

/// Its plan.
const PLAN: &str = "plan 1\nrollup m1 0 120000000000\nraw 120000000000 240000000000\nend\n";

/// The number of points in each bucket, of host `a` and of host `b`.
const COUNTS: [[u64; 4]; 2] = [[1, 4, 0, 0], [0, 2, 0, 0]];

/// Returns true if a query is the one of the text.
fn is_right_query<A: Allocator>(query: &Query<A>) -> bool {
    query.measurement() == "cpu"
        && query.field() == "v"
        && query.to() == 240_000_000_000
        && query.conditions().len() == 1
        && query.group_tags().len() == 1
}

/// Returns true if a certificate is the one of the text.
fn is_right_plan<A: Allocator>(json: Global, certificate: &Certificate<A>) -> bool {
    match write_certificate(json, certificate) {
        Ok(text) => text.as_str() == PLAN,
        Err(_) => false,
    }
}

/// Returns true if rows have these numbers of points.
fn are_counts(rows: &[Agg], counts: &[u64]) -> bool {
    for (row, count) in rows.iter().zip(counts) {
        if row.count() != *count {
            return false;
        }
    }
    rows.len() == counts.len()
}

/// Returns true if a table has these numbers of points.
fn is_right_table<A: Allocator>(table: &Table<'_, A>) -> bool {
    if table.groups().len() != COUNTS.len() {
        return false;
    }
    for (group, counts) in table.groups().iter().zip(&COUNTS) {
        if !are_counts(group.rows(), counts) {
            return false;
        }
    }
    true
}

/// Parses the query.
#[derive(Clone, Copy)]
struct Parse;

impl<A: Allocator + Copy> Call<A> for Parse {
    fn make(&self, alloc: A, _store: &mut Store<A>) -> Answer {
        match parse(alloc, QUERY, Time::least()) {
            Ok(queries) => match queries.as_slice() {
                [query] => Answer::new(is_right_query(query)),
                _ => Answer::Wrong,
            },
            Err(ParseError::OutOfMemory) => Answer::OutOfMemory,
            Err(_) => Answer::Wrong,
        }
    }
}

/// Parses the certificate.
#[derive(Clone, Copy)]
struct ReadCertificate {
    json: Global,
}

impl<A: Allocator + Copy> Call<A> for ReadCertificate {
    fn make(&self, alloc: A, _store: &mut Store<A>) -> Answer {
        match read_certificate(alloc, PLAN) {
            Ok(certificate) => Answer::new(is_right_plan(self.json, &certificate)),
            Err(ReadCertificateError::OutOfMemory) => Answer::OutOfMemory,
            Err(_) => Answer::Wrong,
        }
    }
}

/// Plans the query.
#[derive(Drop)]
struct Plan<A: Allocator> {
    json: Global,
    query: Query<A>,
}

impl<A: Allocator + Copy> Call<A> for Plan<A> {
    fn make(&self, alloc: A, store: &mut Store<A>) -> Answer {
        match plan(alloc, store.settings(), store.marks(), &self.query) {
            Ok(certificate) => Answer::new(is_right_plan(self.json, &certificate)),
            Err(PlanError::OutOfMemory) => Answer::OutOfMemory,
            Err(_) => Answer::Wrong,
        }
    }
}

/// Checks the plan of the query.
#[derive(Drop)]
struct Check<A: Allocator> {
    query: Query<A>,
    certificate: Certificate<A>,
}

impl<A: Allocator + Copy> Call<A> for Check<A> {
    fn make(&self, alloc: A, store: &mut Store<A>) -> Answer {
        match check(
            alloc,
            store.settings(),
            store.marks(),
            &self.query,
            &self.certificate,
        ) {
            Ok(checked) => {
                Answer::new(checked.pieces().len() == 2 && is_right_query(checked.query()))
            }
            Err(CheckError::OutOfMemory) => Answer::OutOfMemory,
            Err(_) => Answer::Wrong,
        }
    }
}

/// Executes the checked plan.
#[derive(Drop)]
struct Execute<A: Allocator> {
    plan: Checked<A>,
}

impl<A: Allocator + Copy> Call<A> for Execute<A> {
    fn make(&self, alloc: A, store: &mut Store<A>) -> Answer {
        match execute(alloc, &*store, &self.plan) {
            Ok(table) => Answer::new(is_right_table(&table)),
            Err(ExecFault::OutOfMemory) => Answer::OutOfMemory,
            Err(_) => Answer::Wrong,
        }
    }
}

/// Answers the queries of each trial.
#[derive(Clone, Copy)]
struct AnsweredQueries {
    json: Global,
}

impl<A: Allocator + Copy> Call<A> for AnsweredQueries {
    fn make(&self, alloc: A, store: &mut Store<A>) -> Answer {
        match replies(alloc, self.json, store, QUERIES, REPLY) {
            Ok(is_right) => Answer::new(is_right),
            Err(_) => Answer::OutOfMemory,
        }
    }
}

/// Returns the query, parsed.
fn parsed<A: Allocator + Copy>(alloc: A) -> Option<Query<A>> {
    match parse(alloc, QUERY, Time::least()) {
        Ok(queries) => queries.into_iter().next(),
        Err(_) => None,
    }
}

/// Tries to parse the query and the certificate. The first allocation for the query's group tags is absorbed, and so is
/// that for the names of its columns.
fn flaw_of_parse(trial: &Trial<'_>) -> Option<Flaw> {
    match trial.flaw_of(&Parse, &UNCHANGED, 2) {
        Some(flaw) => Some(flaw),
        None => trial.flaw_of(&ReadCertificate { json: trial.json }, &UNCHANGED, 0),
    }
}

/// Tries to plan the query.
fn flaw_of_plan(trial: &Trial<'_>) -> Option<Flaw> {
    match parsed(trial.heap) {
        Some(query) => trial.flaw_of(
            &Plan {
                json: trial.json,
                query,
            },
            &UNCHANGED,
            0,
        ),
        None => Some(Flaw::Nothing),
    }
}

/// Returns the query and the certificate, to be checked.
fn to_check<A: Allocator + Copy>(alloc: A) -> Option<Check<A>> {
    let query = parsed(alloc)?;
    match read_certificate(alloc, PLAN) {
        Ok(certificate) => Some(Check { query, certificate }),
        Err(_) => None,
    }
}

/// Tries to check the plan.
fn flaw_of_check(trial: &Trial<'_>) -> Option<Flaw> {
    match to_check(trial.heap) {
        Some(call) => trial.flaw_of(&call, &UNCHANGED, 0),
        None => Some(Flaw::Nothing),
    }
}

/// Returns the plan, checked for a store.
fn checked_for<A: Allocator + Copy>(alloc: A, store: &Store<A>) -> Option<Checked<A>> {
    let call = to_check(alloc)?;
    checked(alloc, store, &call.query, &call.certificate)
}

/// Returns the plan, checked for the store of a trial.
fn to_execute<'h>(trial: &Trial<'h>) -> Option<Checked<&'h Refusing<Global>>> {
    let store = trial.store()?;
    checked_for(trial.heap, &store)
}

/// Tries to execute the plan.
fn flaw_of_execution(trial: &Trial<'_>) -> Option<Flaw> {
    match to_execute(trial) {
        Some(plan) => trial.flaw_of(&Execute { plan }, &UNCHANGED, 0),
        None => Some(Flaw::Nothing),
    }
}

#[test]
fn queries_need_their_memory(rt: HostRuntime) {
    let heap = Refusing::new(rt.alloc());
    for is_open in [false, true] {
        let trial = Trial {
            heap: &heap,
            json: rt.alloc(),
            is_open,
        };
        assert_eq!(rt; flaw_of_parse(&trial), None);
        assert_eq!(rt; flaw_of_plan(&trial), None);
        assert_eq!(rt; flaw_of_check(&trial), None);
        assert_eq!(rt; flaw_of_execution(&trial), None);
    }
}

#[test]
fn answers_need_their_memory(rt: HostRuntime) {
    let heap = Refusing::new(rt.alloc());
    let json = rt.alloc();
    for is_open in [false, true] {
        let trial = Trial {
            heap: &heap,
            json,
            is_open,
        };
        // the first allocation for the group tags of one query, and that for the names of columns of each
        assert_eq!(rt;
            trial.flaw_of(&AnsweredQueries { json }, &UNCHANGED, 4),
            None
        );
    }
}
