//! Stores with settings and lines, and plans of counts.

use std::alloc::{AllocError, Allocator, Global};
use ts_check::{Certificate, Checked, check, read_certificate};
use ts_core::{Settings, Time, TimeUnit};
use ts_plan::plan;
use ts_ql::{Query, count_query};
use ts_store::{LineOutcome, StepAnswer, Store, View};
use ts_testkit::fixed_seed;

/// Raw points for two minutes, and a rule of a minute that keeps hosts.
pub(crate) const ONE_RULE: &str =
    r#"{"raw":"2m","rules":[{"name":"m1","measurement":"cpu","interval":"1m","offset":"0s","keep":["host"],"duration":"INF"}]}"#;

/// The same with a second rule, of an hour, that keeps no tag.
pub(crate) const TWO_RULES: &str =
    r#"{"raw":"2m","rules":[{"name":"m1","measurement":"cpu","interval":"1m","offset":"0s","keep":["host"],"duration":"INF"},{"name":"h1","measurement":"cpu","interval":"1h","offset":"0s","keep":[],"duration":"INF"}]}"#;

/// Lines before the first run of retention, at 200 seconds.
pub(crate) const OLD_LINES: [&str; 3] = [
    "cpu,host=a v=5i 10",
    "cpu,host=a v=7i 70",
    "cpu,host=b v=1i 70",
];

/// Lines after it; three of them replace a point.
pub(crate) const NEW_LINES: [&str; 5] = [
    "cpu,host=a v=9i 100",
    "cpu,host=a v=2i 100",
    "cpu,host=a v=0i 100",
    "cpu,host=a v=8i 100",
    "cpu,host=b v=3i 110",
];

/// Returns the time of this many seconds after the Unix epoch.
pub(crate) fn at_second(seconds: i64) -> Option<Time> {
    Time::new(seconds.checked_mul(1_000_000_000)?)
}

/// Returns an empty store with the settings of a text; none if they have a fault, or when out of memory.
pub(crate) fn store_of<A: Allocator + Copy>(
    alloc: A,
    json: Global,
    settings: &str,
) -> Option<Store<A>> {
    let seed = fixed_seed()?;
    match Settings::read(alloc, json, settings) {
        Ok(settings) => Store::new(alloc, settings, seed).ok(),
        Err(_) => None,
    }
}

/// Writes a line with a time in seconds; returns true if its facts are accepted.
pub(crate) fn write<A: Allocator + Copy>(
    alloc: A,
    store: &mut Store<A>,
    line: &str,
) -> Result<bool, AllocError> {
    let outcome = store.write_text(alloc, line, TimeUnit::Seconds, Time::least())?;
    Ok(outcome == LineOutcome::Accepted)
}

/// Writes lines with times in seconds; returns true if all were accepted.
pub(crate) fn write_all<A: Allocator + Copy>(
    alloc: A,
    store: &mut Store<A>,
    lines: &[&str],
) -> bool {
    for line in lines {
        if !matches!(write(alloc, store, line), Ok(true)) {
            return false;
        }
    }
    true
}

/// Runs retention; returns true if no run was in progress.
pub(crate) fn retain<A: Allocator + Copy>(store: &mut Store<A>, now: Time) -> bool {
    store.retain(now).is_ok()
}

/// Writes the old lines, and runs retention; returns true if all calls succeeded.
pub(crate) fn fill_and_retain<A: Allocator + Copy>(
    alloc: A,
    store: &mut Store<A>,
    now: Time,
) -> bool {
    write_all(alloc, store, &OLD_LINES) && retain(store, now)
}

/// Writes the lines, with a run of retention between the old and the new ones; returns true if all calls succeeded.
pub(crate) fn fill<A: Allocator + Copy>(alloc: A, store: &mut Store<A>, run_at: Time) -> bool {
    fill_and_retain(alloc, store, run_at) && write_all(alloc, store, &NEW_LINES)
}

/// Begins a run of retention; returns true if none was in progress.
fn begin<A: Allocator + Copy>(store: &mut Store<A>, now: Time) -> bool {
    store.begin(now).is_ok()
}

/// Begins a run of retention and moves one of its columns; returns true if both calls succeeded.
pub(crate) fn open_run<A: Allocator + Copy>(store: &mut Store<A>, now: Time) -> bool {
    begin(store, now) && store.step() == StepAnswer::Moved
}

/// Returns the query that counts field `v` of measurement `cpu` in the first seconds, this many.
fn count_of<A: Allocator + Copy>(alloc: A, seconds: i64) -> Option<Query<A>> {
    let from = at_second(0)?;
    let to = at_second(seconds)?;
    if from >= to {
        return None;
    }
    count_query(alloc, "cpu", "v", from, to).ok()
}

/// Checks a plan of a query for a store.
pub(crate) fn checked<A: Allocator + Copy>(
    alloc: A,
    store: &Store<A>,
    query: &Query<A>,
    certificate: &Certificate<A>,
) -> Option<Checked<A>> {
    check(alloc, store.settings(), store.marks(), query, certificate).ok()
}

/// Plans a query over a store.
fn plan_of<A: Allocator + Copy>(
    alloc: A,
    store: &Store<A>,
    query: &Query<A>,
) -> Option<Certificate<A>> {
    plan(alloc, store.settings(), store.marks(), query).ok()
}

/// Plans a query over a store, and checks the plan.
pub(crate) fn planned<A: Allocator + Copy>(
    alloc: A,
    store: &Store<A>,
    query: &Query<A>,
) -> Option<Checked<A>> {
    match plan_of(alloc, store, query) {
        Some(certificate) => checked(alloc, store, query, &certificate),
        None => None,
    }
}

/// Checks the certificate of a text for a query.
fn certified<A: Allocator + Copy>(
    alloc: A,
    store: &Store<A>,
    query: &Query<A>,
    text: &str,
) -> Option<Checked<A>> {
    match read_certificate(alloc, text) {
        Ok(certificate) => checked(alloc, store, query, &certificate),
        Err(_) => None,
    }
}

/// Returns the checked plan of a certificate, or else of the planner, for the count of the first seconds, this many.
pub(crate) fn count_plan<A: Allocator + Copy>(
    alloc: A,
    store: &Store<A>,
    seconds: i64,
    certificate: Option<&str>,
) -> Option<Checked<A>> {
    let query = count_of(alloc, seconds)?;
    match certificate {
        Some(text) => certified(alloc, store, &query, text),
        None => planned(alloc, store, &query),
    }
}
