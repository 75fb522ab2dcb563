//! Plans that were checked before a run of retention or a change of the rules, and are executed after it.

use crate::stores::{
    OLD_LINES, ONE_RULE, at_second, count_plan, fill_and_retain, retain, store_of, write_all,
};
use std::alloc::{Allocator, Global};
use ts_check::Checked;
use ts_core::Time;
use ts_exec::{ExecFault, count_points, execute};
use ts_store::Store;

/// All raw points of the first two minutes.
const RAW: &str = "plan 1\nraw 0 120000000000\nend\n";

/// The cells of the first two minutes.
const CELLS: &str = "plan 1\nrollup m1 0 120000000000\nend\n";

/// A rule of an hour, as JSON.
const HOURS: &str =
    r#"{"name":"h1","measurement":"cpu","interval":"1h","offset":"0s","keep":[],"duration":"INF"}"#;

/// The rule that the store has from its start, as JSON.
const MINUTES: &str =
    r#"{"name":"m1","measurement":"cpu","interval":"1m","offset":"0s","keep":["host"],"duration":"INF"}"#;

/// Index of the first whole minute that has valid times.
const FIRST_MINUTE: i128 = -153_722_868;

/// A change of the rules: the name that is dropped, the rule that is added, and all low indices after both.
type Change = (Option<&'static str>, Option<&'static str>, &'static [i128]);

/// Changes of the rules. The raw mark is at 80 seconds, so a rule that is added begins at its first bucket from there
/// on.
const CHANGES: [Change; 3] = [
    (Some("m1"), None, &[]),
    (None, Some(HOURS), &[FIRST_MINUTE, 1]),
    (Some("m1"), Some(MINUTES), &[2]),
];

/// Returns the raw mark in the error of a stale plan; none if the plan is executed.
fn stale_mark<A: Allocator + Copy>(alloc: A, store: &Store<A>, plan: &Checked<A>) -> Option<i64> {
    match execute(alloc, store, plan) {
        Err(ExecFault::Stale(_, marks)) => Some(marks.raw().nanos()),
        _ => None,
    }
}

/// Returns true if a count refuses a plan as stale.
fn is_stale<A: Allocator + Copy>(store: &Store<A>, plan: &Checked<A>) -> bool {
    matches!(count_points(store, plan), Err(ExecFault::Stale(_, _)))
}

/// Returns the marks in the results of a plan before a run of retention at this moment, and after it.
fn marks_around<A: Allocator + Copy>(
    alloc: A,
    store: &mut Store<A>,
    plan: &Checked<A>,
    now: Time,
) -> Option<(Option<i64>, Option<i64>)> {
    let before = stale_mark(alloc, store, plan);
    if is_stale(store, plan) || !retain(store, now) || !is_stale(store, plan) {
        return None;
    }
    Some((before, stale_mark(alloc, store, plan)))
}

/// Returns the marks in the results of the count of two minutes before a run at 200 seconds, and after it. The plan is
/// that of a certificate, or else the planner's.
fn marks_in(
    alloc: Global,
    store: &mut Store<Global>,
    certificate: Option<&str>,
) -> Option<(Option<i64>, Option<i64>)> {
    let now = at_second(200)?;
    let plan = count_plan(alloc, store, 120, certificate)?;
    marks_around(alloc, store, &plan, now)
}

/// Returns these marks of a store with lines.
fn marks_of(alloc: Global, certificate: Option<&str>) -> Option<(Option<i64>, Option<i64>)> {
    let mut store = store_of(alloc, alloc, ONE_RULE)?;
    if write_all(alloc, &mut store, &OLD_LINES) {
        marks_in(alloc, &mut store, certificate)
    } else {
        None
    }
}

#[test]
fn a_run_makes_plans_stale(rt: HostRuntime) {
    for certificate in [Some(RAW), None] {
        assert_eq!(rt;
            marks_of(rt.alloc(), certificate),
            Some((None, Some(80_000_000_000))),
            "{certificate:?}"
        );
    }
}

/// Drops the rule of a name, if there is one; returns true if the store had it.
fn drop_rule(store: &mut Store<Global>, name: Option<&str>) -> bool {
    match name {
        Some(name) => store.drop_rule(name).is_ok(),
        None => true,
    }
}

/// Adds a rule, if there is one; returns true if it was added.
fn add_rule(alloc: Global, store: &mut Store<Global>, rule: Option<&str>) -> bool {
    match rule {
        Some(rule) => store.add_rule_text(alloc, alloc, rule).is_ok(),
        None => true,
    }
}

/// Returns true if a plan is stale: its error has a raw mark at 80 seconds, these low indices and as many rules.
fn is_stale_with(
    alloc: Global,
    store: &Store<Global>,
    plan: &Checked<Global>,
    lows: &[i128],
) -> bool {
    match execute(alloc, store, plan) {
        Err(ExecFault::Stale(settings, marks)) => {
            marks.raw().nanos() == 80_000_000_000
                && marks.lows() == lows
                && settings.rules().len() == lows.len()
        }
        _ => false,
    }
}

/// Returns true if a plan is executed, and its points are counted.
fn is_executed(alloc: Global, store: &Store<Global>, plan: &Checked<Global>) -> bool {
    !is_stale(store, plan) && execute(alloc, store, plan).is_ok()
}

/// Returns true if a plan is executed before a change of the rules, and is stale after it.
fn is_stale_after(
    alloc: Global,
    store: &mut Store<Global>,
    plan: &Checked<Global>,
    change: &Change,
) -> bool {
    is_executed(alloc, store, plan)
        && drop_rule(store, change.0)
        && add_rule(alloc, store, change.1)
        && is_stale(store, plan)
        && is_stale_with(alloc, store, plan, change.2)
}

/// Returns true if this holds of the plan of the count of two minutes.
fn becomes_stale(
    alloc: Global,
    store: &mut Store<Global>,
    certificate: Option<&str>,
    change: &Change,
) -> bool {
    match count_plan(alloc, store, 120, certificate) {
        Some(plan) => is_stale_after(alloc, store, &plan, change),
        None => false,
    }
}

/// Returns true if this holds over a store whose points are dropped: a run of retention at 200 seconds follows the
/// lines.
fn makes_stale(alloc: Global, certificate: Option<&str>, change: &Change) -> Option<bool> {
    let now = at_second(200)?;
    let mut store = store_of(alloc, alloc, ONE_RULE)?;
    Some(
        fill_and_retain(alloc, &mut store, now)
            && becomes_stale(alloc, &mut store, certificate, change),
    )
}

#[test]
fn a_change_of_the_rules_makes_plans_stale(rt: HostRuntime) {
    for certificate in [Some(CELLS), None] {
        for change in &CHANGES {
            let stale = makes_stale(rt.alloc(), certificate, change);
            assert_eq!(rt; stale, Some(true), "{certificate:?} {change:?}");
        }
    }
}
