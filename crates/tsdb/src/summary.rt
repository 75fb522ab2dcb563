//! A summary of what an image holds.
ghost use Rattle.std.specs.Prelude.{◌≡◌, pos, ◌≤ℤ◌, length, IfOk};
ghost use Rattle.std.specs.List.{AllByRecursion};
ghost use Rattle.ts_core.specs.store.StoreStates.{facts_of};
ghost use Rattle.ts_core.specs.store.StoreData.{store_settings};
ghost use Rattle.ts_image.specs.Saving.{HasItsColumns};
ghost use Rattle.tsdb.specs.SettingsShown.{ShowsRule, ShowsSettings};

use crate::duration_text::{keeping_text, offset_text};
use serde::Serialize;
use std::alloc::{AllocError, Global};
use ts_core::{Rule, Settings};
use ts_store::{SavedSeries, Store, View};

/// A rollup rule, in the form of settings.
#[derive(Drop, Serialize)]
struct RuleSettings<'a> {
    name: &'a str,
    measurement: &'a str,
    interval: String,
    offset: String,
    keep: &'a [String],
    duration: String,
}

/// Settings in their own form.
#[derive(Drop, Serialize)]
struct SettingsSummary<'a> {
    raw: String,
    rules: Vec<RuleSettings<'a>>,
}

/// Contents of a rule.
#[derive(Drop, Serialize)]
struct RuleSummary<'a> {
    name: &'a str,
    /// Low index: that of its first whole bucket.
    low: i128,
    /// Number of its cells that have dropped points.
    cells: u64,
}

/// Contents of an image.
#[derive(Drop, Serialize)]
pub struct Summary<'a> {
    /// Version of its form.
    version: u8,
    /// Size in bytes.
    bytes: u64,
    settings: SettingsSummary<'a>,
    /// Raw mark, in nanoseconds since the Unix epoch.
    raw_mark: i64,
    rules: Vec<RuleSummary<'a>>,
    run_open: bool,
    /// Number of columns that the open run hasn't moved yet.
    waiting_columns: u64,
    /// Number of facts that were accepted, repeats counted.
    accepted: u64,
    series: u64,
    columns: u64,
    raw_points: u64,
    /// Measurements that no rule rolls up.
    without_rule: Vec<&'a str>,
}

impl<'a> RuleSettings<'a> {
    /// Returns the settings of a rule.
    fn of_rule(alloc: Global, rule: &'a Rule<Global>) -> Result<RuleSettings<'a>, AllocError>
        requires { pos 1 ≤ℤ rule.now.interval }
        ensures { IfOk result (ShowsRule rule.now) }
    {
        Ok(RuleSettings {
            name: rule.name(),
            measurement: rule.measurement(),
            interval: offset_text(alloc, rule.interval())?,
            offset: offset_text(alloc, rule.offset())?,
            keep: rule.kept_tags(),
            duration: keeping_text(alloc, rule.duration())?,
        })
    }
}

impl<'a> SettingsSummary<'a> {
    /// Returns settings in their own form.
    fn of_settings(
        alloc: Global,
        settings: &'a Settings<Global>,
    ) -> Result<SettingsSummary<'a>, AllocError>
        ensures { IfOk result (ShowsSettings settings.now) }
    {
        let mut rules = Vec::new(alloc);
        for rule in settings.rules() {
            rules.push(RuleSettings::of_rule(alloc, rule)?)?;
        }
        Ok(SettingsSummary {
            raw: keeping_text(alloc, settings.raw_duration())?,
            rules,
        })
    }
}

/// Returns the contents of each rule.
fn rules_of(alloc: Global, store: &Store<Global>) -> Result<Vec<RuleSummary<'_>>, AllocError> {
    let mut rules = Vec::new(alloc);
    for (number, rule) in store.settings().rules().iter().enumerate() {
        rules.push(RuleSummary {
            name: rule.name(),
            low: store.marks().lows()[number],
            cells: u64::try_from(store.frozen_count(number)).unwrap_or(u64::MAX),
        })?;
    }
    Ok(rules)
}

/// Counts the columns of series.
fn count_columns(all: &[SavedSeries<'_, Global>]) -> u64 {
    let mut count: u64 = 0;
    for series in all {
        count = count.saturating_add(series.columns.len() as u64);
    }
    count
}

/// Counts the columns of a series that wait for the open run.
fn count_waiting_of(store: &Store<Global>, series: &SavedSeries<'_, Global>) -> u64
    requires { HasItsColumns store.now series.now }
{
    let mut count: u64 = 0;
    for column in series.columns.as_slice() {
        if store.waits(column.id) {
            count = count.saturating_add(1);
        }
    }
    count
}

/// Counts the columns that wait for the open run.
fn count_waiting(store: &Store<Global>, all: &[SavedSeries<'_, Global>]) -> u64
    requires { AllByRecursion (HasItsColumns store.now) all.now }
{
    let mut count: u64 = 0;
    for series in all {
        count = count.saturating_add(count_waiting_of(store, series));
    }
    count
}

/// Returns true if a rule rolls up the measurement.
fn has_rule(rules: &[Rule<Global>], measurement: &str) -> bool {
    rules.iter().any(|rule| rule.measurement() == measurement)
}

/// Returns the measurements that no rule rolls up, each once. The series are in the order of their keys.
fn without_rule<'a>(
    alloc: Global,
    rules: &[Rule<Global>],
    all: &[SavedSeries<'a, Global>],
) -> Result<Vec<&'a str>, AllocError> {
    let mut names: Vec<&str> = Vec::new(alloc);
    for series in all {
        let name = series.key.measurement();
        if names.last() != Some(&name) && !has_rule(rules, name) {
            names.push(name)?;
        }
    }
    Ok(names)
}

impl<'a> Summary<'a> {
    /// Returns the summary of a store that was loaded from an image of this version and size.
    pub fn of_store(
        alloc: Global,
        store: &'a Store<Global>,
        version: u8,
        bytes: u64,
    ) -> Result<Summary<'a>, AllocError>
        ensures image { IfOk result (λ s. (s.version ≡ version) × (s.bytes ≡ bytes)) }
        ensures settings { IfOk result (λ s. ShowsSettings (store_settings store.now) s.settings) }
        ensures run { IfOk result (λ s. (s.raw_mark ≡ store.now.raw_mark) × (s.run_open ≡ store.now.running)) }
        ensures counts { IfOk result (λ s. (s.accepted ≡ store.now.accepted)
            × (s.raw_points ≡ length (facts_of store.now.columns))) }
    {
        let all = store.saved_series(alloc)?;
        Ok(Summary {
            version,
            bytes,
            settings: SettingsSummary::of_settings(alloc, store.settings())?,
            raw_mark: store.marks().raw().nanos(),
            rules: rules_of(alloc, store)?,
            run_open: store.run_in_progress(),
            waiting_columns: count_waiting(store, all.as_slice()),
            accepted: store.accepted(),
            series: all.len() as u64,
            columns: count_columns(all.as_slice()),
            raw_points: store.raw_points(),
            without_rule: without_rule(alloc, store.settings().rules(), all.as_slice())?,
        })
    }
}
