//! Finds the first fault of settings in a JSON value, without allocating.
ghost use Rattle.std.specs.Prelude.{◌≡◌, [], is_some};
ghost use Rattle.std.specs.List.{list_any};
ghost use Rattle.std.specs.Result.{result_err};
ghost use Rattle.serde_json.specs.View.{view, items_view};
ghost use Rattle.ts_core.specs.facts.Facts.{same_text};
ghost use Rattle.ts_core.specs.settings.SettingsFaults.{is_named, is_interval, are_distinct, are_kept_tags, outlasts, fault_if_named, fault_of_rule, added_fault, rules_fault, settings_fault};
ghost use Rattle.ts_core.specs.settings.SettingsFound.{text_found, texts_found, rule_found, rules_found, settings_found, settings_from};
ghost use Rattle.ts_core.specs.settings.SettingsTexts.{filled_text, each, rule_parsed, settings_parsed};

use super::reading::{
    filled, filled_string_at, has_keys, interval_at, keeping_at, offset_at, text_at, values_at,
};
use super::settings_fault::{
    RuleFault, SettingsFault, is_interval, is_named as is_named_among, is_rule_name, outlasts,
};
use crate::settings::Rule;
use serde_json::Value;
use std::alloc::Allocator;

/// Returns true if a value is a text that isn't empty.
fn is_filled(value: &Value) -> bool
    ensures { result ≡ is_some (filled_text (view value.now)) }
{
    value.as_str().and_then(filled).is_some()
}

/// Returns true if each value is a text that isn't empty.
fn are_filled(values: &[Value]) -> bool
    ensures { result ≡ is_some (each filled_text (items_view values.now)) }
{
    values.iter().all(|value| is_filled(value))
}

/// Returns true if a value has the form of a rule.
pub(super) fn is_rule(value: &Value) -> bool
    ensures { result ≡ is_some (rule_parsed (view value.now)) }
{
    if !has_keys(value, 6) {
        return false;
    }
    let Some(_) = text_at(value, "name") else {
        return false;
    };
    let Some(_) = filled_string_at(value, "measurement") else {
        return false;
    };
    let Some(_) = interval_at(value, "interval") else {
        return false;
    };
    let Some(_) = offset_at(value, "offset") else {
        return false;
    };
    let Some(tags) = values_at(value, "keep") else {
        return false;
    };
    if !are_filled(tags) {
        return false;
    }
    keeping_at(value, "duration").is_some()
}

/// Returns true if each value has the form of a rule.
fn are_rules(values: &[Value]) -> bool
    ensures { result ≡ is_some (each rule_parsed (items_view values.now)) }
{
    values.iter().all(|value| is_rule(value))
}

/// Returns true if a value has the form of settings.
fn are_settings(value: &Value) -> bool
    ensures { result ≡ is_some (settings_parsed (view value.now)) }
{
    if !has_keys(value, 2) {
        return false;
    }
    let Some(_) = keeping_at(value, "raw") else {
        return false;
    };
    let Some(rules) = values_at(value, "rules") else {
        return false;
    };
    are_rules(rules)
}

/// Returns a value's text, or an empty one if it isn't a text.
fn text_of(value: &Value) -> &str
    ensures { result.now ≡ text_found (view value.now) }
{
    value.as_str().unwrap_or("")
}

/// Returns true if one of the values is this text.
fn is_among(text: &str, values: &[Value]) -> bool
    ensures { result ≡ list_any (same_text text.now) (texts_found values.now) }
{
    values.iter().any(|value| text == text_of(value))
}

/// Returns true if no text occurs twice.
fn are_distinct(values: &[Value]) -> bool
    ensures { result ≡ are_distinct (texts_found values.now) }
{
    match values.split_first() {
        None => true,
        Some((first, others)) => !is_among(text_of(first), others) && are_distinct(others),
    }
}

fn are_kept_tags(values: &[Value]) -> bool
    ensures { result ≡ are_kept_tags (texts_found values.now) }
{
    values.len() <= 16 && are_distinct(values)
}

/// Returns a rule's name, or an empty one if there is none.
#[tactic(auto, unfolding(crate::specs::settings::SettingsFound::rule_found))]
fn name_of(value: &Value) -> &str
    ensures { result.now ≡ (rule_found (view value.now)).name }
{
    text_at(value, "name").unwrap_or("")
}

/// Returns a rule's interval, in nanoseconds, or 0 if there is none.
#[tactic(auto, unfolding(crate::specs::settings::SettingsFound::rule_found))]
fn interval_of(value: &Value) -> i64
    ensures { result ≡ (rule_found (view value.now)).interval }
{
    interval_at(value, "interval").unwrap_or(0)
}

/// Returns a rule's kept tags, or none of them if it has no list.
fn kept_tags_of(value: &Value) -> &[Value]
    ensures { texts_found result.now ≡ (rule_found (view value.now)).kept_tags }
{
    values_at(value, "keep").unwrap_or(&[])
}

/// Returns a rule's retention duration, in nanoseconds, or 0 if there is none.
#[tactic(auto, unfolding(crate::specs::settings::SettingsFound::rule_found))]
fn duration_of(value: &Value) -> u64
    ensures { result ≡ (rule_found (view value.now)).duration }
{
    keeping_at(value, "duration").unwrap_or(0).unsigned_abs()
}

/// Returns true if one of the rules has this name.
fn is_named(rules: &[Value], name: &str) -> bool
    ensures { result ≡ is_named (rules_found rules.now) name.now }
{
    rules.iter().any(|rule| name_of(rule) == name)
}

/// Returns the first fault of a rule, by whether an earlier one has its name.
fn fault_if_named(raw: u64, is_named: bool, rule: &Value) -> Option<RuleFault>
    ensures { result ≡ fault_if_named raw is_named (rule_found (view rule.now)) }
{
    if !is_rule_name(name_of(rule)) {
        return Some(RuleFault::BadName);
    }
    if is_named {
        return Some(RuleFault::RepeatedName);
    }
    if !is_interval(interval_of(rule)) {
        return Some(RuleFault::Interval);
    }
    if !are_kept_tags(kept_tags_of(rule)) {
        return Some(RuleFault::KeptTags);
    }
    if !outlasts(duration_of(rule), raw) {
        return Some(RuleFault::Duration);
    }
    None
}

/// Returns the first fault of a rule after others.
fn fault_of_rule(raw: u64, earlier: &[Value], rule: &Value) -> Option<RuleFault>
    ensures { result ≡ fault_of_rule raw (rules_found earlier.now) (rule_found (view rule.now)) }
{
    fault_if_named(raw, is_named(earlier, name_of(rule)), rule)
}

/// Returns the fault of appending a rule: there are 32 already, or the rule's own.
pub(super) fn added_fault<A: Allocator>(
    raw: u64,
    rules: &[Rule<A>],
    rule: &Value,
) -> Option<SettingsFault>
    ensures { result ≡ added_fault (record { raw_duration = raw; rules = rules.now }) (rule_found (view rule.now)) }
{
    if rules.len() >= 32 {
        return Some(SettingsFault::TooManyRules);
    }
    match fault_if_named(raw, is_named_among(rules, name_of(rule)), rule) {
        Some(fault) => Some(SettingsFault::OfRule(fault, rules.len())),
        None => None,
    }
}

/// Returns the first fault of rules.
fn rules_fault(raw: u64, rules: &[Value]) -> Option<SettingsFault>
    ensures { result ≡ rules_fault raw [] (rules_found rules.now) }
{
    for (number, rule) in rules.iter().enumerate() {
        if let Some(fault) = fault_of_rule(raw, &rules[..number], rule) {
            return Some(SettingsFault::OfRule(fault, number));
        }
    }
    None
}

/// Returns the first fault of settings of these parts.
fn settings_fault(raw: u64, rules: &[Value]) -> Option<SettingsFault>
    ensures { result ≡ settings_fault (record { raw_duration = raw; rules = rules_found rules.now }) }
{
    if rules.len() <= 32 {
        rules_fault(raw, rules)
    } else {
        Some(SettingsFault::TooManyRules)
    }
}

/// Returns the retention duration of raw points, in nanoseconds, or 0 if there is none.
#[tactic(auto, unfolding(crate::specs::settings::SettingsFound::settings_found))]
fn raw_duration_of(value: &Value) -> u64
    ensures { result ≡ (settings_found (view value.now)).raw_duration }
{
    keeping_at(value, "raw").unwrap_or(0).unsigned_abs()
}

/// Returns the rules of settings, or none of them if there is no list.
fn rules_of(value: &Value) -> &[Value]
    ensures { rules_found result.now ≡ (settings_found (view value.now)).rules }
{
    values_at(value, "rules").unwrap_or(&[])
}

/// Returns the first fault of the settings that a value is, or `None` if they have none. The form of the whole value is
/// checked first.
pub(super) fn first_fault(value: &Value) -> Option<SettingsFault>
    ensures { result ≡ result_err (settings_from (view value.now)) }
{
    if !are_settings(value) {
        return Some(SettingsFault::Form);
    }
    settings_fault(raw_duration_of(value), rules_of(value))
}
