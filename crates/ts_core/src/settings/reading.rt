//! Parses settings from JSON.
ghost use Rattle.std.specs.Prelude.{◌≡◌, pos, ◌≤ℤ◌, map, string_bytes, unsigned_abs, option_map, option_and_then, Some, Ok, Err, IfOk, IfErr, IfSome, IsSome};
ghost use Rattle.std.specs.Result.{IsOk};
ghost use Rattle.serde_json.specs.Find.{get, as_array};
ghost use Rattle.serde_json.specs.Read.{read};
ghost use Rattle.serde_json.specs.View.{view, items_view};
ghost use Rattle.ts_core.specs.facts.Durations.{span_of, offset_of, keeping_of};
ghost use Rattle.ts_core.specs.settings.SettingsFound.{settings_from, fault_added};
ghost use Rattle.ts_core.specs.settings.SettingsTexts.{has_keys, text_at, if_not_empty, filled_text, each, rule_parsed, rule_read, settings_parsed, settings_read, IsRefusal};
ghost use Rattle.ts_core.specs.declared.settings.settings_fault.SettingsError.TheVariants as errors;
ghost use Rattle.ts_core.specs.declared.settings.settings_fault.SettingsFault.{SettingsFault};

use super::first_fault::{added_fault, first_fault, is_rule};
use crate::facts::duration::{interval, keeping, offset};
use crate::settings::{Rule, Settings, SettingsError, SettingsFault};
use serde_json::Value;
use std::alloc::{Allocator, Global};

const NO_FORM: SettingsError = SettingsError::Fault(SettingsFault::Form);

/// Returns true if a value is an object with `count` keys.
pub(super) fn has_keys(value: &Value, count: usize) -> bool
    ensures { result ≡ has_keys count (view value.now) }
{
    match value.as_object() {
        None => false,
        Some(members) => members.len() == count,
    }
}

/// Returns the text of a key, or `None` if its value isn't a text.
pub(super) fn text_at<'v>(value: &'v Value, key: &str) -> Option<&'v str>
    ensures { option_map (λ s. s.now) result ≡ text_at key.now (view value.now) }
{
    value.get(key).and_then(Value::as_str)
}

/// Returns the items of a key, or `None` if its value isn't an array.
pub(super) fn values_at<'v>(value: &'v Value, key: &str) -> Option<&'v [Value]>
    ensures { option_map (λ vs. items_view vs.now) result ≡ option_and_then as_array (get key.now (view value.now)) }
{
    let values = value.get(key).and_then(Value::as_array)?;
    Some(values.as_slice())
}

/// Returns the text, or `None` if it is empty.
pub(super) fn filled(text: &str) -> Option<&str>
    ensures { option_map (λ s. s.now) result ≡ if_not_empty text.now }
{
    if text.is_empty() { None } else { Some(text) }
}

/// Copies the texts of a list of values. Returns the error `Form` if a value isn't a text, or is empty.
fn filled_strings<A: Allocator + Copy>(
    alloc: A,
    values: &[Value],
) -> Result<Vec<String<A>, A>, SettingsError>
    ensures ok { IfOk result (λ texts. each filled_text (items_view values.now) ≡ Some (map string_bytes texts.items)) }
    ensures err { IfErr result (λ e. IsRefusal e (each filled_text (items_view values.now))) }
{
    let mut texts = Vec::new(alloc);
    for value in values {
        let text = value.as_str().and_then(filled).ok_or(NO_FORM)?;
        texts.push(String::from_str(alloc, text)?)?;
    }
    Ok(texts)
}

/// Returns the text of a key, or `None` if its value isn't a text, or is empty.
pub(super) fn filled_string_at<'v>(value: &'v Value, key: &str) -> Option<&'v str>
    ensures { option_map (λ s. s.now) result ≡ option_and_then if_not_empty (text_at key.now (view value.now)) }
{
    filled(text_at(value, key)?)
}

/// Parses the interval of a key; returns its nanoseconds.
pub(super) fn interval_at(value: &Value, key: &str) -> Option<i64>
    ensures { result ≡ option_and_then span_of (text_at key.now (view value.now)) }
{
    interval(text_at(value, key)?)
}

/// Parses the offset of a key; returns its nanoseconds.
pub(super) fn offset_at(value: &Value, key: &str) -> Option<i64>
    ensures { result ≡ option_and_then offset_of (text_at key.now (view value.now)) }
{
    offset(text_at(value, key)?)
}

/// Parses the retention duration of a key; returns its nanoseconds, 0 for ever.
pub(super) fn keeping_at(value: &Value, key: &str) -> Option<i64>
    ensures value { result ≡ option_and_then keeping_of (text_at key.now (view value.now)) }
    ensures lasting { IfSome result (λ n. pos 0 ≤ℤ n) }
{
    keeping(text_at(value, key)?)
}

/// Parses a rule. Returns the error `Form` if the value isn't one.
fn rule<A: Allocator + Copy>(alloc: A, value: &Value) -> Result<Rule<A>, SettingsError>
    ensures ok { IfOk result (λ r. rule_parsed (view value.now) ≡ Some r) }
    ensures err { IfErr result (λ e. IsRefusal e (rule_parsed (view value.now))) }
{
    if !has_keys(value, 6) {
        return Err(NO_FORM);
    }
    let Some(name) = text_at(value, "name") else {
        return Err(NO_FORM);
    };
    let Some(measurement) = filled_string_at(value, "measurement") else {
        return Err(NO_FORM);
    };
    let Some(interval) = interval_at(value, "interval") else {
        return Err(NO_FORM);
    };
    let Some(offset) = offset_at(value, "offset") else {
        return Err(NO_FORM);
    };
    let Some(tags) = values_at(value, "keep") else {
        return Err(NO_FORM);
    };
    let kept_tags = filled_strings(alloc, tags)?;
    let Some(duration) = keeping_at(value, "duration") else {
        return Err(NO_FORM);
    };
    Ok(Rule {
        name: String::from_str(alloc, name)?,
        measurement: String::from_str(alloc, measurement)?,
        interval,
        offset,
        kept_tags,
        duration: duration.unsigned_abs(),
    })
}

/// Parses a list of rules. Returns the error `Form` if a value isn't a rule.
fn rules<A: Allocator + Copy>(alloc: A, values: &[Value]) -> Result<Vec<Rule<A>, A>, SettingsError>
    ensures ok { IfOk result (λ rules. each rule_parsed (items_view values.now) ≡ Some rules.items) }
    ensures err { IfErr result (λ e. IsRefusal e (each rule_parsed (items_view values.now))) }
{
    let mut rules = Vec::new(alloc);
    for value in values {
        rules.push(rule(alloc, value)?)?;
    }
    Ok(rules)
}

/// Parses the two keys of settings: the retention duration of raw points, in nanoseconds and not negative, and the
/// rules. Returns the error `Form` if the value doesn't have them.
fn parts<A: Allocator + Copy>(
    alloc: A,
    value: &Value,
) -> Result<(i64, Vec<Rule<A>, A>), SettingsError>
    ensures lasting { IfOk result (λ p. pos 0 ≤ℤ p.0) }
    ensures ok { IfOk result
        (λ p. settings_parsed (view value.now) ≡ Some (record { raw_duration = unsigned_abs p.0; rules = p.1.items })) }
    ensures err { IfErr result (λ e. IsRefusal e (settings_parsed (view value.now))) }
{
    if !has_keys(value, 2) {
        return Err(NO_FORM);
    }
    let Some(raw) = keeping_at(value, "raw") else {
        return Err(NO_FORM);
    };
    let Some(values) = values_at(value, "rules") else {
        return Err(NO_FORM);
    };
    Ok((raw, rules(alloc, values)?))
}

/// Parses JSON, allocating in `json`. Returns the error `Form` if the text isn't JSON.
pub fn json_value(json: Global, text: &str) -> Result<Value, SettingsError>
    ensures ok { IfOk result (λ v. read text.now ≡ Some (view v)) }
    ensures err { IfErr result (λ e. IsRefusal e (read text.now)) }
{
    match Value::from_str(json, text) {
        Ok(value) => Ok(value),
        Err(error) => {
            if error.is_memory() {
                Err(SettingsError::OutOfMemory)
            } else {
                Err(NO_FORM)
            }
        }
    }
}

impl<A: Allocator + Copy> Rule<A> {
    /// Creates the rule that a JSON value is. Returns the error `Form` if it isn't one, and so is out of memory only
    /// for a rule.
    pub fn of_json(alloc: A, value: &Value) -> Result<Rule<A>, SettingsError>
        ensures ok { IfOk result (λ r. rule_parsed (view value.now) ≡ Some r) }
        ensures err { IfErr result (λ e. IsRefusal e (rule_parsed (view value.now))) }
        ensures memory { IfErr result (λ e. e ≡ errors.OutOfMemory → IsSome (rule_parsed (view value.now))) }
    {
        if !is_rule(value) {
            return Err(NO_FORM);
        }
        rule(alloc, value)
    }

    /// Parses a rule, which is a JSON object as in settings. Returns the error `Form` if the text isn't one. The JSON
    /// parser allocates in `json`, and may run out of memory for any text; the rest is `of_json`.
    pub fn read(alloc: A, json: Global, text: &str) -> Result<Rule<A>, SettingsError>
        ensures ok { IfOk result (λ r. rule_read text.now ≡ Some r) }
        ensures err { IfErr result (λ e. IsRefusal e (rule_read text.now)) }
    {
        let value = json_value(json, text)?;
        Rule::of_json(alloc, &value)
    }
}

impl<A: Allocator> Settings<A> {
    /// Returns the fault that appending the rule of a JSON value would have; its form is checked first. Does not
    /// allocate.
    pub fn check_json(&self, value: &Value) -> Option<SettingsFault>
        ensures { result ≡ fault_added self.now (rule_parsed (view value.now)) }
    {
        if !is_rule(value) {
            return Some(SettingsFault::Form);
        }
        added_fault(self.raw_duration, self.rules.as_slice(), value)
    }
}

impl<A: Allocator + Copy> Settings<A> {
    /// Creates the settings that a JSON value is, or returns their first error; the form of the whole value is checked
    /// first. The error is found before anything is allocated, so only settings without one run out of memory.
    pub fn of_json(alloc: A, value: &Value) -> Result<Settings<A>, SettingsError>
        ensures ok { IfOk result (λ s. settings_from (view value.now) ≡ Ok s) }
        ensures fault { IfErr result (λ e. (f : SettingsFault)
            → e ≡ errors.Fault f → settings_from (view value.now) ≡ Err f) }
        ensures memory { IfErr result (λ e. e ≡ errors.OutOfMemory → IsOk (settings_from (view value.now))) }
    {
        if let Some(fault) = first_fault(value) {
            return Err(SettingsError::Fault(fault));
        }
        let (raw, rules) = parts(alloc, value)?;
        Ok(Settings::new(raw, rules)?)
    }

    /// Parses settings, which are a JSON object, or returns their first error; the form of the whole text is checked
    /// first. The JSON parser allocates in `json`, and may run out of memory for any text; the rest is `of_json`.
    pub fn read(alloc: A, json: Global, text: &str) -> Result<Settings<A>, SettingsError>
        ensures ok { IfOk result (λ s. settings_read text.now ≡ Ok s) }
        ensures fault { IfErr result (λ e. (f : SettingsFault) → e ≡ errors.Fault f → settings_read text.now ≡ Err f) }
    {
        let value = json_value(json, text)?;
        Settings::of_json(alloc, &value)
    }
}
