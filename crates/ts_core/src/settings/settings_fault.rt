//! Faults of settings.
ghost use Rattle.std.specs.Prelude.{◌≡◌, IsNone, map, [], string_bytes};
ghost use Rattle.std.specs.List.{AllByRecursion, list_all};
ghost use Rattle.ts_core.specs.text.FaultTexts.{IsAppended};
ghost use Rattle.ts_core.specs.settings.Settings.{IsPossibleRule};
ghost use Rattle.ts_core.specs.settings.SettingsFaults.{is_name_byte, is_rule_name, is_named, is_interval, are_distinct, are_kept_tags, outlasts, fault_of_rule, rules_fault, settings_fault, added_fault, rule_fault_code, settings_fault_text, settings_error_text, unknown_rule_text};
ghost use Rattle.ts_core.specs.declared.settings.settings_fault.SettingsError.TheVariants as errors;

use crate::settings::Rule;
use crate::text::{FaultCode, FaultDetail, is_among};
use std::alloc::{AllocError, AllocFailed, Allocator};
use thiserror::Error;

/// Fault of a rule.
#[derive(Clone, Copy, Debug, PartialEq, Eq, Error)]
#[error("{}", self.code().message())]
pub enum RuleFault {
    /// The interval isn't from a second to 366 days.
    Interval,
    /// Cells have a shorter retention duration than raw points.
    Duration,
    /// An earlier rule has the name.
    RepeatedName,
    /// The name isn't 1 to 32 of a to z, 0 to 9 and `_`.
    BadName,
    /// There are more than 16 kept tags, or one occurs twice.
    KeptTags,
}

/// Fault of settings.
#[derive(Clone, Copy, Debug, PartialEq, Eq, Error)]
pub enum SettingsFault {
    /// The text doesn't have the form of settings. Settings that are created from parts never have this fault.
    #[error("{}", FaultCode::BadSettingsText.message())]
    Form,
    /// There are more than 32 rules.
    #[error("{}", FaultCode::TooManyRules.message())]
    TooManyRules,
    /// The first rule with a fault, by its index.
    #[error("{0}, at rule {1}")]
    OfRule(RuleFault, usize),
}

fn is_name_byte(byte: u8) -> bool
    ensures { result ≡ is_name_byte byte }
{
    matches!(byte, b'a'..=b'z' | b'0'..=b'9' | b'_')
}

fn are_name_bytes(bytes: &[u8]) -> bool
    ensures { result ≡ list_all is_name_byte bytes.now }
{
    bytes.iter().all(|byte| is_name_byte(*byte))
}

/// Returns true if the text is 1 to 32 characters from a to z, 0 to 9 and `_`.
pub fn is_rule_name(name: &str) -> bool
    ensures { result ≡ is_rule_name name.now }
{
    (1 <= name.len() && name.len() <= 32) && are_name_bytes(name.as_bytes())
}

/// Returns true if one of the rules has this name.
pub(super) fn is_named<A: Allocator>(rules: &[Rule<A>], name: &str) -> bool
    ensures { result ≡ is_named rules.now name.now }
{
    rules.iter().any(|rule| rule.name() == name)
}

pub(super) fn is_interval(interval: i64) -> bool
    ensures { result ≡ is_interval interval }
{
    1_000_000_000 <= interval && interval <= 31_622_400_000_000_000
}

/// Returns true if no text occurs twice.
fn are_distinct<A: Allocator>(texts: &[String<A>]) -> bool
    ensures { result ≡ are_distinct (map string_bytes texts.now) }
{
    match texts.split_first() {
        None => true,
        Some((first, others)) => !is_among(first.as_str(), others) && are_distinct(others),
    }
}

fn are_kept_tags<A: Allocator>(rule: &Rule<A>) -> bool
    ensures { result ≡ are_kept_tags rule.now.kept_tags }
{
    let tags = rule.kept_tags();
    tags.len() <= 16 && are_distinct(tags)
}

/// Returns true if a duration lasts at least as long as another; 0 is for ever.
pub(super) fn outlasts(long: u64, short: u64) -> bool
    ensures { result ≡ outlasts long short }
{
    long == 0 || (0 < short && short <= long)
}

/// Returns the first fault of a rule after others.
fn fault_of_rule<A: Allocator>(raw: u64, earlier: &[Rule<A>], rule: &Rule<A>) -> Option<RuleFault>
    ensures fault { result ≡ fault_of_rule raw earlier.now rule.now }
    ensures possible { IsPossibleRule rule.now }
{
    let duration = rule.duration();
    if !is_rule_name(rule.name()) {
        return Some(RuleFault::BadName);
    }
    if is_named(earlier, rule.name()) {
        return Some(RuleFault::RepeatedName);
    }
    if !is_interval(rule.interval()) {
        return Some(RuleFault::Interval);
    }
    if !are_kept_tags(rule) {
        return Some(RuleFault::KeptTags);
    }
    if !outlasts(duration, raw) {
        return Some(RuleFault::Duration);
    }
    None
}

/// Returns the first fault of rules.
fn rules_fault<A: Allocator>(raw: u64, rules: &[Rule<A>]) -> Option<SettingsFault>
    ensures fault { result ≡ rules_fault raw [] rules.now }
    ensures possible { IsNone result → AllByRecursion IsPossibleRule rules.now }
{
    for (number, rule) in rules.iter().enumerate() {
        if let Some(fault) = fault_of_rule(raw, &rules[..number], rule) {
            return Some(SettingsFault::OfRule(fault, number));
        }
    }
    None
}

/// Returns the fault of appending a rule: there are 32 already, or the rule's own.
pub(crate) fn added_fault<A: Allocator>(
    raw: u64,
    rules: &[Rule<A>],
    rule: &Rule<A>,
) -> Option<SettingsFault>
    ensures { result ≡ added_fault (record { raw_duration = raw; rules = rules.now }) rule.now }
{
    if rules.len() >= 32 {
        return Some(SettingsFault::TooManyRules);
    }
    match fault_of_rule(raw, rules, rule) {
        Some(fault) => Some(SettingsFault::OfRule(fault, rules.len())),
        None => None,
    }
}

/// Returns the first fault of settings of these parts.
pub(crate) fn settings_fault<A: Allocator>(raw: u64, rules: &[Rule<A>]) -> Option<SettingsFault>
    ensures fault { result ≡ settings_fault (record { raw_duration = raw; rules = rules.now }) }
    ensures possible { IsNone result → AllByRecursion IsPossibleRule rules.now }
{
    if rules.len() <= 32 {
        rules_fault(raw, rules)
    } else {
        Some(SettingsFault::TooManyRules)
    }
}

/// Error of reading settings or a rule, or of adding a rule.
#[derive(Clone, Copy, Debug, PartialEq, Eq, Error)]
pub enum SettingsError {
    /// Fault of the text.
    #[error(transparent)]
    Fault(SettingsFault),
    /// Out of memory.
    #[error("out of memory")]
    OutOfMemory,
}

/// Error of dropping a rule: the settings have none of this name.
#[derive(Clone, Copy, Debug, PartialEq, Eq, Error)]
#[error("{}", self.code().message())]
pub struct UnknownRule;

impl From<SettingsFault> for SettingsError {
    ghost from_gives = { λ f e. e ≡ errors.Fault f };

    fn from(fault: SettingsFault) -> SettingsError {
        SettingsError::Fault(fault)
    }
}

impl From<AllocError> for SettingsError {
    ghost from_gives = { λ _ e. e ≡ errors.OutOfMemory };

    fn from(_failed: AllocError) -> SettingsError {
        SettingsError::OutOfMemory
    }
}

impl<T: Drop> From<AllocFailed<T>> for SettingsError {
    ghost from_gives = { λ _ e. e ≡ errors.OutOfMemory };

    fn from(_failed: AllocFailed<T>) -> SettingsError {
        SettingsError::OutOfMemory
    }
}

impl RuleFault {
    /// Returns the code of this fault in the common table of faults.
    pub fn code(self) -> FaultCode
        ensures { result ≡ rule_fault_code self }
    {
        match self {
            RuleFault::Interval => FaultCode::IntervalRange,
            RuleFault::Duration => FaultCode::KeptTooShortly,
            RuleFault::RepeatedName => FaultCode::RepeatedRuleName,
            RuleFault::BadName => FaultCode::BadRuleName,
            RuleFault::KeptTags => FaultCode::BadKeptTags,
        }
    }
}

impl SettingsFault {
    /// Appends the message to `text`. When out of memory, `text` may end in part of the message. Does not allocate if
    /// `text` has the capacity.
    pub fn text_to<A: Allocator>(&self, text: &mut String<A>) -> Result<(), AllocError>
        ensures { IsAppended (settings_fault_text self.now) text.old text.new result }
    {
        match *self {
            SettingsFault::Form => FaultCode::BadSettingsText.text_to(FaultDetail::Alone, text),
            SettingsFault::TooManyRules => FaultCode::TooManyRules.text_to(
                FaultDetail::Alone,
                text,
            ),
            SettingsFault::OfRule(fault, index) => fault
                .code()
                .text_to(FaultDetail::OfRule(index), text),
        }
    }
}

impl SettingsError {
    /// Appends the message to `text`. When out of memory, `text` may end in part of the message. Does not allocate if
    /// `text` has the capacity.
    #[tactic(auto, unfolding(crate::specs::settings::SettingsFaults::settings_error_text))]
    pub fn text_to<A: Allocator>(&self, text: &mut String<A>) -> Result<(), AllocError>
        ensures { IsAppended (settings_error_text self.now) text.old text.new result }
    {
        match self {
            SettingsError::Fault(fault) => fault.text_to(text),
            SettingsError::OutOfMemory => text.push_str("fault memory"),
        }
    }
}

impl UnknownRule {
    /// Returns the code of this error in the common table of faults.
    pub fn code(self) -> FaultCode
        ensures { result ≡ FaultCode.UnknownRule }
    {
        FaultCode::UnknownRule
    }

    /// Appends the message to `text`. When out of memory, `text` may end in part of the message. Does not allocate if
    /// `text` has the capacity.
    pub fn text_to<A: Allocator>(&self, text: &mut String<A>) -> Result<(), AllocError>
        ensures { IsAppended unknown_rule_text text.old text.new result }
    {
        self.code().text_to(FaultDetail::Alone, text)
    }
}
