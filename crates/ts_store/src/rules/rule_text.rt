//! Adds a rule by its text.
ghost use Rattle.std.specs.Prelude.{◌≡◌, None, IfErr};
ghost use Rattle.serde_json.specs.View.{view};
ghost use Rattle.ts_core.specs.declared.settings.settings_fault.SettingsError.TheVariants as errors;
ghost use Rattle.ts_core.specs.settings.SettingsFound.{fault_added};
ghost use Rattle.ts_core.specs.settings.SettingsTexts.{rule_parsed};
ghost use Rattle.ts_core.specs.store.StoreData.{store_settings};
ghost use Rattle.ts_store.specs.rules.RuleTexts.{AddsText, AddsValue};

use crate::read::View as _;
use crate::store::Store;
use arrayvec::ArrayString;
use serde_json::Value;
use std::alloc::{Allocator, Global};
use ts_core::{Rule, SettingsError, json_value};

/// A rule that was added to a store.
#[derive(Clone, Copy, Drop)]
pub struct AddedRule {
    /// Its name.
    pub name: ArrayString<32>,
    /// Its low index: that of its first bucket.
    pub low: i64,
}

impl<A: Allocator + Copy> Store<A> {
    /// Adds the rule that a JSON value is, as `add_rule` does. Returns its name and its low index. An error of the
    /// value or of the rule, or out of memory, changes nothing. The error is found before anything is allocated, so
    /// only a rule that could be added runs out of memory.
    pub fn add_rule_json(&mut self, alloc: A, value: &Value) -> Result<AddedRule, SettingsError>
        ensures added { AddsValue self.old self.new (view value.now) result }
        ensures memory { IfErr result (λ e. e ≡ errors.OutOfMemory
            → fault_added (store_settings self.old) (rule_parsed (view value.now)) ≡ None) }
    {
        if let Some(fault) = self.settings().check_json(value) {
            return Err(SettingsError::Fault(fault));
        }
        let rule = match Rule::of_json(alloc, value) {
            Ok(rule) => rule,
            Err(error) => return Err(error),
        };
        let name = ArrayString::from(rule.name()).ok();
        match self.add_rule(rule) {
            Ok(low) => Ok(AddedRule {
                name: name.unwrap(),
                low,
            }),
            Err(error) => Err(error),
        }
    }

    /// Parses a rule, which is a JSON object as in settings, and adds it as `add_rule_json` does. The JSON parser
    /// allocates in `json`, and may run out of memory for any text.
    pub fn add_rule_text(
        &mut self,
        alloc: A,
        json: Global,
        text: &str,
    ) -> Result<AddedRule, SettingsError>
        ensures { AddsText self.old self.new text.now result }
    {
        match json_value(json, text) {
            Ok(value) => self.add_rule_json(alloc, &value),
            Err(error) => Err(error),
        }
    }
}
