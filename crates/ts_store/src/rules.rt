//! Rules that are added and dropped while the store is in use.
ghost use Rattle.std.specs.Prelude.{◌≡◌, None, [], ◌∷◌, ◌++◌, IfOk, OnOk, OnErr};
ghost use Rattle.ts_core.specs.store.Marks.{first_from};
ghost use Rattle.ts_core.specs.store.StoreData.{store_settings};
ghost use Rattle.ts_core.specs.settings.Settings.{with_rule};
ghost use Rattle.ts_core.specs.settings.SettingsFaults.{added_fault};
ghost use Rattle.ts_core.specs.facts.Times.{IsTime};
ghost use Rattle.ts_store.specs.rules.RulesChanged.{AddsRule, RuleComes, DropsRule};

use crate::read::View as _;
use crate::store::Store;
use std::alloc::{AllocError, Allocator};
use ts_core::{Marks, Rule, Settings, SettingsError, UnknownRule, first_index};

mod rule_rollups;
mod rule_text;

pub use rule_text::AddedRule;

/// Returns a copy of the marks with the low index of one more rule.
fn marks_with<A: Allocator + Copy>(
    alloc: A,
    marks: &Marks<A>,
    low: i128,
) -> Result<Marks<A>, AllocError>
    ensures { IfOk result (λ new. new ≡ record { raw = marks.now.raw; lows = marks.now.lows ++ low ∷ [] }) }
{
    let mut new = marks.try_clone(alloc)?;
    new.push(low)?;
    Ok(new)
}

/// Returns a copy of the settings with one more rule.
fn settings_with<A: Allocator + Copy>(
    alloc: A,
    settings: &Settings<A>,
    rule: Rule<A>,
) -> Result<Settings<A>, AllocError>
    requires { added_fault settings.now rule ≡ None }
    ensures { IfOk result (λ new. new ≡ with_rule rule settings.now) }
{
    let mut new = settings.try_clone(alloc)?;
    new.add_rule(rule)?;
    Ok(new)
}

impl<A: Allocator + Copy> Store<A> {
    /// Appends a rule to the settings, and creates its cells from its low index on, folded from the raw points. Returns
    /// the low index: the first bucket that starts at or above the raw mark. If `check_rule` finds a fault, returns
    /// that. On an error, nothing changes. An open run continues.
    pub fn add_rule(&mut self, rule: Rule<A>) -> Result<i64, SettingsError>
        ensures { AddsRule self.old self.new rule result }
    {
        if let Some(fault) = self.settings().check_rule(&rule) {
            return Err(SettingsError::Fault(fault));
        }
        let low = self.start_of(&rule);
        self.append_rule(rule, i128::from(low))?;
        Ok(low)
    }

    /// Returns the low index of a rule that is added now: the first bucket that starts at or above the raw mark. Its
    /// contract also states that the mark is a valid time.
    fn start_of(&self, rule: &Rule<A>) -> i64
        requires { added_fault (store_settings self.now) rule.now ≡ None }
        ensures low { result ≡ first_from rule.now self.now.raw_mark }
        ensures mark { IsTime self.now.raw_mark }
    {
        // for the proof: the contract of this call states that the offset fits
        let _ = rule.duration();
        first_index(rule, self.marks.raw()) as i64
    }

    /// Appends a rule with this low index. On allocation failure, nothing changes.
    fn append_rule(&mut self, rule: Rule<A>, low: i128) -> Result<(), AllocError>
        requires rule { added_fault (store_settings self.old) rule ≡ None }
        requires low { low ≡ first_from rule self.old.raw_mark }
        requires mark { IsTime self.old.raw_mark }
        ensures ok { OnOk result (RuleComes self.old self.new rule low) }
        ensures err { OnErr result (self.new ≡ self.old) }
    {
        let rollup = self.facts.rollup_of(&rule, &low)?;
        let alloc = self.facts.allocator();
        let marks = marks_with(alloc, &self.marks, low)?;
        let settings = settings_with(alloc, &self.settings, rule)?;
        // The last call that may fail: nothing has changed before it.
        self.facts.add_rollup(rollup)?;
        self.marks = marks;
        self.settings = settings;
        Ok(())
    }

    /// Removes a rule from the settings, with its low index and its cells. Returns an error if no rule has the name;
    /// nothing changes then. Does not allocate. An open run continues.
    pub fn drop_rule(&mut self, name: &str) -> Result<(), UnknownRule>
        ensures { DropsRule self.old self.new name.now result }
    {
        let Some(rule) = self.settings.rule_named(name) else {
            return Err(UnknownRule);
        };
        self.settings.remove_rule(rule);
        self.marks.remove(rule);
        self.facts.remove_rollup(rule);
        Ok(())
    }
}
