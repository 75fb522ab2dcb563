//! Rules that are added, settings that are parsed, and stores that are created.

use super::trial::{Answer, Call, Trial, UNCHANGED};
use std::alloc::{Allocator, Global};
use ts_core::{Settings, SettingsError};
use ts_store::{Store, View};
use ts_testkit::{Refusing, fixed_seed};

/// A rule of ten minutes. Its first bucket from the raw mark on starts at 600 seconds.
const RULE: &str =
    r#"{"name":"m10","measurement":"cpu","interval":"10m","offset":"0s","keep":["host"],"duration":"INF"}"#;

/// Settings with a rule.
const SETTINGS: &str =
    r#"{"raw":"3m","rules":[{"name":"m1","measurement":"cpu","interval":"1m","offset":"0s","keep":["host","dc"],"duration":"INF"}]}"#;

/// Adds the rule by its text.
#[derive(Clone, Copy)]
struct AddRule {
    json: Global,
}

impl<A: Allocator + Copy> Call<A> for AddRule {
    fn make(&self, alloc: A, store: &mut Store<A>) -> Answer {
        match store.add_rule_text(alloc, self.json, RULE) {
            Ok(added) => Answer::new(added.name.as_str() == "m10" && added.low == 1),
            Err(SettingsError::OutOfMemory) => Answer::OutOfMemory,
            Err(_) => Answer::Wrong,
        }
    }
}

/// Returns true if settings are those of the text.
fn are_right<A: Allocator>(settings: &Settings<A>) -> bool {
    let raw = settings.raw_duration() == 180_000_000_000;
    match settings.rules() {
        [rule] => raw && rule.name() == "m1" && rule.kept_tags().len() == 2,
        _ => false,
    }
}

/// Parses the settings.
#[derive(Clone, Copy)]
struct ReadSettings {
    json: Global,
}

impl<A: Allocator + Copy> Call<A> for ReadSettings {
    fn make(&self, alloc: A, _store: &mut Store<A>) -> Answer {
        match Settings::read(alloc, self.json, SETTINGS) {
            Ok(settings) => Answer::new(are_right(&settings)),
            Err(SettingsError::OutOfMemory) => Answer::OutOfMemory,
            Err(_) => Answer::Wrong,
        }
    }
}

/// Creates a store with the settings.
#[derive(Clone, Copy)]
struct NewStore {
    json: Global,
}

/// Returns the answer of creating a store with these settings.
fn created<A: Allocator + Copy>(alloc: A, settings: Settings<A>) -> Answer {
    let Some(seed) = fixed_seed() else {
        return Answer::Wrong;
    };
    match Store::new(alloc, settings, seed) {
        Ok(store) => Answer::new(are_right(store.settings()) && store.accepted() == 0),
        Err(_) => Answer::OutOfMemory,
    }
}

impl<A: Allocator + Copy> Call<A> for NewStore {
    fn make(&self, alloc: A, _store: &mut Store<A>) -> Answer {
        match Settings::read(alloc, self.json, SETTINGS) {
            Ok(settings) => created(alloc, settings),
            Err(SettingsError::OutOfMemory) => Answer::OutOfMemory,
            Err(_) => Answer::Wrong,
        }
    }
}

#[test]
fn a_rule_is_added_whole_or_not_at_all(rt: HostRuntime) {
    let heap = Refusing::new(rt.alloc());
    let json = rt.alloc();
    for is_open in [false, true] {
        let trial = Trial {
            heap: &heap,
            json,
            is_open,
        };
        assert_eq!(rt; trial.flaw_of(&AddRule { json }, &UNCHANGED, 0), None);
    }
}

#[test]
fn settings_and_new_stores_need_their_memory(rt: HostRuntime) {
    let heap = Refusing::new(rt.alloc());
    let json = rt.alloc();
    let trial = Trial {
        heap: &heap,
        json,
        is_open: false,
    };
    assert_eq!(rt; trial.flaw_of(&ReadSettings { json }, &UNCHANGED, 0), None);
    assert_eq!(rt; trial.flaw_of(&NewStore { json }, &UNCHANGED, 0), None);
}
