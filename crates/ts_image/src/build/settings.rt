//! Creates settings from their parts in an image.
ghost use Rattle.std.specs.Prelude.{◌↔◌, ◌≤ℤ◌, pos, map, IsTrue, IfOk};
ghost use Rattle.std.specs.List.{AllByRecursion};
ghost use Rattle.ts_image.specs.ImageTests.{IsImageRule, AreImageSettings, rule_in, settings_of_image};
ghost use Rattle.ts_image.specs.RuleParts.{rule_from_parts, settings_of_parts};
ghost use Rattle.ts_image.specs.SettingsMade.{IsMadeIf, AreMadeIf};

use crate::read::rules::{RuleParts, SettingsParts};
use std::alloc::{AllocError, Allocator};
use ts_core::{Rule, Settings, try_clone_strings};

/// Returns the rule of these parts, or `None` if no rule has them.
fn make_rule<A: Allocator + Copy>(
    alloc: A,
    parts: &RuleParts<A>,
) -> Result<Option<Rule<A>>, AllocError>
    ensures { IfOk result (IsMadeIf (IsImageRule (rule_from_parts parts.now)) (rule_in (rule_from_parts parts.now))) }
{
    let name = String::from_str(alloc, parts.name.as_str())?;
    let measurement = String::from_str(alloc, parts.measurement.as_str())?;
    let kept_tags = try_clone_strings(alloc, &parts.kept_tags)?;
    Ok(Rule::new(
        name,
        measurement,
        parts.interval,
        parts.offset,
        kept_tags,
        parts.duration,
    ))
}

/// Returns the rules of these parts, or `None` if no rule has some of them.
fn make_rules<A: Allocator + Copy>(
    alloc: A,
    rules: &[RuleParts<A>],
) -> Result<Option<Vec<Rule<A>, A>>, AllocError>
    ensures { IfOk result (AreMadeIf
        (AllByRecursion IsImageRule (map rule_from_parts rules.now)) (map rule_in (map rule_from_parts rules.now))) }
{
    let mut all = Vec::new(alloc);
    for parts in rules {
        match make_rule(alloc, parts)? {
            Some(rule) => all.push(rule)?,
            None => return Ok(None),
        }
    }
    Ok(Some(all))
}

fn is_duration(duration: &i64) -> bool
    ensures { IsTrue result ↔ pos 0 ≤ℤ duration.now }
{
    *duration >= 0
}

/// Returns the settings of these parts, or `None` if no settings have them.
pub(crate) fn make_settings<A: Allocator + Copy>(
    alloc: A,
    parts: &SettingsParts<A>,
) -> Result<Option<Settings<A>>, AllocError>
    ensures { IfOk result
        (IsMadeIf (AreImageSettings (settings_of_parts parts.now)) (settings_of_image (settings_of_parts parts.now))) }
{
    if !is_duration(&parts.raw_duration) {
        return Ok(None);
    }
    match make_rules(alloc, &parts.rules)? {
        Some(rules) => match Settings::new(parts.raw_duration, rules) {
            Ok(settings) => Ok(Some(settings)),
            Err(_) => Ok(None),
        },
        None => Ok(None),
    }
}
