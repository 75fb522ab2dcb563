//! Writes settings and marks to an image.
ghost use Rattle.std.specs.Prelude.{◌≡◌, ◌≤◌, ◌<◌, List, FitsSigned, length, map, string_bytes};
ghost use Rattle.std.specs.List.{AllByRecursion};
ghost use Rattle.std.specs.Int.{w8, w64};
ghost use Rattle.ts_core.specs.settings.Settings.{AreKeptTags};
ghost use Rattle.ts_image.specs.Formats.{text, signed_number, list_of};
ghost use Rattle.ts_image.specs.Images.{ImageRule, image_rule, image_settings, image_marks};
ghost use Rattle.ts_image.specs.FieldWriting.{PutsField, PutsAll};
ghost use Rattle.ts_image.specs.SavedParts.{image_rule_of, image_settings_of};

use crate::write::fields::{put_i64, put_index, put_strings, put_text, put_u8};
use std::alloc::Allocator;
use std::io::Write;
use ts_core::{Marks, OutputBuffer, Refused, Rule, Settings, Sink};

/// Writes the number of texts, and the texts.
fn put_counted_strings<W: Write, A: Allocator>(
    texts: &[String<A>],
    out: &mut OutputBuffer<A>,
    sink: &mut Sink<W>,
) -> Result<(), Refused>
    requires { length texts.now < 256 }
    ensures { PutsField (list_of w8 text) (map string_bytes texts.now) sink.old out.old result sink.new out.new }
{
    put_u8(texts.len() as u8, out, sink)?;
    put_strings(texts, out, sink)
}

/// Writes a rule.
fn put_rule<W: Write, A: Allocator>(
    rule: &Rule<A>,
    out: &mut OutputBuffer<A>,
    sink: &mut Sink<W>,
) -> Result<(), Refused>
    requires { AreKeptTags rule.now.kept_tags }
    ensures { PutsField image_rule (image_rule_of rule.now) sink.old out.old result sink.new out.new }
{
    put_text(rule.name(), out, sink)?;
    put_text(rule.measurement(), out, sink)?;
    put_i64(&rule.interval(), out, sink)?;
    put_i64(&rule.offset(), out, sink)?;
    put_i64(&(rule.duration() as i64), out, sink)?;
    put_counted_strings(rule.kept_tags(), out, sink)
}

/// Writes rules, one after another.
fn put_rules<W: Write, A: Allocator>(
    rules: &[Rule<A>],
    out: &mut OutputBuffer<A>,
    sink: &mut Sink<W>,
) -> Result<(), Refused>
    requires { AllByRecursion (λ r. AreKeptTags r.kept_tags) rules.now }
    ensures { PutsAll image_rule (map image_rule_of rules.now) sink.old out.old result sink.new out.new }
{
    for rule in rules {
        put_rule(rule, out, sink)?;
    }
    Ok(())
}

/// Writes the number of rules, and the rules.
fn put_counted_rules<W: Write, A: Allocator>(
    rules: &[Rule<A>],
    out: &mut OutputBuffer<A>,
    sink: &mut Sink<W>,
) -> Result<(), Refused>
    requires few { length rules.now ≤ 32 }
    requires tags { AllByRecursion (λ r. AreKeptTags r.kept_tags) rules.now }
    ensures { PutsField (list_of w8 image_rule) (map image_rule_of rules.now) sink.old out.old result sink.new out.new }
{
    put_u8(rules.len() as u8, out, sink)?;
    put_rules(rules, out, sink)
}

/// Writes settings.
pub(crate) fn put_settings<W: Write, A: Allocator>(
    settings: &Settings<A>,
    out: &mut OutputBuffer<A>,
    sink: &mut Sink<W>,
) -> Result<(), Refused>
    ensures { PutsField image_settings (image_settings_of settings.now) sink.old out.old result sink.new out.new }
{
    put_i64(&(settings.raw_duration() as i64), out, sink)?;
    put_counted_rules(settings.rules(), out, sink)
}

/// Writes low indices, one after another.
fn put_lows<W: Write, A: Allocator>(
    lows: &[i128],
    out: &mut OutputBuffer<A>,
    sink: &mut Sink<W>,
) -> Result<(), Refused>
    requires { AllByRecursion (FitsSigned w64) lows.now }
    ensures { PutsAll (signed_number w64) lows.now sink.old out.old result sink.new out.new }
{
    for low in lows {
        put_index(low, out, sink)?;
    }
    Ok(())
}

/// Writes the raw mark, and a low index for each rule.
pub(crate) fn put_marks<W: Write, A: Allocator>(
    marks: &Marks<A>,
    out: &mut OutputBuffer<A>,
    sink: &mut Sink<W>,
) -> Result<(), Refused>
    requires { AllByRecursion (FitsSigned w64) marks.now.lows }
    ensures { (rules : List ImageRule) → length marks.now.lows ≡ length rules
        → PutsField (image_marks rules) marks.now sink.old out.old result sink.new out.new }
{
    put_i64(&marks.raw().nanos(), out, sink)?;
    put_lows(marks.lows(), out, sink)
}
