//! Reads rules and settings from an image. They are tested later.
ghost use Rattle.std.specs.Prelude.{◌≡◌};
ghost use Rattle.std.specs.Int.{w8};
ghost use Rattle.ts_core.specs.io.ReadingAhead.{EndIsEnd};
ghost use Rattle.ts_image.specs.Formats.{text, times, list_of};
ghost use Rattle.ts_image.specs.Images.{image_rule, image_settings};
ghost use Rattle.ts_image.specs.FieldReading.{ReadsField};
ghost use Rattle.ts_image.specs.RuleParts.{texts_of, rule_from_parts, rules_of_parts, settings_of_parts};

use crate::field_fault::FieldFault;
use crate::read::fields::FieldReader;
use std::alloc::Allocator;
use std::io::Read;
use ts_core::{Buckets, Source};

/// A rule in an image, untested.
#[derive(Drop)]
pub struct RuleParts<A: Allocator> {
    pub name: String<A>,
    pub measurement: String<A>,
    pub interval: i64,
    pub offset: i64,
    pub duration: i64,
    pub kept_tags: Vec<String<A>, A>,
}

impl<A: Allocator> RuleParts<A> {
    /// Returns its buckets.
    pub(crate) fn buckets(&self) -> Buckets
        ensures interval { result.interval ≡ self.now.interval }
        ensures offset { result.offset ≡ self.now.offset }
    {
        Buckets {
            interval: self.interval,
            offset: self.offset,
        }
    }
}

/// Reads `count` texts.
pub(crate) fn read_strings<R: Read, A: Allocator + Copy>(
    alloc: A,
    reader: &mut FieldReader<A>,
    source: &mut Source<R>,
    count: u64,
) -> Result<Vec<String<A>, A>, FieldFault>
    requires { EndIsEnd reader.old.ahead source.old }
    ensures { ReadsField (times count text) texts_of reader.old source.old result reader.new source.new }
{
    let mut texts = Vec::new(alloc);
    for _ in 0..count {
        let text = reader.text(alloc, source)?;
        texts.push(text)?;
    }
    Ok(texts)
}

/// Reads the number of texts, and the texts.
fn read_counted_strings<R: Read, A: Allocator + Copy>(
    alloc: A,
    reader: &mut FieldReader<A>,
    source: &mut Source<R>,
) -> Result<Vec<String<A>, A>, FieldFault>
    requires { EndIsEnd reader.old.ahead source.old }
    ensures { ReadsField (list_of w8 text) texts_of reader.old source.old result reader.new source.new }
{
    let count = reader.u8(source)?;
    read_strings(alloc, reader, source, u64::from(count))
}

/// Reads a rule.
pub(crate) fn read_rule<R: Read, A: Allocator + Copy>(
    alloc: A,
    reader: &mut FieldReader<A>,
    source: &mut Source<R>,
) -> Result<RuleParts<A>, FieldFault>
    requires { EndIsEnd reader.old.ahead source.old }
    ensures { ReadsField image_rule rule_from_parts reader.old source.old result reader.new source.new }
{
    let name = reader.text(alloc, source)?;
    let measurement = reader.text(alloc, source)?;
    let interval = reader.i64(source)?;
    let offset = reader.i64(source)?;
    let duration = reader.i64(source)?;
    let kept_tags = read_counted_strings(alloc, reader, source)?;
    Ok(RuleParts {
        name,
        measurement,
        interval,
        offset,
        duration,
        kept_tags,
    })
}

/// Reads `count` rules.
fn read_rules<R: Read, A: Allocator + Copy>(
    alloc: A,
    reader: &mut FieldReader<A>,
    source: &mut Source<R>,
    count: u8,
) -> Result<Vec<RuleParts<A>, A>, FieldFault>
    requires { EndIsEnd reader.old.ahead source.old }
    ensures { ReadsField (times count image_rule) rules_of_parts reader.old source.old result reader.new source.new }
{
    let mut rules = Vec::new(alloc);
    for _ in 0..count {
        let rule = read_rule(alloc, reader, source)?;
        rules.push(rule)?;
    }
    Ok(rules)
}

/// Reads the number of rules, and the rules.
fn read_counted_rules<R: Read, A: Allocator + Copy>(
    alloc: A,
    reader: &mut FieldReader<A>,
    source: &mut Source<R>,
) -> Result<Vec<RuleParts<A>, A>, FieldFault>
    requires { EndIsEnd reader.old.ahead source.old }
    ensures { ReadsField (list_of w8 image_rule) rules_of_parts reader.old source.old result reader.new source.new }
{
    let count = reader.u8(source)?;
    read_rules(alloc, reader, source, count)
}

/// The settings in an image, untested.
#[derive(Drop)]
pub struct SettingsParts<A: Allocator> {
    pub raw_duration: i64,
    pub rules: Vec<RuleParts<A>, A>,
}

/// Reads the settings.
pub(crate) fn read_settings<R: Read, A: Allocator + Copy>(
    alloc: A,
    reader: &mut FieldReader<A>,
    source: &mut Source<R>,
) -> Result<SettingsParts<A>, FieldFault>
    requires { EndIsEnd reader.old.ahead source.old }
    ensures { ReadsField image_settings settings_of_parts reader.old source.old result reader.new source.new }
{
    let raw_duration = reader.i64(source)?;
    let rules = read_counted_rules(alloc, reader, source)?;
    Ok(SettingsParts {
        raw_duration,
        rules,
    })
}
