//! Marks as a script prints them.
ghost use Rattle.std.specs.Prelude.{◌≡◌, ◌+◌, ◌*◌, ◌≤◌, length, string_bytes, string_len, string_capacity};
ghost use Rattle.std.specs.List.{AllByRecursion};
ghost use Rattle.ts_core.specs.settings.Settings.{Rule as RuleValue};
ghost use Rattle.ts_script.specs.MarksTexts.{rule_text, low_text, lows_text, raw_text, marks_text, IsAppendedWithin};
ghost use Rattle.ts_script.specs.ScriptReplies.{line};

use itoa::Buffer;
use std::alloc::{AllocError, Global};
use ts_core::{Marks, Rule, Settings, push_all};

/// Upper bound on the text of marks with its LF, in bytes: 32 rules with names of 32 bytes, and 40 bytes per number.
pub(crate) const MARKS_CAPACITY: usize = 2_415;

/// Upper bound on the text of an added rule with its LF, in bytes: a name of 32 bytes, and 40 bytes for the number.
pub(crate) const RULE_CAPACITY: usize = 74;

/// Appends a space, a rule's name and its low index. Does not allocate if `text` has the capacity.
fn low_to(text: &mut String, name: &str, low: i128) -> Result<(), AllocError>
    ensures { IsAppendedWithin (length name.now + 42) (low_text name.now low) text.old text.new result }
{
    push_all(text, &[" ", name, "=", Buffer::new().format(low)])
}

/// Appends the name and the low index of each rule. Does not allocate if `text` has the capacity.
fn lows_to(text: &mut String, rules: &[Rule<Global>], lows: &[i128]) -> Result<(), AllocError>
    requires { AllByRecursion (λ (r : RuleValue). length r.name ≤ 32) rules.now }
    ensures { IsAppendedWithin (74 * length rules.now) (lows_text rules.now lows.now) text.old text.new result }
{
    for (rule, low) in rules.iter().zip(lows) {
        low_to(text, rule.name(), *low)?;
    }
    Ok(())
}

/// Appends the name and the low index of an added rule. Does not allocate if `text` has the capacity.
fn rule_to(text: &mut String, name: &str, low: i64) -> Result<(), AllocError>
    ensures { IsAppendedWithin (length name.now + 41) (rule_text name.now low) text.old text.new result }
{
    push_all(text, &[name, "=", Buffer::new().format(low)])
}

/// Appends a rule's name, its low index and an LF to an empty text that has the capacity; returns it. Does not
/// allocate.
pub(crate) fn rule_line(mut text: String, name: &str, low: i64) -> String
    requires short { length name.now ≤ 32 }
    requires empty { string_len text ≡ 0 }
    requires spare { RULE_CAPACITY ≤ string_capacity text }
    ensures { string_bytes result ≡ line (rule_text name.now low) }
{
    match rule_to(&mut text, name, low) {
        Ok(()) => {}
        Err(_) => unreachable!(),
    }
    match text.push_str("\n") {
        Ok(()) => text,
        Err(_) => unreachable!(),
    }
}

/// Appends the raw mark. Does not allocate if `text` has the capacity.
fn raw_to(text: &mut String, mark: i64) -> Result<(), AllocError>
    ensures { IsAppendedWithin 46 (raw_text mark) text.old text.new result }
{
    push_all(text, &["marks ", Buffer::new().format(mark)])
}

/// Appends the raw mark and the low index of each rule, as the command `retain` prints them. Does not allocate if
/// `text` has the capacity: 2,414 bytes.
pub fn marks_to(
    text: &mut String,
    settings: &Settings<Global>,
    marks: &Marks<Global>,
) -> Result<(), AllocError>
    ensures { IsAppendedWithin 2414 (marks_text settings.now marks.now) text.old text.new result }
{
    raw_to(text, marks.raw().nanos())?;
    lows_to(text, settings.rules(), marks.lows())
}

/// Appends the marks and an LF to an empty text that has the capacity; returns it. Does not allocate.
pub(crate) fn marks_line(
    mut text: String,
    settings: &Settings<Global>,
    marks: &Marks<Global>,
) -> String
    requires empty { string_len text ≡ 0 }
    requires spare { MARKS_CAPACITY ≤ string_capacity text }
    ensures { string_bytes result ≡ line (marks_text settings.now marks.now) }
{
    match marks_to(&mut text, settings, marks) {
        Ok(()) => {}
        Err(_) => unreachable!(),
    }
    match text.push_str("\n") {
        Ok(()) => text,
        Err(_) => unreachable!(),
    }
}
