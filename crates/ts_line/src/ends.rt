//! Finds the first error of a line without its parts, from end to end. Does not allocate: `read_line` falls back on it
//! where memory runs out.
ghost use Rattle.std.specs.Prelude.{◌≡◌, ◌<◌, ◌≤◌, length, [], IfOk};
ghost use Rattle.std.specs.Str.{IsCharBoundary};
ghost use Rattle.ts_core.specs.facts.TimeUnits.{nanoseconds_of};
ghost use Rattle.ts_core.specs.text.Cursors.{IsOffsetFrom};
ghost use Rattle.ts_line.specs.declared.scan.Stops.TheVariants.{Equals};
ghost use Rattle.ts_line.specs.Ends.{EndsAs, pairs_at, time_only, fault_if_any};
ghost use Rattle.ts_line.specs.Fields.{next_field, fields_at};
ghost use Rattle.ts_line.specs.Lines.{measurement_at, parts_at, line_of};
ghost use Rattle.ts_line.specs.PartTexts.{unescaped};
ghost use Rattle.ts_line.specs.TagParts.{has_key, next_tag, tags_at};

use crate::fault::{LineFault, LineFaultKind};
use crate::field::{FIELD_LIMIT, value_at};
use crate::line::TAG_LIMIT;
use crate::part::have_same_text;
use crate::read::{KEY_LIMIT, LINE_LIMIT, content, time};
use crate::scan::{Stops, after_spaces, end_at};
use crate::tag::pair_ends;
use ts_core::{Time, TimeUnit, after, byte_at};

/// Finds the first error of a line, if it has one. Does not allocate.
#[cold]
#[tactic(auto, unfolding(crate::specs::Lines::line_of, crate::specs::Lines::content))]
pub fn first_fault(text: &str, precision: TimeUnit, now: Time) -> Option<LineFault>
    ensures { result ≡ fault_if_any (line_of (nanoseconds_of precision) now text.now) }
{
    if text.len() > LINE_LIMIT {
        return Some(LineFaultKind::OverLimit.at(LINE_LIMIT));
    }
    let line = content(text);
    let start = after_spaces(line, 0);
    if start == line.len() || byte_at(line, start) == b'#' {
        return None;
    }
    last_time(line, start, precision, now).err()
}

/// Finds the time of the line from `start`, or the line's first error.
#[tactic(auto, unfolding(crate::specs::Lines::parts_at))]
fn last_time(line: &str, start: usize, precision: TimeUnit, now: Time) -> Result<Time, LineFault>
    requires short { length line.now ≤ 65536 }
    requires boundary { IsCharBoundary line.now start }
    ensures { result ≡ time_only (parts_at (nanoseconds_of precision) now line.now start) }
{
    let end = measurement_end(line, start)?;
    let end = tags_end(line, end)?;
    let start = after_spaces(line, end);
    if start == line.len() {
        return Err(LineFaultKind::NoField.at(end));
    }
    let end = fields_end(line, start)?;
    time(line, end, precision, now)
}

/// Finds the end of the measurement at `start`. Fails with `OverLimit` or `NoMeasurement`.
#[tactic(auto, unfolding(crate::specs::Lines::measurement_at))]
fn measurement_end(line: &str, start: usize) -> Result<usize, LineFault>
    requires short { length line.now ≤ 65536 }
    requires boundary { IsCharBoundary line.now start }
    ensures value { EndsAs result (measurement_at line.now start) }
    ensures boundary { IfOk result (λ end. IsCharBoundary line.now end) }
{
    let limit = start + KEY_LIMIT;
    if end_at(line, start, Stops::Space).at > limit {
        return Err(LineFaultKind::OverLimit.at(limit));
    }
    let end = end_at(line, start, Stops::Comma).at;
    if end == start {
        return Err(LineFaultKind::NoMeasurement.at(start));
    }
    Ok(end)
}

/// Returns true if one of the first `count` tags from `first` has the key that `key` spells.
fn has_key(line: &str, first: usize, count: usize, key: &str) -> bool
    requires { IsCharBoundary line.now first }
    ensures { result ≡ has_key (pairs_at count line.now first) (unescaped Equals key.now) }
{
    let mut at = first;
    for _ in 0..count {
        if byte_at(line, at) != b',' {
            return false;
        }
        let start = after(line, at);
        let Ok((key_end, end)) = pair_ends(line, start) else {
            return false;
        };
        if have_same_text(&line[start..key_end.at], key) {
            return true;
        }
        at = end.at;
    }
    false
}

/// Finds the end of the tag at `start`, which follows `count` tags from `first`. Fails with `BadTag`, `OverLimit`,
/// `ReservedKey` or `RepeatedTagKey`.
#[tactic(auto, unfolding(crate::specs::TagParts::next_tag))]
fn tag_end(line: &str, first: usize, count: usize, start: usize) -> Result<usize, LineFault>
    requires first { IsCharBoundary line.now first }
    requires boundary { IsCharBoundary line.now start }
    requires count { length (pairs_at count line.now first) ≡ count }
    ensures value { EndsAs result (next_tag (pairs_at count line.now first) line.now start) }
    ensures offset { IfOk result (λ end. IsOffsetFrom line.now start end) }
    ensures spare { IfOk result (λ _. count < 64) }
{
    let (key_end, end) = pair_ends(line, start)?;
    if count >= TAG_LIMIT {
        return Err(LineFaultKind::OverLimit.at(start));
    }
    let key = &line[start..key_end.at];
    if have_same_text(key, "time") {
        return Err(LineFaultKind::ReservedKey.at(start));
    }
    if has_key(line, first, count, key) {
        return Err(LineFaultKind::RepeatedTagKey.at(start));
    }
    Ok(end.at)
}

/// Finds the end of the tags from `start`, or their first error.
fn tags_end(line: &str, start: usize) -> Result<usize, LineFault>
    requires { IsCharBoundary line.now start }
    ensures value { EndsAs result (tags_at 65 [] line.now start) }
    ensures boundary { IfOk result (λ end. IsCharBoundary line.now end) }
{
    let mut at = start;
    let mut count = 0;
    while byte_at(line, at) == b',' {
        at = tag_end(line, start, count, after(line, at))?;
        count += 1;
    }
    Ok(at)
}

/// Finds the end of the field at `start`. Fails with `BadField`, `ReservedKey` or an error of the value.
#[tactic(auto, unfolding(crate::specs::Fields::next_field))]
fn field_end(line: &str, start: usize) -> Result<usize, LineFault>
    requires { IsCharBoundary line.now start }
    ensures value { EndsAs result (next_field line.now start) }
    ensures boundary { IfOk result (λ end. IsCharBoundary line.now end) }
{
    let name_end = end_at(line, start, Stops::Equals).at;
    if name_end == start || byte_at(line, name_end) != b'=' {
        return Err(LineFaultKind::BadField.at(start));
    }
    if have_same_text(&line[start..name_end], "time") {
        return Err(LineFaultKind::ReservedKey.at(start));
    }
    let (_, end) = value_at(start, line, after(line, name_end))?;
    Ok(end)
}

/// Finds the end of the fields from `start`, or their first error.
fn fields_end(line: &str, start: usize) -> Result<usize, LineFault>
    requires { IsCharBoundary line.now start }
    ensures value { EndsAs result (fields_at 256 [] line.now start) }
    ensures boundary { IfOk result (λ end. IsCharBoundary line.now end) }
{
    let mut at = start;
    for _ in 0..FIELD_LIMIT {
        let end = field_end(line, at)?;
        if byte_at(line, end) != b',' {
            return Ok(end);
        }
        at = after(line, end);
    }
    Err(LineFaultKind::OverLimit.at(at))
}
