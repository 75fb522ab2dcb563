//! `read_line`: parses a line from left to right, up to its first error.
ghost use Rattle.std.specs.Prelude.{◌≡◌, ◌<◌, ◌≤◌, true, length, IfOk, IfSome, None, Ok};
ghost use Rattle.std.specs.Str.{IsCharBoundary};
ghost use Rattle.ts_line.specs.EscapeLaws.{ReadsPairs};
ghost use Rattle.ts_line.specs.Spans.{AreInOrder, pieces_of};
ghost use Rattle.ts_line.specs.Readings.{IsReadAsSpelled, NeedsMemory, IfOutOfMemory};
ghost use Rattle.ts_line.specs.ReadSteps.{GivesIfMemory};
ghost use Rattle.ts_core.specs.facts.TimeUnits.{nanoseconds_of};
ghost use Rattle.ts_line.specs.Lines.{is_bare_space, trimmed, without_return, content, measurement_at, time_at, parts_at, line_of};

use crate::ends::first_fault;
use crate::fault::{LineFault, LineFaultKind, ReadLineError};
use crate::field::fields;
use crate::line::{Line, Part};
use crate::part::part_at;
use crate::scan::{Stops, after_spaces, end_at};
use crate::short::short_number;
use crate::tag::tags;
use crate::timestamp::{moment, time_of};
use std::alloc::Allocator;
use ts_core::{Time, TimeUnit, byte_at, is_number};

/// Limit on the bytes of a line.
pub(crate) const LINE_LIMIT: usize = 65_536;

/// Limit on the bytes of a series key: the measurement with its tags.
pub(crate) const KEY_LIMIT: usize = 4_096;

/// Parses a line given without its line feed. Returns its parts, or `None` for a comment or a blank line.
/// A timestamp counts units of `precision`; without one, the time is `now`.
/// On an error in the text, returns the first one with its byte offset; on allocation failure in a line without an
/// error, `OutOfMemory`. Does not allocate for a text that is too long, blank or a comment.
pub fn read_line<A: Allocator + Copy>(
    alloc: A,
    text: &str,
    precision: TimeUnit,
    now: Time,
) -> Result<Option<Line<'_, A>>, ReadLineError>
    // exactly no line, its parts or its first error
    ensures value { GivesIfMemory (λ o. o) result (line_of (nanoseconds_of precision) now text.now) }

    // only a line without an error runs out of memory
    ensures memory { IfOutOfMemory result (NeedsMemory (nanoseconds_of precision) now text.now) }

    // round trip: a line that is read is a spelling of its parts, and each spelling of parts is read as these parts
    ensures spelled { IsReadAsSpelled (nanoseconds_of precision) now text.now result }

    // each part is the slice of the text at its span, and the parts follow one another
    ensures spans { IfOk result (λ o. IfSome o (λ p. AreInOrder text.now 0 (pieces_of p))) }

    // testing for a backslash directly before a byte agrees with reading escapes in pairs
    ensures pairs { ReadsPairs }
{
    line_or_fault(alloc, text, precision, now)
}

/// Parses a line; on allocation failure, looks for the line's first error again, without memory.
fn line_or_fault<A: Allocator + Copy>(
    alloc: A,
    text: &str,
    precision: TimeUnit,
    now: Time,
) -> Result<Option<Line<'_, A>>, ReadLineError>
    ensures value { GivesIfMemory (λ o. o) result (line_of (nanoseconds_of precision) now text.now) }
    ensures memory { IfOutOfMemory result (NeedsMemory (nanoseconds_of precision) now text.now) }
{
    let result = whole_line(alloc, text, precision, now);
    if let Err(ReadLineError::OutOfMemory) = result {
        if let Some(fault) = first_fault(text, precision, now) {
            return Err(ReadLineError::Fault(fault));
        }
    }
    result
}

#[tactic(auto, unfolding(crate::specs::Lines::line_of, crate::specs::Lines::content))]
fn whole_line<A: Allocator + Copy>(
    alloc: A,
    text: &str,
    precision: TimeUnit,
    now: Time,
) -> Result<Option<Line<'_, A>>, ReadLineError>
    ensures value { GivesIfMemory (λ o. o) result (line_of (nanoseconds_of precision) now text.now) }
    ensures memory { IfOutOfMemory result (line_of (nanoseconds_of precision) now text.now ≡ Ok None → ⊥) }
{
    if text.len() > LINE_LIMIT {
        return Err(ReadLineError::Fault(LineFaultKind::OverLimit.at(LINE_LIMIT)));
    }
    let line = content(text);
    let start = after_spaces(line, 0);
    if start == line.len() || byte_at(line, start) == b'#' {
        return Ok(None);
    }
    Ok(Some(parts(alloc, line, start, precision, now)?))
}

/// Returns true if the byte at `at` is an unescaped space.
#[tactic(auto, unfolding(crate::specs::Lines::is_bare_space))]
fn is_bare_space(line: &str, at: usize) -> bool
    requires { at < length line.now }
    ensures value { result ≡ is_bare_space line.now at }
    ensures boundary { result ≡ true → IsCharBoundary line.now at }
{
    byte_at(line, at) == b' ' && (at == 0 || byte_at(line, at - 1) != b'\\')
}

/// Returns the length of the first `from` bytes without trailing unescaped spaces.
#[tactic(auto, using(crate::proofs::LineLemmas::trimmed_step))]
fn end_without_spaces(line: &str, from: usize) -> usize
    requires { IsCharBoundary line.now from }
    ensures value { result ≡ trimmed line.now from }
    ensures boundary { IsCharBoundary line.now result }
{
    let mut end = from;
    while end > 0 && is_bare_space(line, end - 1) {
        end -= 1;
    }
    end
}

/// Returns the length of the text without one trailing carriage return.
fn end_without_return(source: &str) -> usize
    ensures value { result ≡ without_return source.now }
    ensures boundary { IsCharBoundary source.now result }
{
    match source.as_bytes() {
        [.., b'\r'] => source.len() - 1,
        _ => source.len(),
    }
}

/// Strips one trailing carriage return, then trailing unescaped spaces.
#[tactic(auto, unfolding(crate::specs::Lines::content))]
pub(crate) fn content(source: &str) -> &str
    ensures { result.now ≡ content source.now }
{
    let end = end_without_spaces(source, end_without_return(source));
    &source[..end]
}

/// Parses the measurement at `start`; returns it and the offset after it. Fails with `OverLimit` or `NoMeasurement`.
#[tactic(auto, using(crate::proofs::LineLemmas::short_key), unfolding(crate::specs::Lines::measurement_at))]
fn measurement<'a, A: Allocator>(
    alloc: A,
    line: &'a str,
    start: usize,
) -> Result<(Part<'a, A>, usize), ReadLineError>
    requires short { length line.now ≤ 65536 }
    requires boundary { IsCharBoundary line.now start }
    ensures value { GivesIfMemory (λ x. x) result (measurement_at line.now start) }
    ensures boundary { IfOk result (λ x. IsCharBoundary line.now x.1) }
{
    let limit = start + KEY_LIMIT;
    if line.len() > limit && end_at(line, start, Stops::Space).at > limit {
        return Err(ReadLineError::Fault(LineFaultKind::OverLimit.at(limit)));
    }
    let end = end_at(line, start, Stops::Comma);
    if end.at == start {
        return Err(ReadLineError::Fault(LineFaultKind::NoMeasurement.at(start)));
    }
    Ok((part_at(alloc, line, start, end, Stops::Comma)?, end.at))
}

/// Parses the timestamp after the fields; returns `now` if there is none.
#[tactic(auto, unfolding(crate::specs::Lines::time_at))]
pub(crate) fn time(line: &str, at: usize, precision: TimeUnit, now: Time) -> Result<Time, LineFault>
    requires { IsCharBoundary line.now at }
    ensures { result ≡ time_at (nanoseconds_of precision) now line.now at }
{
    let start = after_spaces(line, at);
    if start == line.len() {
        return Ok(now);
    }
    let number = &line[start..];
    if let Some(value) = short_number(line, start) {
        return time_of(number, value, precision.nanoseconds()).ok_or(
            LineFaultKind::TimestampRange.at(start),
        );
    }
    if !is_number(number.as_bytes()) {
        return Err(LineFaultKind::BadTimestamp.at(start));
    }
    moment(number, precision.nanoseconds()).ok_or(LineFaultKind::TimestampRange.at(start))
}

/// Parses the measurement, tags, fields and timestamp from `start`.
#[tactic(auto, unfolding(crate::specs::Lines::parts_at))]
fn parts<A: Allocator + Copy>(
    alloc: A,
    line: &str,
    start: usize,
    precision: TimeUnit,
    now: Time,
) -> Result<Line<'_, A>, ReadLineError>
    requires short { length line.now ≤ 65536 }
    requires boundary { IsCharBoundary line.now start }
    ensures { GivesIfMemory (λ l. l) result (parts_at (nanoseconds_of precision) now line.now start) }
{
    let (measurement, end) = measurement(alloc, line, start)?;
    let (tags, end) = tags(alloc, line, end)?;
    let start = after_spaces(line, end);
    if start == line.len() {
        return Err(ReadLineError::Fault(LineFaultKind::NoField.at(end)));
    }
    let (fields, end) = fields(alloc, line, start)?;
    let time = time(line, end, precision, now)?;
    Ok(Line::new(measurement, tags, fields, time))
}
