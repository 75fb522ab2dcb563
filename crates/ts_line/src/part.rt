//! Builds parts and resolves their escapes.
ghost use Rattle.std.specs.Prelude.{◌≡◌, ◌<◌, ◌+◌, ◌&&◌, length, IfOk, bytes_eq, slice_index, slice_range, drop, string_bytes};
ghost use Rattle.std.specs.Cow.{cow_str_bytes};
ghost use Rattle.std.specs.List.{list_any};
ghost use Rattle.std.specs.Str.{IsCharBoundary};
ghost use Rattle.ts_core.specs.text.Cursors.{IsOffsetFrom};
ghost use Rattle.ts_line.specs.declared.scan.Stops.TheVariants.{Equals};
ghost use Rattle.ts_line.specs.Scan.{is_backslash, is_stop};
ghost use Rattle.ts_line.specs.PartTexts.{begins_escapable, unescaped, piece_at};

use crate::line::Part;
use crate::scan::{End, Stops, is_stop};
use std::alloc::{AllocError, Allocator};
use std::borrow::CowStr;
use ts_core::after;

/// Returns the part of the line from `start` to `end`. Allocates only if it has an escape.
#[inline]
pub fn part_at<'a, A: Allocator>(
    alloc: A,
    line: &'a str,
    start: usize,
    end: End,
    stops: Stops,
) -> Result<Part<'a, A>, AllocError>
    requires start { IsCharBoundary line.now start }
    requires end { IsOffsetFrom line.now start end.at }
    requires escape { end.has_escape ≡ list_any (is_stop stops) (slice_range line.now start end.at) }
    ensures { IfOk result (λ p. p ≡ piece_at stops line.now start end.at) }
{
    let raw = &line[start..end.at];
    let text = spelled(alloc, raw, end.has_escape, stops)?;
    Ok(Part::new(start, raw, text))
}

/// Returns the text of a part, with escapes resolved. Allocates only if `has_escape`.
#[tactic(auto, using(crate::proofs::PieceLemmas::plain_text))]
fn spelled<'a, A: Allocator>(
    alloc: A,
    raw: &'a str,
    has_escape: bool,
    stops: Stops,
) -> Result<CowStr<'a, A>, AllocError>
    requires { has_escape ≡ list_any (is_stop stops) raw.now }
    ensures { IfOk result (λ t. cow_str_bytes t ≡ unescaped stops raw.now) }
{
    if !has_escape {
        return Ok(CowStr::Borrowed(raw));
    }
    Ok(CowStr::Owned(unescaped(alloc, raw, stops)?))
}

/// Returns true if the byte at `at` is a backslash that escapes the next byte.
fn is_escape_at(bytes: &[u8], at: usize, stops: Stops) -> bool
    requires { at < length bytes.now }
    ensures { result ≡ (is_backslash (slice_index bytes.now at) && begins_escapable stops (drop (at + 1) bytes.now)) }
{
    match bytes.get(at + 1) {
        Some(next) => bytes[at] == b'\\' && is_stop(stops, *next),
        None => false,
    }
}

/// Copies a text without its escaping backslashes.
#[cold]
fn unescaped<A: Allocator>(alloc: A, raw: &str, stops: Stops) -> Result<String<A>, AllocError>
    ensures { IfOk result (λ s. string_bytes s ≡ unescaped stops raw.now) }
{
    let bytes = raw.as_bytes();
    let mut text = String::new(alloc);
    let mut from = 0;
    let mut at = 0;
    while at < bytes.len() {
        if is_escape_at(bytes, at, stops) {
            text.push_str(&raw[from..at])?;
            from = after(raw, at);
        }
        at += 1;
    }
    text.push_str(&raw[from..])?;
    Ok(text)
}

/// Returns true if two keys spell the same text. Does not allocate.
pub fn have_same_text(left: &str, right: &str) -> bool
    ensures { result ≡ bytes_eq (unescaped Equals left.now) (unescaped Equals right.now) }
{
    let lefts = left.as_bytes();
    let rights = right.as_bytes();
    let mut at = 0;
    let mut other = 0;
    while at < lefts.len() && other < rights.len() {
        if is_escape_at(lefts, at, Stops::Equals) {
            at += 1;
        } else if is_escape_at(rights, other, Stops::Equals) {
            other += 1;
        } else if lefts[at] == rights[other] {
            at += 1;
            other += 1;
        } else {
            return false;
        }
    }
    at == lefts.len() && other == rights.len()
}
