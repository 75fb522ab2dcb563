//! Parses the tags of a line: at most 64, with distinct keys.
ghost use Rattle.std.specs.Prelude.{◌≡◌, ◌<◌, ◌≤◌, ◌+◌, ◌++◌, ◌∷◌, length, [], IfOk, IfSome, Ok, false, true, slice_index, slice_index_or};
ghost use Rattle.std.specs.Str.{IsCharBoundary};
ghost use Rattle.ts_core.specs.text.Cursors.{IsOffsetFrom};
ghost use Rattle.ts_line.specs.ReadSteps.{GivesIfMemory};
ghost use Rattle.ts_line.specs.NameFilters.{AreKeysInFilter, is_set};
ghost use Rattle.ts_line.specs.declared.scan.Stops.TheVariants.{Equals};
ghost use Rattle.ts_line.specs.Ends.{EndsAsPair, IsPartEnd};
ghost use Rattle.ts_line.specs.PartTexts.{plain_piece};
ghost use Rattle.ts_line.specs.TagParts.{has_key, pair_at, checked_key, next_tag, tags_at};
ghost use Rattle.ts_line.specs.StepsPut.{PushesNextTag};

use crate::fault::{LineFault, LineFaultKind, ReadLineError};
use crate::line::{Part, TAG_LIMIT, Tag};
use crate::name_filter::NameFilter;
use crate::part::part_at;
use crate::scan::{End, Stops, end_at};
use std::alloc::Allocator;
use ts_core::{after, byte_at};

/// Initial capacity of the tag list.
const TAGS_AT_FIRST: usize = 8;

/// Returns true if one of the tags has this key.
#[inline(never)]
fn has_key<A: Allocator>(tags: &[Tag<'_, A>], key: &str) -> bool
    ensures { result ≡ has_key tags.now key.now }
{
    tags.iter().any(|tag| tag.key().text() == key)
}

/// Adds a key to a filter over those of the tags. Returns true if one of the tags has the key.
fn is_repeated<A: Allocator>(filter: &mut NameFilter, tags: &[Tag<'_, A>], key: &str) -> bool
    requires { AreKeysInFilter filter.old tags.now }
    ensures value { result ≡ has_key tags.now key.now }
    ensures key { is_set filter.new key.now ≡ true }
    ensures tags { AreKeysInFilter filter.new tags.now }
{
    filter.insert(key) && has_key(tags, key)
}

/// Checks the key of the tag at `start`, after the tags `before`, and adds it to a filter over their keys. Fails with
/// `ReservedKey` or `RepeatedTagKey`.
#[inline(always)]
fn check_key<A: Allocator>(
    filter: &mut NameFilter,
    before: &[Tag<'_, A>],
    key: &str,
    start: usize,
) -> Result<(), LineFault>
    requires { AreKeysInFilter filter.old before.now }
    ensures value { result ≡ checked_key before.now key.now start }
    ensures key { is_set filter.new key.now ≡ true }
    ensures tags { AreKeysInFilter filter.new before.now }
{
    let repeated = is_repeated(filter, before, key);
    if key == "time" {
        return Err(LineFaultKind::ReservedKey.at(start));
    }
    if repeated {
        return Err(LineFaultKind::RepeatedTagKey.at(start));
    }
    Ok(())
}

/// Finds the ends of the key and of the value of the tag at `start`. Fails with `BadTag`.
#[tactic(auto, unfolding(crate::specs::TagParts::pair_at))]
#[inline(always)]
pub(crate) fn pair_ends(line: &str, start: usize) -> Result<(End, End), LineFault>
    requires { IsCharBoundary line.now start }
    ensures value { EndsAsPair line.now start result }
    ensures key { IfOk result (λ x. IsPartEnd Equals line.now start x.0) }
    ensures equals { IfOk result (λ x. slice_index line.now x.0.at ≡ 61) }
    ensures rest { IfOk result (λ x. IsPartEnd Equals line.now (x.0.at + 1) x.1) }
{
    let key_end = end_at(line, start, Stops::Equals);
    if key_end.at == start || byte_at(line, key_end.at) != b'=' {
        return Err(LineFaultKind::BadTag.at(start));
    }
    let value_start = after(line, key_end.at);
    let value_end = end_at(line, value_start, Stops::Equals);
    if value_end.at == value_start || byte_at(line, value_end.at) == b'=' {
        return Err(LineFaultKind::BadTag.at(start));
    }
    Ok((key_end, value_end))
}

/// Parses the tag at `start`, after the tags `before`; returns it and the offset after it. The filter is over the keys
/// so far. Allocates only for escapes. Fails with `BadTag`, `OverLimit`, `ReservedKey` or `RepeatedTagKey`.
#[tactic(auto, unfolding(crate::specs::TagParts::next_tag))]
fn next<'a, A: Allocator + Copy>(
    alloc: A,
    before: &[Tag<'a, A>],
    filter: &mut NameFilter,
    line: &'a str,
    start: usize,
) -> Result<(Tag<'a, A>, usize), ReadLineError>
    requires boundary { IsCharBoundary line.now start }
    requires marked { AreKeysInFilter filter.old before.now }
    ensures value { GivesIfMemory (λ x. x) result (next_tag before.now line.now start) }
    ensures marked { IfOk result (λ x. AreKeysInFilter filter.new (before.now ++ x.0 ∷ [])) }
    ensures offset { IfOk result (λ x. IsOffsetFrom line.now (start + 1) x.1) }
    ensures spare { IfOk result (λ _. length before.now < 64) }
{
    let (key_end, value_end) = pair_ends(line, start)?;
    if before.len() >= TAG_LIMIT {
        return Err(ReadLineError::Fault(LineFaultKind::OverLimit.at(start)));
    }
    let key = part_at(alloc, line, start, key_end, Stops::Equals)?;
    check_key(filter, before, key.text(), start)?;
    let value = part_at(
        alloc,
        line,
        after(line, key_end.at),
        value_end,
        Stops::Equals,
    )?;
    Ok((Tag::new(key, value), value_end.at))
}

/// Parses the tag at `start`, whatever its form, and appends it as `push_next` does.
#[cold]
#[inline(never)]
fn push_any<'a, A: Allocator + Copy>(
    alloc: A,
    tags: &mut Vec<Tag<'a, A>, A>,
    filter: &mut NameFilter,
    line: &'a str,
    start: usize,
) -> Result<usize, ReadLineError>
    requires boundary { IsCharBoundary line.now start }
    requires marked { AreKeysInFilter filter.old tags.old.items }
    ensures { PushesNextTag tags.old.items tags.new.items filter.new line.now start result }
{
    let (tag, end) = next(alloc, tags, filter, line, start)?;
    tags.push(tag)?;
    Ok(end)
}

/// Finds the ends of the key and of the value of the tag at `start` if it is plain, as most tags are: neither has an
/// escape.
#[inline(always)]
fn plain_pair(line: &str, start: usize) -> Option<(usize, usize)>
    requires { IsCharBoundary line.now start }
    ensures value { IfSome result
        (λ x. pair_at line.now start ≡ Ok ((plain_piece line.now start x.0, plain_piece line.now (x.0 + 1) x.1), x.1)) }
    ensures key { IfSome result (λ x. IsOffsetFrom line.now start x.0) }
    ensures equals { IfSome result (λ x. slice_index line.now x.0 ≡ 61) }
    ensures rest { IfSome result (λ x. IsOffsetFrom line.now (x.0 + 1) x.1) }
{
    let Ok((key_end, value_end)) = pair_ends(line, start) else {
        return None;
    };
    if key_end.has_escape {
        return None;
    }
    if value_end.has_escape {
        return None;
    }
    Some((key_end.at, value_end.at))
}

/// Parses the tag at `start`, appends it to `tags` and returns the offset after it. The filter is over the keys so far.
#[tactic(auto, unfolding(crate::specs::TagParts::next_tag))]
#[inline(always)]
fn push_next<'a, A: Allocator + Copy>(
    alloc: A,
    tags: &mut Vec<Tag<'a, A>, A>,
    filter: &mut NameFilter,
    line: &'a str,
    start: usize,
) -> Result<usize, ReadLineError>
    requires boundary { IsCharBoundary line.now start }
    requires marked { AreKeysInFilter filter.old tags.old.items }
    ensures { PushesNextTag tags.old.items tags.new.items filter.new line.now start result }
{
    let Some((key_end, value_end)) = plain_pair(line, start) else {
        return push_any(alloc, tags, filter, line, start);
    };
    if tags.len() >= TAG_LIMIT {
        return Err(ReadLineError::Fault(LineFaultKind::OverLimit.at(start)));
    }
    let key = &line[start..key_end];
    check_key(filter, tags, key, start)?;
    let value_start = after(line, key_end);
    let value = Part::plain(value_start, &line[value_start..value_end]);
    tags.push(Tag::new(Part::plain(start, key), value))?;
    Ok(value_end)
}

/// Parses the tags from `start`, each after a comma; returns them and the offset after the last.
pub fn tags<'a, A: Allocator + Copy>(
    alloc: A,
    line: &'a str,
    start: usize,
) -> Result<(Vec<Tag<'a, A>, A>, usize), ReadLineError>
    requires { IsCharBoundary line.now start }
    ensures value { GivesIfMemory (λ x. (x.0.items, x.1)) result (tags_at 65 [] line.now start) }
    ensures few { IfOk result (λ x. length x.0.items ≤ 64) }
    ensures boundary { IfOk result (λ x. IsCharBoundary line.now x.1) }
{
    let mut tags = Vec::with_capacity(alloc, TAGS_AT_FIRST)?;
    let mut filter = NameFilter::new();
    let mut at = start;
    while byte_at(line, at) == b',' {
        at = push_next(alloc, &mut tags, &mut filter, line, after(line, at))?;
    }
    Ok((tags, at))
}
