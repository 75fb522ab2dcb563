//! Values of tags that aren't empty, each with the index of its tag.
ghost use Rattle.std.specs.Prelude.{◌≡◌, [], ◌++◌, drop, get_or, option_map, IfOk, OnOk};
ghost use Rattle.std.specs.List.Sorted.{IsStrictlySortedBy};
ghost use Rattle.ts_core.specs.facts.Facts.{text_cmp};
ghost use Rattle.ts_core.specs.text.Texts.{owned_pairs};
ghost use Rattle.ts_ql.specs.Selects.{texts};
ghost use Rattle.ts_exec.specs.GroupValues.{own_values, kept_indices, kept_values, tag_index, with_set, first_value, seen_set};

use std::alloc::{AllocError, Allocator};
use std::cmp::Reverse;

/// Index of a tag with its value, which isn't empty. The index is reversed for the order of groups: where one has a
/// value and the other has none, the other is the lesser.
pub(crate) type SetValue<'a> = (Reverse<usize>, &'a str);

/// A tag that a query groups by and a rule keeps: its index among those of the query, and among those of the rule.
pub(crate) type KeptTag = (usize, usize);

/// Returns the index of a tag, or `None` if it isn't among these.
fn tag_index<A: Allocator>(tags: &[String<A>], name: &str) -> Option<usize>
    requires { IsStrictlySortedBy text_cmp (texts tags.now) }
    ensures { result ≡ tag_index 0 (texts tags.now) name.now }
{
    tags.binary_search_by(|tag| tag.as_str().cmp(name)).ok()
}

/// Returns the value at a place of the list, if it is that of the tag with this index.
pub(crate) fn value_of<'a>(set: &[SetValue<'a>], at: usize, index: usize) -> Option<&'a str>
    ensures { option_map (λ v. v.now) result ≡ first_value index (seen_set (drop at set.now)) }
{
    match set.get(at) {
        Some(first) if first.0.0 == index => Some(first.1),
        _ => None,
    }
}

/// Appends a value, unless it is empty or has no index.
fn push_found<'a, A: Allocator>(
    set: &mut Vec<SetValue<'a>, A>,
    index: Option<usize>,
    value: &'a str,
) -> Result<(), AllocError>
    ensures { OnOk result (seen_set set.new.items ≡ seen_set set.old.items ++ with_set index value.now []) }
{
    match index {
        Some(index) if !value.is_empty() => set.push((Reverse(index), value))?,
        _ => {}
    }
    Ok(())
}

/// Appends the values that a series' own tags give to these tags.
pub(crate) fn push_own<'a, A: Allocator>(
    set: &mut Vec<SetValue<'a>, A>,
    tags: &[String<A>],
    own: &'a [(String<A>, String<A>)],
) -> Result<(), AllocError>
    requires { IsStrictlySortedBy text_cmp (texts tags.now) }
    ensures { OnOk result
        (seen_set set.new.items ≡ seen_set set.old.items ++ own_values (texts tags.now) (owned_pairs own.now)) }
{
    for tag in own {
        push_found(set, tag_index(tags, tag.0.as_str()), tag.1.as_str())?;
    }
    Ok(())
}

/// Returns the index of the first of these tags that has the name.
fn kept_index<A: Allocator>(kept: &[String<A>], name: &str) -> Option<usize>
    ensures { result ≡ tag_index 0 (texts kept.now) name.now }
{
    kept.iter().position(|tag| tag.as_str() == name)
}

/// Returns those of a query's tags that a rule keeps.
pub(crate) fn kept_tags<A: Allocator + Copy>(
    alloc: A,
    tags: &[String<A>],
    kept: &[String<A>],
) -> Result<Vec<KeptTag, A>, AllocError>
    ensures { IfOk result (λ v. v.items ≡ kept_indices 0 (texts tags.now) (texts kept.now)) }
{
    let mut found = Vec::new(alloc);
    for (index, tag) in tags.iter().enumerate() {
        if let Some(number) = kept_index(kept, tag.as_str()) {
            found.push((index, number))?;
        }
    }
    Ok(found)
}

/// Returns the value with this index, or the empty text if there is none.
fn value_at<A: Allocator>(group: &[String<A>], number: usize) -> &str
    ensures { result.now ≡ get_or (texts group.now) number [] }
{
    match group.get(number) {
        Some(value) => value.as_str(),
        None => "",
    }
}

/// Appends the values that a cell's group gives to these tags.
pub(crate) fn push_kept<'a, A: Allocator>(
    set: &mut Vec<SetValue<'a>, A>,
    kept: &[KeptTag],
    group: &'a [String<A>],
) -> Result<(), AllocError>
    ensures { OnOk result (seen_set set.new.items ≡ seen_set set.old.items ++ kept_values kept.now (texts group.now)) }
{
    for tag in kept {
        push_found(set, Some(tag.0), value_at(group, tag.1))?;
    }
    Ok(())
}
