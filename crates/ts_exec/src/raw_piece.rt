//! Adds a piece of raw points to the groups.
ghost use Rattle.std.specs.Prelude.{◌≡◌, OnOk};
ghost use Rattle.std.specs.List.Sorted.{IsStrictlySortedBy};
ghost use Rattle.ts_core.specs.facts.Facts.{text_cmp};
ghost use Rattle.ts_core.specs.plans.Pieces.{Raw};
ghost use Rattle.ts_ql.specs.Selects.{texts};
ghost use Rattle.ts_exec.specs.GroupTables.{with_source};

use crate::aggregate_parts::AggregateParts;
use crate::column::ColumnRange;
use crate::group_values::GroupValuesBuf;
use crate::groups::Groups;
use crate::scan::Scan;
use crate::selection::selected_columns;
use crate::set_values::{SetValue, push_own};
use std::alloc::{AllocError, Allocator};
use std::cmp::Reverse;
use ts_store::{View, ViewColumn};

/// Packs the first 16 bytes of a text, padded with zeros, into a number that serves as a sort key. If two keys differ,
/// their texts compare in the same order.
fn first_bytes(text: &str) -> u128 {
    let mut bytes = [0u8; 16];
    for (slot, byte) in bytes.iter_mut().zip(text.bytes()) {
        *slot = byte;
    }
    u128::from_be_bytes(bytes)
}

/// Returns a key that sorts lists of values mostly without reading their texts: their first value, with its index.
fn sort_key<'a>(set: &[SetValue<'a>]) -> (Reverse<usize>, u128) {
    match set.first() {
        Some((index, value)) => (*index, first_bytes(value)),
        None => (Reverse(usize::MAX), 0),
    }
}

/// Returns the indices of the columns in the order of their groups.
fn sorted_by_group<'a, A: Allocator + Copy>(
    alloc: A,
    tags: &[String<A>],
    columns: &[ViewColumn<'a, A>],
) -> Result<Vec<usize, A>, AllocError>
    requires { IsStrictlySortedBy text_cmp (texts tags.now) }
{
    let mut set = Vec::new(alloc);
    let mut ends = Vec::with_capacity(alloc, columns.len())?;
    for column in columns {
        push_own(&mut set, tags, column.key.tags())?;
        ends.push(set.len())?;
    }
    let mut sorted: Vec<((Reverse<usize>, u128), &[SetValue<'a>], usize), A> = Vec::with_capacity(
        alloc,
        columns.len(),
    )?;
    let mut from = 0;
    for (number, end) in ends.iter().enumerate() {
        let values = set.get(from..*end).unwrap_or(&[]);
        sorted.push((sort_key(values), values, number))?;
        from = *end;
    }
    sorted.sort_unstable();
    let mut numbers = Vec::with_capacity(alloc, sorted.len())?;
    for (_, _, number) in &sorted {
        numbers.push(*number)?;
    }
    Ok(numbers)
}

/// Inserts the groups of all columns up front, sorted, so that none is inserted in the middle later. Returns each
/// column's slot, or an empty list if there are no group tags.
fn insert_groups<'a, A: Allocator + Copy>(
    groups: &mut Groups<'a, A>,
    values: &mut GroupValuesBuf<'a, A>,
    alloc: A,
    tags: &[String<A>],
    columns: &[ViewColumn<'a, A>],
) -> Result<Vec<usize, A>, AllocError>
    requires { IsStrictlySortedBy text_cmp (texts tags.now) }
    ensures { groups.new ≡ groups.old }
{
    if tags.is_empty() {
        return Ok(Vec::new(alloc));
    }
    let mut slots = Vec::from_elem(alloc, 0usize, columns.len())?;
    for number in sorted_by_group(alloc, tags, columns)? {
        if let Some(column) = columns.get(number) {
            values.read_series(tags, column.key)?;
            let at = groups.slot_of(&values.values())?;
            if let Some(slot) = slots.get_mut(number) {
                *slot = at;
            }
        }
    }
    Ok(slots)
}

/// Adds the raw points from `from`, inclusive, to `to`, exclusive, that the query matches. Keeps these
/// parts of them.
pub(crate) fn add_raw<'a, A: Allocator + Copy + 'a, V: View<A> + 'a>(
    groups: &mut Groups<'a, A>,
    scan: &mut Scan<'a, '_, A>,
    parts: AggregateParts,
    view: &'a V,
    from: i64,
    to: i64,
) -> Result<(), AllocError>
    ensures value { OnOk result (groups.new ≡ with_source parts (V.seen view.now) scan.old Raw from to groups.old) }
    ensures same { scan.new ≡ scan.old }
{
    let alloc = *groups.allocator();
    let tags = scan.query.group_tags();
    let columns = selected_columns(alloc, scan.query, view)?;
    let slots = insert_groups(groups, &mut scan.values, alloc, tags, &columns)?;
    // Without group tags these are empty, and the only group has slot 0.
    let mut slots = slots.iter();
    for column in &columns {
        let guess = slots.next().copied().unwrap_or(0);
        scan.values.read_series(tags, column.key)?;
        let range = ColumnRange {
            view,
            column: column.id,
            from,
            to,
        };
        let values = scan.values.values();
        groups.add_points(guess, parts, scan.width, &values, &mut scan.buckets, &range)?;
    }
    Ok(())
}
