//! Sorted table of the groups of an answer, to which cells and points are added.
ghost use Rattle.std.specs.Prelude.{◌≡◌, ◌≤◌, ◌<◌, true, [], length, Err, OnOk, IfOk};
ghost use Rattle.std.specs.List.Sorted.{IsSearchInRange};
ghost use Rattle.ts_store.specs.read.ViewResults.{points_at};
ghost use Rattle.ts_exec.specs.Searches.{IsSlotOfGroup, HoldsGroup};
ghost use Rattle.ts_exec.specs.Slots.{AreSlots, made};
ghost use Rattle.ts_exec.specs.GroupTables.{with_column_parts, with_cell_part};

use crate::aggregate_parts::AggregateParts;
use crate::buckets::BucketCursor;
use crate::column::ColumnRange;
use crate::group_values::{GroupValues, GroupValuesBuf};
use crate::slot::Slot;
use std::alloc::{AllocError, Allocator};
use std::cmp::Ordering;
use std::marker::Model;
use ts_core::Agg;
use ts_store::View;

/// A group: the values of its tags, and one row per bucket.
#[derive(Drop)]
pub struct GroupRows<'a, A: Allocator> {
    values: GroupValuesBuf<'a, A>,
    rows: Vec<Agg, A>,
}

impl<'a, A: Allocator> Model for GroupRows<'a, A> {
    ghost use Rattle.std.specs.Prelude.{List};
    ghost use Rattle.ts_core.specs.aggregates.Aggregates.{Aggregate};
    ghost use Rattle.ts_core.specs.facts.Facts.{Text};

    ghost Value = { List Text × List Aggregate };

    ghost view = { λ g. (g.values, g.rows.items) };
}

impl<'a, A: Allocator> GroupRows<'a, A> {
    /// Returns the values of the tags that the query groups by, in the order of the tags.
    pub fn values(&self) -> GroupValues<'_, 'a>
        ensures { result ≡ self.now.0 }
    {
        self.values.values()
    }

    /// Returns the rows, one per bucket.
    pub fn rows(&self) -> &[Agg]
        ensures { result.now ≡ self.now.1 }
    {
        self.rows.as_slice()
    }
}

/// Searches for a group by binary search. Returns `Ok` with its slot, or `Err` with the slot to insert it at. Tries the
/// last one first, as groups mostly arrive in order.
fn find_slot<A: Allocator + Copy>(
    slots: &[Slot<'_, A>],
    values: &GroupValues<'_, '_>,
) -> Result<usize, usize>
    requires { AreSlots slots.now }
    ensures bound { IsSearchInRange result (length slots.now) }
    ensures slot { IsSlotOfGroup values.now slots.now result }
{
    let Some(last) = slots.last() else {
        return Err(0);
    };
    match last.compare(values) {
        Ordering::Less => Err(slots.len()),
        Ordering::Equal => Ok(slots.len() - 1),
        Ordering::Greater => slots.binary_search_by(|slot| slot.compare(values)),
    }
}

/// Returns true if the slot `at` has the group with these values.
fn is_at<A: Allocator + Copy>(
    slots: &[Slot<'_, A>],
    at: usize,
    values: &GroupValues<'_, '_>,
) -> bool
    ensures { result ≡ true → HoldsGroup values.now slots.now at }
{
    match slots.get(at) {
        Some(slot) => slot.compare(values) == Ordering::Equal,
        None => false,
    }
}

/// Inserts an empty group at its slot.
fn insert_group<'a, A: Allocator + Copy>(
    slots: &mut Vec<Slot<'a, A>, A>,
    at: usize,
    values: GroupValuesBuf<'a, A>,
) -> Result<(), AllocError>
    requires slots { AreSlots slots.old.items }
    requires bound { at ≤ length slots.old.items }
    requires slot { IsSlotOfGroup values slots.old.items (Err at) }
    ensures slots { AreSlots slots.new.items }
    ensures made { made slots.new.items ≡ made slots.old.items }
    ensures slot { OnOk result (HoldsGroup values.entry slots.new.items at) }
{
    let slot = Slot::new(values);
    slots.insert(at, slot)?;
    Ok(())
}

/// Returns the group's slot, inserting an empty one if needed.
fn slot_of<'a, A: Allocator + Copy>(
    slots: &mut Vec<Slot<'a, A>, A>,
    values: &GroupValues<'_, 'a>,
) -> Result<usize, AllocError>
    requires { AreSlots slots.old.items }
    ensures slots { AreSlots slots.new.items }
    ensures made { made slots.new.items ≡ made slots.old.items }
    ensures slot { IfOk result (λ at. HoldsGroup values.now slots.new.items at) }
{
    match find_slot(slots.as_slice(), values) {
        Ok(at) => Ok(at),
        Err(at) => {
            let values = GroupValuesBuf::copied(*slots.allocator(), values)?;
            insert_group(slots, at, values)?;
            Ok(at)
        }
    }
}

/// Returns the group's slot, inserting an empty one if needed. Tries `guess` first.
fn slot_near<'a, A: Allocator + Copy>(
    slots: &mut Vec<Slot<'a, A>, A>,
    guess: usize,
    values: &GroupValues<'_, 'a>,
) -> Result<usize, AllocError>
    requires { AreSlots slots.old.items }
    ensures slots { AreSlots slots.new.items }
    ensures made { made slots.new.items ≡ made slots.old.items }
    ensures slot { IfOk result (λ at. HoldsGroup values.now slots.new.items at) }
{
    if is_at(slots.as_slice(), guess, values) {
        return Ok(guess);
    }
    slot_of(slots, values)
}

/// Groups in byte order of their values. Empty groups may be among them; the model leaves them out.
#[derive(Drop)]
pub(crate) struct Groups<'a, A: Allocator> {
    // Slot of the last cell's group.
    last: usize,
    slots: Vec<Slot<'a, A>, A>,
}

impl<'a, A: Allocator> Model for Groups<'a, A> {
    ghost use Rattle.ts_exec.specs.Slots.{AreSlots, made};
    ghost use Rattle.ts_exec.specs.GroupTables.{Table};

    ghost Value = { Table };

    ghost view = { λ g. made g.slots.items };

    ghost invariant = { λ g. AreSlots g.slots.items };
}

impl<'a, A: Allocator + Copy> Groups<'a, A> {
    /// Creates an empty table.
    pub(crate) fn new(alloc: A) -> Groups<'a, A>
        ensures { result ≡ [] }
    {
        Groups {
            last: 0,
            slots: Vec::new(alloc),
        }
    }

    /// Returns the allocator of the table.
    pub(crate) fn allocator(&self) -> &A {
        self.slots.allocator()
    }

    /// Returns the groups that have data.
    pub(crate) fn into_groups(self) -> Result<Vec<GroupRows<'a, A>, A>, AllocError>
        ensures { IfOk result (λ v. v.items ≡ self.entry) }
    {
        let mut groups = Vec::with_capacity(*self.slots.allocator(), self.slots.len())?;
        for slot in self.slots {
            let Slot { values, rows } = slot;
            if let Some(rows) = rows {
                groups.push(GroupRows { values, rows })?;
            }
        }
        Ok(groups)
    }

    /// Returns the group's slot, inserting an empty one if needed.
    pub(crate) fn slot_of(&mut self, values: &GroupValues<'_, 'a>) -> Result<usize, AllocError>
        ensures { self.new ≡ self.old }
    {
        slot_of(&mut self.slots, values)
    }

    /// Returns the slot after that of the last cell's group, or the first slot after the last one: in every bucket,
    /// cells come in the order of their groups.
    fn next_slot(&self) -> usize {
        let next = self.last.saturating_add(1);
        if next < self.slots.len() { next } else { 0 }
    }

    /// Merges a part into the row of a bucket of a group, inserting the group if needed.
    pub(crate) fn add_part(
        &mut self,
        width: usize,
        values: &GroupValues<'_, 'a>,
        row_index: usize,
        part: Agg,
    ) -> Result<(), AllocError>
        ensures { OnOk result (self.new ≡ with_cell_part width values.now row_index part self.old) }
    {
        let next = self.next_slot();
        let at = slot_near(&mut self.slots, next, values)?;
        self.last = at;
        self.slots[at].add_part(width, row_index, part)
    }

    /// Adds the points of a range to a group, inserting it if needed, and keeps these parts of them. Tries the slot
    /// `guess` first. Without points, inserts no group.
    pub(crate) fn add_points<V: View<A>>(
        &mut self,
        guess: usize,
        parts: AggregateParts,
        width: usize,
        values: &GroupValues<'_, 'a>,
        buckets: &mut BucketCursor,
        range: &ColumnRange<'_, V>,
    ) -> Result<(), AllocError>
        requires { range.now.column < length (V.seen range.now.view.now).columns }
        ensures value { OnOk result (self.new ≡ with_column_parts parts buckets.old width values.now
            (points_at (V.seen range.now.view.now).columns range.now.column range.now.from range.now.to) self.old) }
        ensures same { buckets.new ≡ buckets.old }
    {
        let points = range.view.raw_range(range.column, range.from, range.to);
        if points.len() == 0 {
            return Ok(());
        }
        let at = slot_near(&mut self.slots, guess, values)?;
        self.slots[at].add_points(parts, width, buckets, range, points)
    }
}
