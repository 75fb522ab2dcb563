//! Holds the values of the tags that a query groups by. Empty ones take no memory: a query may name many tags that few
//! series have.
ghost use Rattle.std.specs.Prelude.{◌≡◌, List, [], map, zip, IfOk, OnOk};
ghost use Rattle.std.specs.List.Sorted.{IsStrictlySortedBy};
ghost use Rattle.std.specs.Iterator.{YieldsFirstRef, item_count};
ghost use Rattle.ts_core.specs.facts.Facts.{Text, text_cmp};
ghost use Rattle.ts_core.specs.facts.Tags.{tag_values, value_among};
ghost use Rattle.ts_core.specs.queries.Answers.{group_cmp};
ghost use Rattle.ts_ql.specs.Selects.{texts};
ghost use Rattle.ts_exec.specs.GroupValues.{kept_indices};

use crate::set_values::{KeptTag, SetValue, push_kept, push_own, value_of};
use std::alloc::{AllocError, Allocator};
use std::cmp::Ordering;
use std::marker::Model;
use ts_core::Key;

/// Values of a group's tags. Its model is the list of all, empty ones too, in the order of the tags.
#[derive(Drop)]
pub struct GroupValues<'v, 'a> {
    tags: usize,
    set: &'v [SetValue<'a>],
}

impl<'v, 'a> Model for GroupValues<'v, 'a> {
    ghost use Rattle.std.specs.Prelude.{List};
    ghost use Rattle.ts_core.specs.facts.Facts.{Text};
    ghost use Rattle.ts_exec.specs.GroupValues.{all_values, AreSetValues, seen_set};

    ghost Value = { List Text };

    ghost view = { λ v. all_values 0 v.tags (seen_set v.set.now) };

    ghost invariant = { λ v. AreSetValues 0 v.tags (seen_set v.set.now) };
}

impl<'v, 'a> GroupValues<'v, 'a> {
    /// Compares the values lexicographically.
    pub(crate) fn compare(&self, other: &GroupValues<'_, '_>) -> Ordering
        ensures { result ≡ group_cmp self.now other.now }
    {
        self.set.cmp(other.set).then(self.tags.cmp(&other.tags))
    }

    /// Returns an iterator over all values, in the order of the tags.
    pub fn iter(&self) -> GroupValuesIter<'v, 'a>
        ensures { result ≡ self.now }
    {
        GroupValuesIter {
            next: 0,
            end: self.tags,
            set: self.set,
            given: 0,
        }
    }
}

/// Iterator over the values of a group's tags. Its model is the list of those that remain.
#[derive(Drop)]
pub struct GroupValuesIter<'v, 'a> {
    next: usize,
    end: usize,
    set: &'v [SetValue<'a>],
    // Number of those in `set` that were returned.
    given: usize,
}

impl<'v, 'a> Model for GroupValuesIter<'v, 'a> {
    ghost use Rattle.std.specs.Prelude.{◌-◌, ◌≤◌, List, drop};
    ghost use Rattle.ts_core.specs.facts.Facts.{Text};
    ghost use Rattle.ts_exec.specs.GroupValues.{all_values, seen_set};

    ghost Value = { List Text };

    ghost view = { λ v. all_values v.next (v.end - v.next) (seen_set (drop v.given v.set.now)) };

    ghost invariant = { λ v. v.next ≤ v.end };
}

impl<'v, 'a> Iterator for GroupValuesIter<'v, 'a> {
    type Item = &'a str;

    ghost next_gives = { YieldsFirstRef (λ v. v) };

    ghost remaining = { item_count (λ v. v) };

    fn next(&mut self) -> Option<&'a str> {
        if self.next == self.end {
            return None;
        }
        let index = self.next;
        self.next = index + 1;
        match value_of(self.set, self.given, index) {
            Some(value) => {
                self.given += 1;
                Some(value)
            }
            None => Some(""),
        }
    }
}

/// Values of a group's tags, in a list of their own.
#[derive(Drop)]
pub(crate) struct GroupValuesBuf<'a, A: Allocator> {
    tags: usize,
    set: Vec<SetValue<'a>, A>,
}

impl<'a, A: Allocator> Model for GroupValuesBuf<'a, A> {
    ghost use Rattle.std.specs.Prelude.{List};
    ghost use Rattle.ts_core.specs.facts.Facts.{Text};
    ghost use Rattle.ts_exec.specs.GroupValues.{all_values, AreSetValues, seen_set};

    ghost Value = { List Text };

    ghost view = { λ v. all_values 0 v.tags (seen_set v.set.items) };

    ghost invariant = { λ v. AreSetValues 0 v.tags (seen_set v.set.items) };
}

impl<'a, A: Allocator> GroupValuesBuf<'a, A> {
    /// Returns the values.
    pub(crate) fn values(&self) -> GroupValues<'_, 'a>
        ensures { result ≡ self.now }
    {
        GroupValues {
            tags: self.tags,
            set: self.set.as_slice(),
        }
    }
}

impl<'a, A: Allocator + Copy> GroupValuesBuf<'a, A> {
    /// Creates the values of no tags.
    pub(crate) fn new(alloc: A) -> GroupValuesBuf<'a, A>
        ensures { result ≡ [] }
    {
        GroupValuesBuf {
            tags: 0,
            set: Vec::new(alloc),
        }
    }

    /// Returns a copy of these values.
    pub(crate) fn copied(
        alloc: A,
        values: &GroupValues<'_, 'a>,
    ) -> Result<GroupValuesBuf<'a, A>, AllocError>
        ensures { IfOk result (λ v. v ≡ values.now) }
    {
        Ok(GroupValuesBuf {
            tags: values.tags,
            set: Vec::from_slice(alloc, values.set)?,
        })
    }

    /// Returns the allocator of the list.
    pub(crate) fn allocator(&self) -> &A {
        self.set.allocator()
    }

    /// Replaces the values by a series' values of these tags. On error, all values are empty.
    pub(crate) fn read_series(
        &mut self,
        tags: &[String<A>],
        key: &'a Key<A>,
    ) -> Result<(), AllocError>
        requires { IsStrictlySortedBy text_cmp (texts tags.now) }
        ensures { OnOk result (self.new ≡ tag_values (texts tags.now) key.now) }
    {
        self.tags = tags.len();
        self.set.clear();
        match push_own(&mut self.set, tags, key.tags()) {
            Ok(()) => Ok(()),
            Err(fault) => {
                self.set.clear();
                Err(fault)
            }
        }
    }

    /// Replaces the values by those that a cell's group has of these tags, of which a rule keeps `kept`. On error, all
    /// values are empty.
    pub(crate) fn read_cell(
        &mut self,
        tags: &[String<A>],
        kept: &[KeptTag],
        group: &'a [String<A>],
    ) -> Result<(), AllocError>
        requires { (own : List Text) × (kept.now ≡ kept_indices 0 (texts tags.now) own) }
        ensures { OnOk result ((own : List Text) → kept.now ≡ kept_indices 0 (texts tags.now) own
            → self.new ≡ map (value_among (zip own (texts group.now))) (texts tags.now)) }
    {
        self.tags = tags.len();
        self.set.clear();
        match push_kept(&mut self.set, kept, group) {
            Ok(()) => Ok(()),
            Err(fault) => {
                self.set.clear();
                Err(fault)
            }
        }
    }
}
