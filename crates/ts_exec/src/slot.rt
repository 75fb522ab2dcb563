//! Slot of the group table: a group that may be empty.
ghost use Rattle.std.specs.Prelude.{◌≡◌, ◌<◌, length, None, Some, OnOk, option_map};
ghost use Rattle.ts_core.specs.queries.Answers.{group_cmp};
ghost use Rattle.ts_store.specs.read.ViewResults.{points_at};
ghost use Rattle.ts_exec.specs.RowParts.{with_part, with_point_parts};
ghost use Rattle.ts_exec.specs.GroupTables.{rows_or};

use crate::aggregate_parts::AggregateParts;
use crate::buckets::BucketCursor;
use crate::column::{ColumnRange, add_points};
use crate::group_values::{GroupValues, GroupValuesBuf};
use crate::rows::add_part;
use std::alloc::{AllocError, Allocator};
use std::cmp::Ordering;
use std::marker::Model;
use ts_core::{Agg, Partial};
use ts_raw::Points;
use ts_store::View;

/// Tag values of a group, with its rows, one per bucket, if it has data.
#[derive(Drop)]
pub(crate) struct Slot<'a, A: Allocator> {
    pub values: GroupValuesBuf<'a, A>,
    pub rows: Option<Vec<Agg, A>>,
}

impl<'a, A: Allocator> Model for Slot<'a, A> {
    ghost use Rattle.std.specs.Prelude.{List, Option, option_map};
    ghost use Rattle.ts_core.specs.aggregates.Aggregates.{Aggregate};
    ghost use Rattle.ts_core.specs.facts.Facts.{Text};

    ghost Value = { List Text × Option (List Aggregate) };

    ghost view = { λ s. (s.values, option_map (λ v. v.items) s.rows) };
}

impl<'a, A: Allocator + Copy> Slot<'a, A> {
    /// Creates an empty group.
    pub(crate) fn new(values: GroupValuesBuf<'a, A>) -> Slot<'a, A>
        ensures { result ≡ (values.entry, None) }
    {
        Slot { values, rows: None }
    }

    /// Compares the group's values with others, lexicographically.
    pub(crate) fn compare(&self, values: &GroupValues<'_, '_>) -> Ordering
        ensures { result ≡ group_cmp self.now.0 values.now }
    {
        self.values.values().compare(values)
    }

    /// Allocates `width` empty rows, if the group has none.
    fn make_rows(&mut self, width: usize) -> Result<(), AllocError>
        ensures ok { OnOk result (self.new ≡ (self.old.0, Some (rows_or width self.old.1))) }
        ensures key { self.new.0 ≡ self.old.0 }
    {
        if self.rows.is_none() {
            let alloc = *self.values.allocator();
            self.rows = Some(Vec::from_elem(alloc, Agg::empty(), width)?);
        }
        Ok(())
    }

    /// Merges a part into the row of a bucket.
    pub(crate) fn add_part(
        &mut self,
        width: usize,
        row_index: usize,
        part: Agg,
    ) -> Result<(), AllocError>
        ensures rows { OnOk result (self.new.1 ≡ Some (with_part row_index part (rows_or width self.old.1))) }
        ensures key { self.new.0 ≡ self.old.0 }
    {
        self.make_rows(width)?;
        if let Some(rows) = &mut self.rows {
            add_part(rows.as_mut_slice(), row_index, part);
        }
        Ok(())
    }

    /// Adds the points of a range, each to the row of its bucket. Keeps these parts of them.
    pub(crate) fn add_points<V: View<A>>(
        &mut self,
        parts: AggregateParts,
        width: usize,
        buckets: &mut BucketCursor,
        range: &ColumnRange<'_, V>,
        points: Points<'_>,
    ) -> Result<(), AllocError>
        requires column { range.now.column < length (V.seen range.now.view.now).columns }
        requires points { points_at
            (V.seen range.now.view.now).columns range.now.column range.now.from range.now.to ≡ points }
        ensures rows { OnOk result
            (self.new.1 ≡ Some (with_point_parts parts buckets.old points.entry (rows_or width self.old.1))) }
        ensures key { self.new.0 ≡ self.old.0 }
        ensures same { buckets.new ≡ buckets.old }
    {
        self.make_rows(width)?;
        if let Some(rows) = &mut self.rows {
            add_points(rows.as_mut_slice(), parts, buckets, range, points);
        }
        Ok(())
    }
}
