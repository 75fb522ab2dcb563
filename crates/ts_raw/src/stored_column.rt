//! A column of coded blocks, seen as its points alone.
ghost use Rattle.std.specs.Prelude.{◌≡◌, ◌+◌, ◌≤◌, ℕ, List, None, IfOk};
ghost use Rattle.std.specs.FinMap as map;
ghost use Rattle.ts_raw.specs.BlockColumns.{points_in_texts, AreHeld};
ghost use Rattle.ts_raw.specs.Columns.{AreTimed};
ghost use Rattle.ts_raw.specs.PlainColumns.{IsRising};

use crate::block_column::BlockColumn;
use crate::blocks::Blocks;
use crate::column::Column;
use crate::points::Points;
use std::alloc::{AllocError, Allocator};
use std::marker::Model;
use ts_core::Time;

/// A `BlockColumn` whose model has no blocks, so that it is the same as that of a `PlainColumn`.
#[derive(Drop)]
pub struct StoredColumn<A: Allocator> {
    column: BlockColumn<A>,
}

impl<A: Allocator> Model for StoredColumn<A> {
    ghost use Rattle.ts_raw.specs.Columns.{ColumnState, coded_column_state};

    ghost Value = { ColumnState };

    ghost coded = { coded_column_state };

    ghost view = { λ c. record { points = c.column.points; staged = c.column.staged } };
}

impl<A: Allocator> StoredColumn<A> {
    /// Creates an empty column. Does not allocate.
    pub fn new(alloc: A) -> StoredColumn<A>
    where
        A: Copy,
        ensures points { result.points ≡ map.empty }
        ensures none_staged { result.staged ≡ None }
    {
        StoredColumn {
            column: BlockColumn::new(alloc),
        }
    }

    /// Returns all points in the order of time.
    pub fn all(&self) -> Points<'_>
        ensures points { result ≡ map.entries self.now.points }
        ensures timed { AreTimed result }
    {
        self.column.all()
    }

    /// Returns the coded blocks, in the order of time. They hold all points; the first one may begin with removed ones.
    /// `held` counts the points of them all.
    pub fn blocks(&self) -> Blocks<'_>
        ensures { AreHeld (map.entries self.now.points) result (points_in_texts result) }
    {
        self.column.blocks()
    }

    /// Returns the value at a time, if there is a point.
    pub fn value_at(&self, time: Time) -> Option<i64>
        ensures { result ≡ map.get self.now.points time }
    {
        self.column.value_at(time)
    }
}

impl<A: Allocator + Copy> StoredColumn<A> {
    /// Creates a column of points, which must be in the order of time, each time once.
    pub fn from_points(points: Vec<(Time, i64), A>) -> Result<StoredColumn<A>, AllocError>
        requires rising { IsRising points.items }
        requires timed { AreTimed points.items }
        ensures points { IfOk result (λ column. column.points ≡ map.from_sorted points.items) }
        ensures entries { IfOk result (λ column. map.entries column.points ≡ points.items) }
        ensures none_staged { IfOk result (λ column. column.staged ≡ None) }
    {
        let column = BlockColumn::from_points(points)?;
        Ok(StoredColumn { column })
    }
}

impl<A: Allocator + Copy> Column for StoredColumn<A> {
    ghost points = { λ c. c.points };

    ghost staged = { λ c. c.staged };

    fn prepare(&mut self, time: Time, value: i64) -> Result<(), AllocError> {
        self.column.prepare(time, value)
    }

    fn commit(&mut self) {
        self.column.commit();
    }

    fn range(&self, from: i64, to: i64) -> Points<'_> {
        self.column.range(from, to)
    }

    fn drop_below(&mut self, mark: Time) {
        self.column.drop_below(mark);
    }

    fn live(&self) -> usize {
        self.column.live()
    }

    fn held(&self) -> usize
        ensures all { map.len self.now.points ≤ result }
        ensures few { result ≤ map.len self.now.points + 255 }
        ensures blocks { (texts : List (List ℕ)) × AreHeld (map.entries self.now.points) texts result }
    {
        self.blocks().points()
    }
}
