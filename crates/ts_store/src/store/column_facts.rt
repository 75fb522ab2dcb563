//! Index of columns with their facts.
ghost use Rattle.std.specs.Prelude.{◌≡◌, ◌≤◌, ◌<◌, ◌+◌, ◌*◌, ◌^◌, ℕ, List, [], false, min, length, map, pos, ◌≤ℤ◌, replicate, slice_index_or, IfOk, OnOk, OnErr};
ghost use Rattle.std.specs.List.{AllByRecursion};
ghost use Rattle.ts_core.specs.facts.Facts.{is_of};
ghost use Rattle.ts_core.specs.store.StoreStates.{facts_of as facts_in};
ghost use Rattle.ts_line.specs.Parts.{series_of, line_facts};
ghost use Rattle.ts_store.specs.write.LivePuts.{StayLive};
ghost use Rattle.ts_raw.specs.BlockColumns.{AreHeld, points_in_texts};
ghost use Rattle.ts_raw.specs.Columns.{AreTimed};
ghost use Rattle.ts_raw.specs.PlainColumns.{IsRising};
ghost use Rattle.ts_store.specs.store.BlocksHeld.{HoldColumns, points_in_columns};
ghost use Rattle.ts_store.specs.write.Refusals.{is_too_many};
ghost use Rattle.ts_store.specs.read.ViewResults.{no_points, column_refs_where, points_at};
ghost use Rattle.ts_store.specs.write.LinesInColumns.{PutsLine, GrowsForLine};
ghost use Rattle.ts_store.specs.rollup.Rollups.{new_rollup, AreRollups, cells_of};
ghost use Rattle.ts_core.specs.store.StoreStates.{column_of};

use crate::read::Columns;
use crate::rollup::{Rollup, new_rollups};
use crate::write::columns::prepare_line;
use crate::write::committing::commit_points;
use crate::write::creating::{create_cells, list_buckets};
use std::alloc::{AllocError, Allocator};
use std::hash::RandomState;
use std::marker::Model;
use ts_core::{KeyRef, Rule};
use ts_line::Line;
use ts_raw::{Blocks, Column as _, ColumnId, Index, Points, SERIES_LIMIT};

/// Type of a store's columns: coded blocks. Storing them in another way, as a type that shows `Blocks` too, is a change
/// of this line.
pub(crate) type StoredColumn<A> = ts_raw::StoredColumn<A>;

/// Index, one column per series and field, one rollup per rule, and scratch lists of the current line: the columns that
/// it touches, and the index of its bucket under each rule.
#[derive(Drop)]
pub(crate) struct ColumnFacts<A: Allocator> {
    pub(crate) index: Index<A>,
    pub(crate) columns: Vec<StoredColumn<A>, A>,
    pub(crate) rollups: Vec<Rollup<A>, A>,
    touched: Vec<ColumnId, A>,
    buckets: Vec<i128, A>,
}

impl<A: Allocator> Model for ColumnFacts<A> {
    ghost use Rattle.ts_store.specs.store.ColumnStates.{StoreContent, coded_content, content_of, IsSoundContent};

    ghost Value = { StoreContent };

    ghost coded = { coded_content };

    ghost view = { λ f. content_of f.index f.columns.items f.rollups.items };

    ghost invariant = { λ f. IsSoundContent f.index f.columns.items };
}

impl<A: Allocator + Copy> ColumnFacts<A> {
    /// Creates an empty index without columns, and this number of empty rollups, with a seed of the hashes of names.
    pub(crate) fn new(
        alloc: A,
        seed: RandomState,
        rules: usize,
    ) -> Result<ColumnFacts<A>, AllocError>
        ensures { IfOk result (λ f. f ≡ record { series = []; columns = []; rollups = replicate rules new_rollup }) }
    {
        let rollups = new_rollups(alloc, seed, rules)?;
        Ok(ColumnFacts {
            index: Index::new(alloc, seed),
            columns: Vec::new(alloc),
            rollups,
            touched: Vec::new(alloc),
            buckets: Vec::new(alloc),
        })
    }

    /// Returns true if the series is new and 1,000,000 series are registered.
    pub(crate) fn refuses(&self, key: &KeyRef<'_>) -> bool
        ensures { result ≡ is_too_many self.now.series key.now }
    {
        self.index.series_count() >= SERIES_LIMIT && self.index.lookup(key).is_none()
    }

    /// Inserts the facts of a line, replacing those with their ids, and adds them to the cells of the rules that roll
    /// them up. Allocates everything before it inserts the first. On allocation failure, no fact is inserted, but the
    /// series, some columns without points and some cells without facts may exist.
    pub(crate) fn insert_line<L: Allocator>(
        &mut self,
        rules: &[Rule<A>],
        lows: &[i128],
        line: &Line<'_, L>,
        key: &KeyRef<'_>,
    ) -> Result<(), AllocError>
        requires key { key.now ≡ series_of line.now }
        requires few { is_too_many self.old.series (series_of line.now) ≡ false }
        requires rollups { AreRollups rules.now (map column_of self.old.columns) self.old.rollups }
        requires intervals { AllByRecursion (λ r. pos 1 ≤ℤ r.interval) rules.now }
        requires lows { length lows.now ≡ length rules.now }
        requires live { StayLive rules.now lows.now self.old.columns (cells_of self.old.rollups) }
        requires fit { length (facts_in self.old.columns) + length (line_facts line.now) ≤ 2 ^ 62 }
        ensures ok { OnOk result (PutsLine rules.now lows.now self.old self.new line.now) }
        ensures err { OnErr result (GrowsForLine rules.now lows.now self.old self.new line.now) }
    {
        let series = match self.index.register(key) {
            Ok(series) => series,
            Err(_) => return Err(AllocError),
        };
        self.touched.clear();
        self.touched.reserve(line.fields().len())?;
        list_buckets(&mut self.buckets, rules, line.time())?;
        let rollups = self.rollups.as_mut_slice();
        prepare_line(
            &mut self.index,
            &mut self.columns,
            rules,
            rollups,
            &mut self.touched,
            series,
            line,
        )?;
        let buckets = self.buckets.as_slice();
        let touched = self.touched.as_slice();
        create_cells(buckets, lows, rollups, touched)?;
        commit_points(
            &mut self.columns,
            rules,
            buckets,
            rollups,
            touched,
            line.fields(),
            line.time(),
        );
        Ok(())
    }

    /// Returns the number of facts.
    pub(crate) fn raw_points(&self) -> u64
        requires { length (facts_in self.now.columns) ≤ 2 ^ 62 }
        ensures { result ≡ length (facts_in self.now.columns) }
    {
        let mut count = 0;
        for column in &self.columns {
            count += column.live() as u64;
        }
        count
    }

    /// Returns the number of points of the coded blocks of all columns. It may include up to 256 removed ones per
    /// column.
    pub(crate) fn held_points(&self) -> u64
        requires { length (facts_in self.now.columns) ≤ 2 ^ 62 }
        ensures all { length (facts_in self.now.columns) ≤ result }
        ensures few_more { result ≤ length (facts_in self.now.columns) + 256 * length self.now.columns }
        ensures blocks { (all : List (List (List ℕ)))
            × HoldColumns self.now.columns all × (result ≡ min (points_in_columns all) 18446744073709551615) }
    {
        let mut count: u64 = 0;
        for column in &self.columns {
            count = count.saturating_add(column.held() as u64);
        }
        count
    }

    /// Returns the coded blocks of a column.
    pub(crate) fn blocks_of(&self, column: ColumnId) -> Blocks<'_>
        requires { column < length self.now.columns }
        ensures { AreHeld (slice_index_or self.now.columns column no_points).points result (points_in_texts result) }
    {
        self.columns[column.number()].blocks()
    }

    /// Returns the columns of a measurement and a field, in creation order.
    pub(crate) fn columns_of(&self, measurement: &str, field: &str) -> Columns<'_, A>
        ensures { result ≡ column_refs_where (is_of measurement.now field.now) self.now.columns }
    {
        Columns::all_of(&self.index, measurement, field)
    }

    /// Returns the points of a column from `from`, inclusive, to `to`, exclusive (nanoseconds).
    pub(crate) fn raw_range(&self, column: ColumnId, from: i64, to: i64) -> Points<'_>
        requires { column < length self.now.columns }
        ensures points { result ≡ points_at self.now.columns column from to }
        ensures rising { IsRising result }
        ensures timed { AreTimed result }
    {
        self.columns[column.number()].range(from, to)
    }

    /// Returns all points of a column, ordered by time.
    pub(crate) fn points_of(&self, column: ColumnId) -> Points<'_>
        requires { column < length self.now.columns }
        ensures points { result ≡ (slice_index_or self.now.columns column no_points).points }
        ensures rising { IsRising result }
        ensures timed { AreTimed result }
    {
        self.columns[column.number()].all()
    }
}
