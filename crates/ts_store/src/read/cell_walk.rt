//! Iterators over the cells that a view shows.
ghost use Rattle.std.specs.Prelude.{◌≡◌, ◌+◌, ◌≤◌, ◌^◌, map, string_bytes};
ghost use Rattle.std.specs.Iterator.{YieldsFirst, item_count};
ghost use Rattle.ts_core.specs.store.StoreStates.{total_in};
ghost use Rattle.ts_store.specs.read.LiveCells.{cells_of_rule, IsRuled};

use crate::store::column_facts::ColumnFacts;
use std::alloc::Allocator;
use std::marker::Model;
use ts_cells::{Parts, Walk};
use ts_core::{Agg, Partial, Rule};

/// A cell with both its parts, which have at most 2^62 facts together.
#[derive(Drop)]
pub struct ViewCell<'a, A: Allocator> {
    /// Index of its bucket.
    pub index: i128,
    /// Field.
    pub field: &'a str,
    /// Values of the rule's kept tags.
    pub group: &'a [String<A>],
    frozen: Agg,
    live: Agg,
}

impl<'a, A: Allocator> Model for ViewCell<'a, A> {
    ghost use Rattle.std.specs.Prelude.{◌+◌, ◌≤◌, ◌^◌, map, string_bytes};
    ghost use Rattle.ts_store.specs.read.ViewResults.{SeenCell};

    ghost Value = { SeenCell };

    ghost view = { λ c. record {
      cell = record { index = c.index; field = c.field.now; group = map string_bytes c.group.now };
      parts = record { frozen = c.frozen; live = c.live };
    } };

    ghost invariant = { λ c. c.frozen.count + c.live.count ≤ 2 ^ 62 };
}

impl<'a, A: Allocator> ViewCell<'a, A> {
    /// Creates a cell, for views that aren't stores.
    pub fn new(
        index: i128,
        field: &'a str,
        group: &'a [String<A>],
        frozen: Agg,
        live: Agg,
    ) -> ViewCell<'a, A>
        requires { frozen.count + live.count ≤ 2 ^ 62 }
        ensures { result ≡ record {
          cell = record { index = index; field = field.now; group = map string_bytes group.now };
          parts = record { frozen = frozen; live = live };
        } }
    {
        ViewCell {
            index,
            field,
            group,
            frozen,
            live,
        }
    }

    /// Returns the aggregate of its frozen facts.
    pub fn frozen(&self) -> Agg
        ensures { result ≡ self.now.parts.frozen }
    {
        self.frozen
    }

    /// Returns the aggregate of its raw facts.
    pub fn live(&self) -> Agg
        ensures { result ≡ self.now.parts.live }
    {
        self.live
    }

    /// Returns the number of its facts.
    pub fn count(&self) -> u64
        ensures { result ≡ (total_in self.now.parts).count }
    {
        self.frozen.count() + self.live.count()
    }

    /// Returns the aggregate of its facts, merging both parts.
    pub fn total(&self) -> Agg
        ensures { result ≡ total_in self.now.parts }
    {
        self.frozen.merge(self.live)
    }

    fn again(&self) -> ViewCell<'a, A>
        ensures { result ≡ self.now }
    {
        ViewCell {
            index: self.index,
            field: self.field,
            group: self.group,
            frozen: self.frozen,
            live: self.live,
        }
    }
}

/// Iterator over the cells of a rollup. Its model is the list of those that remain.
#[derive(Drop)]
struct RollupCells<'a, A: Allocator> {
    left: Walk<'a, Parts<Agg>, A>,
}

impl<'a, A: Allocator> Model for RollupCells<'a, A> {
    ghost use Rattle.std.specs.Prelude.{List};
    ghost use Rattle.ts_store.specs.read.ViewResults.{SeenCell};
    ghost use Rattle.ts_store.specs.read.LiveCells.{walked_cells, AreWhole};

    ghost Value = { List SeenCell };

    ghost view = { λ w. walked_cells w.left };

    ghost invariant = { λ w. AreWhole w.left };
}

/// Iterator over the cells of a slice. Its model is the list of those that remain.
#[derive(Drop)]
struct SliceCells<'a, A: Allocator> {
    cells: &'a [ViewCell<'a, A>],
    given: usize,
}

impl<'a, A: Allocator> Model for SliceCells<'a, A> {
    ghost use Rattle.std.specs.Prelude.{List, drop};
    ghost use Rattle.ts_store.specs.read.ViewResults.{SeenCell};

    ghost Value = { List SeenCell };

    ghost view = { λ c. drop c.given c.cells.now };
}

#[derive(Drop)]
enum CellsSource<'a, A: Allocator> {
    Rollup(RollupCells<'a, A>),
    Borrowed(SliceCells<'a, A>),
}

/// Iterator over the cells of a rule. Its model is the list of those that remain.
#[derive(Drop)]
pub struct CellWalk<'a, A: Allocator> {
    left: CellsSource<'a, A>,
}

impl<'a, A: Allocator> Model for CellWalk<'a, A> {
    ghost use Rattle.std.specs.Prelude.{List};
    ghost use Rattle.ts_store.specs.read.ViewResults.{SeenCell};
    ghost use Rattle.ts_store.specs.read.CellsLeft.{cells_left};

    ghost Value = { List SeenCell };

    ghost view = { λ w. cells_left w.left };
}

impl<'a, A: Allocator> CellWalk<'a, A> {
    /// Creates an iterator over these cells, for views that aren't stores.
    pub fn from_slice(cells: &'a [ViewCell<'a, A>]) -> CellWalk<'a, A>
        ensures { result ≡ cells.now }
    {
        CellWalk {
            left: CellsSource::Borrowed(SliceCells { cells, given: 0 }),
        }
    }
}

impl<A: Allocator + Copy> ColumnFacts<A> {
    /// Returns an iterator over the cells of a rule with their parts, ordered by index, field and group. They are
    /// those from bucket `from`, inclusive, to bucket `to`, exclusive. `number` is the index of the rule in the
    /// settings.
    pub(crate) fn cell_walk<'a>(
        &'a self,
        rule: &Rule<A>,
        number: usize,
        from: &i128,
        to: &i128,
    ) -> CellWalk<'a, A>
        requires { IsRuled self.now rule.now number }
        ensures { result ≡ cells_of_rule self.now rule.now number from.now to.now }
    {
        let left = self.rollups[number].walk(from, to);
        CellWalk {
            left: CellsSource::Rollup(RollupCells { left }),
        }
    }
}

impl<'a, A: Allocator + Copy> Iterator for RollupCells<'a, A> {
    type Item = ViewCell<'a, A>;

    ghost next_gives = { YieldsFirst (λ w. w) };

    ghost remaining = { item_count (λ w. w) };

    fn next(&mut self) -> Option<ViewCell<'a, A>> {
        let kept = self.left.next()?;
        Some(ViewCell {
            index: kept.index,
            field: kept.field,
            group: kept.group,
            frozen: kept.part.frozen,
            live: kept.part.live,
        })
    }
}

impl<'a, A: Allocator> Iterator for SliceCells<'a, A> {
    type Item = ViewCell<'a, A>;

    ghost next_gives = { YieldsFirst (λ c. c) };

    ghost remaining = { item_count (λ c. c) };

    fn next(&mut self) -> Option<ViewCell<'a, A>> {
        if self.given >= self.cells.len() {
            return None;
        }
        let cell = &self.cells[self.given];
        self.given += 1;
        Some(cell.again())
    }
}

impl<'a, A: Allocator + Copy> Iterator for CellWalk<'a, A> {
    type Item = ViewCell<'a, A>;

    ghost next_gives = { YieldsFirst (λ w. w) };

    ghost remaining = { item_count (λ w. w) };

    fn next(&mut self) -> Option<ViewCell<'a, A>> {
        match &mut self.left {
            CellsSource::Rollup(cells) => cells.next(),
            CellsSource::Borrowed(cells) => cells.next(),
        }
    }
}
