//! Read access for the executor.
ghost use Rattle.std.specs.Prelude.{◌≡◌, ◌<◌, length, map};
ghost use Rattle.ts_core.specs.facts.Facts.{is_of};
ghost use Rattle.ts_core.specs.store.Views.{ViewState};
ghost use Rattle.ts_core.specs.store.StoreStates.{rule_of};
ghost use Rattle.ts_store.specs.read.ViewResults.{column_refs_where, points_at, view_cells_at};

use crate::read::{CellWalk, Columns};
use std::alloc::Allocator;
use std::marker::Model;
use ts_core::{Key, Marks, Settings};
use ts_raw::{ColumnId, Points};

/// A column's id, with the key of its series.
#[derive(Drop)]
pub struct ViewColumn<'a, A: Allocator> {
    /// Id of the column.
    pub id: ColumnId,
    /// Key of its series.
    pub key: &'a Key<A>,
}

impl<'a, A: Allocator> Model for ViewColumn<'a, A> {
    ghost use Rattle.ts_store.specs.read.ViewResults.{ColumnRef};

    ghost Value = { ColumnRef };

    ghost view = { λ c. record { number = c.id; series = c.key.now } };
}

/// Read access for the executor: settings, marks, raw points at or above the raw mark, and cells at or above the low
/// indices.
pub trait View<A: Allocator> {
    // Everything that the view shows.
    ghost seen: { Self → ViewState };

    /// Returns the settings. The view shows the cells of each of their rules, in their order.
    fn settings(&self) -> &Settings<A>
        ensures value { result.now ≡ (seen self.now).settings }
        ensures rules { map rule_of (seen self.now).rules ≡ (seen self.now).settings.rules };

    /// Returns the marks.
    fn marks(&self) -> &Marks<A>
        ensures { result.now ≡ (seen self.now).marks };

    /// Returns the columns of a measurement and a field, in creation order.
    fn columns_of(&self, measurement: &str, field: &str) -> Columns<'_, A>
        ensures { result ≡ column_refs_where (is_of measurement.now field.now) (seen self.now).columns };

    /// Returns the points of a column from `from`, inclusive, to `to`, exclusive (nanoseconds).
    fn raw_range(&self, column: ColumnId, from: i64, to: i64) -> Points<'_>
        requires { column < length (seen self.now).columns }
        ensures { result ≡ points_at (seen self.now).columns column from to };

    /// Returns the cells of the rule with this index, from bucket `from`, inclusive, to bucket `to`, exclusive.
    fn cell_walk(&self, rule: usize, from: &i128, to: &i128) -> CellWalk<'_, A>
        requires { rule < length (seen self.now).rules }
        ensures { result ≡ view_cells_at (seen self.now).rules rule from.now to.now };
}
