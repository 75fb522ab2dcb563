//! Plans over a view that isn't a store. It shows a cell of its own beside a store's points, and so need not show a
//! history.
ghost use Rattle.std.specs.Prelude.{◌≡◌, ◌∷◌, [], map};
ghost use Rattle.ts_core.specs.facts.Facts.{is_within};
ghost use Rattle.ts_core.specs.store.StoreData.{state_of, store_settings, store_marks};
ghost use Rattle.ts_core.specs.store.Views.{view_state_of};

use crate::stores::{ONE_RULE, at_second, count_plan, store_of, write_all};
use std::alloc::{Allocator, Global};
use std::slice;
use ts_check::Checked;
use ts_core::{Agg, MAX_COUNT, Marks, Partial, Settings};
use ts_exec::{Table, count_points, execute};
use ts_raw::{ColumnId, Points};
use ts_store::{CellWalk, Columns, Store, View, ViewCell};
use ts_testkit::{all_but_one, merged};

/// Raw points for the first minute, and the rule's cells for the second.
const TWO_PIECES: &str = "plan 1\nraw 0 60000000000\nrollup m1 60000000000 120000000000\nend\n";

/// The line of a point of value 5 in the first minute.
const LINE: [&str; 1] = ["cpu v=5i 7"];

/// Returns true if an index is in the range from one, inclusive, to another, exclusive.
fn is_within(from: &i128, to: &i128, index: &i128) -> bool
    ensures { result ≡ is_within from.now to.now index.now }
{
    *from <= *index && *index < *to
}

/// The points of a store, with this cell alone under each of its rules.
#[derive(Drop)]
struct OneCell<'a, A: Allocator> {
    store: &'a Store<A>,
    cell: ViewCell<'a, A>,
}

impl<'a, A: Allocator + Copy> View<A> for OneCell<'a, A> {
    ghost seen = { λ v. record {
      settings = store_settings v.store.now;
      marks = store_marks v.store.now;
      columns = v.store.now.columns;
      rules = map (λ r. record { rule = r.rule; low = r.low; cells = v.cell.cell ∷ []; parts = λ k. v.cell.parts }) (view_state_of (state_of v.store.now)).rules;
    } };

    fn settings(&self) -> &Settings<A> {
        self.store.settings()
    }

    fn marks(&self) -> &Marks<A> {
        self.store.marks()
    }

    fn columns_of(&self, measurement: &str, field: &str) -> Columns<'_, A> {
        self.store.columns_of(measurement, field)
    }

    fn raw_range(&self, column: ColumnId, from: i64, to: i64) -> Points<'_> {
        self.store.raw_range(column, from, to)
    }

    fn cell_walk(&self, _rule: usize, from: &i128, to: &i128) -> CellWalk<'_, A> {
        if is_within(from, to, &self.cell.index) {
            CellWalk::from_slice(slice::from_ref(&self.cell))
        } else {
            CellWalk::from_slice(&[])
        }
    }
}

/// Returns count and sum of a table's first row.
fn first_row<A: Allocator>(table: &Table<'_, A>) -> Option<(u64, i128)> {
    let row = table.groups().first()?.rows().first()?;
    Some((row.count(), row.sum()))
}

/// Returns count and sum of the first row of a plan's answer.
fn executed<A: Allocator + Copy>(
    alloc: A,
    view: &OneCell<'_, A>,
    plan: &Checked<A>,
) -> Option<(u64, i128)> {
    match execute(alloc, view, plan) {
        Ok(table) => first_row(&table),
        Err(_) => None,
    }
}

/// Returns the same, if a count by the plan succeeds, too.
fn answered<A: Allocator + Copy>(
    alloc: A,
    view: &OneCell<'_, A>,
    plan: &Checked<A>,
) -> Option<(u64, i128)> {
    if count_points(view, plan).is_ok() {
        executed(alloc, view, plan)
    } else {
        None
    }
}

/// Returns count and sum of a plan over a store's points in the first minute and a cell with this total in the second.
fn with_cell<A: Allocator + Copy>(alloc: A, store: &Store<A>, total: Agg) -> Option<(u64, i128)> {
    let plan = count_plan(alloc, store, 120, Some(TWO_PIECES))?;
    let cell = ViewCell::new(1, "v", &[], total, Agg::empty());
    answered(alloc, &OneCell { store, cell }, &plan)
}

/// Returns the same over a store with one point, of value 5.
fn both(alloc: Global, total: Agg) -> Option<(u64, i128)> {
    let mut store = store_of(alloc, alloc, ONE_RULE)?;
    if write_all(alloc, &mut store, &LINE) {
        with_cell(alloc, &store, total)
    } else {
        None
    }
}

/// Returns the same, where the cell has two points of these values.
fn both_of(alloc: Global, one: i64, other: i64) -> Option<(u64, i128)> {
    let time = at_second(60)?;
    both(
        alloc,
        merged(Agg::single(time, one), Agg::single(time, other))?,
    )
}

#[test]
fn a_cell_and_a_point_are_added(rt: HostRuntime) {
    assert_eq!(rt; both_of(rt.alloc(), 7, -4), Some((3, 8)));
}

/// Returns the same, where the cell has 2^62 - 1 points of value 1.
fn both_of_most(alloc: Global) -> Option<(u64, i128)> {
    both(alloc, all_but_one(at_second(60)?)?)
}

/// Returns the same, where the cell has 2^62 points of value 1.
fn both_of_all(alloc: Global) -> Option<(u64, i128)> {
    let time = at_second(60)?;
    both(alloc, merged(all_but_one(time)?, Agg::single(time, 1))?)
}

#[test]
fn a_cell_past_the_limit_is_left_out(rt: HostRuntime) {
    let sum = i128::from(MAX_COUNT) + 4;
    assert_eq!(rt; both_of_most(rt.alloc()), Some((MAX_COUNT, sum)));
    assert_eq!(rt; both_of_all(rt.alloc()), Some((1, 5)));
}
