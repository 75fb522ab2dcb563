//! Iterator over the cells of a rule that have a frozen part.
ghost use Rattle.std.specs.Prelude.{◌≡◌, ◌+◌, ◌≤◌, length, [], ◌∷◌, MatchOption};
ghost use Rattle.std.specs.Iterator.{YieldsFirst, item_count};
ghost use Rattle.ts_store.specs.image.FrozenLeft.{frozen_cell, frozen_left, HasNearCells};
ghost use Rattle.ts_store.specs.read.LiveCells.{rollup_at};
ghost use Rattle.ts_store.specs.image.SavedContent.{frozen_from};

use crate::store::column_facts::ColumnFacts;
use std::alloc::Allocator;
use std::marker::Model;
use ts_cells::{CellEntry, Parts, Walk};
use ts_core::{Agg, Partial, Rule};

/// A cell with its frozen part.
#[derive(Drop)]
pub struct FrozenCell<'a, A: Allocator> {
    /// Index of its bucket.
    pub index: i128,
    /// Field.
    pub field: &'a str,
    /// Values of the rule's kept tags.
    pub group: &'a [String<A>],
    /// Aggregate of its frozen facts.
    pub frozen: Agg,
}

impl<'a, A: Allocator> Model for FrozenCell<'a, A> {
    ghost use Rattle.std.specs.Prelude.{map, string_bytes};
    ghost use Rattle.ts_store.specs.image.SavedContent.{FrozenCell as FrozenCellValue};

    ghost Value = { FrozenCellValue };

    ghost view = { λ c. record {
      cell = record { index = c.index; field = c.field.now; group = map string_bytes c.group.now };
      frozen = c.frozen;
    } };
}

/// Iterator over cells whose frozen part isn't empty. Its model is the list of those that remain.
#[derive(Drop)]
pub struct FrozenCells<'a, A: Allocator> {
    left: Walk<'a, Parts<Agg>, A>,
}

impl<'a, A: Allocator> Model for FrozenCells<'a, A> {
    ghost use Rattle.std.specs.Prelude.{List};
    ghost use Rattle.ts_store.specs.image.SavedContent.{FrozenCell as FrozenCellValue};
    ghost use Rattle.ts_store.specs.image.FrozenLeft.{frozen_left};

    ghost Value = { List FrozenCellValue };

    ghost view = { λ w. frozen_left w.left };
}

impl<A: Allocator + Copy> ColumnFacts<A> {
    /// Returns an iterator over the cells of a rule that have frozen facts, from bucket `low` on, ordered by index,
    /// field and group. `number` is the index of the rule in the settings.
    pub(crate) fn frozen_cells(
        &self,
        rule: &Rule<A>,
        number: usize,
        low: &i128,
    ) -> FrozenCells<'_, A>
        requires { HasNearCells self.now rule.now number }
        ensures { result ≡ frozen_from low.now (rollup_at self.now.rollups number).grid.cells }
    {
        FrozenCells {
            left: self.rollups[number].walk(low, &i128::MAX),
        }
    }

    /// Returns the number of these cells. Visits only cells below `low`, which are about to be removed.
    pub(crate) fn frozen_count(&self, rule: &Rule<A>, number: usize, low: &i128) -> u128
        requires { HasNearCells self.now rule.now number }
        ensures { result ≡ length (frozen_from low.now (rollup_at self.now.rollups number).grid.cells) }
    {
        let rollup = &self.rollups[number];
        let below = FrozenCells {
            left: rollup.walk(&i128::MIN, low),
        };
        without(rollup.frozen_count(), below)
    }
}

/// Returns the number of cells without these.
fn without<A: Allocator + Copy>(count: u128, cells: FrozenCells<'_, A>) -> u128
    requires { length cells ≤ count }
    ensures { result + length cells.entry ≡ count }
{
    let mut left = count;
    for _ in cells {
        left -= 1;
    }
    left
}

/// Returns the next cell whose frozen part isn't empty, and skips those before it.
fn next_frozen<'a, A: Allocator + Copy>(
    left: &mut Walk<'a, Parts<Agg>, A>,
) -> Option<CellEntry<'a, Parts<Agg>, A>>
    ensures { MatchOption result ((frozen_left left.old ≡ []) × (frozen_left left.new ≡ []))
        (λ k. frozen_left left.old ≡ frozen_cell k ∷ frozen_left left.new) }
{
    while let Some(kept) = left.next() {
        if kept.part.frozen.count() > 0 {
            return Some(kept);
        }
    }
    None
}

impl<'a, A: Allocator + Copy> Iterator for FrozenCells<'a, A> {
    type Item = FrozenCell<'a, A>;

    ghost next_gives = { YieldsFirst (λ w. w) };

    ghost remaining = { item_count (λ w. w) };

    fn next(&mut self) -> Option<FrozenCell<'a, A>> {
        let kept = next_frozen(&mut self.left)?;
        Some(FrozenCell {
            index: kept.index,
            field: kept.field,
            group: kept.group,
            frozen: kept.part.frozen,
        })
    }
}
