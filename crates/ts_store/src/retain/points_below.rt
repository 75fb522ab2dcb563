//! Iterator over the points of a column below a mark.
ghost use Rattle.std.specs.Prelude.{◌≡◌};
ghost use Rattle.std.specs.FinMap as finmap;
ghost use Rattle.std.specs.Iterator.{YieldsFirst, item_count};
ghost use Rattle.ts_core.specs.moves.StoreMoves.{points_below};

use crate::store::column_facts::StoredColumn;
use std::alloc::Allocator;
use std::marker::Model;
use ts_core::Time;
use ts_raw::Points;

/// Iterator over the points of a column below a mark. It reads the column from its first point and stops at the mark,
/// so it needs no search. Its model is the list of those that remain.
#[derive(Drop)]
pub(crate) struct PointsBelow<'a> {
    left: Points<'a>,
    mark: Time,
}

impl<'a> Model for PointsBelow<'a> {
    ghost use Rattle.std.specs.Prelude.{ℤ, List};
    ghost use Rattle.ts_core.specs.moves.StoreMoves.{points_below};
    ghost use Rattle.ts_raw.specs.PlainColumns.{IsRising};

    ghost Value = { List (ℤ × ℤ) };

    ghost view = { λ p. points_below p.mark p.left };

    ghost invariant = { λ p. IsRising p.left };
}

impl<'a> PointsBelow<'a> {
    /// Creates an iterator over the points of a column below a mark.
    pub(crate) fn new<A: Allocator + Copy>(
        column: &'a StoredColumn<A>,
        mark: Time,
    ) -> PointsBelow<'a>
        ensures { result ≡ points_below mark (finmap.entries column.now.points) }
    {
        PointsBelow {
            left: column.all(),
            mark,
        }
    }
}

impl Iterator for PointsBelow<'_> {
    type Item = (Time, i64);

    ghost next_gives = { YieldsFirst (λ p. p) };

    ghost remaining = { item_count (λ p. p) };

    fn next(&mut self) -> Option<(Time, i64)> {
        let (time, value) = self.left.next()?;
        if time >= self.mark {
            return None;
        }
        Some((time, value))
    }
}
