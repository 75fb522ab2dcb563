//! The cells of a rule at their limits: counts of 2^62, buckets at both ends, and cells that are removed in batches.
ghost use Rattle.std.specs.Prelude.{◌<◌, length, IfOk};

use std::alloc::{AllocError, Global};
use std::test::Fail;
use ts_cells::{Cells, RollupSeriesId};
use ts_core::{Agg, MAX_COUNT, Partial, Time};
use ts_testkit::{all_but_one, fixed_seed};

/// Returns the rollup series of field `v` without a group.
fn rollup_series_of(cells: &mut Cells<Agg, Global>) -> Result<RollupSeriesId, AllocError>
    ensures { IfOk result (λ series. series < length cells.new.rollup_series) }
{
    cells.series("v", &[])
}

/// Creates the cell of a bucket.
fn make_room(cells: &mut Cells<Agg, Global>, index: i128) -> Result<(), AllocError> {
    let series = rollup_series_of(cells)?;
    cells.make_room(&index, series)
}

/// Creates the cells of these first buckets; returns true if there was memory.
fn make_first(cells: &mut Cells<Agg, Global>, count: u32) -> bool {
    for index in 0..count {
        if make_room(cells, i128::from(index)).is_err() {
            return false;
        }
    }
    true
}

/// Low indices, and the number of cells that each removes of 300, one after another.
const LOWS: [(i128, usize); 5] = [
    (i128::MIN, 0),
    (300, 256),
    (299, 43),
    (i128::MAX, 1),
    (i128::MAX, 0),
];

/// Returns the first low index that removes another number of cells.
fn first_wrong_low(cells: &mut Cells<Agg, Global>) -> Option<i128> {
    for (low, removed) in &LOWS {
        if cells.expire(low) != *removed {
            return Some(*low);
        }
    }
    None
}

#[test]
fn cells_are_removed_in_portions(rt: HostRuntime) -> Result<(), Fail> {
    let mut cells = Cells::new(rt.alloc(), fixed_seed().ok_or("a seed")?);
    assert!(rt; make_first(&mut cells, 300));
    assert_eq!(rt; first_wrong_low(&mut cells), None);
    Ok(())
}

/// Returns true if exactly these buckets have cells, of those from one, inclusive, to another, exclusive.
fn has_buckets(cells: &Cells<Agg, Global>, from: i128, to: i128, indices: &[i128]) -> bool {
    let mut left = indices;
    for cell in cells.walk(&from, &to) {
        let Some((first, rest)) = left.split_first() else {
            return false;
        };
        if cell.index != *first {
            return false;
        }
        left = rest;
    }
    left.is_empty()
}

/// Creates the cells of buckets; returns true if there was memory.
fn make_all(cells: &mut Cells<Agg, Global>, indices: &[i128]) -> bool {
    for index in indices {
        if make_room(cells, *index).is_err() {
            return false;
        }
    }
    true
}

#[test]
fn buckets_have_any_index(rt: HostRuntime) -> Result<(), Fail> {
    let mut cells = Cells::new(rt.alloc(), fixed_seed().ok_or("a seed")?);
    assert!(rt; make_all(&mut cells, &[0, i128::MAX, i128::MIN, -1]));
    assert!(rt; has_buckets(&cells, i128::MIN, i128::MAX, &[i128::MIN, -1, 0]));
    assert!(rt; has_buckets(&cells, 1, i128::MAX, &[]));
    assert!(rt; has_buckets(&cells, 1, -1, &[]));
    Ok(())
}

/// Returns the counts of the frozen and the live part of the cell of bucket 0.
fn counts(cells: &mut Cells<Agg, Global>) -> Option<(u64, u64)> {
    let series = rollup_series_of(cells).ok()?;
    let parts = cells.get(&0, series)?;
    Some((parts.frozen.count(), parts.live.count()))
}

/// Merges a part into both parts of the cell of bucket 0. Returns their counts after it.
fn add_to_both(cells: &mut Cells<Agg, Global>, part: Agg) -> Option<(u64, u64)> {
    let series = rollup_series_of(cells).ok()?;
    cells.freeze(&0, series, part);
    cells.add(&0, series, part);
    counts(cells)
}

#[test]
fn a_count_has_a_limit(rt: HostRuntime) -> Result<(), Fail> {
    let time = Time::least();
    let one = Agg::single(time, 1);
    let most = all_but_one(time).ok_or("a count")?;
    let mut cells = Cells::new(rt.alloc(), fixed_seed().ok_or("a seed")?);
    // without a cell nothing is added
    assert_eq!(rt; add_to_both(&mut cells, one), None);
    assert!(rt; make_all(&mut cells, &[0]));
    let below = (MAX_COUNT - 1, MAX_COUNT - 1);
    assert_eq!(rt; add_to_both(&mut cells, most), Some(below));
    // the second of two points would exceed 2^62, and is left out
    for _ in 0..2 {
        assert_eq!(rt; add_to_both(&mut cells, one), Some((MAX_COUNT, MAX_COUNT)));
    }
    Ok(())
}
