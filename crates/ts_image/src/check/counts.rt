//! Tests if an image has more points and cell counts than accepted facts. Each function subtracts from the number that
//! is left, so no sum overflows; `None` means that there are too many. Does not allocate.
ghost use Rattle.std.specs.Prelude.{map, length};
ghost use Rattle.std.specs.List.{sum_by};
ghost use Rattle.ts_image.specs.Images.{ImageColumn};
ghost use Rattle.ts_image.specs.ImageTests.{points_of_series, points_in_all, count_frozen};
ghost use Rattle.ts_image.specs.SeriesParts.{column_of_parts, series_of_parts};
ghost use Rattle.ts_image.specs.CellParts.{cell_of_parts};
ghost use Rattle.ts_image.specs.TestParts.{points_if, IsSubtracted};

use crate::read::cells::CellParts;
use crate::read::series::{ColumnParts, SeriesParts};
use std::alloc::Allocator;

/// Subtracts the points of columns.
fn subtract_columns<A: Allocator>(mut left: u64, columns: &[ColumnParts<A>]) -> Option<u64>
    ensures { IsSubtracted left
        (sum_by (λ (c : ImageColumn). length c.points) (map column_of_parts columns.now)) result }
{
    for column in columns {
        match column.points.subtract_from(left) {
            Some(rest) => left = rest,
            None => return None,
        }
    }
    Some(left)
}

/// Subtracts the points of a series.
fn subtract_one<A: Allocator>(left: u64, one: &SeriesParts<A>) -> Option<u64>
    ensures { IsSubtracted left (points_of_series (series_of_parts one.now)) result }
{
    subtract_columns(left, &one.columns)
}

/// Subtracts the points of all series.
pub(crate) fn subtract_series<A: Allocator>(mut left: u64, series: &[SeriesParts<A>]) -> Option<u64>
    ensures { IsSubtracted left (points_in_all (map series_of_parts series.now)) result }
{
    for one in series {
        match subtract_one(left, one) {
            Some(rest) => left = rest,
            None => return None,
        }
    }
    Some(left)
}

fn subtract_if<A: Allocator>(left: u64, one: &SeriesParts<A>, measurement: &str) -> Option<u64>
    ensures { IsSubtracted left (points_if measurement.now (series_of_parts one.now)) result }
{
    if one.key.measurement.as_str() == measurement {
        subtract_one(left, one)
    } else {
        Some(left)
    }
}

/// Subtracts the points of a measurement.
pub(crate) fn subtract_measurement<A: Allocator>(
    mut left: u64,
    series: &[SeriesParts<A>],
    measurement: &str,
) -> Option<u64>
    ensures { IsSubtracted left (sum_by (points_if measurement.now) (map series_of_parts series.now)) result }
{
    for one in series {
        match subtract_if(left, one, measurement) {
            Some(rest) => left = rest,
            None => return None,
        }
    }
    Some(left)
}

/// Subtracts the counts of cells.
pub(crate) fn subtract_cells<A: Allocator>(mut left: u64, cells: &[CellParts<A>]) -> Option<u64>
    ensures { IsSubtracted left (count_frozen (map cell_of_parts cells.now)) result }
{
    for cell in cells {
        if cell.count > left {
            return None;
        }
        left -= cell.count;
    }
    Some(left)
}
