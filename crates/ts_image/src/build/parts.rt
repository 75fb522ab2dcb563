//! Creates marks, tags and frozen parts from the parts of an image.
ghost use Rattle.std.specs.Prelude.{◌≡◌, ◌≤◌, [], length, map, string_bytes, IfOk};
ghost use Rattle.ts_core.specs.text.Texts.{borrowed_pairs};
ghost use Rattle.ts_core.specs.facts.Times.{IsTime};
ghost use Rattle.ts_cells.specs.Grids.{borrowed_texts};
ghost use Rattle.ts_image.specs.CellParts.{marks_of_parts, cell_of_parts};
ghost use Rattle.ts_image.specs.PartsMade.{HasPart};
ghost use Rattle.ts_image.specs.Pictures.{cell_part_of};
ghost use Rattle.ts_image.specs.PointParts.{point_of};
ghost use Rattle.ts_image.specs.SeriesParts.{tag_of};

use crate::read::cells::{CellParts, MarksParts};
use arrayvec::ArrayVec;
use std::alloc::{AllocError, Allocator};
use ts_core::{Agg, Extremes, Marks, Time};

/// Creates marks. The raw mark must be a valid time.
pub(crate) fn make_marks<A: Allocator + Copy>(
    alloc: A,
    parts: &MarksParts<A>,
) -> Result<Marks<A>, AllocError>
    requires { IsTime parts.now.raw }
    ensures { IfOk result (λ m. m ≡ marks_of_parts parts.now) }
{
    let raw = Time::new(parts.raw).unwrap();
    let mut lows = Vec::with_capacity(alloc, parts.lows.len())?;
    for low in &parts.lows {
        lows.push(i128::from(*low))?;
    }
    Ok(Marks::new(raw, lows))
}

/// Borrows the texts of tags.
pub(crate) fn borrow_tags<'a, A: Allocator>(
    tags: &'a [(String<A>, String<A>)],
    borrowed: &mut ArrayVec<(&'a str, &'a str), 64>,
)
    requires none { borrowed.old.items ≡ [] }
    requires few { length tags.now ≤ 64 }
    ensures { borrowed_pairs borrowed.new.items ≡ map tag_of tags.now }
{
    for tag in tags {
        borrowed.push((tag.0.as_str(), tag.1.as_str()));
    }
}

/// Borrows texts.
pub(crate) fn borrow_strings<'a, A: Allocator + Copy>(
    alloc: A,
    texts: &'a [String<A>],
) -> Result<Vec<&'a str, A>, AllocError>
    ensures { IfOk result (λ v. borrowed_texts v.items ≡ map string_bytes texts.now) }
{
    let mut borrowed = Vec::with_capacity(alloc, texts.len())?;
    for text in texts {
        borrowed.push(text.as_str())?;
    }
    Ok(borrowed)
}

/// Creates a point. The time must be valid.
fn make_point(point: (i64, i64)) -> (Time, i64)
    requires { IsTime point.0 }
    ensures { result ≡ point_of point }
{
    (Time::new(point.0).unwrap(), point.1)
}

/// Creates the frozen part of a cell that was tested.
pub(crate) fn make_part<A: Allocator>(parts: &CellParts<A>) -> Agg
    requires { HasPart (cell_of_parts parts.now) }
    ensures { result ≡ cell_part_of (cell_of_parts parts.now) }
{
    let extremes = Extremes {
        min: parts.extremes.min,
        max: parts.extremes.max,
        first: make_point(parts.extremes.first),
        last: make_point(parts.extremes.last),
    };
    Agg::from_parts(parts.count, parts.sum, Some(extremes)).unwrap()
}
