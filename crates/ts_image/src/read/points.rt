//! Points of a column as they are read from an image, in coded blocks.
ghost use Rattle.std.specs.Prelude.{◌≡◌, ◌↔◌, ◌≤ℤ◌, ◌<ℤ◌, ◌++◌, ◌∷◌, [], ℤ, length, map, None, IsTrue, IfSome, OnOk, OnErr};
ghost use Rattle.std.specs.FinMap as finmap;
ghost use Rattle.std.specs.List.{AllByRecursion};
ghost use Rattle.std.specs.Ordering.{int_cmp};
ghost use Rattle.ts_raw.specs.Columns.{AreTimed};
ghost use Rattle.ts_store.specs.image.SavedContent.{AreRising};
ghost use Rattle.ts_image.specs.ImageTests.{IsImagePoint};
ghost use Rattle.ts_image.specs.PointParts.{IsNextPoint, IsOther};
ghost use Rattle.ts_image.specs.TestParts.{IsSubtracted};

use std::alloc::{AllocError, Allocator};
use std::marker::Model;
use ts_core::Time;
use ts_raw::{Column as _, StoredColumn};

/// Points of a column in an image, untested. Those that have valid times in ascending order are put into a column. From
/// the first other point on, which only an image that contradicts itself has, they go to a list beside it.
#[derive(Drop)]
pub struct PointsParts<A: Allocator> {
    column: StoredColumn<A>,
    /// Time of the column's last point, or a number below all valid times.
    last: i64,
    others: Vec<(i64, i64), A>,
}

impl<A: Allocator> Model for PointsParts<A> {
    ghost use Rattle.std.specs.Prelude.{ℤ, List, ◌++◌};
    ghost use Rattle.std.specs.FinMap as finmap;
    ghost use Rattle.ts_image.specs.PointParts.{AreParted};

    ghost Value = { List (ℤ × ℤ) };

    ghost view = { λ p. finmap.entries p.column.points ++ p.others.items };

    ghost invariant = { λ p. AreParted (finmap.entries p.column.points) p.last p.others.items };
}

/// Returns the time of the next point if the point goes into the column.
fn next_time(last: &i64, others: &[(i64, i64)], nanos: &i64) -> Option<Time>
    ensures next { IfSome result (λ t. (t ≡ nanos.now) × IsNextPoint last.now others.now t) }
    ensures other { result ≡ None → others.now ≡ [] → IsOther last.now nanos.now }
{
    if others.is_empty() && *last < *nanos {
        Time::new(*nanos)
    } else {
        None
    }
}

/// Appends a point to a column, whose points must be before it. On allocation failure, no point changes.
fn append<A: Allocator + Copy>(
    column: &mut StoredColumn<A>,
    time: Time,
    value: i64,
) -> Result<(), AllocError>
    requires { AllByRecursion (λ p. p.0 <ℤ time) (finmap.entries column.old.points) }
    ensures ok { OnOk result
        (finmap.entries column.new.points ≡ finmap.entries column.old.points ++ (time, value) ∷ []) }
    ensures err { OnErr result (column.new.points ≡ column.old.points) }
{
    column.prepare(time, value)?;
    column.commit();
    Ok(())
}

/// Returns true if no point of a column is before a time.
fn is_from<A: Allocator>(column: &StoredColumn<A>, mark: &i64) -> bool
    ensures { IsTrue result ↔ AllByRecursion (λ p. mark.now ≤ℤ p.0) (finmap.entries column.now.points) }
{
    match column.all().next() {
        Some(point) => *mark <= point.0.nanos(),
        None => true,
    }
}

impl<A: Allocator + Copy> PointsParts<A> {
    /// Creates an empty list. Does not allocate.
    pub(crate) fn new(alloc: A) -> PointsParts<A>
        ensures { result ≡ [] }
    {
        PointsParts {
            column: StoredColumn::new(alloc),
            last: i64::MIN,
            others: Vec::new(alloc),
        }
    }

    /// Appends a point.
    pub(crate) fn push(&mut self, point: (i64, i64)) -> Result<(), AllocError>
        ensures { OnOk result (self.new ≡ self.old ++ point ∷ []) }
    {
        match next_time(&self.last, &self.others, &point.0) {
            Some(time) => {
                append(&mut self.column, time, point.1)?;
                self.last = point.0;
            }
            None => self.others.push(point)?,
        }
        Ok(())
    }
}

impl<A: Allocator> PointsParts<A> {
    /// Returns true if the points have valid times in ascending order, and none is below the raw mark unless the column
    /// waits.
    pub(crate) fn are_possible(&self, mark: &i64, waits: u8) -> bool
        ensures { IsTrue result ↔ (AllByRecursion (IsImagePoint mark.now waits) self.now
            × AreRising int_cmp (map (λ (p : ℤ × ℤ). p.0) self.now)) }
    {
        self.others.is_empty() && (waits == 1 || is_from(&self.column, mark))
    }

    /// Subtracts the number of points, or returns `None` if it is greater than `left`.
    pub(crate) fn subtract_from(&self, left: u64) -> Option<u64>
        ensures { IsSubtracted left (length self.now) result }
    {
        let rest = left.checked_sub(self.column.all().len() as u64)?;
        rest.checked_sub(self.others.len() as u64)
    }

    /// Returns the column of the points. They must have valid times in ascending order.
    pub(crate) fn into_column(self) -> StoredColumn<A>
        requires timed { AreTimed self }
        requires rising { AreRising int_cmp (map (λ (p : ℤ × ℤ). p.0) self) }
        ensures { finmap.entries result.points ≡ self }
    {
        self.column
    }
}
