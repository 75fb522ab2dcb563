//! Writes columns to an image.
ghost use Rattle.std.specs.Int.{w64};
ghost use Rattle.ts_core.specs.io.ReadingAhead.{bit};
ghost use Rattle.ts_image.specs.declared.version.Version.TheVariants.{V2};
ghost use Rattle.ts_image.specs.Formats.{list_of};
ghost use Rattle.ts_image.specs.Images.{image_point, image_column};
ghost use Rattle.ts_image.specs.FieldWriting.{PutsField, PutsAll};

use crate::write::cells::put_point;
use crate::write::fields::{put_text, put_u8, put_u64};
use std::alloc::Allocator;
use std::io::Write;
use ts_core::{OutputBuffer, Refused, Sink};
use ts_raw::Points;

/// Writes points, one after another.
fn put_points<W: Write, A: Allocator>(
    points: Points<'_>,
    out: &mut OutputBuffer<A>,
    sink: &mut Sink<W>,
) -> Result<(), Refused>
    ensures { PutsAll image_point points.entry sink.old out.old result sink.new out.new }
{
    for (time, value) in points {
        put_point(time, &value, out, sink)?;
    }
    Ok(())
}

/// Writes the number of points, and the points.
fn put_counted_points<W: Write, A: Allocator>(
    points: Points<'_>,
    out: &mut OutputBuffer<A>,
    sink: &mut Sink<W>,
) -> Result<(), Refused>
    ensures { PutsField (list_of w64 image_point) points.entry sink.old out.old result sink.new out.new }
{
    put_u64(points.len() as u64, out, sink)?;
    put_points(points, out, sink)
}

/// Writes a column: its field, 1 if it waits for the open run and 0 otherwise, and its points.
pub(crate) fn put_column<W: Write, A: Allocator>(
    field: &str,
    waits: bool,
    points: Points<'_>,
    out: &mut OutputBuffer<A>,
    sink: &mut Sink<W>,
) -> Result<(), Refused>
    ensures { PutsField (image_column V2) (record { field = field.now; waits = bit waits; points = points.entry })
        sink.old out.old result sink.new out.new }
{
    put_text(field, out, sink)?;
    put_u8(u8::from(waits), out, sink)?;
    put_counted_points(points, out, sink)
}
