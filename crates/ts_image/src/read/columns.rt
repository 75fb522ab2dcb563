//! Reads the points of a column from an image.
ghost use Rattle.std.specs.Int.{w64};
ghost use Rattle.ts_core.specs.io.ReadingAhead.{EndIsEnd};
ghost use Rattle.ts_image.specs.Formats.{times, list_of};
ghost use Rattle.ts_image.specs.Images.{image_point};
ghost use Rattle.ts_image.specs.FieldReading.{ReadsField};
ghost use Rattle.ts_image.specs.PointParts.{point_of};

use crate::field_fault::FieldFault;
use crate::read::fields::FieldReader;
use crate::read::points::PointsParts;
use std::alloc::Allocator;
use std::io::Read;
use ts_core::Source;

/// Reads a point.
pub(crate) fn read_point<R: Read, A: Allocator + Copy>(
    reader: &mut FieldReader<A>,
    source: &mut Source<R>,
) -> Result<(i64, i64), FieldFault>
    requires { EndIsEnd reader.old.ahead source.old }
    ensures { ReadsField image_point point_of reader.old source.old result reader.new source.new }
{
    let time = reader.i64(source)?;
    let value = reader.i64(source)?;
    Ok((time, value))
}

/// Reads `count` points into coded blocks. Allocates for points that were read, not by `count`.
fn read_points<R: Read, A: Allocator + Copy>(
    alloc: A,
    reader: &mut FieldReader<A>,
    source: &mut Source<R>,
    count: u64,
) -> Result<PointsParts<A>, FieldFault>
    requires { EndIsEnd reader.old.ahead source.old }
    ensures { ReadsField
        (times count image_point) (λ points. points) reader.old source.old result reader.new source.new }
{
    let mut points = PointsParts::new(alloc);
    for _ in 0..count {
        let point = read_point(reader, source)?;
        points.push(point)?;
    }
    Ok(points)
}

/// Reads the number of points, and the points.
pub(crate) fn read_counted_points<R: Read, A: Allocator + Copy>(
    alloc: A,
    reader: &mut FieldReader<A>,
    source: &mut Source<R>,
) -> Result<PointsParts<A>, FieldFault>
    requires { EndIsEnd reader.old.ahead source.old }
    ensures { ReadsField
        (list_of w64 image_point) (λ points. points) reader.old source.old result reader.new source.new }
{
    let count = reader.u64(source)?;
    read_points(alloc, reader, source, count)
}
