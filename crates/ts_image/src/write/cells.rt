//! Writes cells with their frozen parts to an image.
ghost use Rattle.std.specs.Prelude.{◌≡◌, ◌<◌, FitsSigned, length, map, string_bytes};
ghost use Rattle.std.specs.Int.{w64, w128};
ghost use Rattle.ts_image.specs.Formats.{number, signed_number, also};
ghost use Rattle.ts_image.specs.Images.{ImageRule, image_point, image_extremes, image_cell_key, image_cell};
ghost use Rattle.ts_image.specs.FieldWriting.{PutsField};
ghost use Rattle.ts_image.specs.SavedParts.{extremes_in, image_cell_with};

use crate::write::fields::{put_i64, put_i128, put_index, put_strings, put_text, put_u64};
use std::alloc::Allocator;
use std::io::Write;
use ts_core::{Agg, Extremes, OutputBuffer, Partial, Refused, Sink, Time};

/// Writes a point.
pub(crate) fn put_point<W: Write, A: Allocator>(
    time: Time,
    value: &i64,
    out: &mut OutputBuffer<A>,
    sink: &mut Sink<W>,
) -> Result<(), Refused>
    ensures { PutsField image_point (time, value.now) sink.old out.old result sink.new out.new }
{
    put_i64(&time.nanos(), out, sink)?;
    put_i64(value, out, sink)
}

/// Writes extremes.
fn put_extremes<W: Write, A: Allocator>(
    extremes: &Extremes,
    out: &mut OutputBuffer<A>,
    sink: &mut Sink<W>,
) -> Result<(), Refused>
    ensures { PutsField image_extremes extremes.now sink.old out.old result sink.new out.new }
{
    put_i64(&extremes.min, out, sink)?;
    put_i64(&extremes.max, out, sink)?;
    put_point(extremes.first.0, &extremes.first.1, out, sink)?;
    put_point(extremes.last.0, &extremes.last.1, out, sink)
}

/// Writes a part with these extremes.
fn put_part<W: Write, A: Allocator>(
    part: &Agg,
    extremes: &Extremes,
    out: &mut OutputBuffer<A>,
    sink: &mut Sink<W>,
) -> Result<(), Refused>
    ensures { PutsField (also (number w64) (also (signed_number w128) image_extremes))
        (part.now.count, (part.now.sum, extremes.now)) sink.old out.old result sink.new out.new }
{
    put_u64(part.count(), out, sink)?;
    put_i128(&part.sum(), out, sink)?;
    put_extremes(extremes, out, sink)
}

/// Writes a part that isn't empty.
fn put_some_part<W: Write, A: Allocator>(
    part: &Agg,
    out: &mut OutputBuffer<A>,
    sink: &mut Sink<W>,
) -> Result<(), Refused>
    requires { 0 < part.now.count }
    ensures { PutsField (also (number w64) (also (signed_number w128) image_extremes))
        (part.now.count, (part.now.sum, extremes_in part.now.extremes)) sink.old out.old result sink.new out.new }
{
    match part.extremes() {
        None => unreachable!(),
        Some(extremes) => put_part(part, &extremes, out, sink),
    }
}

/// Writes the key of a cell: the index of its bucket, its field, and its values of the kept tags.
fn put_cell_key<W: Write, A: Allocator>(
    index: &i128,
    field: &str,
    group: &[String<A>],
    out: &mut OutputBuffer<A>,
    sink: &mut Sink<W>,
) -> Result<(), Refused>
    requires { FitsSigned w64 index.now }
    ensures { (r : ImageRule)
        → length group.now ≡ length r.kept_tags → PutsField (image_cell_key r) (record {
          index = index.now;
          field = field.now;
          group = map string_bytes group.now;
        }) sink.old out.old result sink.new out.new }
{
    put_index(index, out, sink)?;
    put_text(field, out, sink)?;
    put_strings(group, out, sink)
}

/// Writes a cell with its frozen part, which isn't empty.
pub(crate) fn put_cell<W: Write, A: Allocator>(
    index: &i128,
    field: &str,
    group: &[String<A>],
    frozen: &Agg,
    out: &mut OutputBuffer<A>,
    sink: &mut Sink<W>,
) -> Result<(), Refused>
    requires index { FitsSigned w64 index.now }
    requires some { 0 < frozen.now.count }
    ensures { (r : ImageRule)
        → length group.now ≡ length r.kept_tags → PutsField (image_cell r) (image_cell_with (record {
          index = index.now;
          field = field.now;
          group = map string_bytes group.now;
        }) frozen.now) sink.old out.old result sink.new out.new }
{
    put_cell_key(index, field, group, out, sink)?;
    put_some_part(frozen, out, sink)
}
