//! Reads series with their columns from an image. They are tested later.
ghost use Rattle.std.specs.Int.{w8, w32, w64};
ghost use Rattle.ts_core.specs.io.ReadingAhead.{EndIsEnd};
ghost use Rattle.ts_image.specs.Formats.{text, also, times, list_of};
ghost use Rattle.ts_image.specs.Images.{flag, image_series_key, image_column, image_series};
ghost use Rattle.ts_image.specs.FieldReading.{ReadsField};
ghost use Rattle.ts_image.specs.SeriesParts.{tag_of, tags_of_parts, key_of, column_of_parts, column_parts_of, series_of_parts, all_series_of};

use crate::field_fault::FieldFault;
use crate::read::columns::read_counted_points;
use crate::read::fields::FieldReader;
use crate::read::points::PointsParts;
use crate::version::Version;
use std::alloc::Allocator;
use std::io::Read;
use ts_core::{Source, reserve_eighth};

/// A column in an image, untested.
#[derive(Drop)]
pub struct ColumnParts<A: Allocator> {
    pub field: String<A>,
    pub waits: u8,
    pub points: PointsParts<A>,
}

/// The key of a series in an image, untested.
#[derive(Drop)]
pub struct KeyParts<A: Allocator> {
    pub measurement: String<A>,
    pub tags: Vec<(String<A>, String<A>), A>,
}

/// A series with its columns in an image, untested.
#[derive(Drop)]
pub struct SeriesParts<A: Allocator> {
    pub key: KeyParts<A>,
    pub columns: Vec<ColumnParts<A>, A>,
}

/// Reads a byte that images have from version 2 on, or returns 0.
pub(crate) fn read_flag<R: Read, A: Allocator + Copy>(
    reader: &mut FieldReader<A>,
    source: &mut Source<R>,
    version: Version,
) -> Result<u8, FieldFault>
    requires { EndIsEnd reader.old.ahead source.old }
    ensures { ReadsField (flag version) (λ n. n) reader.old source.old result reader.new source.new }
{
    match version {
        Version::V1 => Ok(0),
        Version::V2 => reader.u8(source),
    }
}

/// Reads a column.
fn read_column<R: Read, A: Allocator + Copy>(
    alloc: A,
    reader: &mut FieldReader<A>,
    source: &mut Source<R>,
    version: Version,
) -> Result<ColumnParts<A>, FieldFault>
    requires { EndIsEnd reader.old.ahead source.old }
    ensures { ReadsField (image_column version) column_of_parts reader.old source.old result reader.new source.new }
{
    let field = reader.text(alloc, source)?;
    let waits = read_flag(reader, source, version)?;
    let points = read_counted_points(alloc, reader, source)?;
    Ok(ColumnParts {
        field,
        waits,
        points,
    })
}

/// Reads `count` columns.
fn read_columns<R: Read, A: Allocator + Copy>(
    alloc: A,
    reader: &mut FieldReader<A>,
    source: &mut Source<R>,
    version: Version,
    count: u64,
) -> Result<Vec<ColumnParts<A>, A>, FieldFault>
    requires { EndIsEnd reader.old.ahead source.old }
    ensures { ReadsField
        (times count (image_column version)) column_parts_of reader.old source.old result reader.new source.new }
{
    let mut columns = Vec::new(alloc);
    for _ in 0..count {
        let column = read_column(alloc, reader, source, version)?;
        reserve_eighth(&mut columns, 1)?;
        columns.push_reserved(column);
    }
    Ok(columns)
}

/// Reads the number of columns, and the columns.
fn read_counted_columns<R: Read, A: Allocator + Copy>(
    alloc: A,
    reader: &mut FieldReader<A>,
    source: &mut Source<R>,
    version: Version,
) -> Result<Vec<ColumnParts<A>, A>, FieldFault>
    requires { EndIsEnd reader.old.ahead source.old }
    ensures { ReadsField
        (list_of w64 (image_column version)) column_parts_of reader.old source.old result reader.new source.new }
{
    let count = reader.u64(source)?;
    read_columns(alloc, reader, source, version, count)
}

/// Reads a tag: its key and its value.
fn read_tag<R: Read, A: Allocator + Copy>(
    alloc: A,
    reader: &mut FieldReader<A>,
    source: &mut Source<R>,
) -> Result<(String<A>, String<A>), FieldFault>
    requires { EndIsEnd reader.old.ahead source.old }
    ensures { ReadsField (also text text) tag_of reader.old source.old result reader.new source.new }
{
    let key = reader.text(alloc, source)?;
    let value = reader.text(alloc, source)?;
    Ok((key, value))
}

/// Reads `count` tags.
fn read_tags<R: Read, A: Allocator + Copy>(
    alloc: A,
    reader: &mut FieldReader<A>,
    source: &mut Source<R>,
    count: u8,
) -> Result<Vec<(String<A>, String<A>), A>, FieldFault>
    requires { EndIsEnd reader.old.ahead source.old }
    ensures { ReadsField
        (times count (also text text)) tags_of_parts reader.old source.old result reader.new source.new }
{
    let mut tags = Vec::new(alloc);
    for _ in 0..count {
        let tag = read_tag(alloc, reader, source)?;
        tags.push(tag)?;
    }
    Ok(tags)
}

/// Reads the number of tags, and the tags.
fn read_counted_tags<R: Read, A: Allocator + Copy>(
    alloc: A,
    reader: &mut FieldReader<A>,
    source: &mut Source<R>,
) -> Result<Vec<(String<A>, String<A>), A>, FieldFault>
    requires { EndIsEnd reader.old.ahead source.old }
    ensures { ReadsField
        (list_of w8 (also text text)) tags_of_parts reader.old source.old result reader.new source.new }
{
    let count = reader.u8(source)?;
    read_tags(alloc, reader, source, count)
}

/// Reads the key of a series.
fn read_key<R: Read, A: Allocator + Copy>(
    alloc: A,
    reader: &mut FieldReader<A>,
    source: &mut Source<R>,
) -> Result<KeyParts<A>, FieldFault>
    requires { EndIsEnd reader.old.ahead source.old }
    ensures { ReadsField image_series_key key_of reader.old source.old result reader.new source.new }
{
    let measurement = reader.text(alloc, source)?;
    let tags = read_counted_tags(alloc, reader, source)?;
    Ok(KeyParts { measurement, tags })
}

/// Reads a series with its columns.
fn read_series<R: Read, A: Allocator + Copy>(
    alloc: A,
    reader: &mut FieldReader<A>,
    source: &mut Source<R>,
    version: Version,
) -> Result<SeriesParts<A>, FieldFault>
    requires { EndIsEnd reader.old.ahead source.old }
    ensures { ReadsField (image_series version) series_of_parts reader.old source.old result reader.new source.new }
{
    let key = read_key(alloc, reader, source)?;
    let columns = read_counted_columns(alloc, reader, source, version)?;
    Ok(SeriesParts { key, columns })
}

/// Reads `count` series.
fn read_all_series<R: Read, A: Allocator + Copy>(
    alloc: A,
    reader: &mut FieldReader<A>,
    source: &mut Source<R>,
    version: Version,
    count: u32,
) -> Result<Vec<SeriesParts<A>, A>, FieldFault>
    requires { EndIsEnd reader.old.ahead source.old }
    ensures { ReadsField
        (times count (image_series version)) all_series_of reader.old source.old result reader.new source.new }
{
    let mut series = Vec::new(alloc);
    for _ in 0..count {
        let one = read_series(alloc, reader, source, version)?;
        reserve_eighth(&mut series, 1)?;
        series.push_reserved(one);
    }
    Ok(series)
}

/// Reads the number of series, and the series.
pub(crate) fn read_counted_series<R: Read, A: Allocator + Copy>(
    alloc: A,
    reader: &mut FieldReader<A>,
    source: &mut Source<R>,
    version: Version,
) -> Result<Vec<SeriesParts<A>, A>, FieldFault>
    requires { EndIsEnd reader.old.ahead source.old }
    ensures { ReadsField
        (list_of w32 (image_series version)) all_series_of reader.old source.old result reader.new source.new }
{
    let count = reader.u32(source)?;
    read_all_series(alloc, reader, source, version, count)
}
