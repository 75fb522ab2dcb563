//! Reads an image up to its form. It is tested for contradictions later.
ghost use Rattle.std.specs.Prelude.{◌≤◌, ◌^◌};
ghost use Rattle.ts_core.specs.io.ReadingAhead.{EndIsEnd};
ghost use Rattle.ts_image.specs.Images.{image};
ghost use Rattle.ts_image.specs.FieldReading.{ReadsField};
ghost use Rattle.ts_image.specs.HeadReading.{ReadsImageHead};
ghost use Rattle.ts_image.specs.ImageReading.{image_of, ReadsWhole, LoadsParts};

use crate::field_fault::FieldFault;
use crate::load_fault::LoadFault;
use crate::read::cells::{CellParts, MarksParts, read_all_cells, read_marks};
use crate::read::fields::FieldReader;
use crate::read::rules::{SettingsParts, read_settings};
use crate::read::series::{SeriesParts, read_counted_series, read_flag};
use crate::version::{MARK, Version};
use std::alloc::Allocator;
use std::io::Read;
use ts_core::Source;

/// The first fields of an input.
#[derive(Drop)]
pub(crate) enum Head {
    /// The head of an image.
    Of(Version),
    /// The head of an image of another version.
    Other,
    /// No head of an image.
    None,
}

/// The data of an image, untested.
#[derive(Drop)]
pub struct ImageParts<A: Allocator> {
    pub settings: SettingsParts<A>,
    pub marks: MarksParts<A>,
    pub runs: u8,
    pub accepted: u64,
    pub series: Vec<SeriesParts<A>, A>,
    pub cells: Vec<Vec<CellParts<A>, A>, A>,
}

/// Reads the head of an image.
fn read_head<R: Read, A: Allocator + Copy>(
    reader: &mut FieldReader<A>,
    source: &mut Source<R>,
) -> Result<Head, FieldFault>
    requires { EndIsEnd reader.old.ahead source.old }
    ensures { ReadsImageHead reader.old source.old result reader.new source.new }
{
    let mut mark = [0; 4];
    match reader.read_exact(source, &mut mark) {
        Ok(()) => {}
        Err(FieldFault::Misshapen(_)) => return Ok(Head::None),
        Err(fault) => return Err(fault),
    }
    if mark != *MARK {
        return Ok(Head::None);
    }
    match reader.u8(source)? {
        1 => Ok(Head::Of(Version::V1)),
        2 => Ok(Head::Of(Version::V2)),
        _ => Ok(Head::Other),
    }
}

/// Reads the fields after the head.
fn read_body<R: Read, A: Allocator + Copy>(
    alloc: A,
    reader: &mut FieldReader<A>,
    source: &mut Source<R>,
    version: Version,
) -> Result<ImageParts<A>, FieldFault>
    requires { EndIsEnd reader.old.ahead source.old }
    ensures { ReadsField (image version) image_of reader.old source.old result reader.new source.new }
{
    let settings = read_settings(alloc, reader, source)?;
    let marks = read_marks(alloc, reader, source, &settings.rules)?;
    let runs = read_flag(reader, source, version)?;
    let accepted = reader.u64(source)?;
    let series = read_counted_series(alloc, reader, source, version)?;
    let cells = read_all_cells(alloc, reader, source, &settings.rules)?;
    Ok(ImageParts {
        settings,
        marks,
        runs,
        accepted,
        series,
        cells,
    })
}

/// Reads the fields after the head, and the end of the input.
fn read_whole_body<R: Read, A: Allocator + Copy>(
    alloc: A,
    reader: &mut FieldReader<A>,
    source: &mut Source<R>,
    version: Version,
) -> Result<ImageParts<A>, FieldFault>
    requires { EndIsEnd reader.old.ahead source.old }
    ensures { ReadsWhole (image version) image_of reader.old source.old result reader.new source.new }
{
    let parts = read_body(alloc, reader, source, version)?;
    reader.end(source)?;
    Ok(parts)
}

/// Reads an image to the end of the input, with at most `reads` reads. It is not tested for contradictions.
pub(crate) fn read_parts<R: Read, A: Allocator + Copy>(
    alloc: A,
    source: &mut Source<R>,
    reads: u64,
) -> Result<(Version, ImageParts<A>), LoadFault>
    requires { reads ≤ 2 ^ 32 }
    ensures { LoadsParts source.old reads result source.new }
{
    let mut reader = FieldReader::new(alloc, reads)?;
    match read_head(&mut reader, source)? {
        Head::None => Err(LoadFault::NotAnImage),
        Head::Other => Err(LoadFault::OtherVersion),
        Head::Of(version) => {
            let parts = read_whole_body(alloc, &mut reader, source, version)?;
            Ok((version, parts))
        }
    }
}
