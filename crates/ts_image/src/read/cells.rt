//! Reads marks, and cells with their frozen parts, from an image. They are tested later.
ghost use Rattle.std.specs.Prelude.{map};
ghost use Rattle.std.specs.Int.{w64};
ghost use Rattle.ts_core.specs.io.ReadingAhead.{EndIsEnd};
ghost use Rattle.ts_core.specs.facts.Facts.{Text};
ghost use Rattle.ts_image.specs.Formats.{signed_number, text, times, along, list_of};
ghost use Rattle.ts_image.specs.Images.{ImageRule, image_marks, image_cell_key, image_extremes, image_cell};
ghost use Rattle.ts_image.specs.FieldReading.{ReadsField};
ghost use Rattle.ts_image.specs.RuleParts.{rule_from_parts, texts_of};
ghost use Rattle.ts_image.specs.CellParts.{lows_of, marks_of_parts, cell_key_of, extremes_of_parts, cell_of_parts, cells_of_parts, all_cells_of};

use crate::field_fault::FieldFault;
use crate::read::columns::read_point;
use crate::read::fields::FieldReader;
use crate::read::rules::{RuleParts, read_strings};
use std::alloc::Allocator;
use std::io::Read;
use ts_core::Source;

/// The marks in an image, untested.
#[derive(Drop)]
pub struct MarksParts<A: Allocator> {
    pub raw: i64,
    pub lows: Vec<i64, A>,
}

/// The key of a cell in an image, untested.
#[derive(Drop)]
pub struct CellKeyParts<A: Allocator> {
    pub index: i64,
    pub field: String<A>,
    pub group: Vec<String<A>, A>,
}

/// The extremes of a cell in an image, untested.
#[derive(Drop)]
pub struct ExtremesParts {
    pub min: i64,
    pub max: i64,
    pub first: (i64, i64),
    pub last: (i64, i64),
}

/// A cell with its frozen part in an image, untested.
#[derive(Drop)]
pub struct CellParts<A: Allocator> {
    pub key: CellKeyParts<A>,
    pub count: u64,
    pub sum: i128,
    pub extremes: ExtremesParts,
}

/// Reads `count` indices.
fn read_lows<R: Read, A: Allocator + Copy>(
    alloc: A,
    reader: &mut FieldReader<A>,
    source: &mut Source<R>,
    count: u64,
) -> Result<Vec<i64, A>, FieldFault>
    requires { EndIsEnd reader.old.ahead source.old }
    ensures { ReadsField (times count (signed_number w64)) lows_of reader.old source.old result reader.new source.new }
{
    let mut lows = Vec::new(alloc);
    for _ in 0..count {
        let low = reader.i64(source)?;
        lows.push(low)?;
    }
    Ok(lows)
}

/// Reads the low index of each rule.
fn read_lows_of<R: Read, A: Allocator + Copy>(
    alloc: A,
    reader: &mut FieldReader<A>,
    source: &mut Source<R>,
    rules: &[RuleParts<A>],
) -> Result<Vec<i64, A>, FieldFault>
    requires { EndIsEnd reader.old.ahead source.old }
    ensures { ReadsField (along (λ (r : ImageRule). signed_number w64)
        (map rule_from_parts rules.now)) lows_of reader.old source.old result reader.new source.new }
{
    read_lows(alloc, reader, source, rules.len() as u64)
}

/// Reads the raw mark and the low index of each rule.
pub(crate) fn read_marks<R: Read, A: Allocator + Copy>(
    alloc: A,
    reader: &mut FieldReader<A>,
    source: &mut Source<R>,
    rules: &[RuleParts<A>],
) -> Result<MarksParts<A>, FieldFault>
    requires { EndIsEnd reader.old.ahead source.old }
    ensures { ReadsField (image_marks
        (map rule_from_parts rules.now)) marks_of_parts reader.old source.old result reader.new source.new }
{
    let raw = reader.i64(source)?;
    let lows = read_lows_of(alloc, reader, source, rules)?;
    Ok(MarksParts { raw, lows })
}

/// Reads a value for each kept tag of a rule.
fn read_group<R: Read, A: Allocator + Copy>(
    alloc: A,
    reader: &mut FieldReader<A>,
    source: &mut Source<R>,
    rule: &RuleParts<A>,
) -> Result<Vec<String<A>, A>, FieldFault>
    requires { EndIsEnd reader.old.ahead source.old }
    ensures { ReadsField (along (λ (tag : Text). text)
        (rule_from_parts rule.now).kept_tags) texts_of reader.old source.old result reader.new source.new }
{
    read_strings(alloc, reader, source, rule.kept_tags.len() as u64)
}

/// Reads the key of a cell, with a value for each kept tag of its rule.
fn read_cell_key<R: Read, A: Allocator + Copy>(
    alloc: A,
    reader: &mut FieldReader<A>,
    source: &mut Source<R>,
    rule: &RuleParts<A>,
) -> Result<CellKeyParts<A>, FieldFault>
    requires { EndIsEnd reader.old.ahead source.old }
    ensures { ReadsField
        (image_cell_key (rule_from_parts rule.now)) cell_key_of reader.old source.old result reader.new source.new }
{
    let index = reader.i64(source)?;
    let field = reader.text(alloc, source)?;
    let group = read_group(alloc, reader, source, rule)?;
    Ok(CellKeyParts {
        index,
        field,
        group,
    })
}

/// Reads the extremes of a cell.
fn read_extremes<R: Read, A: Allocator + Copy>(
    reader: &mut FieldReader<A>,
    source: &mut Source<R>,
) -> Result<ExtremesParts, FieldFault>
    requires { EndIsEnd reader.old.ahead source.old }
    ensures { ReadsField image_extremes extremes_of_parts reader.old source.old result reader.new source.new }
{
    let min = reader.i64(source)?;
    let max = reader.i64(source)?;
    let first = read_point(reader, source)?;
    let last = read_point(reader, source)?;
    Ok(ExtremesParts {
        min,
        max,
        first,
        last,
    })
}

/// Reads a cell.
fn read_cell<R: Read, A: Allocator + Copy>(
    alloc: A,
    reader: &mut FieldReader<A>,
    source: &mut Source<R>,
    rule: &RuleParts<A>,
) -> Result<CellParts<A>, FieldFault>
    requires { EndIsEnd reader.old.ahead source.old }
    ensures { ReadsField
        (image_cell (rule_from_parts rule.now)) cell_of_parts reader.old source.old result reader.new source.new }
{
    let key = read_cell_key(alloc, reader, source, rule)?;
    let count = reader.u64(source)?;
    let sum = reader.i128(source)?;
    let extremes = read_extremes(reader, source)?;
    Ok(CellParts {
        key,
        count,
        sum,
        extremes,
    })
}

/// Reads `count` cells of a rule.
fn read_cells<R: Read, A: Allocator + Copy>(
    alloc: A,
    reader: &mut FieldReader<A>,
    source: &mut Source<R>,
    rule: &RuleParts<A>,
    count: u64,
) -> Result<Vec<CellParts<A>, A>, FieldFault>
    requires { EndIsEnd reader.old.ahead source.old }
    ensures { ReadsField (times count
        (image_cell (rule_from_parts rule.now))) cells_of_parts reader.old source.old result reader.new source.new }
{
    let mut cells = Vec::new(alloc);
    for _ in 0..count {
        let cell = read_cell(alloc, reader, source, rule)?;
        cells.push(cell)?;
    }
    Ok(cells)
}

/// Reads the number of a rule's cells, and the cells.
fn read_counted_cells<R: Read, A: Allocator + Copy>(
    alloc: A,
    reader: &mut FieldReader<A>,
    source: &mut Source<R>,
    rule: &RuleParts<A>,
) -> Result<Vec<CellParts<A>, A>, FieldFault>
    requires { EndIsEnd reader.old.ahead source.old }
    ensures { ReadsField (list_of w64
        (image_cell (rule_from_parts rule.now))) cells_of_parts reader.old source.old result reader.new source.new }
{
    let count = reader.u64(source)?;
    read_cells(alloc, reader, source, rule, count)
}

/// Reads the cells of each rule.
pub(crate) fn read_all_cells<R: Read, A: Allocator + Copy>(
    alloc: A,
    reader: &mut FieldReader<A>,
    source: &mut Source<R>,
    rules: &[RuleParts<A>],
) -> Result<Vec<Vec<CellParts<A>, A>, A>, FieldFault>
    requires { EndIsEnd reader.old.ahead source.old }
    ensures { ReadsField (along (λ (r : ImageRule). list_of w64 (image_cell r))
        (map rule_from_parts rules.now)) all_cells_of reader.old source.old result reader.new source.new }
{
    let mut all = Vec::new(alloc);
    for rule in rules {
        let cells = read_counted_cells(alloc, reader, source, rule)?;
        all.push(cells)?;
    }
    Ok(all)
}
