//! Parses the fields of a line: 1 to 256. A repeated name takes its last value.
ghost use Rattle.std.specs.Prelude.{◌≡◌, ◌<◌, length, [], IfOk, IfSome, OnOk, Ok};
ghost use Rattle.std.specs.Str.{IsCharBoundary};
ghost use Rattle.ts_core.specs.text.Cursors.{IsOffsetFrom};
ghost use Rattle.ts_line.specs.PartTexts.{plain_piece};
ghost use Rattle.ts_line.specs.ReadSteps.{GivesIfMemory};
ghost use Rattle.ts_line.specs.NameFilters.{AreInFilter};
ghost use Rattle.ts_line.specs.Fields.{next_field, offset_from, with_field, fields_at};
ghost use Rattle.ts_line.specs.StepsPut.{InsertsNextField};
ghost use Rattle.ts_line.specs.Values.{value_begun_at};

use crate::fault::{LineFault, LineFaultKind, ReadLineError};
use crate::line::{Field, Part};
use crate::name_filter::NameFilter;
use crate::part::part_at;
use crate::scan::{Stops, end_at};
use crate::short::short_integer;
use crate::value::value_begun_at;
use std::alloc::{AllocError, Allocator};
use ts_core::{after, byte_at};

/// Limit on the fields of a line, repeated names included.
pub(crate) const FIELD_LIMIT: usize = 256;

/// Initial capacity of the field list.
const FIELDS_AT_FIRST: usize = 16;

/// Parses the value at `at` of the field at `start`; returns it and the offset after it. A short integer, as most
/// values are, is read in one pass.
pub(crate) fn value_at(start: usize, line: &str, at: usize) -> Result<(i64, usize), LineFault>
    requires { IsCharBoundary line.now at }
    ensures value { result ≡ value_begun_at start line.now at }
    ensures boundary { IfOk result (λ x. IsCharBoundary line.now x.1) }
{
    match short_integer(line, at) {
        Some(read) => Ok(read),
        None => value_begun_at(start, line, at),
    }
}

/// Parses the field at `start`; returns it and the offset after it. Allocates only for escapes. Fails with `BadField`,
/// `ReservedKey` or an error of the value.
#[tactic(auto, unfolding(crate::specs::Fields::next_field))]
fn next<'a, A: Allocator + Copy>(
    alloc: A,
    line: &'a str,
    start: usize,
) -> Result<(Field<'a, A>, usize), ReadLineError>
    requires { IsCharBoundary line.now start }
    ensures value { GivesIfMemory (λ x. x) result (next_field line.now start) }
    ensures boundary { IfOk result (λ x. IsCharBoundary line.now x.1) }
{
    let name_end = end_at(line, start, Stops::Equals);
    if name_end.at == start || byte_at(line, name_end.at) != b'=' {
        return Err(ReadLineError::Fault(LineFaultKind::BadField.at(start)));
    }
    let name = part_at(alloc, line, start, name_end, Stops::Equals)?;
    if name.text() == "time" {
        return Err(ReadLineError::Fault(LineFaultKind::ReservedKey.at(start)));
    }
    let (value, end) = value_at(start, line, after(line, name_end.at))?;
    Ok((Field::new(name, value), end))
}

/// Returns the index of the field with this name (linear search).
fn index_of<A: Allocator>(fields: &[Field<'_, A>], name: &str) -> Option<usize>
    ensures value { result ≡ offset_from 0 name.now fields.now }
    ensures bound { IfSome result (λ at. at < length fields.now) }
{
    for (at, field) in fields.iter().enumerate() {
        if field.name().text() == name {
            return Some(at);
        }
    }
    None
}

/// Appends a field, or replaces the value of the field with its name.
#[inline(never)]
fn insert<'a, A: Allocator>(
    fields: &mut Vec<Field<'a, A>, A>,
    field: Field<'a, A>,
) -> Result<(), AllocError>
    ensures { OnOk result (fields.new.items ≡ with_field fields.old.items field.entry) }
{
    match index_of(fields, field.name().text()) {
        Some(at) => {
            let older = &mut fields[at];
            older.replace_value(&field);
        }
        None => fields.push(field)?,
    }
    Ok(())
}

/// Inserts a field into the fields whose names the filter has.
#[inline(always)]
fn insert_filtered<'a, A: Allocator>(
    fields: &mut Vec<Field<'a, A>, A>,
    filter: &mut NameFilter,
    next: Field<'a, A>,
) -> Result<(), AllocError>
    requires { AreInFilter filter.old fields.old.items }
    ensures value { OnOk result (fields.new.items ≡ with_field fields.old.items next.entry) }
    ensures marked { OnOk result (AreInFilter filter.new fields.new.items) }
{
    if filter.insert(next.name().text()) {
        insert(fields, next)?;
    } else {
        fields.push(next)?;
    }
    Ok(())
}

/// Parses the field at `start`, whatever its form, and inserts it as `insert_next` does.
#[cold]
#[inline(never)]
fn insert_any<'a, A: Allocator + Copy>(
    alloc: A,
    fields: &mut Vec<Field<'a, A>, A>,
    filter: &mut NameFilter,
    line: &'a str,
    start: usize,
) -> Result<usize, ReadLineError>
    requires boundary { IsCharBoundary line.now start }
    requires marked { AreInFilter filter.old fields.old.items }
    ensures { InsertsNextField fields.old.items fields.new.items filter.new line.now start result }
{
    let (field, end) = next(alloc, line, start)?;
    insert_filtered(fields, filter, field)?;
    Ok(end)
}

/// Parses the field at `start` if it is plain, as most fields are: its name has no escape, its value is a short
/// integer. Returns the offset after its name, and its value with the offset after it.
#[inline(always)]
fn plain_field(line: &str, start: usize) -> Option<(usize, (i64, usize))>
    requires { IsCharBoundary line.now start }
    ensures value { IfSome result
        (λ x. next_field line.now start ≡ Ok ((plain_piece line.now start x.0, x.1.0), x.1.1)) }
    ensures name { IfSome result (λ x. IsOffsetFrom line.now start x.0) }
    ensures boundary { IfSome result (λ x. IsCharBoundary line.now x.1.1) }
{
    let name_end = end_at(line, start, Stops::Equals);
    if name_end.at == start || byte_at(line, name_end.at) != b'=' || name_end.has_escape {
        return None;
    }
    if &line[start..name_end.at] == "time" {
        return None;
    }
    let read = short_integer(line, after(line, name_end.at))?;
    Some((name_end.at, read))
}

/// Parses the field at `start`, inserts it into `fields` and returns the offset after it. The filter is over the names
/// so far.
#[inline(always)]
fn insert_next<'a, A: Allocator + Copy>(
    alloc: A,
    fields: &mut Vec<Field<'a, A>, A>,
    filter: &mut NameFilter,
    line: &'a str,
    start: usize,
) -> Result<usize, ReadLineError>
    requires boundary { IsCharBoundary line.now start }
    requires marked { AreInFilter filter.old fields.old.items }
    ensures { InsertsNextField fields.old.items fields.new.items filter.new line.now start result }
{
    let Some((name_end, (value, end))) = plain_field(line, start) else {
        return insert_any(alloc, fields, filter, line, start);
    };
    let name = Part::plain(start, &line[start..name_end]);
    insert_filtered(fields, filter, Field::new(name, value))?;
    Ok(end)
}

/// Parses the comma-separated fields from `start`; returns them and the offset after the last. Fails with `OverLimit`
/// at the 257th field.
pub fn fields<'a, A: Allocator + Copy>(
    alloc: A,
    line: &'a str,
    start: usize,
) -> Result<(Vec<Field<'a, A>, A>, usize), ReadLineError>
    requires { IsCharBoundary line.now start }
    ensures value { GivesIfMemory (λ x. (x.0.items, x.1)) result (fields_at 256 [] line.now start) }
    ensures boundary { IfOk result (λ x. IsCharBoundary line.now x.1) }
{
    let mut fields = Vec::with_capacity(alloc, FIELDS_AT_FIRST)?;
    let mut filter = NameFilter::new();
    let mut at = start;
    for _ in 0..FIELD_LIMIT {
        let end = insert_next(alloc, &mut fields, &mut filter, line, at)?;
        if byte_at(line, end) != b',' {
            return Ok((fields, end));
        }
        at = after(line, end);
    }
    Err(ReadLineError::Fault(LineFaultKind::OverLimit.at(at)))
}
