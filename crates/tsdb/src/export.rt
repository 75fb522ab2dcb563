//! The raw points of a store as line protocol, a line per point.
ghost use Rattle.std.specs.Prelude.{◌≡◌, ◌<◌, ◌++◌, [], length, flat_map, IfOk, OnOk};
ghost use Rattle.std.specs.List.{AllByRecursion};
ghost use Rattle.ts_core.specs.io.Devices.{IsPut};
ghost use Rattle.ts_core.specs.io.OutputBuffering.{IsBuffered};
ghost use Rattle.ts_core.specs.text.FaultTexts.{parts_joined};
ghost use Rattle.tsdb.specs.Exports.{point_line, series_columns, column_lines, line_start, IsExported};
ghost use Rattle.tsdb.specs.declared.export.ExportFault.TheVariants as faults;

use crate::line_text::{is_field, is_key, key_text, line_start};
use itoa::Buffer;
use std::alloc::{AllocError, AllocFailed, Global};
use std::io::Write;
use std::marker::Model;
use ts_core::{OutputBuffer, Refused, Sink, Time};
use ts_raw::{ColumnId, Points};
use ts_store::{SavedColumn, SavedSeries, Store};

/// Size of the write buffer, in bytes.
const BUFFER_SIZE: usize = 65_536;

/// Error of an export.
#[derive(Clone, Copy, Debug, Drop)]
pub enum ExportFault {
    /// Standard output failed. A prefix of the lines was written.
    Device,
    /// A name can't stand in a line. Nothing was written.
    Name,
    /// Out of memory. Nothing was written.
    OutOfMemory,
}

impl From<AllocError> for ExportFault {
    ghost from_gives = { λ error result. result ≡ faults.OutOfMemory };

    fn from(_: AllocError) -> ExportFault {
        ExportFault::OutOfMemory
    }
}

impl<T: Drop> From<AllocFailed<T>> for ExportFault {
    ghost from_gives = { λ error result. result ≡ faults.OutOfMemory };

    fn from(_: AllocFailed<T>) -> ExportFault {
        ExportFault::OutOfMemory
    }
}

/// A column to be written.
#[derive(Drop)]
struct ExportColumn {
    /// Its lines up to the value.
    head: Vec<u8>,
    id: ColumnId,
}

impl Model for ExportColumn {
    ghost use Rattle.tsdb.specs.Exports.{ExportColumn as ExportColumnValue};

    ghost Value = { ExportColumnValue };

    ghost view = { λ c. record { head = c.head.items; number = c.id } };
}

/// Writes texts, one after another.
fn put_texts<W: Write>(
    texts: &[&[u8]],
    out: &mut OutputBuffer<Global>,
    sink: &mut Sink<W>,
) -> Result<(), Refused>
    ensures { IsBuffered sink.old out.old result (parts_joined texts.now) sink.new out.new }
{
    match texts.split_first() {
        None => Ok(()),
        Some((first, others)) => {
            out.write_all(first, sink)?;
            put_texts(others, out, sink)
        }
    }
}

/// Writes the line of a point; `head` is its text up to the value.
fn put_point<W: Write>(
    head: &[u8],
    time: Time,
    value: i64,
    out: &mut OutputBuffer<Global>,
    sink: &mut Sink<W>,
) -> Result<(), Refused>
    ensures { IsBuffered sink.old out.old result (point_line head.now (time, value)) sink.new out.new }
{
    let mut digits = Buffer::new();
    let mut stamp = Buffer::new();
    put_texts(
        &[
            head,
            digits.format(value).as_bytes(),
            b"i ",
            stamp.format(time.nanos()).as_bytes(),
            b"\n",
        ],
        out,
        sink,
    )
}

/// Writes the lines of points, which begin with `head`.
fn put_points<W: Write>(
    head: &[u8],
    points: Points<'_>,
    out: &mut OutputBuffer<Global>,
    sink: &mut Sink<W>,
) -> Result<(), Refused>
    ensures { IsBuffered sink.old out.old result (flat_map (point_line head.now) points.entry) sink.new out.new }
{
    for (time, value) in points {
        put_point(head, time, value, out, sink)?;
    }
    Ok(())
}

/// Writes the lines of a column.
fn put_column<W: Write>(
    store: &Store<Global>,
    column: &ExportColumn,
    out: &mut OutputBuffer<Global>,
    sink: &mut Sink<W>,
) -> Result<(), Refused>
    requires { column.now.number < length store.now.columns }
    ensures { IsBuffered sink.old out.old result (column_lines store.now column.now) sink.new out.new }
{
    let points = store.points_of(column.id);
    put_points(column.head.as_slice(), points, out, sink)
}

/// Writes the lines of columns, one column after another.
fn put_columns<W: Write>(
    store: &Store<Global>,
    columns: &[ExportColumn],
    out: &mut OutputBuffer<Global>,
    sink: &mut Sink<W>,
) -> Result<(), Refused>
    requires { AllByRecursion (λ c. c.number < length store.now.columns) columns.now }
    ensures { IsBuffered sink.old out.old result (flat_map (column_lines store.now) columns.now) sink.new out.new }
{
    for column in columns {
        put_column(store, column, out, sink)?;
    }
    Ok(())
}

/// Writes the lines of columns. Nothing stays in the buffer.
fn put_all<W: Write>(
    store: &Store<Global>,
    columns: &[ExportColumn],
    out: &mut OutputBuffer<Global>,
    sink: &mut Sink<W>,
) -> Result<(), Refused>
    requires empty { out.old ≡ [] }
    requires columns { AllByRecursion (λ c. c.number < length store.now.columns) columns.now }
    ensures { IsPut sink.old result (flat_map (column_lines store.now) columns.now) sink.new }
{
    put_columns(store, columns, out, sink)?;
    out.flush(sink)
}

/// Returns a column to be written, or the fault `Name`; `key` is the key of its series as a line states it.
fn export_column(
    alloc: Global,
    key: &[u8],
    column: &SavedColumn<'_, Global>,
) -> Result<ExportColumn, ExportFault>
    ensures { IfOk result (λ c. c ≡ record { head = line_start key.now column.now.field; number = column.now.number }) }
{
    let field = column.field.as_str();
    let head = line_start(alloc, key, field)?;
    if !is_field(field, head.as_slice()) {
        return Err(ExportFault::Name);
    }
    Ok(ExportColumn {
        head,
        id: column.id,
    })
}

/// Appends the columns of a series.
fn list_series(
    alloc: Global,
    columns: &mut Vec<ExportColumn>,
    series: &SavedSeries<'_, Global>,
) -> Result<(), ExportFault>
    ensures { OnOk result (columns.new.items ≡ columns.old.items ++ series_columns series.now) }
{
    let key = key_text(alloc, series.key)?;
    if !is_key(series.key, key.as_slice()) {
        return Err(ExportFault::Name);
    }
    for column in series.columns.as_slice() {
        columns.push(export_column(alloc, key.as_slice(), column)?)?;
    }
    Ok(())
}

/// Lists the columns of these series.
fn listed(alloc: Global, all: &[SavedSeries<'_, Global>]) -> Result<Vec<ExportColumn>, ExportFault>
    ensures { IfOk result (λ columns. columns.items ≡ flat_map series_columns all.now) }
{
    let mut columns = Vec::new(alloc);
    for series in all {
        list_series(alloc, &mut columns, series)?;
    }
    Ok(columns)
}

/// Writes all raw points of a store as lines: the series in the order of their keys, with their columns in the order of
/// their fields, each in the order of time. Writes nothing if a name can't stand in a line, or when out of memory.
pub fn export<W: Write>(
    alloc: Global,
    store: &Store<Global>,
    sink: &mut Sink<W>,
) -> Result<(), ExportFault>
    ensures { IsExported store.now sink.old result sink.new }
{
    let all = store.saved_series(alloc)?;
    let columns = listed(alloc, all.as_slice())?;
    let mut out = OutputBuffer::new(alloc, BUFFER_SIZE)?;
    match put_all(store, columns.as_slice(), &mut out, sink) {
        Ok(()) => Ok(()),
        Err(_) => Err(ExportFault::Device),
    }
}
