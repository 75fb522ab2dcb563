//! Writes the series and columns of a store to an image.
ghost use Rattle.std.specs.Prelude.{◌<◌, length, map};
ghost use Rattle.std.specs.Int.{w32, w64};
ghost use Rattle.std.specs.List.{AllByRecursion};
ghost use Rattle.ts_image.specs.declared.version.Version.TheVariants.{V2};
ghost use Rattle.ts_image.specs.Formats.{list_of};
ghost use Rattle.ts_image.specs.Images.{image_column, image_series};
ghost use Rattle.ts_image.specs.FieldWriting.{PutsField, PutsAll};
ghost use Rattle.ts_image.specs.Saving.{image_column_of, image_series_of, HasItsColumns, FitSeries};

use crate::write::columns::put_column;
use crate::write::fields::{put_u32, put_u64};
use crate::write::series::put_key;
use std::alloc::Allocator;
use std::io::Write;
use ts_core::{OutputBuffer, Refused, Sink};
use ts_store::{SavedColumn, SavedSeries, Store};

/// Writes a column of a store.
fn put_saved_column<W: Write, A: Allocator + Copy>(
    store: &Store<A>,
    column: &SavedColumn<'_, A>,
    out: &mut OutputBuffer<A>,
    sink: &mut Sink<W>,
) -> Result<(), Refused>
    requires { column.now.number < length store.now.columns }
    ensures { PutsField
        (image_column V2) (image_column_of store.now column.now) sink.old out.old result sink.new out.new }
{
    let waits = store.waits(column.id);
    let points = store.points_of(column.id);
    put_column(column.field.as_str(), waits, points, out, sink)
}

/// Writes columns of a store, one after another.
fn put_columns<W: Write, A: Allocator + Copy>(
    store: &Store<A>,
    columns: &[SavedColumn<'_, A>],
    out: &mut OutputBuffer<A>,
    sink: &mut Sink<W>,
) -> Result<(), Refused>
    requires { AllByRecursion (λ c. c.number < length store.now.columns) columns.now }
    ensures { PutsAll
        (image_column V2) (map (image_column_of store.now) columns.now) sink.old out.old result sink.new out.new }
{
    for column in columns {
        put_saved_column(store, column, out, sink)?;
    }
    Ok(())
}

/// Writes the number of columns, and the columns.
fn put_counted_columns<W: Write, A: Allocator + Copy>(
    store: &Store<A>,
    columns: &[SavedColumn<'_, A>],
    out: &mut OutputBuffer<A>,
    sink: &mut Sink<W>,
) -> Result<(), Refused>
    requires { AllByRecursion (λ c. c.number < length store.now.columns) columns.now }
    ensures { PutsField (list_of w64 (image_column V2))
        (map (image_column_of store.now) columns.now) sink.old out.old result sink.new out.new }
{
    put_u64(columns.len() as u64, out, sink)?;
    put_columns(store, columns, out, sink)
}

/// Writes a series with its columns.
fn put_series<W: Write, A: Allocator + Copy>(
    store: &Store<A>,
    series: &SavedSeries<'_, A>,
    out: &mut OutputBuffer<A>,
    sink: &mut Sink<W>,
) -> Result<(), Refused>
    requires tags { length series.now.series.tags < 256 }
    requires columns { HasItsColumns store.now series.now }
    ensures { PutsField
        (image_series V2) (image_series_of store.now series.now) sink.old out.old result sink.new out.new }
{
    put_key(series.key, out, sink)?;
    put_counted_columns(store, series.columns.as_slice(), out, sink)
}

/// Writes series of a store, one after another.
fn put_all_series<W: Write, A: Allocator + Copy>(
    store: &Store<A>,
    all: &[SavedSeries<'_, A>],
    out: &mut OutputBuffer<A>,
    sink: &mut Sink<W>,
) -> Result<(), Refused>
    requires tags { AllByRecursion (λ s. length s.series.tags < 256) all.now }
    requires columns { AllByRecursion (HasItsColumns store.now) all.now }
    ensures { PutsAll
        (image_series V2) (map (image_series_of store.now) all.now) sink.old out.old result sink.new out.new }
{
    for series in all {
        put_series(store, series, out, sink)?;
    }
    Ok(())
}

/// Writes the number of series, and the series.
pub(crate) fn put_counted_series<W: Write, A: Allocator + Copy>(
    store: &Store<A>,
    all: &[SavedSeries<'_, A>],
    out: &mut OutputBuffer<A>,
    sink: &mut Sink<W>,
) -> Result<(), Refused>
    requires series { FitSeries all.now }
    requires columns { AllByRecursion (HasItsColumns store.now) all.now }
    ensures { PutsField (list_of w32 (image_series V2))
        (map (image_series_of store.now) all.now) sink.old out.old result sink.new out.new }
{
    put_u32(all.len() as u32, out, sink)?;
    put_all_series(store, all, out, sink)
}
