//! Creates a store from an image that was tested.
ghost use Rattle.std.specs.Prelude.{◌≡◌, ◌<◌, ◌≤◌, ◌==◌, ◌∷◌, [], length, map, string_bytes, None, IfOk, OnOk};
ghost use Rattle.std.specs.FinMap as finmap;
ghost use Rattle.std.specs.List.{AllByRecursion};
ghost use Rattle.ts_core.specs.facts.Facts.{Series, Column, series_cmp};
ghost use Rattle.ts_core.specs.lists.Members.{Among};
ghost use Rattle.ts_core.specs.lists.Numbered.{IsAt};
ghost use Rattle.ts_core.specs.store.StoreStates.{column_of};
ghost use Rattle.ts_core.specs.text.Texts.{borrowed_series};
ghost use Rattle.ts_core.specs.facts.Times.{IsTime};
ghost use Rattle.ts_line.specs.Names.{IsStatable};
ghost use Rattle.ts_store.specs.image.Building.{new_built, with_built_series, with_built_column, with_built_cell, cell_map_at};
ghost use Rattle.ts_image.specs.CellParts.{cell_key_of, cell_of_parts, cells_of_parts};
ghost use Rattle.ts_image.specs.ImageReading.{image_of};
ghost use Rattle.ts_image.specs.ImageTests.{IsImageSeriesKey, IsPossible, settings_of_image};
ghost use Rattle.ts_store.specs.image.SavedContent.{AreRising};
ghost use Rattle.ts_image.specs.PartsMade.{HasPart};
ghost use Rattle.ts_image.specs.Pictures.{image_points_in, cell_part_of};
ghost use Rattle.ts_image.specs.RuleParts.{settings_of_parts};
ghost use Rattle.ts_image.specs.SeriesParts.{column_of_parts, column_parts_of, key_of, series_of_parts, all_series_of};
ghost use Rattle.ts_image.specs.StoresMade.{IsAddedColumn, AreAddedColumns, IsAddedSeries, AreAddedCells, is_column_waiting, with_image_columns, with_all_series, key_in, with_cells_at, with_all_cells, IsStoreOf};

use crate::build::parts::{borrow_strings, borrow_tags, make_marks, make_part};
use crate::image_loading::LoadedImage;
use crate::read::cells::CellParts;
use crate::read::image::ImageParts;
use crate::read::series::{ColumnParts, KeyParts, SeriesParts};
use arrayvec::ArrayVec;
use std::alloc::{AllocError, Allocator};
use std::hash::RandomState;
use ts_core::{KeyRef, Settings};
use ts_raw::SeriesId;
use ts_store::{Store, StoreBuilder};

/// Adds a column of a series. Consumes its parts.
fn add_column<A: Allocator + Copy>(
    builder: &mut StoreBuilder<A>,
    series: SeriesId,
    parts: ColumnParts<A>,
) -> Result<(), AllocError>
    requires registered { series < length builder.old.series }
    requires absent { (s : Series) → IsAt builder.old.series series s
        → Among (record { series = s; field = string_bytes parts.field }) (map column_of builder.old.columns) → ⊥ }
    requires column { IsAddedColumn (column_of_parts parts) }
    ensures { (s : Series) → IsAt builder.old.series series s → OnOk result (builder.new ≡ with_built_column
        (image_points_in s (column_of_parts parts)) (is_column_waiting (column_of_parts parts)) builder.old) }
{
    let points = parts.points.into_column();
    builder.add_column(series, parts.field.as_str(), parts.waits == 1, points)
}

/// Adds the columns of a series that has none. Consumes their parts.
fn add_columns<A: Allocator + Copy>(
    builder: &mut StoreBuilder<A>,
    series: SeriesId,
    columns: Vec<ColumnParts<A>, A>,
) -> Result<(), AllocError>
    requires registered { series < length builder.old.series }
    requires none { (s : Series) → IsAt builder.old.series series s
        → (c : Column) → Among c (map column_of builder.old.columns) → c.series ≡ s → ⊥ }
    requires columns { AreAddedColumns (column_parts_of columns) }
    ensures { (s : Series) → IsAt builder.old.series series s
        → OnOk result (builder.new ≡ with_image_columns s (column_parts_of columns) builder.old) }
{
    for parts in columns {
        add_column(builder, series, parts)?;
    }
    Ok(())
}

/// Registers the series of a measurement and tags.
fn register<A: Allocator + Copy>(
    builder: &mut StoreBuilder<A>,
    measurement: &str,
    tags: &[(&str, &str)],
) -> Result<SeriesId, AllocError>
    requires absent { Among (borrowed_series measurement.now tags.now) builder.old.series → ⊥ }
    requires few { length builder.old.series < 1000000 }
    requires named { IsStatable (borrowed_series measurement.now tags.now) }
    ensures number { IfOk result (λ n. IsAt builder.new.series n (borrowed_series measurement.now tags.now)) }
    ensures ok { OnOk result (builder.new ≡ with_built_series (borrowed_series measurement.now tags.now) builder.old) }
{
    let key = KeyRef::new(measurement, tags);
    builder.add_series(&key)
}

/// Registers the series of an image's key.
fn add_key<A: Allocator + Copy>(
    builder: &mut StoreBuilder<A>,
    key: &KeyParts<A>,
) -> Result<SeriesId, AllocError>
    requires absent { Among (key_of key.now) builder.old.series → ⊥ }
    requires few { length builder.old.series < 1000000 }
    requires key { IsImageSeriesKey (key_of key.now) }
    ensures number { IfOk result (λ n. IsAt builder.new.series n (key_of key.now)) }
    ensures ok { OnOk result (builder.new ≡ with_built_series (key_of key.now) builder.old) }
{
    let mut tags = ArrayVec::<_, 64>::new();
    borrow_tags(&key.tags, &mut tags);
    register(builder, key.measurement.as_str(), &tags)
}

/// Adds a series with its columns. Consumes its parts.
fn add_series<A: Allocator + Copy>(
    builder: &mut StoreBuilder<A>,
    parts: SeriesParts<A>,
) -> Result<(), AllocError>
    requires absent { Among (key_of parts.key) builder.old.series → ⊥ }
    requires few { length builder.old.series < 1000000 }
    requires registered { (c : Column)
        → Among c (map column_of builder.old.columns) → Among c.series builder.old.series }
    requires series { IsAddedSeries (series_of_parts parts) }
    ensures { OnOk result (builder.new ≡ with_all_series (series_of_parts parts ∷ []) builder.old) }
{
    let SeriesParts { key, columns } = parts;
    let series = add_key(builder, &key)?;
    add_columns(builder, series, columns)
}

/// Adds series to a store that has none. Consumes their parts.
fn add_all_series<A: Allocator + Copy>(
    builder: &mut StoreBuilder<A>,
    series: Vec<SeriesParts<A>, A>,
) -> Result<(), AllocError>
    requires none { builder.old.series ≡ [] }
    requires empty { builder.old.columns ≡ [] }
    requires series { AllByRecursion IsAddedSeries (all_series_of series) }
    requires rising { AreRising series_cmp (map key_in (all_series_of series)) }
    requires few { length (all_series_of series) ≤ 1000000 }
    ensures { OnOk result (builder.new ≡ with_all_series (all_series_of series) builder.old) }
{
    for parts in series {
        add_series(builder, parts)?;
    }
    Ok(())
}

/// Adds a cell of a rule.
fn add_cell<A: Allocator + Copy>(
    alloc: A,
    builder: &mut StoreBuilder<A>,
    rule: usize,
    parts: &CellParts<A>,
) -> Result<(), AllocError>
    requires rule { rule < length builder.old.settings.rules }
    requires absent { finmap.get (cell_map_at builder.old.cells rule) (cell_key_of parts.now.key) ≡ None }
    requires part { HasPart (cell_of_parts parts.now) }
    ensures { OnOk result (builder.new
        ≡ with_built_cell rule (cell_key_of parts.now.key) (cell_part_of (cell_of_parts parts.now)) builder.old) }
{
    let group = borrow_strings(alloc, &parts.key.group)?;
    let index = i128::from(parts.key.index);
    builder.add_cell(
        rule,
        &index,
        parts.key.field.as_str(),
        &group,
        make_part(parts),
    )
}

/// Adds the cells of a rule that has none.
fn add_cells<A: Allocator + Copy>(
    alloc: A,
    builder: &mut StoreBuilder<A>,
    rule: usize,
    cells: &[CellParts<A>],
) -> Result<(), AllocError>
    requires rule { rule < length builder.old.settings.rules }
    requires inside { rule < length builder.old.cells }
    requires none { cell_map_at builder.old.cells rule ≡ finmap.empty }
    requires cells { AreAddedCells (map cell_of_parts cells.now) }
    ensures { OnOk result (builder.new ≡ with_cells_at rule (map cell_of_parts cells.now) builder.old) }
{
    for parts in cells {
        add_cell(alloc, builder, rule, parts)?;
    }
    Ok(())
}

/// Adds the cells of each rule to a store that has none.
fn add_all_cells<A: Allocator + Copy>(
    alloc: A,
    builder: &mut StoreBuilder<A>,
    cells: &[Vec<CellParts<A>, A>],
) -> Result<(), AllocError>
    requires each { length cells.now ≡ length builder.old.settings.rules }
    requires none { builder.old.cells ≡ map (λ r. finmap.empty) builder.old.settings.rules }
    requires cells { AllByRecursion AreAddedCells (map cells_of_parts cells.now) }
    ensures { OnOk result (builder.new ≡ with_all_cells (map cells_of_parts cells.now) builder.old) }
{
    for (rule, list) in cells.iter().enumerate() {
        add_cells(alloc, builder, rule, list)?;
    }
    Ok(())
}

/// Begins a store with the settings, marks and numbers of an image, and a seed of the hashes of names.
fn begin<A: Allocator + Copy>(
    alloc: A,
    seed: RandomState,
    settings: Settings<A>,
    parts: &ImageParts<A>,
) -> Result<StoreBuilder<A>, AllocError>
    requires { IsTime parts.now.marks.raw }
    ensures { IfOk result (λ b. b ≡ new_built settings
        (image_of parts.now).marks (image_of parts.now).accepted ((image_of parts.now).runs == 1)) }
{
    let marks = make_marks(alloc, &parts.marks)?;
    let running = parts.runs == 1;
    StoreBuilder::new(alloc, settings, marks, parts.accepted, running, seed)
}

/// Creates a store from an image that was tested, with a seed of the hashes of names. Consumes its parts.
pub(crate) fn make_store<A: Allocator + Copy>(
    alloc: A,
    seed: RandomState,
    image: LoadedImage<A>,
) -> Result<Store<A>, AllocError>
    requires possible { IsPossible image.version (image_of image.parts) }
    requires settings { image.settings ≡ settings_of_image (settings_of_parts image.parts.settings) }
    ensures { IfOk result (IsStoreOf (image_of image.parts)) }
{
    let LoadedImage {
        settings,
        parts,
        ..
    } = image;
    let mut builder = begin(alloc, seed, settings, &parts)?;
    let ImageParts { series, cells, .. } = parts;
    add_all_series(&mut builder, series)?;
    add_all_cells(alloc, &mut builder, &cells)?;
    builder.finish()
}
