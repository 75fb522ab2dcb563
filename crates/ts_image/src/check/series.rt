//! Tests series, columns and points of an image for contradictions. Does not allocate.
ghost use Rattle.std.specs.Prelude.{◌≡◌, ◌↔◌, map, IsTrue};
ghost use Rattle.std.specs.List.{AllByRecursion};
ghost use Rattle.ts_core.specs.facts.Facts.{Series, text_cmp, series_cmp};
ghost use Rattle.ts_core.specs.facts.Times.{IsTime};
ghost use Rattle.ts_image.specs.Images.{ImageColumn, ImageSeries};
ghost use Rattle.ts_image.specs.ImageTests.{IsKeyName, IsImageColumn, IsImageSeriesKey, IsImageSeries};
ghost use Rattle.ts_store.specs.image.SavedContent.{AreRising};
ghost use Rattle.ts_image.specs.SeriesParts.{tag_of, key_of, column_of_parts, series_of_parts};
ghost use Rattle.ts_image.specs.TestParts.{IsTag, key_of_tag, field_of, series_key_of};

use crate::read::series::{ColumnParts, KeyParts, SeriesParts};
use std::alloc::Allocator;
use std::cmp::Ordering;
use ts_core::Time;

/// Returns true if a text may be the key of a tag or a field.
pub(crate) fn is_name(text: &str) -> bool
    ensures { IsTrue result ↔ IsKeyName text.now }
{
    !text.is_empty() && text != "time"
}

fn is_tag<A: Allocator>(tag: &(String<A>, String<A>)) -> bool
    ensures { IsTrue result ↔ IsTag (tag_of tag.now) }
{
    is_name(tag.0.as_str()) && !tag.1.is_empty()
}

fn are_tags<A: Allocator>(tags: &[(String<A>, String<A>)]) -> bool
    ensures { IsTrue result ↔ AllByRecursion IsTag (map tag_of tags.now) }
{
    for tag in tags {
        if !is_tag(tag) {
            return false;
        }
    }
    true
}

fn are_tags_rising<A: Allocator>(tags: &[(String<A>, String<A>)]) -> bool
    ensures { IsTrue result ↔ AreRising text_cmp (map key_of_tag tags.now) }
{
    tags.is_sorted_by(|a, b| a.0.as_str() < b.0.as_str())
}

fn is_key<A: Allocator>(key: &KeyParts<A>) -> bool
    ensures { IsTrue result ↔ IsImageSeriesKey (key_of key.now) }
{
    if key.measurement.is_empty() || key.tags.len() > 64 {
        return false;
    }
    are_tags(&key.tags) && are_tags_rising(&key.tags)
}

/// Returns true if a number of nanoseconds is a valid time.
pub(crate) fn is_time(nanos: &i64) -> bool
    ensures { IsTrue result ↔ IsTime nanos.now }
{
    Time::new(*nanos).is_some()
}

fn is_column<A: Allocator>(mark: &i64, runs: u8, column: &ColumnParts<A>) -> bool
    ensures { IsTrue result ↔ IsImageColumn mark.now runs (column_of_parts column.now) }
{
    if !is_name(column.field.as_str()) || column.waits > runs {
        return false;
    }
    column.points.are_possible(mark, column.waits)
}

fn are_columns<A: Allocator>(mark: &i64, runs: u8, columns: &[ColumnParts<A>]) -> bool
    ensures { IsTrue result ↔ AllByRecursion (IsImageColumn mark.now runs) (map column_of_parts columns.now) }
{
    for column in columns {
        if !is_column(mark, runs, column) {
            return false;
        }
    }
    true
}

fn are_columns_rising<A: Allocator>(columns: &[ColumnParts<A>]) -> bool
    ensures { IsTrue result ↔ AreRising text_cmp (map field_of columns.now) }
{
    columns.is_sorted_by(|a, b| a.field.as_str() < b.field.as_str())
}

fn is_series<A: Allocator>(mark: &i64, runs: u8, series: &SeriesParts<A>) -> bool
    ensures { IsTrue result ↔ IsImageSeries mark.now runs (series_of_parts series.now) }
{
    if !is_key(&series.key) {
        return false;
    }
    are_columns(mark, runs, &series.columns) && are_columns_rising(&series.columns)
}

/// Returns true if each series is possible.
pub(crate) fn are_series<A: Allocator>(mark: &i64, runs: u8, series: &[SeriesParts<A>]) -> bool
    ensures { IsTrue result ↔ AllByRecursion (IsImageSeries mark.now runs) (map series_of_parts series.now) }
{
    for one in series {
        if !is_series(mark, runs, one) {
            return false;
        }
    }
    true
}

fn compare_keys<A: Allocator>(a: &KeyParts<A>, b: &KeyParts<A>) -> Ordering
    ensures { result ≡ series_cmp (key_of a.now) (key_of b.now) }
{
    match a.measurement.cmp(&b.measurement) {
        Ordering::Equal => a.tags.cmp(&b.tags),
        other => other,
    }
}

/// Returns true if series are in ascending order.
pub(crate) fn are_series_rising<A: Allocator>(series: &[SeriesParts<A>]) -> bool
    ensures { IsTrue result ↔ AreRising series_cmp (map series_key_of series.now) }
{
    series.is_sorted_by(|a, b| compare_keys(&a.key, &b.key).is_lt())
}
