//! Series and columns in the order of an image.
ghost use Rattle.std.specs.Prelude.{◌≡◌, ◌<◌, length, map, IfOk, OnOk, IsPermutation, IsSortedByKey};
ghost use Rattle.std.specs.List.{AllByRecursion};
ghost use Rattle.ts_core.specs.lists.Members.{AllDistinct};
ghost use Rattle.ts_core.specs.lists.Numbered.{IsAt};
ghost use Rattle.ts_core.specs.facts.Facts.{Column, text_cmp, series_cmp};
ghost use Rattle.ts_core.specs.store.StoreStates.{column_of};
ghost use Rattle.ts_store.specs.image.ColumnsListed.{without_columns, with_saved_column, ListsColumns};
ghost use Rattle.ts_store.specs.image.SavedContent.{saved_field, saved_key, SavesColumns, SavesSeries};

use crate::store::column_facts::ColumnFacts;
use std::alloc::{AllocError, Allocator};
use std::cmp::Ordering;
use std::marker::Model;
use ts_core::{FieldName, Key};
use ts_raw::{ColumnId, Index};

/// Column of a series, by its field.
#[derive(Drop)]
pub struct SavedColumn<'a, A: Allocator> {
    /// Its field.
    pub field: &'a FieldName<A>,
    /// Its id.
    pub id: ColumnId,
}

impl<'a, A: Allocator> Model for SavedColumn<'a, A> {
    ghost use Rattle.ts_store.specs.image.SavedContent.{SavedColumn as SavedColumnValue};

    ghost Value = { SavedColumnValue };

    ghost view = { λ c. record { field = c.field.now; number = c.id } };
}

/// Series with its columns.
#[derive(Drop)]
pub struct SavedSeries<'a, A: Allocator> {
    /// Its key.
    pub key: &'a Key<A>,
    /// Its columns, in the order of their fields.
    pub columns: Vec<SavedColumn<'a, A>, A>,
}

impl<'a, A: Allocator> Model for SavedSeries<'a, A> {
    ghost use Rattle.ts_store.specs.image.SavedContent.{SavedSeries as SavedSeriesValue};

    ghost Value = { SavedSeriesValue };

    ghost view = { λ s. record { series = s.key.now; columns = s.columns.items } };
}

/// Compares two keys: by measurement, then by tags.
fn compare_keys<A: Allocator + Copy>(key: &Key<A>, other: &Key<A>) -> Ordering
    ensures { result ≡ series_cmp key.now other.now }
{
    match key.measurement().cmp(other.measurement()) {
        Ordering::Equal => key.tags().cmp(&other.tags()),
        order => order,
    }
}

/// Compares two columns by their fields.
fn compare_fields<A: Allocator + Copy>(
    column: &SavedColumn<'_, A>,
    other: &SavedColumn<'_, A>,
) -> Ordering
    ensures { result ≡ text_cmp column.now.field other.now.field }
{
    column.field.as_str().cmp(other.field.as_str())
}

/// Compares two series by their keys.
fn compare_series<A: Allocator + Copy>(
    series: &SavedSeries<'_, A>,
    other: &SavedSeries<'_, A>,
) -> Ordering
    ensures { result ≡ series_cmp series.now.series other.now.series }
{
    compare_keys(series.key, other.key)
}

/// Sorts columns by their fields.
fn sort_by_field<A: Allocator + Copy>(columns: &mut [SavedColumn<'_, A>])
    ensures permutation { IsPermutation columns.old columns.new }
    ensures sorted { IsSortedByKey saved_field text_cmp columns.new }
{
    columns.sort_unstable_by(|column, other| compare_fields(column, other));
}

/// Sorts series by their keys.
fn sort_by_key<A: Allocator + Copy>(all: &mut [SavedSeries<'_, A>])
    ensures permutation { IsPermutation all.old all.new }
    ensures sorted { IsSortedByKey saved_key series_cmp all.new }
{
    all.sort_unstable_by(|series, other| compare_series(series, other));
}

impl<'a, A: Allocator + Copy> SavedSeries<'a, A> {
    /// Creates a series without columns. Does not allocate.
    fn new(alloc: A, key: &'a Key<A>) -> SavedSeries<'a, A>
        ensures { result ≡ without_columns key.now }
    {
        SavedSeries {
            key,
            columns: Vec::new(alloc),
        }
    }

    /// Appends a column.
    fn push(&mut self, column: SavedColumn<'a, A>) -> Result<(), AllocError>
        ensures { OnOk result (self.new ≡ with_saved_column self.old column.entry) }
    {
        self.columns.push(column)?;
        Ok(())
    }

    /// Sorts its columns by their fields.
    fn sort(&mut self)
        ensures key { self.new.series ≡ self.old.series }
        ensures permutation { IsPermutation self.old.columns self.new.columns }
        ensures sorted { IsSortedByKey saved_field text_cmp self.new.columns }
    {
        sort_by_field(self.columns.as_mut_slice());
    }
}

/// Lists the registered series in creation order, without columns.
fn listed_series<'a, A: Allocator + Copy>(
    alloc: A,
    index: &'a Index<A>,
) -> Result<Vec<SavedSeries<'a, A>, A>, AllocError>
    ensures { IfOk result (λ all. all.items ≡ map without_columns index.now.series) }
{
    let mut all = Vec::new(alloc);
    for key in index.keys() {
        all.push(SavedSeries::new(alloc, key))?;
    }
    Ok(all)
}

/// Returns the column with this index, by its field.
fn saved_column<A: Allocator + Copy>(index: &Index<A>, id: ColumnId) -> SavedColumn<'_, A>
    requires { id < length index.now.columns }
    ensures field { (c : Column) → IsAt index.now.columns id c → result.field ≡ c.field }
    ensures number { result.number ≡ id }
{
    SavedColumn {
        field: index.field_of(id),
        id,
    }
}

/// Appends each column to the list of its series.
fn list_columns<'a, A: Allocator + Copy>(
    all: &mut Vec<SavedSeries<'a, A>, A>,
    index: &'a Index<A>,
) -> Result<(), AllocError>
    requires { all.old.items ≡ map without_columns index.now.series }
    ensures lists { OnOk result (ListsColumns index.now (length index.now.columns) all.new.items) }
    ensures once { AllDistinct index.now.series }
{
    for number in 0..index.column_count() {
        let id = ColumnId::new(number)?;
        let series = index.series_of(id);
        all[series.number()].push(saved_column(index, id))?;
    }
    Ok(())
}

/// Sorts the columns of each series by their fields.
fn sort_each<A: Allocator + Copy>(all: &mut [SavedSeries<'_, A>], index: &Index<A>)
    requires { ListsColumns index.now (length index.now.columns) all.old }
    ensures columns { AllByRecursion (SavesColumns index.now.columns) all.new }
    ensures keys { map saved_key all.new ≡ index.now.series }
{
    for series in all.iter_mut() {
        series.sort();
    }
}

/// Sorts series by their keys, and the columns of each by their fields.
fn sort_all<A: Allocator + Copy>(all: &mut [SavedSeries<'_, A>], index: &Index<A>)
    requires lists { ListsColumns index.now (length index.now.columns) all.old }
    requires once { AllDistinct index.now.series }
    ensures { SavesSeries index.now.series index.now.columns all.new }
{
    sort_each(all, index);
    sort_by_key(all);
}

impl<A: Allocator + Copy> ColumnFacts<A> {
    /// Lists the registered series in the order of their keys, each with its columns in the order of their fields.
    pub(crate) fn saved_series(&self, alloc: A) -> Result<Vec<SavedSeries<'_, A>, A>, AllocError>
        ensures { IfOk result (λ all. SavesSeries self.now.series (map column_of self.now.columns) all.items) }
    {
        let mut all = listed_series(alloc, &self.index)?;
        list_columns(&mut all, &self.index)?;
        sort_all(all.as_mut_slice(), &self.index);
        Ok(all)
    }
}
