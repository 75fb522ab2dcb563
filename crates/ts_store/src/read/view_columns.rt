//! Iterator over the columns that a store shows.
ghost use Rattle.std.specs.Prelude.{◌≡◌, ◌<◌, filter, map, length, IfOk};
ghost use Rattle.std.specs.Iterator.{YieldsFirst, item_count};
ghost use Rattle.std.specs.List.{AllByRecursion};
ghost use Rattle.ts_core.specs.facts.Facts.{Column, is_of};
ghost use Rattle.ts_core.specs.lists.Numbered.{IsAt, numbers_where};
ghost use Rattle.ts_store.specs.read.ViewResults.{IsNamed, column_ref_has, column_ref_in};

use crate::read::ViewColumn;
use std::alloc::{AllocError, Allocator};
use std::marker::Model;
use ts_raw::{ColumnId, Index};

/// Iterator over columns. Its model is the list of those that remain. Has a flag: true if they are all columns of a
/// measurement and a field, which the index can narrow by a tag.
#[derive(Drop)]
pub struct Columns<'a, A: Allocator> {
    left: &'a [ColumnId],
    index: &'a Index<A>,
    whole: bool,
}

impl<'a, A: Allocator> Model for Columns<'a, A> {
    ghost use Rattle.std.specs.Prelude.{List, map};
    ghost use Rattle.ts_store.specs.read.ViewResults.{ColumnRef, column_ref_in, AreColumns};

    ghost Value = { List ColumnRef };

    ghost view = { λ c. map (column_ref_in c.index.now.columns) c.left.now };

    ghost invariant = { λ c. AreColumns c.index.now.columns c.left.now c.whole };
}

/// Returns a column of an index.
fn view_column<A: Allocator + Copy>(index: &Index<A>, id: ColumnId) -> ViewColumn<'_, A>
    requires { id < length index.now.columns }
    ensures { result ≡ column_ref_in index.now.columns id }
{
    let key = index.key_of(index.series_of(id));
    ViewColumn { id, key }
}

/// Returns the columns of an index with these ids.
fn view_columns_of<'a, A: Allocator + Copy>(
    alloc: A,
    ids: &[ColumnId],
    index: &'a Index<A>,
) -> Result<Vec<ViewColumn<'a, A>, A>, AllocError>
    requires { AllByRecursion (λ n. n < length index.now.columns) ids.now }
    ensures { IfOk result (λ v. v.items ≡ map (column_ref_in index.now.columns) ids.now) }
{
    let mut columns = Vec::new(alloc);
    for id in ids {
        columns.push(view_column(index, *id))?;
    }
    Ok(columns)
}

/// Returns the measurement and the field of a column.
fn names<A: Allocator + Copy>(index: &Index<A>, id: ColumnId) -> (&str, &str)
    requires { id < length index.now.columns }
    ensures { (c : Column) → IsAt index.now.columns id c → IsNamed result.0.now result.1.now c }
{
    let key = index.key_of(index.series_of(id));
    (key.measurement(), index.field_of(id).as_str())
}

impl<'a, A: Allocator> Columns<'a, A> {
    /// Creates an iterator over the columns with these ids.
    pub fn new(left: &'a [ColumnId], index: &'a Index<A>) -> Columns<'a, A>
        requires { AllByRecursion (λ n. n < length index.now.columns) left.now }
        ensures { result ≡ map (column_ref_in index.now.columns) left.now }
    {
        Columns {
            left,
            index,
            whole: false,
        }
    }
}

impl<'a, A: Allocator + Copy> Columns<'a, A> {
    /// Creates an iterator over all columns of a measurement and a field, in creation order.
    pub fn all_of(index: &'a Index<A>, measurement: &str, field: &str) -> Columns<'a, A>
        ensures { result ≡ map
            (column_ref_in index.now.columns) (numbers_where (is_of measurement.now field.now) index.now.columns) }
    {
        Columns {
            left: index.columns_of(measurement, field),
            index,
            whole: true,
        }
    }

    /// Returns the number of columns that remain.
    pub fn len(&self) -> usize
        ensures { result ≡ length self.now }
    {
        self.left.len()
    }

    /// Returns the columns that remain, as a list.
    pub fn to_vec(&self, alloc: A) -> Result<Vec<ViewColumn<'a, A>, A>, AllocError>
        ensures { IfOk result (λ v. v.items ≡ self.now) }
    {
        view_columns_of(alloc, self.left, self.index)
    }

    /// Returns about how many of these columns have a series with this value of a tag. It is a hint for the choice of a
    /// tag to narrow by.
    pub fn count_with_tag(&self, tag: &str, value: &str) -> usize {
        if value.is_empty() || !self.whole {
            return self.left.len();
        }
        match self.left.first() {
            None => 0,
            Some(first) => {
                let (measurement, _) = names(self.index, *first);
                self.index.count_with_tag(measurement, tag, value)
            }
        }
    }

    /// Returns those of the columns that remain whose series has this value of a tag, in the same order. Finds them by
    /// the index if it can, without visiting the others.
    pub fn with_tag(
        &self,
        alloc: A,
        tag: &str,
        value: &str,
    ) -> Result<Vec<ViewColumn<'a, A>, A>, AllocError>
        ensures { IfOk result (λ v. v.items ≡ filter (column_ref_has tag.now value.now) self.now) }
    {
        if value.is_empty() || !self.whole {
            return self.tested(alloc, tag, value);
        }
        match self.left.first() {
            None => Ok(Vec::new(alloc)),
            Some(first) => {
                let (measurement, field) = names(self.index, *first);
                let found = self
                    .index
                    .columns_with_tag(alloc, measurement, field, tag, value)?;
                view_columns_of(alloc, &found, self.index)
            }
        }
    }

    /// Returns those of the columns that remain whose series has this value of a tag, visiting each.
    fn tested(
        &self,
        alloc: A,
        tag: &str,
        value: &str,
    ) -> Result<Vec<ViewColumn<'a, A>, A>, AllocError>
        ensures { IfOk result (λ v. v.items ≡ filter (column_ref_has tag.now value.now) self.now) }
    {
        let mut found = self.to_vec(alloc)?;
        found.retain(|column| column.key.tag_value(tag) == value);
        Ok(found)
    }
}

impl<'a, A: Allocator + Copy> Iterator for Columns<'a, A> {
    type Item = ViewColumn<'a, A>;

    ghost next_gives = { YieldsFirst (λ c. c) };

    ghost remaining = { item_count (λ c. c) };

    fn next(&mut self) -> Option<ViewColumn<'a, A>> {
        let (first, others) = self.left.split_first()?;
        self.left = others;
        self.whole = false;
        Some(view_column(self.index, *first))
    }
}
