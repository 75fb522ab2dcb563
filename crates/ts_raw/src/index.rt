//! Index of series and columns by their names.
ghost use Rattle.std.specs.Bool.{OnTrue};
ghost use Rattle.std.specs.Prelude.{◌≡◌, ◌≤◌, ◌<◌, ◌↔◌, [], length, IfSome, IfNone, IfOk, Err};
ghost use Rattle.ts_core.specs.facts.Facts.{Column, is_of};
ghost use Rattle.ts_core.specs.lists.Members.{Among};
ghost use Rattle.ts_raw.specs.Indexed.{IsSoundIndex, column_in};
ghost use Rattle.ts_raw.specs.Registering.{IsRegistered};
ghost use Rattle.ts_raw.specs.Tagged.{is_tagged};
ghost use Rattle.ts_core.specs.lists.Numbered.{IsAt, numbers_where};

mod column_id;
mod columns;
mod fault;
mod fields;
mod hash;
mod series;
mod series_id;
mod tagged;
mod tags;

pub use column_id::ColumnId;
use columns::ColumnTable;
pub use fault::IndexFault;
use fields::FieldTable;
use series::SeriesTable;
pub use series_id::SeriesId;
use std::alloc::{AllocError, Allocator};
use std::hash::RandomState;
use std::marker::Model;
use tagged::{sort_and_dedup, tagged_columns};
use ts_core::{FieldName, Key, KeyRef};

/// Limit of the number of registered series.
pub const SERIES_LIMIT: usize = 1_000_000;

/// Index of the registered series and their columns. Hash tables find them by name; their numbers are in creation
/// order.
/// (InfluxData 1.8: series, field key.)
///
/// It guesses which column is looked up next. After `register`, that is the first column of the series; after
/// `find_column`, the column created after the one found. A right guess spares the hash look-up; a wrong one costs a
/// comparison.
#[derive(Drop)]
pub struct Index<A: Allocator> {
    series: SeriesTable<A>,
    fields: FieldTable<A>,
    columns: ColumnTable<A>,
    guess: Option<ColumnId>,
}

impl<A: Allocator> Model for Index<A> {
    ghost use Rattle.ts_raw.specs.Indexed.{Indexed};
    ghost use Rattle.ts_raw.specs.IndexParts.{index_by_numbers, IsIndexOfParts};

    ghost Value = { Indexed };

    ghost view = { λ i. index_by_numbers i.series i.fields i.columns };

    ghost invariant = { λ i. IsIndexOfParts i.series i.fields i.columns };
}

impl<A: Allocator + Copy> Index<A> {
    /// Creates an empty index. `seed`: of the hashes of names; no answer depends on it. Does not allocate.
    pub fn new(alloc: A, seed: RandomState) -> Index<A>
        ensures series { result.series ≡ [] }
        ensures columns { result.columns ≡ [] }
    {
        Index {
            series: SeriesTable::new(alloc, seed),
            fields: FieldTable::new(alloc, seed),
            columns: ColumnTable::new(alloc),
            guess: None,
        }
    }

    /// Returns the seed of the hashes of names.
    pub fn seed(&self) -> RandomState {
        self.series.seed()
    }

    /// Returns the number of registered series.
    pub fn series_count(&self) -> usize
        ensures value { result ≡ length self.now.series }
        ensures sound { IsSoundIndex self.now }
    {
        self.series.len()
    }

    /// Returns the keys of the registered series.
    pub fn keys(&self) -> &[Key<A>]
        ensures { result.now ≡ self.now.series }
    {
        self.series.keys()
    }

    /// Returns the number of columns.
    pub fn column_count(&self) -> usize
        ensures value { result ≡ length self.now.columns }
        ensures sound { IsSoundIndex self.now }
    {
        self.columns.len()
    }

    /// Looks up the series of a key.
    pub fn lookup(&self, key: &KeyRef<'_>) -> Option<SeriesId>
        ensures found { IfSome result (λ id. IsAt self.now.series id key.now) }
        ensures absent { IfNone result (Among key.now self.now.series → ⊥) }
    {
        self.series.lookup(key)
    }

    /// Returns the series of a key, registering it if needed. Fails with `TooManySeries` if it is new and 1,000,000
    /// series are registered.
    pub fn register(&mut self, key: &KeyRef<'_>) -> Result<SeriesId, IndexFault>
        ensures registered { IsRegistered self.old.series self.new.series result key.now }
        ensures columns { self.new.columns ≡ self.old.columns }
        ensures full { (result ≡ Err IndexFault.TooManySeries)
            ↔ ((1_000_000 ≤ length self.old.series) × (Among key.now self.old.series → ⊥)) }
        ensures sound { IsSoundIndex self.new }
    {
        let series = self.series.register(SERIES_LIMIT, key)?;
        self.guess = self.columns.first_of(series.number);
        Ok(series)
    }

    /// Returns the key of a series.
    pub fn key_of(&self, series: SeriesId) -> &Key<A>
        requires { series < length self.now.series }
        ensures { IsAt self.now.series series result.now }
    {
        self.series.key(series)
    }

    /// Returns the series of a column.
    pub fn series_of(&self, column: ColumnId) -> SeriesId
        requires { column < length self.now.columns }
        ensures there { result < length self.now.series }
        ensures names { (c : Column) → IsAt self.now.columns column c → IsAt self.now.series result c.series }
    {
        let (number, _) = self.columns.numbers(column);
        SeriesId { number }
    }

    /// Returns the field of a column.
    pub fn field_of(&self, column: ColumnId) -> &FieldName<A>
        requires { column < length self.now.columns }
        ensures { (c : Column) → IsAt self.now.columns column c → result.now ≡ c.field }
    {
        let (_, number) = self.columns.numbers(column);
        self.fields.key(number).field()
    }

    /// Looks up the column of a series and a field, without the guess.
    #[cold]
    fn column(&self, series: SeriesId, field: &str) -> Option<ColumnId>
        requires { series < length self.now.series }
        ensures found { IfSome result (λ id. IsAt self.now.columns id (column_in self.now series field.now)) }
        ensures absent { IfNone result (Among (column_in self.now series field.now) self.now.columns → ⊥) }
        ensures sound { IsSoundIndex self.now }
    {
        let measurement = self.series.key(series).measurement();
        let field = self.fields.lookup(measurement, field)?;
        self.columns.lookup(series.number, field)
    }

    /// Returns the guessed column if it is that of this series and this field.
    fn guessed(&self, series: SeriesId, field: &str) -> Option<ColumnId>
        ensures { IfSome result (λ id. IsAt self.now.columns id (column_in self.now series field.now)) }
    {
        let guess = self.guess?;
        if guess.number() < self.columns.len() && self.is_column(guess, series, field) {
            Some(guess)
        } else {
            None
        }
    }

    /// Looks up the column of a series and a field, trying the guess first.
    pub fn find_column(&mut self, series: SeriesId, field: &str) -> Option<ColumnId>
        requires { series < length self.old.series }
        ensures found { IfSome result (λ id. IsAt self.old.columns id (column_in self.old series field.now)) }
        ensures absent { IfNone result (Among (column_in self.old series field.now) self.old.columns → ⊥) }
        ensures unchanged { self.new ≡ self.old }
        ensures sound { IsSoundIndex self.old }
    {
        let column = match self.guessed(series, field) {
            Some(column) => column,
            None => self.column(series, field)?,
        };
        self.guess = Some(column.next());
        Some(column)
    }

    /// Returns true if a column is of this series and this field.
    fn is_column(&self, column: ColumnId, series: SeriesId, field: &str) -> bool
        requires { column < length self.now.columns }
        ensures { OnTrue result (IsAt self.now.columns column (column_in self.now series field.now)) }
    {
        let (of, number) = self.columns.numbers(column);
        of == series.number && self.fields.key(number).field().as_str() == field
    }

    /// Returns the columns of a measurement and a field, in creation order. Visits no other columns.
    pub fn columns_of(&self, measurement: &str, field: &str) -> &[ColumnId]
        ensures { result.now ≡ numbers_where (is_of measurement.now field.now) self.now.columns }
    {
        match self.fields.lookup(measurement, field) {
            Some(field) => self.columns.of_field(field),
            None => &[],
        }
    }

    /// Returns the columns of a measurement and a field whose series has this value of a tag, in creation order. Visits
    /// few other series.
    pub fn columns_with_tag(
        &self,
        alloc: A,
        measurement: &str,
        field: &str,
        tag: &str,
        value: &str,
    ) -> Result<Vec<ColumnId, A>, AllocError>
        requires { value.now ≡ [] → ⊥ }
        ensures { IfOk result
            (λ v. v.items ≡ numbers_where (is_tagged measurement.now field.now tag.now value.now) self.now.columns) }
    {
        match self.fields.lookup(measurement, field) {
            Some(field) => {
                let numbers = self.series.with_tag(measurement, tag, value)?;
                let mut found = tagged_columns(
                    alloc,
                    &self.series,
                    &self.columns,
                    &numbers,
                    field,
                    tag,
                    value,
                )?;
                sort_and_dedup(&mut found);
                Ok(found)
            }
            None => Ok(Vec::new(alloc)),
        }
    }

    /// Returns about how many series of a measurement have this value of a tag. It is a hint: which columns a query
    /// visits may depend on it, but not its answer.
    pub fn count_with_tag(&self, measurement: &str, tag: &str, value: &str) -> usize {
        self.series.count_with_tag(measurement, tag, value)
    }

    /// Returns the column of a series and a field, creating it if needed. Fails with `AllocError` too if the index of
    /// the field or the column doesn't fit 32 bits.
    pub fn add_column(&mut self, series: SeriesId, field: &str) -> Result<ColumnId, AllocError>
        requires { series < length self.old.series }
        ensures registered { IsRegistered self.old.columns self.new.columns result
            (column_in self.old series field.now) }
        ensures series { self.new.series ≡ self.old.series }
        ensures sound { IsSoundIndex self.new }
    {
        match self.find_column(series, field) {
            Some(column) => Ok(column),
            None => self.make_column(series, field),
        }
    }

    #[cold]
    fn make_column(&mut self, series: SeriesId, field: &str) -> Result<ColumnId, AllocError>
        requires series { series < length self.old.series }
        requires absent { Among (column_in self.old series field.now) self.old.columns → ⊥ }
        ensures registered { IsRegistered self.old.columns self.new.columns result
            (column_in self.old series field.now) }
        ensures series { self.new.series ≡ self.old.series }
        ensures sound { IsSoundIndex self.new }
    {
        self.columns.add_missing_field(self.fields.len())?;
        let measurement = self.series.key(series).measurement();
        let field = self.fields.register(measurement, field)?;
        self.columns.push(series.number, field)
    }
}
