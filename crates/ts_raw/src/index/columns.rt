//! Columns by the indices of their series and fields.
ghost use Rattle.std.specs.Prelude.{◌≡◌, ◌+◌, ◌<◌, ◌≤◌, ◌++◌, [], ◌∷◌, length, IfSome, IfNone, IfOk, OnOk, OnErr};
ghost use Rattle.ts_core.specs.lists.Members.{Among, AllDistinct};
ghost use Rattle.ts_raw.specs.ColumnTables.{is_of_field};
ghost use Rattle.ts_core.specs.lists.Numbered.{IsAt, numbers_where};

use crate::index::column_id::ColumnId;
use std::alloc::{AllocError, Allocator};
use std::collections::HashMap;
use std::hash::{BuildHasherDefault, FoldHasher};
use std::marker::Model;
use ts_core::next_id;

/// Table of columns: a hash map from pairs of series and field to columns, and a list of the columns of each field.
/// Caches for each series a guess at its first column.
#[derive(Drop)]
pub(crate) struct ColumnTable<A: Allocator> {
    columns: Vec<(u32, u32), A>,
    indices: HashMap<(u32, u32), u32, BuildHasherDefault<FoldHasher>, A>,
    members: Vec<Vec<ColumnId, A>, A>,
    firsts: Vec<ColumnId, A>,
}

impl<A: Allocator> Model for ColumnTable<A> {
    ghost use Rattle.std.specs.Prelude.{length};
    ghost use Rattle.std.specs.HashMap.{get};
    ghost use Rattle.ts_raw.specs.ColumnTables.{ColumnNumbers, IsColumnTable, same_numbers};
    ghost use Rattle.ts_raw.specs.Lists.{lists_of};

    ghost Value = { ColumnNumbers };

    ghost view = { λ t. record { columns = t.columns.items; fields = length t.members.items } };

    ghost invariant = { λ t. IsColumnTable (get same_numbers t.indices) t.columns.items (lists_of t.members.items) };
}

/// Caches a column as the first of its series, and of earlier series without an entry. An existing entry stays.
fn note_first<A: Allocator>(
    firsts: &mut Vec<ColumnId, A>,
    series: u32,
    column: ColumnId,
) -> Result<(), AllocError>
    ensures { OnOk result (series < length firsts.new.items) }
{
    if firsts.len() <= series as usize {
        firsts.resize(series as usize + 1, column)?;
    }
    Ok(())
}

impl<A: Allocator + Copy> ColumnTable<A> {
    /// Creates a table without columns and fields.
    pub(crate) fn new(alloc: A) -> ColumnTable<A>
        ensures columns { result.columns ≡ [] }
        ensures fields { result.fields ≡ 0 }
    {
        ColumnTable {
            columns: Vec::new(alloc),
            indices: HashMap::new(alloc),
            members: Vec::new(alloc),
            firsts: Vec::new(alloc),
        }
    }

    /// Returns the number of columns.
    pub(crate) fn len(&self) -> usize
        ensures value { result ≡ length self.now.columns }
        ensures once { AllDistinct self.now.columns }
    {
        self.columns.len()
    }

    /// Returns the indices of a column's series and field.
    pub(crate) fn numbers(&self, column: ColumnId) -> (u32, u32)
        requires { column < length self.now.columns }
        ensures { IsAt self.now.columns column result }
    {
        self.columns[column.number as usize]
    }

    /// Looks up the column of a series and a field.
    pub(crate) fn lookup(&self, series: u32, field: u32) -> Option<ColumnId>
        ensures found { IfSome result (λ n. IsAt self.now.columns n (series, field)) }
        ensures absent { IfNone result (Among (series, field) self.now.columns → ⊥) }
    {
        let number = *self.indices.get(&(series, field))?;
        Some(ColumnId { number })
    }

    /// Returns the cached first column of a series. It is only a guess.
    pub(crate) fn first_of(&self, series: u32) -> Option<ColumnId> {
        self.firsts.get(series as usize).copied()
    }

    /// Returns the columns of a field, in creation order.
    pub(crate) fn of_field(&self, field: u32) -> &[ColumnId]
        requires { field < self.now.fields }
        ensures { result.now ≡ numbers_where (is_of_field field) self.now.columns }
    {
        self.members[field as usize].as_slice()
    }

    /// Adds an empty list of columns for one more field.
    fn add_field(&mut self) -> Result<(), AllocError>
        ensures columns { self.new.columns ≡ self.old.columns }
        ensures ok { OnOk result (self.new.fields ≡ self.old.fields + 1) }
        ensures err { OnErr result (self.new.fields ≡ self.old.fields) }
    {
        let alloc = *self.members.allocator();
        self.members.push(Vec::new(alloc))?;
        Ok(())
    }

    /// Ensures that more than `fields` fields have a list of columns: adds an empty one if exactly `fields` have one.
    pub(crate) fn add_missing_field(&mut self, fields: usize) -> Result<(), AllocError>
        requires { fields ≤ self.old.fields }
        ensures columns { self.new.columns ≡ self.old.columns }
        ensures more { self.old.fields ≤ self.new.fields }
        ensures ok { OnOk result (fields < self.new.fields) }
    {
        if self.members.len() == fields {
            self.add_field()?;
        }
        Ok(())
    }

    /// Appends a column; returns its index.
    pub(crate) fn push(&mut self, series: u32, field: u32) -> Result<ColumnId, AllocError>
        requires field { field < self.old.fields }
        requires absent { Among (series, field) self.old.columns → ⊥ }
        ensures number { IfOk result (λ n. n ≡ length self.old.columns) }
        ensures ok { OnOk result (self.new.columns ≡ self.old.columns ++ (series, field) ∷ []) }
        ensures fields { self.new.fields ≡ self.old.fields }
        ensures err { OnErr result (self.new.columns ≡ self.old.columns) }
    {
        let number = next_id(self.columns.len())?;
        note_first(&mut self.firsts, series, ColumnId { number })?;
        self.columns.reserve(1)?;
        self.indices.reserve(1)?;
        let members = &mut self.members[field as usize];
        members.push(ColumnId { number })?;
        let inserted: Result<_, _> = self.indices.insert((series, field), number);
        inserted.unwrap();
        self.columns.push((series, field)).unwrap();
        Ok(ColumnId { number })
    }
}
