//! A small vector of the columns of a rollup series: most rollup series have one, which is stored inline; more are in a
//! vector on the heap. The kit's `SmallVec` keeps a whole `Vec` in the value, which costs each rollup series more
//! bytes.
ghost use Rattle.std.specs.Prelude.{◌≡◌, ◌++◌, ◌∷◌, [], true, OnOk};

use std::alloc::{AllocError, Allocator};
use std::marker::Model;
use std::slice;
use ts_raw::ColumnId;

#[derive(Drop)]
enum Storage<A: Allocator> {
    /// At most one, inline.
    One(Option<ColumnId>),
    /// More. The box keeps the inline case small.
    Many(Box<Vec<ColumnId, A>, A>),
}

/// Small vector of the columns of a rollup series, in creation order.
#[derive(Drop)]
pub(crate) struct SeriesColumns<A: Allocator> {
    storage: Storage<A>,
}

impl<A: Allocator> Model for SeriesColumns<A> {
    ghost use Rattle.ts_store.specs.rollup.ColumnLists.{ColumnList, coded_list_of_columns, stored_list};

    ghost Value = { ColumnList };

    ghost coded = { coded_list_of_columns };

    ghost view = { λ c. stored_list c.storage };
}

impl<A: Allocator + Copy> SeriesColumns<A> {
    /// Creates an empty list. Does not allocate.
    pub(crate) fn new() -> SeriesColumns<A>
        ensures { result.items ≡ [] }
    {
        SeriesColumns {
            storage: Storage::One(None),
        }
    }

    /// Returns the columns, in creation order.
    pub(crate) fn as_slice(&self) -> &[ColumnId]
        ensures { result.now ≡ self.now.items }
    {
        match &self.storage {
            Storage::One(None) => &[],
            Storage::One(Some(column)) => slice::from_ref(column),
            Storage::Many(columns) => columns.as_slice(),
        }
    }

    /// Reserves capacity for one more column. Does not allocate for the first.
    pub(crate) fn reserve(&mut self, alloc: A) -> Result<(), AllocError>
        ensures items { self.new.items ≡ self.old.items }
        ensures ok { OnOk result (self.new.has_capacity ≡ true) }
    {
        match &mut self.storage {
            Storage::One(None) => Ok(()),
            Storage::One(Some(column)) => {
                let mut columns = Vec::with_capacity(alloc, 2)?;
                columns.push(*column).unwrap();
                self.storage = Storage::Many(Box::new(alloc, columns)?);
                Ok(())
            }
            Storage::Many(columns) => columns.reserve(1),
        }
    }

    /// Appends a column within the reserved capacity. Does not allocate.
    pub(crate) fn push(&mut self, column: ColumnId)
        requires { self.old.has_capacity ≡ true }
        ensures { self.new.items ≡ self.old.items ++ column ∷ [] }
    {
        match &mut self.storage {
            Storage::One(one) => *one = Some(column),
            Storage::Many(columns) => columns.push(column).unwrap(),
        }
    }
}
