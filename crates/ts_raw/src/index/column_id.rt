//! Index of a column, used instead of its names.
ghost use Rattle.std.specs.Prelude.{◌≡◌, ◌+◌, min, IfOk};

use std::alloc::AllocError;
use std::marker::Model;
use ts_core::next_id;

/// Index of a column, in creation order from 0.
#[derive(Clone, Copy, Debug, PartialEq, Eq, PartialOrd, Ord)]
pub struct ColumnId {
    pub(crate) number: u32,
}

impl ColumnId {
    /// Returns the id of the column with this index. Fails if the index doesn't fit 32 bits.
    pub fn new(number: usize) -> Result<ColumnId, AllocError>
        ensures { IfOk result (λ id. id ≡ number) }
    {
        Ok(ColumnId {
            number: next_id(number)?,
        })
    }

    /// Returns the index, which is the number of columns created before.
    pub fn number(self) -> usize
        ensures { result ≡ self }
    {
        self.number as usize
    }

    /// Returns the next index, or the same one if it is `u32::MAX`.
    pub(crate) fn next(self) -> ColumnId
        ensures { result ≡ min (self + 1) 4_294_967_295 }
    {
        ColumnId {
            number: self.number.saturating_add(1),
        }
    }
}

impl Model for ColumnId {
    ghost use Rattle.std.specs.Prelude.{ℕ};

    ghost Value = { ℕ };

    ghost view = { λ id. id.number };

    ghost inverse = { λ n. record { number = n } };
}
