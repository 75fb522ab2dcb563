//! Index of a series, used instead of its key.
ghost use Rattle.std.specs.Prelude.{◌≡◌};

use std::marker::Model;

/// Index of a registered series, in creation order from 0.
#[derive(Clone, Copy, Debug, PartialEq, Eq, PartialOrd, Ord)]
pub struct SeriesId {
    pub(crate) number: u32,
}

impl SeriesId {
    /// Returns the index, which is the number of series registered before.
    pub fn number(self) -> usize
        ensures { result ≡ self }
    {
        self.number as usize
    }
}

impl Model for SeriesId {
    ghost use Rattle.std.specs.Prelude.{ℕ};

    ghost Value = { ℕ };

    ghost view = { λ id. id.number };

    ghost inverse = { λ n. record { number = n } };
}
