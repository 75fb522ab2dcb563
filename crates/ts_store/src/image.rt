//! The parts of a store that an image saves, and a store that is built from them.

mod building;
mod columns_built;
mod frozen_cells;
mod saved_series;
mod saving;

pub use building::StoreBuilder;
pub use frozen_cells::{FrozenCell, FrozenCells};
pub use saved_series::{SavedColumn, SavedSeries};
