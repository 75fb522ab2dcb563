//! Writes the parts of an image.

pub(crate) mod cells;
pub(crate) mod columns;
pub(crate) mod fields;
pub(crate) mod series;
pub(crate) mod settings;
pub(crate) mod store_cells;
pub(crate) mod store_series;
