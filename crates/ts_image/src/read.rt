//! Reads the parts of an image, from left to right.

pub(crate) mod cells;
pub(crate) mod columns;
pub(crate) mod fields;
pub(crate) mod image;
pub(crate) mod points;
pub(crate) mod rules;
pub(crate) mod series;
