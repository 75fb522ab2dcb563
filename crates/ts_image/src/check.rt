//! Tests an image for contradictions.

pub(crate) mod cells;
pub(crate) mod counts;
pub(crate) mod image;
pub(crate) mod rules;
pub(crate) mod series;
