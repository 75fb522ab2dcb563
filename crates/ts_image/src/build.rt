//! Creates a store from the parts of an image.

pub(crate) mod parts;
pub(crate) mod settings;
pub(crate) mod store;
