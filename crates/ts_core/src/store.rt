//! The marks of a store, and the laws of its transitions.

mod laws;
mod marks;

pub use laws::{rule_moves, settings_texts, store_moves};
pub use marks::Marks;
