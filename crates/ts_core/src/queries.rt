//! Functions of queries with their values, and fill options.

mod fill;
mod value;

pub use fill::Fill;
pub use value::{Function, Value};
