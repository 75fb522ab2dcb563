//! Reads: the view that a query has, with its columns, points and cells.

mod cell_walk;
mod view;
mod view_columns;

pub use cell_walk::{CellWalk, ViewCell};
pub use view::{View, ViewColumn};
pub use view_columns::Columns;
