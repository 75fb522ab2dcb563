//! Lists of a text: each is kept in memory, or given up once memory is refused. A contract sees the whole list in
//! either case.
mod column_reader;
mod columns;
mod conditions;
mod queries;
mod shadow;
mod tags;

pub(crate) use columns::{Column, Columns};
pub(crate) use conditions::{Conditions, TagTest};
pub(crate) use queries::Queries;
pub(crate) use tags::Tags;
