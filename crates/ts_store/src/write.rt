//! Writes: the text of a line, its columns, and the cells of its facts.

pub(crate) mod columns;
pub(crate) mod committing;
pub(crate) mod creating;
mod fault;
mod write_text;

pub use fault::{RunInProgress, WriteFault};
pub use write_text::{LineOutcome, LineRefusal};
