//! Errors of a plan's pieces.

mod fault;

pub use fault::PieceFault;
