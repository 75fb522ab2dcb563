//! Parses one line of line protocol. Depends on ts_core only.
//!
//! Proved: a valid line gives exactly its parts, each with its span in the text. An invalid line gives its first error,
//! with that error's byte offset.
//!
//! ```text
//! read_line(alloc, "cpu,host=a v=5i 10", Precision::Seconds, now)?  // Some(line): line.fields()[0].value() is 5
//! read_line(alloc, "# a comment", Precision::Seconds, now)?         // None
//! read_line(alloc, "cpu v=5.0", Precision::Seconds, now)            // Err: FieldType at byte 4
//! ```
//!
//! To accept another form of value: touch value.rt, and the value of a `Field`. To change where names end or which
//! bytes are escaped: scan.rt. To change a limit: read.rt. Each change also touches specs/Lines.antt, which parses a
//! line, and specs/Spelling.antt, which writes it.
#![tactic(auto)]

mod ends;
mod fault;
mod field;
mod line;
mod name_filter;
mod part;
mod read;
mod scan;
mod short;
mod tag;
mod timestamp;
mod value;

pub use fault::{LineFault, LineFaultKind, ReadLineError};
pub use line::{Field, Line, Part, Tag};
pub use read::read_line;
pub use timestamp::moment;

/// Unit of a line's timestamp; `TimeUnit::of_precision` parses its name. (InfluxData 1.8, HTTP API, `precision`.)
pub use ts_core::TimeUnit as Precision;
