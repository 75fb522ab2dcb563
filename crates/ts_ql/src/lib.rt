//! Parses InfluxQL: the queries of a text, or its first error. Depends on ts_core, and on jiff for the calendar.
//!
//! Proved, in both directions: `parse` returns the queries that the grammar gives a text (specs/Grammar, Productions,
//! Meanings), or its first error (specs/Laws). The parser is a state machine over tokens (specs/Reading): a state, and
//! a builder of the current statement. Its steps need no memory: once memory is refused, a list is given up (lists.rt),
//! and names of columns are compared in the text (lists/column_reader.rt). So an error is found without memory too.
//!
//! ```text
//! parse(alloc, "SELECT MAX(v) FROM cpu WHERE time >= 0 AND time < 60s GROUP BY time(1m)", now)?
//!     // one Query: measurement() is "cpu", from() 0, to() 60000000000, columns()[0].function() Function::Max
//! parse(alloc, "SELECT MEDIAN(v) FROM cpu", now)  // Err: OutOfProfile("MEDIAN") at byte 7
//! ```
//!
//! To add a function: touch keywords.rt and specs/Keywords.antt. To add a clause: its states in state.rt, its tokens in
//! shape.rt, its builder in statement.rt, and specs/Grammar.antt, Productions.antt and Meanings.antt. To change an
//! error's number or message: ts_core's `FaultCode`.
#![tactic(auto)]

mod bytes;
mod date;
mod fault;
mod filling;
mod filter;
mod groups;
mod keywords;
mod lists;
mod literal;
mod moment;
mod number;
mod query;
mod reader;
mod selection;
mod shape;
mod state;
mod statement;
mod token;
mod unit;

pub use fault::{ParseError, QlFault, QlFaultKind};
pub use query::{Condition, Projection, Query, QueryParts, count_query};
pub use reader::parse;
