//! Tests of the lower crates that only a call shows: bytes of blocks, columns, spans of lines, messages without room,
//! and limits. Depends on these crates, and nothing depends on it, so no other crate is proved again for its tests. All
//! its code is tests; it proves nothing.
#![tactic(auto)]

#[cfg(test)]
mod block_bytes;
#[cfg(test)]
mod cell_limits;
#[cfg(test)]
mod columns;
#[cfg(test)]
mod index_limits;
#[cfg(test)]
mod line_spans;
#[cfg(test)]
mod messages;
#[cfg(test)]
mod refused_columns;
#[cfg(test)]
mod refusing;
