//! Devices that bytes come from and go to, and buffers in front of them.

mod output_buffer;
mod read_ahead;
mod sink;
mod source;
mod tally;

pub use output_buffer::OutputBuffer;
pub use read_ahead::{ReadAhead, ReadFault};
pub use sink::{Refused, Sink};
pub use source::Source;
