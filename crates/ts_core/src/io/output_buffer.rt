//! A write buffer in front of a sink.
ghost use Rattle.std.specs.Prelude.{◌≡◌, ◌+◌, ◌≤◌, ◌++◌, [], length, vec_len, vec_capacity, IfOk};
ghost use Rattle.ts_core.specs.io.OutputBuffering.{IsBuffered};

use crate::io::{Refused, Sink};
use std::alloc::{AllocError, Allocator};
use std::io::Write;
use std::marker::Model;

/// A write buffer; its model is the buffered bytes. They are written by `flush`, and when more bytes don't fit.
#[derive(Drop)]
pub struct OutputBuffer<A: Allocator> {
    bytes: Vec<u8, A>,
    size: usize,
}

impl<A: Allocator> Model for OutputBuffer<A> {
    ghost use Rattle.std.specs.Prelude.{◌≤◌, ℕ, List, vec_len, vec_capacity};

    ghost Value = { List ℕ };

    ghost view = { λ b. b.bytes.items };

    ghost invariant = { λ b. (vec_len b.bytes ≤ b.size) × (b.size ≤ vec_capacity b.bytes) };
}

/// Appends bytes for which the vector has capacity. Does not allocate.
fn append_in_capacity<A: Allocator>(buffer: &mut Vec<u8, A>, bytes: &[u8])
    requires { vec_len buffer.old + length bytes.now ≤ vec_capacity buffer.old }
    ensures items { buffer.new.items ≡ buffer.old.items ++ bytes.now }
    ensures spare { vec_capacity buffer.old ≤ vec_capacity buffer.new }
{
    match buffer.extend_from_slice(bytes) {
        Ok(()) => {}
        Err(_) => unreachable!(),
    }
}

impl<A: Allocator> OutputBuffer<A> {
    /// Creates an empty buffer of `size` bytes. No other function of the buffer allocates.
    pub fn new(alloc: A, size: usize) -> Result<OutputBuffer<A>, AllocError>
        ensures { IfOk result (λ b. b ≡ []) }
    {
        Ok(OutputBuffer {
            bytes: Vec::with_capacity(alloc, size)?,
            size,
        })
    }

    /// Writes the buffered bytes and clears the buffer. After a refused write only a prefix of them may have been
    /// written; the rest is lost.
    pub fn flush<W: Write>(&mut self, sink: &mut Sink<W>) -> Result<(), Refused>
        ensures buffered { IsBuffered sink.old self.old result [] sink.new self.new }
        ensures empty { self.new ≡ [] }
    {
        let result = sink.write_all(&self.bytes);
        self.bytes.clear();
        result
    }

    /// Appends bytes. If they don't fit, the buffered bytes are written first; bytes that never fit are written after
    /// them. After a refused write only a prefix of all these bytes may have been written; the rest is lost.
    pub fn write_all<W: Write>(&mut self, bytes: &[u8], sink: &mut Sink<W>) -> Result<(), Refused>
        ensures { IsBuffered sink.old self.old result bytes.now sink.new self.new }
    {
        if bytes.len() <= self.size - self.bytes.len() {
            append_in_capacity(&mut self.bytes, bytes);
            return Ok(());
        }
        self.flush(sink)?;
        if bytes.len() > self.size {
            return sink.write_all(bytes);
        }
        append_in_capacity(&mut self.bytes, bytes);
        Ok(())
    }
}
