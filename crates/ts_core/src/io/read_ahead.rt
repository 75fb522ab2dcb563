//! A read buffer of 64 KiB in front of a source, with a limit on the number of reads.
ghost use Rattle.std.specs.Prelude.{◌≡◌, ◌≤◌, [], length, IfOk, false};
ghost use Rattle.ts_core.specs.io.ReadingAhead.{nothing_ahead, most_ahead, IsConsumed, IsFilled};

use crate::Source;
use std::alloc::{AllocError, Allocator};
use std::io::Read;
use std::marker::Model;

/// Size of the buffer, and so the most bytes per read.
const BUFFER_SIZE: usize = 65_536;

/// Reason why a read returned no bytes.
#[derive(Clone, Copy, Debug, Drop)]
pub enum ReadFault {
    /// A read failed.
    Device,
    /// Limit of reads, reached without an end of input.
    TooManyReads,
}

/// A read buffer. The source is passed to each read.
#[derive(Drop)]
pub struct ReadAhead<A: Allocator + Copy> {
    buffer: Vec<u8, A>,
    at: usize,
    end: usize,
    reads: u64,
    limit: u64,
    ended: bool,
}

impl<A: Allocator + Copy> Model for ReadAhead<A> {
    ghost use Rattle.std.specs.Prelude.{◌≡◌, ◌≤◌, take, slice_range, vec_len};
    ghost use Rattle.ts_core.specs.io.ReadingAhead.{Ahead, most_ahead};

    ghost Value = { Ahead };

    ghost view = { λ r. record {
      used = take r.at r.buffer.items;
      buffered = slice_range r.buffer.items r.at r.end;
      reads = r.reads;
      limit = r.limit;
      ended = r.ended;
    } };

    ghost invariant = { λ r. (r.at ≤ r.end) × (r.end ≤ vec_len r.buffer) × (vec_len r.buffer ≡ most_ahead) × (r.reads ≤ r.limit) };
}

impl<A: Allocator + Copy> ReadAhead<A> {
    /// Creates an empty buffer of 64 KiB, with a limit on the number of reads. No other function of the buffer
    /// allocates.
    pub fn new(alloc: A, limit: u64) -> Result<ReadAhead<A>, AllocError>
        ensures { IfOk result (λ r. r ≡ nothing_ahead limit) }
    {
        Ok(ReadAhead {
            buffer: vec![in alloc; 0; BUFFER_SIZE]?,
            at: 0,
            end: 0,
            reads: 0,
            limit,
            ended: false,
        })
    }

    /// Returns the bytes that were read and not consumed.
    pub fn buffered(&self) -> &[u8]
        ensures value { result.now ≡ self.now.buffered }
        ensures bound { length result.now ≤ most_ahead }
        ensures within { self.now.reads ≤ self.now.limit }
    {
        &self.buffer[self.at..self.end]
    }

    /// Returns the bytes of the last read that were consumed, which are valid until the next read.
    pub fn used(&self) -> &[u8]
        ensures value { result.now ≡ self.now.used }
        ensures bound { length result.now ≤ most_ahead }
    {
        &self.buffer[..self.at]
    }

    /// Returns true if the end of the input was read.
    pub fn has_ended(&self) -> bool
        ensures { result ≡ self.now.ended }
    {
        self.ended
    }

    /// Consumes the first `count` buffered bytes.
    pub fn consume(&mut self, count: usize)
        requires { count ≤ length self.old.buffered }
        ensures { IsConsumed self.old count self.new }
    {
        self.at += count;
    }

    /// Reads once, after all buffered bytes were consumed. Returns false at the end of the input.
    pub fn fill<R: Read>(&mut self, source: &mut Source<R>) -> Result<bool, ReadFault>
        requires empty { self.old.buffered ≡ [] }
        requires going { self.old.ended ≡ false }
        ensures { IsFilled self.old source.old result self.new source.new }
    {
        if self.reads >= self.limit {
            return Err(ReadFault::TooManyReads);
        }
        self.reads += 1;
        self.at = 0;
        self.end = 0;
        match source.read(&mut self.buffer) {
            Ok(n) => {
                self.end = n;
                self.ended = n == 0;
                Ok(n > 0)
            }
            Err(_) => Err(ReadFault::Device),
        }
    }
}
