//! A reader that counts its reads, failures and ends of input for contracts.
ghost use Rattle.std.specs.Prelude.{◌≡◌, ◌<◌, length};
ghost use Rattle.ts_core.specs.io.Devices.{unread, IsRead};

use crate::io::tally::Tally;
use std::io;
use std::io::Read;
use std::marker::Model;

/// A reader. Its model has the remaining bytes and the counts; the counts are ghost, for contracts alone.
#[derive(Drop)]
pub struct Source<R: Read> {
    inner: R,
    reads: Tally,
    failures: Tally,
    ends: Tally,
}

impl<R: Read> Model for Source<R> {
    ghost use Rattle.ts_core.specs.io.Devices.{Input};

    ghost Value = { Input };

    ghost view = { λ s. record {
      remaining = R.remaining s.inner;
      reads = s.reads.count;
      failures = s.failures.count;
      ends = s.ends.count;
    } };
}

impl<R: Read> Source<R> {
    /// Creates a source over a reader, with nothing counted.
    pub fn new(inner: R) -> Source<R>
        ensures { result ≡ unread (R.remaining inner) }
    {
        Source {
            inner,
            reads: Tally::new(),
            failures: Tally::new(),
            ends: Tally::new(),
        }
    }

    /// Returns the reader.
    pub fn into_inner(self) -> R
        ensures { R.remaining result ≡ self.remaining }
    {
        let Source {
            inner,
            reads: _,
            failures: _,
            ends: _,
        } = self;
        inner
    }

    /// Calls the reader once, with a buffer that isn't empty, and counts the read. A read of no bytes is the end of
    /// input.
    pub fn read(&mut self, buf: &mut [u8]) -> io::Result<usize>
        requires { 0 < length buf.old }
        ensures { IsRead self.old result buf.new self.new }
    {
        self.reads.tick();
        let result = self.inner.read(buf);
        match &result {
            Ok(n) => {
                if *n == 0 {
                    self.ends.tick();
                }
            }
            Err(_) => self.failures.tick(),
        }
        result
    }
}
