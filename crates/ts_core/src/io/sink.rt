//! A writer that counts its failures for contracts.
ghost use Rattle.std.specs.Prelude.{◌≡◌};
ghost use Rattle.ts_core.specs.io.Devices.{IsWritten, IsPut};

use crate::io::tally::Tally;
use std::io;
use std::io::Write;
use std::marker::Model;

/// Error of a write that failed, or that accepted none of its bytes.
#[derive(Clone, Copy, Debug, Drop)]
pub struct Refused;

/// A writer. Its model has the bytes written and the number of failed writes; the number is ghost, for contracts alone.
#[derive(Drop)]
pub struct Sink<W: Write> {
    inner: W,
    failures: Tally,
}

impl<W: Write> Model for Sink<W> {
    ghost use Rattle.ts_core.specs.io.Devices.{Output};

    ghost Value = { Output };

    ghost view = { λ s. record { contents = W.contents s.inner; failures = s.failures.count } };
}

impl<W: Write> Sink<W> {
    /// Creates a sink over a writer, with no failures counted.
    pub fn new(inner: W) -> Sink<W>
        ensures contents { result.contents ≡ W.contents inner }
        ensures failures { result.failures ≡ 0 }
    {
        Sink {
            inner,
            failures: Tally::new(),
        }
    }

    /// Returns the writer.
    pub fn into_inner(self) -> W
        ensures { W.contents result ≡ self.contents }
    {
        let Sink { inner, failures: _ } = self;
        inner
    }

    /// Calls the writer once and counts a failure. A write that accepts none of some bytes counts as one too.
    pub fn write(&mut self, bytes: &[u8]) -> io::Result<usize>
        ensures { IsWritten self.old result bytes.now self.new }
    {
        let result = self.inner.write(bytes);
        match &result {
            Ok(n) => {
                if *n == 0 && !bytes.is_empty() {
                    self.failures.tick();
                }
            }
            Err(_) => self.failures.tick(),
        }
        result
    }

    /// Writes all bytes. After an error, only a prefix of them may have been written.
    pub fn write_all(&mut self, bytes: &[u8]) -> Result<(), Refused>
        ensures { IsPut self.old result bytes.now self.new }
    {
        let mut rest = bytes;
        while !rest.is_empty() {
            match self.write(rest) {
                Ok(0) => return Err(Refused),
                Ok(n) => rest = &rest[n..],
                Err(_) => return Err(Refused),
            }
        }
        Ok(())
    }
}
