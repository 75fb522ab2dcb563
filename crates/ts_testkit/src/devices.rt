//! Devices over memory: a reader and a writer that transfer bytes in pieces, and fail at one call.
ghost use Rattle.std.specs.Prelude.{◌≡◌};

use std::io;
use std::io::{ErrorKind, Read, Write};

/// A call that no test makes.
pub const NEVER: usize = usize::MAX;

/// A reader that returns at most `piece` bytes per call. The call with the index `fails_at` fails; the next one
/// succeeds.
#[derive(Drop)]
pub struct PieceReader<'a> {
    pub left: &'a [u8],
    pub piece: usize,
    pub calls: usize,
    pub fails_at: usize,
}

impl<'a> PieceReader<'a> {
    /// Creates a reader before its first call.
    pub fn new(left: &'a [u8], piece: usize, fails_at: usize) -> PieceReader<'a>
        ensures bytes { result.left.now ≡ left.now }
        ensures calls { result.calls ≡ 0 }
        ensures limits { (result.piece ≡ piece) × (result.fails_at ≡ fails_at) }
    {
        PieceReader {
            left,
            piece,
            calls: 0,
            fails_at,
        }
    }
}

impl Read for PieceReader<'_> {
    ghost use Rattle.std.specs.Prelude.{Some, None, ◌==◌, if◌then◌else◌};

    ghost remaining = { λ r. if r.piece == 0 then None else Some r.left.now };

    fn read(&mut self, buf: &mut [u8]) -> io::Result<usize> {
        let call = self.calls;
        self.calls = call.saturating_add(1);
        if call == self.fails_at {
            return Err(io::Error::from(ErrorKind::Other));
        }
        let count = self.left.len().min(buf.len()).min(self.piece);
        buf[..count].copy_from_slice(&self.left[..count]);
        self.left = &self.left[count..];
        Ok(count)
    }
}

/// Failure of a writer's call.
#[derive(Clone, Copy, Debug, PartialEq, Eq)]
pub enum Failure {
    /// It returns an error.
    Error,
    /// It accepts no byte.
    Nothing,
}

/// A writer that accepts at most `piece` bytes per call. The call with the index `fails_at` fails; the next one
/// succeeds.
#[derive(Drop)]
pub struct PieceWriter {
    pub written: Vec<u8>,
    pub piece: usize,
    pub calls: usize,
    pub fails_at: usize,
    pub failure: Failure,
}

impl PieceWriter {
    /// Creates a writer over an empty vector, before its first call.
    pub fn new(written: Vec<u8>, piece: usize, fails_at: usize, failure: Failure) -> PieceWriter
        ensures bytes { result.written.items ≡ written.items }
        ensures calls { result.calls ≡ 0 }
        ensures limits { (result.piece ≡ piece) × (result.fails_at ≡ fails_at) }
        ensures failure { result.failure ≡ failure }
    {
        PieceWriter {
            written,
            piece,
            calls: 0,
            fails_at,
            failure,
        }
    }
}

impl Write for PieceWriter {
    ghost use Rattle.std.specs.Prelude.{Some};

    ghost contents = { λ w. Some w.written.items };

    fn write(&mut self, buf: &[u8]) -> io::Result<usize> {
        let call = self.calls;
        self.calls = call.saturating_add(1);
        if call == self.fails_at {
            return match self.failure {
                Failure::Error => Err(io::Error::from(ErrorKind::Other)),
                Failure::Nothing => Ok(0),
            };
        }
        let count = buf.len().min(self.piece);
        self.written.extend_from_slice(&buf[..count])?;
        Ok(count)
    }

    fn flush(&mut self) -> io::Result<()> {
        Ok(())
    }
}
