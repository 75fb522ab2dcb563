//! One direction of a connection, with a deadline: a client that is silent or slow can't hold up the next one.
ghost use Rattle.std.specs.Io.{ReadsAtMost, WritesAtMost};

use crate::start::Start;
use std::io;
use std::io::{ErrorKind, Read, Write};
use std::net::TcpStream;
use std::rt::Clock;
use std::time::{Duration, Instant};

/// A connection whose reads or writes fail with `TimedOut` after a number of seconds since the first of them began. One
/// that a signal interrupts goes on. Reads and writes have one each, so that the time of a query counts for neither.
#[derive(Drop)]
pub struct Timed<'a, C: Clock> {
    stream: &'a TcpStream,
    clock: &'a C,
    seconds: u64,
    started: Option<Instant>,
    start: Start,
}

impl<'a, C: Clock> Timed<'a, C> {
    /// Creates one whose time hasn't begun.
    pub fn new(stream: &'a TcpStream, clock: &'a C, seconds: u64) -> Timed<'a, C> {
        Timed {
            stream,
            clock,
            seconds,
            started: None,
            start: Start::new(),
        }
    }

    /// Returns the first bytes that were read or written.
    pub fn start(&self) -> &[u8] {
        self.start.bytes()
    }

    /// Returns the time left, or `TimedOut`. Begins the time at the first call.
    fn time_left(&mut self) -> io::Result<Duration> {
        let all = Duration::from_secs(self.seconds);
        let now = Instant::now(self.clock)?;
        let Some(started) = self.started else {
            self.started = Some(now);
            return Ok(all);
        };
        let left = all.saturating_sub(now.duration_since(started));
        if left.is_zero() {
            return Err(io::Error::from(ErrorKind::TimedOut));
        }
        Ok(left)
    }

    /// Reads once.
    fn read_once(&mut self, buf: &mut [u8]) -> io::Result<usize>
        ensures { ReadsAtMost result buf.new }
    {
        let left = self.time_left()?;
        self.stream.set_read_timeout(Some(left))?;
        self.stream.read(buf)
    }

    /// Writes once.
    fn write_once(&mut self, buf: &[u8]) -> io::Result<usize>
        ensures { WritesAtMost result buf.now }
    {
        let left = self.time_left()?;
        self.stream.set_write_timeout(Some(left))?;
        self.stream.write(buf)
    }
}

impl<'a, C: Clock> Read for Timed<'a, C> {
    fn read(&mut self, buf: &mut [u8]) -> io::Result<usize> {
        for _ in 0..u64::MAX {
            match self.read_once(buf) {
                Ok(n) => {
                    self.start.push(&buf[..n]);
                    return Ok(n);
                }
                Err(error) if error.kind() == ErrorKind::Interrupted => {}
                Err(error) => return Err(error),
            }
        }
        Err(io::Error::from(ErrorKind::TimedOut))
    }
}

impl<'a, C: Clock> Write for Timed<'a, C> {
    fn write(&mut self, buf: &[u8]) -> io::Result<usize> {
        for _ in 0..u64::MAX {
            match self.write_once(buf) {
                Ok(n) => {
                    self.start.push(&buf[..n]);
                    return Ok(n);
                }
                Err(error) if error.kind() == ErrorKind::Interrupted => {}
                Err(error) => return Err(error),
            }
        }
        Err(io::Error::from(ErrorKind::TimedOut))
    }

    fn flush(&mut self) -> io::Result<()> {
        Ok(())
    }
}
