//! Lines on standard error, by which a server says what it does. A line that can't be written at once is lost, so no
//! request waits for a reader of these lines.
use mio::unix::SourceFd;
use mio::{Events, Interest, Poll, Token};
use std::alloc::AllocError;
use std::fs::{File, OpenOptions};
use std::net::Net;
use std::os::fd::{AsRawFd, RawFd};
use std::rt::Files;
use std::time::Duration;

/// Descriptor of standard error.
const STANDARD_ERROR: RawFd = 2;

/// Standard error of a server.
#[derive(Drop)]
pub struct Reports {
    /// Watches standard error; `None` for a file, which is always ready.
    poll: Option<Poll>,
    ready: Events,
}

/// Returns a poll that watches standard error, or `None` if it is a file.
fn watched(net: &impl Net) -> Option<Poll> {
    let Ok(poll) = Poll::new(net) else {
        return None;
    };
    let mut standard_error = SourceFd(&STANDARD_ERROR);
    match poll
        .registry()
        .register(&mut standard_error, Token(0), Interest::WRITABLE)
    {
        Ok(()) => Some(poll),
        Err(_) => None,
    }
}

impl Reports {
    /// Prepares to write lines.
    pub fn new(rt: &(impl Net + AllocGlobal)) -> Result<Reports, AllocError> {
        let ready = Events::with_capacity(rt.alloc(), 1)?;
        Ok(Reports {
            poll: watched(rt),
            ready,
        })
    }

    /// Returns true if a line can be written without waiting for a reader.
    fn is_ready(&mut self) -> bool {
        let Some(poll) = &mut self.poll else {
            return true;
        };
        let mut standard_error = SourceFd(&STANDARD_ERROR);
        if poll
            .registry()
            .reregister(&mut standard_error, Token(0), Interest::WRITABLE)
            .is_err()
        {
            return false;
        }
        poll.poll(&mut self.ready, Some(Duration::ZERO)).is_ok() && !self.ready.is_empty()
    }

    /// Writes the line of `text`, which gets its LF, or loses it if standard error isn't ready.
    pub fn line(&mut self, rt: &impl Eprint, mut text: String) {
        if text.push_str("\n").is_ok() && self.is_ready() {
            let _ = rt.eprint(text.as_str());
        }
    }
}

/// Opens `/dev/null` for each standard stream that is closed, so that no file and no connection takes its descriptor.
/// They are closed again once the result is dropped.
pub fn open_standard_streams<R: Files<File = File>>(files: &R) -> [Option<File>; 3] {
    let mut streams = [None, None, None];
    for stream in streams.iter_mut() {
        match OpenOptions::new()
            .read(true)
            .write(true)
            .open(files, "/dev/null")
        {
            Ok(file) if file.as_raw_fd() <= STANDARD_ERROR => *stream = Some(file),
            _ => break,
        }
    }
    streams
}
