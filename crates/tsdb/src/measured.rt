//! A reader that measures the image that passes through it.

use std::io;
use std::io::Read;

/// Offset of the byte of an image that has the version of its form.
const VERSION_OFFSET: u64 = 4;

/// A reader with the number of bytes that were read, and the version of the image that they are.
#[derive(Drop)]
pub struct Measured<R: Read> {
    inner: R,
    bytes: u64,
    version: u8,
}

impl<R: Read> Measured<R> {
    /// Creates one before its first byte.
    pub fn new(inner: R) -> Measured<R> {
        Measured {
            inner,
            bytes: 0,
            version: 0,
        }
    }

    /// Returns the number of bytes that were read.
    pub fn bytes(&self) -> u64 {
        self.bytes
    }

    /// Returns the version of the image's form, or 0 before its byte was read.
    pub fn version(&self) -> u8 {
        self.version
    }

    /// Measures the next bytes.
    fn pass(&mut self, bytes: &[u8]) {
        if let Some(left) = VERSION_OFFSET.checked_sub(self.bytes) {
            if let Some(version) = bytes.get(left as usize) {
                self.version = *version;
            }
        }
        self.bytes = self.bytes.saturating_add(bytes.len() as u64);
    }
}

impl<R: Read> Read for Measured<R> {
    fn read(&mut self, buf: &mut [u8]) -> io::Result<usize> {
        let n = self.inner.read(buf)?;
        self.pass(&buf[..n]);
        Ok(n)
    }
}
