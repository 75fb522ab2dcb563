//! First bytes that pass through a connection in one direction.

/// Most bytes that are kept.
const CAPACITY: usize = 2048;

/// First bytes that were read or written.
#[derive(Drop)]
pub struct Start {
    bytes: [u8; CAPACITY],
    len: usize,
}

impl Start {
    /// Creates one without bytes.
    pub fn new() -> Start {
        Start {
            bytes: [0; CAPACITY],
            len: 0,
        }
    }

    /// Appends bytes, up to the capacity.
    pub fn push(&mut self, bytes: &[u8]) {
        for byte in bytes {
            let Some(slot) = self.bytes.get_mut(self.len) else {
                return;
            };
            *slot = *byte;
            self.len = self.len.saturating_add(1);
        }
    }

    /// Returns the bytes.
    pub fn bytes(&self) -> &[u8] {
        self.bytes.get(..self.len).unwrap_or(&[])
    }
}
