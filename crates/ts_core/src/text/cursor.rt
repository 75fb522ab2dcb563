//! Byte offsets in texts, as the parsers of line protocol and InfluxQL use them.
ghost use Rattle.std.specs.Prelude.{◌≡◌, ◌+◌, ◌<◌, length, slice_index};
ghost use Rattle.std.specs.Str.{IsCharBoundary};

/// Returns the byte at offset `at`, or 0 at the end.
pub fn byte_at(text: &str, at: usize) -> u8
    ensures { result ≡ slice_index text.now at }
{
    match text.as_bytes().get(at) {
        Some(byte) => *byte,
        None => 0,
    }
}

/// Returns the offset after the ASCII character at `at`.
pub fn after(text: &str, at: usize) -> usize
    requires in_range { at < length text.now }
    requires ascii { slice_index text.now at < 128 }
    ensures value { result ≡ at + 1 }
    ensures boundary { IsCharBoundary text.now result }
{
    at + 1
}
