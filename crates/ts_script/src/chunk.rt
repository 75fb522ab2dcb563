//! Chunks of a line that crosses reads.
ghost use Rattle.std.specs.Prelude.{◌≡◌, ℕ, ◌≤◌, ◌++◌, List, length, IfSome, vec_len, vec_capacity};
ghost use Rattle.ts_script.specs.ScriptLines.{script_line_limit};
ghost use Rattle.ts_script.specs.ReaderState.{line_so_far};
ghost use Rattle.ts_script.specs.LineReading.{IsLineEnd, LineIs};

use memchr::memchr;

/// Limit of a line's length, in bytes.
pub const LINE_LIMIT: usize = 131_072;

/// Returns the offset of the first LF, or the length if there is none.
pub(crate) fn line_end(bytes: &[u8]) -> usize
    ensures { IsLineEnd bytes.now result }
{
    match memchr(b'\n', bytes) {
        Some(at) => at,
        None => bytes.len(),
    }
}

/// Appends bytes to a line, unless it gets longer than the limit. Returns true if the line is too long.
pub(crate) fn extend_line(line: &mut Vec<u8>, long: bool, bytes: &[u8]) -> bool
    requires spare { script_line_limit ≤ vec_capacity line.old }
    requires short { vec_len line.old ≤ script_line_limit }
    ensures spare { script_line_limit ≤ vec_capacity line.new }
    ensures short { vec_len line.new ≤ script_line_limit }
    ensures line { (before : List ℕ)
        → LineIs before line.old.items long → LineIs (before ++ bytes.now) line.new.items result }
{
    if long {
        return true;
    }
    if bytes.len() > LINE_LIMIT - line.len() {
        line.clear();
        return true;
    }
    match line.extend_from_slice(bytes) {
        Ok(()) => false,
        Err(_) => unreachable!(),
    }
}

/// Copies a line that is borrowed from the read buffer to `line`, so that it survives the next read. Does nothing if
/// none is borrowed.
pub(crate) fn copy_borrowed(line: &mut Vec<u8>, borrowed: Option<(usize, usize)>, used: &[u8])
    requires spare { script_line_limit ≤ vec_capacity line.old }
    requires within { IfSome borrowed (λ borrowed. (borrowed.0 ≤ borrowed.1) × (borrowed.1 ≤ length used.now)) }
    requires short { length (line_so_far used.now borrowed line.old.items) ≤ script_line_limit }
    ensures spare { script_line_limit ≤ vec_capacity line.new }
    ensures line { line.new.items ≡ line_so_far used.now borrowed line.old.items }
{
    if let Some((start, end)) = borrowed {
        line.clear();
        match line.extend_from_slice(&used[start..end]) {
            Ok(()) => {}
            Err(_) => unreachable!(),
        }
    }
}
