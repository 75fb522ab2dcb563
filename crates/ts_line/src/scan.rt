//! Finds the ends of the parts of a line.
ghost use Rattle.std.specs.Prelude.{◌≡◌, ◌≤◌, ◌||◌, false, length, slice_range};
ghost use Rattle.std.specs.List.{list_any};
ghost use Rattle.std.specs.Str.{IsCharBoundary};
ghost use Rattle.ts_core.specs.text.Cursors.{IsOffsetFrom};
ghost use Rattle.ts_line.specs.Scan.{is_backslash, is_stop, ends, end_of, spaces_end};

use ts_core::after;

/// Set of delimiters: the bytes that end a part.
#[derive(Clone, Copy, Debug, PartialEq, Eq)]
pub enum Stops {
    /// An unescaped space.
    Space,
    /// An unescaped comma or space.
    Comma,
    /// An unescaped comma, equals sign or space.
    Equals,
    /// A comma or space, escaped or not.
    Plain,
}

/// End of a part, and whether the part has an escape.
#[derive(Clone, Copy, Debug)]
pub struct End {
    /// Offset of the delimiter after the part, or of the end of the line.
    pub at: usize,
    /// True if the part has an escaped delimiter.
    pub has_escape: bool,
}

/// Returns true if the byte is a delimiter.
pub fn is_stop(stops: Stops, byte: u8) -> bool
    ensures { result ≡ is_stop stops byte }
{
    match stops {
        Stops::Space => byte == b' ',
        Stops::Comma | Stops::Plain => byte == b' ' || byte == b',',
        Stops::Equals => byte == b' ' || byte == b',' || byte == b'=',
    }
}

/// Bit set of the backslash, space, comma and equals sign, indexed by the byte modulo 64.
const DELIMITER_BITS: u64 = 1 << 28 | 1 << 32 | 1 << 44 | 1 << 61;

/// Tests a byte cheaply: never false for a backslash or a delimiter, but true for a few other bytes.
fn may_be_delimiter(byte: u8) -> bool
    ensures stops { (stops : Stops) → result ≡ false → is_stop stops byte ≡ false }
    ensures backslash { result ≡ false → is_backslash byte ≡ false }
{
    (DELIMITER_BITS >> (byte % 64)) & 1 == 1
}

/// Returns true if the byte is a backslash or a delimiter.
fn is_delimiter(stops: Stops, byte: u8) -> bool
    ensures { result ≡ (is_backslash byte || is_stop stops byte) }
{
    may_be_delimiter(byte) && (byte == b'\\' || is_stop(stops, byte))
}

/// Returns true if `byte` ends a part when it follows `before`.
fn is_end(stops: Stops, before: u8, byte: u8) -> bool
    ensures { result ≡ ends stops before byte }
{
    is_stop(stops, byte) && (before != b'\\' || matches!(stops, Stops::Plain))
}

/// Returns the end of a part with a backslash: the slow path of `end_at`.
#[tactic(auto, using(crate::proofs::ScanLemmas::part_len_step, crate::proofs::ScanLemmas::part_len_end, crate::proofs::ScanLemmas::ends_ascii), unfolding(crate::specs::Scan::end_of))]
#[cold]
fn escaped_end_at(line: &str, from: usize, stops: Stops) -> End
    requires { from ≤ length line.now }
    ensures value { result.at ≡ end_of stops line.now from }
    ensures offset { IsOffsetFrom line.now from result.at }
    ensures escape { result.has_escape ≡ list_any (is_stop stops) (slice_range line.now from result.at) }
{
    let bytes = line.as_bytes();
    let mut at = from;
    let mut before = 0;
    let mut has_escape = false;
    while at < bytes.len() {
        let byte = bytes[at];
        if is_end(stops, before, byte) {
            break;
        }
        has_escape |= is_stop(stops, byte);
        before = byte;
        at += 1;
    }
    End { at, has_escape }
}

/// Returns the end of the part that begins at `from`.
#[inline(always)]
#[tactic(auto, using(crate::proofs::ScanLemmas::stop_ascii, crate::proofs::ScanLemmas::bare_end, crate::proofs::ScanLemmas::part_len_end), unfolding(crate::specs::Scan::end_of))]
pub fn end_at(line: &str, from: usize, stops: Stops) -> End
    requires { from ≤ length line.now }
    ensures value { result.at ≡ end_of stops line.now from }
    ensures offset { IsOffsetFrom line.now from result.at }
    ensures escape { result.has_escape ≡ list_any (is_stop stops) (slice_range line.now from result.at) }
{
    let bytes = line.as_bytes();
    let mut at = from;
    while at < bytes.len() {
        let byte = bytes[at];
        if is_delimiter(stops, byte) {
            break;
        }
        at += 1;
    }
    if at < bytes.len() && bytes[at] == b'\\' {
        return escaped_end_at(line, from, stops);
    }
    End {
        at,
        has_escape: false,
    }
}

/// Returns the offset of the first byte from `from` that isn't a space.
#[tactic(auto, using(crate::proofs::ScanLemmas::spaces_step, crate::proofs::ScanLemmas::spaces_past), unfolding(crate::specs::Scan::spaces_end))]
pub fn after_spaces(line: &str, from: usize) -> usize
    requires { IsCharBoundary line.now from }
    ensures value { result ≡ spaces_end line.now from }
    ensures offset { IsOffsetFrom line.now from result }
{
    let bytes = line.as_bytes();
    let mut at = from;
    while at < bytes.len() && bytes[at] == b' ' {
        at = after(line, at);
    }
    at
}
