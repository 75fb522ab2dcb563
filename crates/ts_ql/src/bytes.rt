//! Runs of bytes, and strings up to their closing quote.
ghost use Rattle.std.specs.Prelude.{◌≡◌, ◌<◌, ◌≤◌, IfSome, true, length, slice_index};
ghost use Rattle.std.specs.Str.{IsCharBoundary};
ghost use Rattle.ts_core.specs.text.Cursors.{IsOffsetFrom};
ghost use Rattle.ts_ql.specs.Lexing.{is_in, end_of_run, is_escape_byte, closing_quote};

use ts_core::after;

/// Class of bytes.
#[derive(Clone, Copy, Debug, PartialEq, Eq)]
pub(crate) enum Class {
    /// White space, which separates tokens.
    Space,
    /// Bytes of a name.
    Name,
    Digit,
}

pub(crate) fn is_in(class: Class, byte: u8) -> bool
    ensures { result ≡ is_in class byte }
{
    match class {
        Class::Space => byte == b' ' || byte == b'\t' || byte == b'\n' || byte == b'\r',
        Class::Name => byte.is_ascii_alphabetic() || byte == b'_' || byte.is_ascii_digit(),
        Class::Digit => byte.is_ascii_digit(),
    }
}

/// Returns the offset of the first byte from `from` that isn't in the class.
#[tactic(auto, using(crate::proofs::LexingLemmas::run_end_step, crate::proofs::LexingLemmas::run_end_past, crate::proofs::LexingLemmas::in_ascii), unfolding(crate::specs::Lexing::end_of_run))]
pub(crate) fn end_of_run(text: &str, from: usize, class: Class) -> usize
    requires { IsCharBoundary text.now from }
    ensures value { result ≡ end_of_run class text.now from }
    ensures offset { IsOffsetFrom text.now from result }
    ensures past { from < length text.now → is_in class (slice_index text.now from) ≡ true → from < result }
{
    let bytes = text.as_bytes();
    let mut i = from;
    while i < bytes.len() && is_in(class, bytes[i]) {
        i = after(text, i);
    }
    i
}

fn is_escape_byte(byte: u8) -> bool
    ensures { result ≡ is_escape_byte byte }
{
    byte == b'\\' || byte == b'n' || byte == b'"' || byte == b'\''
}

/// Returns the offset of the quote that closes a string. `from` is the first byte after the opening quote. Returns
/// `None` if the string is unclosed or has an invalid escape.
#[tactic(auto, using(crate::proofs::LexingLemmas::closing_step, crate::proofs::LexingLemmas::closing_past), unfolding(crate::specs::Lexing::closing_quote))]
pub(crate) fn closing_quote(text: &str, from: usize, quote: u8) -> Option<usize>
    ensures value { result ≡ closing_quote quote text.now from }
    ensures within { IfSome result (λ at. (from ≤ at) × (at < length text.now) × (slice_index text.now at ≡ quote)) }
{
    let bytes = text.as_bytes();
    let mut escaped = false;
    let mut i = from;
    while i < bytes.len() {
        let byte = bytes[i];
        if escaped {
            if !is_escape_byte(byte) {
                return None;
            }
            escaped = false;
        } else if byte == quote {
            return Some(i);
        } else {
            escaped = byte == b'\\';
        }
        i += 1;
    }
    None
}
