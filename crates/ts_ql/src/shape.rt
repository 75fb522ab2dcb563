//! Determines the kind of a token and where it ends.
ghost use Rattle.std.specs.Prelude.{◌≡◌, ◌≢◌, ◌<◌, IsSome, IfSome, true, false, length, slice_index};
ghost use Rattle.std.specs.Str.{IsCharBoundary};
ghost use Rattle.ts_core.specs.text.Cursors.{IsOffsetFrom};
ghost use Rattle.ts_ql.specs.Lexing.{double, single, operator_at, number_token_at, quoted_at, shape_at, is_quoted, is_in};
ghost use Rattle.ts_ql.specs.Shapes.{IsTokenFrom};
ghost use Rattle.ts_ql.specs.declared.bytes.Class.TheVariants as classes;

use crate::bytes::{Class, closing_quote, end_of_run, is_in};
use crate::number::duration_end;
use crate::token::Kind;
use ts_core::{after, byte_at};

/// Returns the kind of a two-byte operator.
#[tactic(auto, unfolding(crate::specs::Lexing::double))]
fn double(first: u8, second: u8) -> Option<Kind>
    ensures value { result ≡ double first second }
    ensures plain { IfSome result (λ kind. is_quoted kind ≡ false) }
    ensures ascii { IsSome result → (first < 128) × (second < 128) × (0 < second) }
{
    match (first, second) {
        (b'=' | b'!', b'~') => Some(Kind::Unsupported),
        (b'!', b'=') | (b'<', b'>') => Some(Kind::NotEqual),
        (b'<', b'=') => Some(Kind::LessOrEqual),
        (b'>', b'=') => Some(Kind::GreaterOrEqual),
        (b':', b':') => Some(Kind::DoubleColon),
        _ => None,
    }
}

/// Returns the kind of a one-byte operator.
#[tactic(auto, unfolding(crate::specs::Lexing::single))]
fn single(byte: u8) -> Option<Kind>
    ensures value { result ≡ single byte }
    ensures plain { IfSome result (λ kind. is_quoted kind ≡ false) }
    ensures ascii { IsSome result → byte < 128 }
{
    match byte {
        b',' => Some(Kind::Comma),
        b'(' => Some(Kind::LeftParen),
        b')' => Some(Kind::RightParen),
        b';' => Some(Kind::Semicolon),
        b'=' => Some(Kind::Equals),
        b'<' => Some(Kind::Less),
        b'>' => Some(Kind::Greater),
        b'+' => Some(Kind::Plus),
        b'-' => Some(Kind::Minus),
        b'*' | b'/' | b'%' | b'.' => Some(Kind::Unsupported),
        _ => None,
    }
}

#[tactic(auto, using(crate::proofs::LexingLemmas::in_text), unfolding(crate::specs::Lexing::operator_at))]
fn operator_at(text: &str, start: usize) -> (Kind, usize)
    requires { start < length text.now }
    ensures value { result ≡ operator_at text.now start }
    ensures token { IsTokenFrom text.now start result }
    ensures plain { is_quoted result.0 ≡ false }
{
    let first = byte_at(text, start);
    if let Some(kind) = double(first, byte_at(text, start + 1)) {
        return (kind, after(text, after(text, start)));
    }
    match single(first) {
        Some(kind) => (kind, after(text, start)),
        None => (Kind::Bad, text.len()),
    }
}

#[tactic(auto, unfolding(crate::specs::Lexing::number_token_at))]
fn number_token_at(text: &str, start: usize) -> (Kind, usize)
    requires in_range { start < length text.now }
    requires first { is_in classes.Digit (slice_index text.now start) ≡ true }
    requires boundary { IsCharBoundary text.now start }
    ensures value { result ≡ number_token_at text.now start }
    ensures token { IsTokenFrom text.now start result }
    ensures plain { is_quoted result.0 ≡ false }
{
    let end = duration_end(text, start);
    if start < end {
        return (Kind::Duration, end);
    }
    let end = end_of_run(text, start, Class::Digit);
    let next = byte_at(text, end);
    if next.is_ascii_alphabetic() || next == b'.' {
        (Kind::Bad, text.len())
    } else {
        (Kind::Integer, end)
    }
}

#[tactic(auto, unfolding(crate::specs::Lexing::quoted_at))]
fn quoted_at(text: &str, start: usize) -> (Kind, usize)
    requires in_range { start < length text.now }
    requires ascii { slice_index text.now start < 128 }
    ensures value { result ≡ quoted_at text.now start }
    ensures token { IsTokenFrom text.now start result }
{
    let quote = byte_at(text, start);
    let inner = after(text, start);
    match closing_quote(text, inner, quote) {
        None => (Kind::Bad, text.len()),
        Some(close) if quote == b'\'' => (Kind::StringLiteral, after(text, close)),
        Some(close) if close == inner => (Kind::Bad, text.len()),
        Some(close) => (Kind::QuotedName, after(text, close)),
    }
}

/// Returns the kind of the token at `start`, and the offset after it.
#[tactic(auto, unfolding(crate::specs::Lexing::shape_at))]
pub(crate) fn shape_at(text: &str, start: usize) -> (Kind, usize)
    requires { IsCharBoundary text.now start }
    ensures value { result ≡ shape_at text.now start }
    ensures offset { IsOffsetFrom text.now start result.1 }
    ensures token { result.0 ≢ Kind.End → IsTokenFrom text.now start result }
{
    if text.len() == start {
        return (Kind::End, start);
    }
    match byte_at(text, start) {
        b'0'..=b'9' => number_token_at(text, start),
        b'"' | b'\'' => quoted_at(text, start),
        byte if is_in(Class::Name, byte) => (Kind::Word, end_of_run(text, start, Class::Name)),
        _ => operator_at(text, start),
    }
}
