//! Header fields, as spans of the received bytes.
ghost use Rattle.std.specs.Prelude.{◌≡◌, length, map, false, IsTrue};
ghost use Rattle.std.specs.List.{AllByRecursion, list_any};
ghost use Rattle.std.specs.Str.Parse.{digits_value};
ghost use Rattle.httparse.specs.Spans.{IsHeaderWithin, header_bytes};
ghost use Rattle.ts_http.specs.Requests.{same_ignoring_case, is_field_named, has_field, is_coded, is_short_number, lengths_of, body_refused, refused};
ghost use Rattle.ts_http.specs.FieldValues.{LengthsAre, IsBodyAnswer};

use crate::refusal::Refusal;
use crate::route::{Method, Route};
use httparse::spans::{HeaderSpan, Span};
use std::str;
use ts_core::are_digits;

/// Most bytes of a body.
pub(crate) const BODY_LIMIT: usize = 1_048_576;

/// The Content-Length fields of a head.
#[derive(Clone, Copy, Debug, Drop)]
pub(crate) enum ContentLengths<'a> {
    /// None.
    Absent,
    /// One, with its value.
    One(&'a [u8]),
    /// More than one.
    Repeated,
}

/// Returns true if two texts are equal, ignoring the case of ASCII letters.
fn is_same(text: &[u8], other: &[u8]) -> bool
    ensures { result ≡ same_ignoring_case text.now other.now }
{
    text.eq_ignore_ascii_case(other)
}

/// Returns true if a field has that name.
fn is_field_named(came: &[u8], span: &HeaderSpan, name: &[u8]) -> bool
    requires { IsHeaderWithin (length came.now) span.now }
    ensures { result ≡ is_field_named name.now (header_bytes came.now span.now) }
{
    is_same(span.name.of(came), name)
}

/// Returns true if there is a field of that name.
fn has_field(came: &[u8], spans: &[HeaderSpan], name: &[u8]) -> bool
    requires { AllByRecursion (IsHeaderWithin (length came.now)) spans.now }
    ensures { result ≡ has_field name.now (map (header_bytes came.now) spans.now) }
{
    match spans.split_first() {
        None => false,
        Some((span, others)) => is_field_named(came, span, name) || has_field(came, others, name),
    }
}

/// Returns true if a field is a Content-Encoding other than `identity`.
fn is_coded(came: &[u8], span: &HeaderSpan) -> bool
    requires { IsHeaderWithin (length came.now) span.now }
    ensures { result ≡ is_coded (header_bytes came.now span.now) }
{
    is_field_named(came, span, b"content-encoding") && !is_same(span.value.of(came), b"identity")
}

/// Returns true if some field is a Content-Encoding other than `identity`.
fn is_any_coded(came: &[u8], spans: &[HeaderSpan]) -> bool
    requires { AllByRecursion (IsHeaderWithin (length came.now)) spans.now }
    ensures { result ≡ list_any is_coded (map (header_bytes came.now) spans.now) }
{
    match spans.split_first() {
        None => false,
        Some((span, others)) => is_coded(came, span) || is_any_coded(came, others),
    }
}

/// Returns the Content-Length fields.
fn lengths<'a>(came: &'a [u8], spans: &[HeaderSpan]) -> ContentLengths<'a>
    requires { AllByRecursion (IsHeaderWithin (length came.now)) spans.now }
    ensures { LengthsAre (lengths_of (map (header_bytes came.now) spans.now)) result }
{
    match spans.split_first() {
        None => ContentLengths::Absent,
        Some((span, others)) => {
            let rest = lengths(came, others);
            if !is_field_named(came, span, b"content-length") {
                return rest;
            }
            match rest {
                ContentLengths::Absent => ContentLengths::One(span.value.of(came)),
                _ => ContentLengths::Repeated,
            }
        }
    }
}

/// Returns true if a value is 1 to 18 digits.
pub(crate) fn is_short_number(value: &[u8]) -> bool
    ensures { result ≡ is_short_number value.now }
{
    are_digits(value) && value.len() <= 18
}

/// Parses 1 to 18 digits.
pub(crate) fn number_of(value: &[u8]) -> usize
    requires { IsTrue (is_short_number value.now) }
    ensures { result ≡ digits_value 10 value.now }
{
    let Ok(text) = str::from_utf8(value) else {
        unreachable!()
    };
    match text.parse::<usize>() {
        Ok(length) => length,
        Err(_) => unreachable!(),
    }
}

/// Returns the length of the body of a POST in bytes, or the reason why it isn't read.
pub(crate) fn body_of(came: &[u8], spans: &[HeaderSpan], route: Route) -> Result<usize, Refusal>
    requires { AllByRecursion (IsHeaderWithin (length came.now)) spans.now }
    ensures { IsBodyAnswer
        (map (header_bytes came.now) spans.now) (body_refused route (map (header_bytes came.now) spans.now)) result }
{
    let lengths = lengths(came, spans);
    if has_field(came, spans, b"transfer-encoding")
        || (matches!(route, Route::Write) && matches!(lengths, ContentLengths::Absent))
    {
        return Err(Refusal::LengthRequired);
    }
    let length = match lengths {
        ContentLengths::Absent => 0,
        ContentLengths::One(value) if is_short_number(value) => number_of(value),
        _ => return Err(Refusal::BadLength),
    };
    if length > BODY_LIMIT {
        return Err(Refusal::BodyTooLarge);
    }
    if is_any_coded(came, spans) {
        return Err(Refusal::EncodingNotSupported);
    }
    Ok(length)
}
