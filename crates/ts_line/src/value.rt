//! Parses field values and classifies those of other types.
ghost use Rattle.std.specs.Prelude.{◌≡◌, IfOk, option_map, if◌then◌else◌, false};
ghost use Rattle.std.specs.Str.{IsCharBoundary};
ghost use Rattle.ts_core.specs.text.Cursors.{IsOffsetFrom};
ghost use Rattle.ts_line.specs.FaultText.{fault_at};
ghost use Rattle.ts_core.specs.text.Numbers.{are_digits};
ghost use Rattle.ts_line.specs.Values.{is_unsigned, is_boolean, is_float, after_digits, after_fraction, is_exponent, without_sign, after_quotes, is_value_end, then_is, integer_value, value_begun_at};

use crate::fault::{LineFault, LineFaultKind};
use crate::scan::{Stops, end_at};
use ts_core::{after_minus, are_digits, byte_at, is_number, whole};

fn is_unsigned(text: &[u8]) -> bool
    ensures { result ≡ is_unsigned text.now }
{
    match text {
        [digits @ .., b'u'] => are_digits(digits),
        _ => false,
    }
}

#[tactic(auto, unfolding(crate::specs::Values::is_boolean))]
fn is_boolean(text: &str) -> bool
    ensures { result ≡ is_boolean text.now }
{
    matches!(
        text,
        "t" | "T" | "true" | "True" | "TRUE" | "f" | "F" | "false" | "False" | "FALSE"
    )
}

/// Skips one or more digits; returns the rest, or `None` if there is no digit.
#[tactic(auto, using(crate::proofs::ValueLemmas::digits_step, crate::proofs::ValueLemmas::digits_end))]
fn after_digits(text: &[u8]) -> Option<&[u8]>
    ensures { option_map (λ rest. rest.now) result ≡ after_digits false text.now }
{
    let mut rest = text;
    let mut some = false;
    while let [byte, others @ ..] = rest {
        if !byte.is_ascii_digit() {
            break;
        }
        rest = others;
        some = true;
    }
    if some { Some(rest) } else { None }
}

fn after_fraction(text: &[u8]) -> Option<&[u8]>
    ensures { option_map (λ rest. rest.now) result ≡ after_fraction text.now }
{
    match text {
        [b'.', digits @ ..] => after_digits(digits),
        _ => Some(text),
    }
}

fn after_sign(text: &[u8]) -> &[u8]
    ensures { result.now ≡ without_sign text.now }
{
    match text {
        [b'+' | b'-', digits @ ..] => digits,
        _ => text,
    }
}

fn is_exponent(text: &[u8]) -> bool
    ensures { result ≡ is_exponent text.now }
{
    match text {
        [] => true,
        [b'e' | b'E', digits @ ..] => are_digits(after_sign(digits)),
        _ => false,
    }
}

fn is_float(text: &[u8]) -> bool
    ensures { result ≡ is_float text.now }
{
    match after_digits(after_minus(text)) {
        Some(rest) => match after_fraction(rest) {
            Some(rest) => is_exponent(rest),
            None => false,
        },
        None => false,
    }
}

/// Skips a string, from the byte after its opening quote; returns the rest after its closing quote, or `None` if it is
/// unclosed.
#[tactic(auto, using(crate::proofs::ValueLemmas::quotes_step, crate::proofs::ValueLemmas::quotes_end))]
fn after_quotes(text: &[u8]) -> Option<&[u8]>
    ensures { option_map (λ rest. rest.now) result ≡ after_quotes false text.now }
{
    let mut rest = text;
    let mut escaped = false;
    while let [byte, others @ ..] = rest {
        rest = others;
        if escaped && (*byte == b'"' || *byte == b'\\') {
            escaped = false;
        } else if *byte == b'"' {
            return Some(rest);
        } else {
            escaped = *byte == b'\\';
        }
    }
    None
}

pub(crate) fn is_value_end(text: &[u8]) -> bool
    ensures { result ≡ is_value_end text.now }
{
    matches!(text, [] | [b',' | b' ', ..])
}

/// Parses the whole text as the value of the field at offset `start`. Fails at `start` with `IntegerRange`, `FieldType`
/// or `BadField`.
#[tactic(auto, unfolding(crate::specs::Values::integer_value))]
fn integer_value(start: usize, text: &str) -> Result<i64, LineFault>
    ensures { result ≡ integer_value start text.now }
{
    let bytes = text.as_bytes();
    if let [.., b'i'] = bytes {
        let number = &text[..text.len() - 1];
        if is_number(number.as_bytes()) {
            return whole(number).ok_or(LineFaultKind::IntegerRange.at(start));
        }
    }
    if is_unsigned(bytes) || is_boolean(text) || is_float(bytes) {
        return Err(LineFaultKind::FieldType.at(start));
    }
    Err(LineFaultKind::BadField.at(start))
}

/// Returns the error of a field whose value begins with a double quote: `FieldType` if it is a string, else `BadField`.
/// `text` begins after the quote.
fn quoted(start: usize, text: &[u8]) -> LineFault
    ensures { result ≡ (if then_is (after_quotes false text.now) is_value_end
        then fault_at LineFaultKind.FieldType start else fault_at LineFaultKind.BadField start) }
{
    match after_quotes(text) {
        Some(rest) if is_value_end(rest) => LineFaultKind::FieldType.at(start),
        _ => LineFaultKind::BadField.at(start),
    }
}

/// Parses the value at `at` of the field at `start`; returns it and the offset after it. Errors are at `start`.
#[tactic(auto, unfolding(crate::specs::Values::value_begun_at))]
pub fn value_begun_at(start: usize, line: &str, at: usize) -> Result<(i64, usize), LineFault>
    requires { IsCharBoundary line.now at }
    ensures value { result ≡ value_begun_at start line.now at }
    ensures offset { IfOk result (λ x. IsOffsetFrom line.now at x.1) }
{
    if byte_at(line, at) == b'"' {
        return Err(quoted(start, &line.as_bytes()[at + 1..]));
    }
    let end = end_at(line, at, Stops::Plain).at;
    Ok((integer_value(start, &line[at..end])?, end))
}
