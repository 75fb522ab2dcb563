//! Values of literals: numbers, durations and strings.
ghost use Rattle.std.specs.Prelude.{◌≡◌, ◌-◌, ◌<◌, [], ◌∷◌, length, IfOk, IfSome, pos, string_bytes, bytes_eq};
ghost use Rattle.std.specs.Char.{is_ascii_digit};
ghost use Rattle.std.specs.Option.{MatchOption};
ghost use Rattle.std.specs.Str.{IsUtf8, str_eq_ignore_ascii_case};
ghost use Rattle.std.specs.Str.Iter.{chars_rest};
ghost use Rattle.ts_core.specs.facts.Durations.{in_64_bits};
ghost use Rattle.ts_ql.specs.Literals.{magnitude, literal, escape, spelled_chars, text_spelled};
ghost use Rattle.ts_ql.specs.DurationUnits.{nanoseconds_of_unit};

use crate::unit::nanoseconds_of_unit;
use std::alloc::{AllocError, Allocator};
use std::str::Chars;
use ts_core::{byte_at, with_digit, with_units};

/// Returns the value of an integer, or of a duration in nanoseconds; `None` from 2^64 on.
#[tactic(auto, unfolding(crate::specs::Literals::magnitude))]
pub(crate) fn magnitude(text: &str) -> Option<u64>
    ensures { result ≡ in_64_bits (magnitude text.now) }
{
    let bytes = text.as_bytes();
    let mut total = 0u64;
    let mut number = 0u64;
    let mut at = 0;
    while at < bytes.len() {
        let byte = bytes[at];
        if byte.is_ascii_digit() {
            number = with_digit(number, byte - b'0')?;
        } else {
            let unit = nanoseconds_of_unit(byte, byte_at(text, at + 1));
            total = with_units(total, number, unit)?;
            number = 0;
        }
        at += 1;
    }
    total.checked_add(number)
}

/// Returns the value of an integer or a duration, negated if `negative`; `None` if it doesn't fit in 64 bits.
#[tactic(auto, unfolding(crate::specs::Literals::literal))]
pub(crate) fn literal(negative: bool, text: &str) -> Option<i64>
    ensures { result ≡ literal negative text.now }
{
    let magnitude = magnitude(text)?;
    if negative {
        0i64.checked_sub_unsigned(magnitude)
    } else {
        0i64.checked_add_unsigned(magnitude)
    }
}

/// Returns the character for an escape, given the character after the backslash.
fn escape(c: char) -> char
    ensures { result ≡ escape c }
{
    if c == 'n' { '\n' } else { c }
}

/// Copies a string with its escapes resolved.
#[tactic(auto, unfolding(crate::specs::Literals::text_spelled))]
pub(crate) fn text_spelled<A: Allocator + Copy>(
    alloc: A,
    text: &str,
) -> Result<String<A>, AllocError>
    ensures { IfOk result (λ s. string_bytes s ≡ text_spelled text.now) }
{
    let mut spelled = String::new(alloc);
    let mut escaped = false;
    for c in text.chars() {
        if escaped {
            spelled.push(escape(c))?;
            escaped = false;
        } else if c == '\\' {
            escaped = true;
        } else {
            spelled.push(c)?;
        }
    }
    Ok(spelled)
}

/// Returns the next character of a string with its escapes resolved.
fn next_spelled(chars: &mut Chars<'_>) -> Option<char>
    requires { IsUtf8 (chars_rest chars.old) }
    ensures rest { IsUtf8 (chars_rest chars.new) }
    ensures shorter { IfSome result (λ _. length (chars_rest chars.new) < length (chars_rest chars.old)) }
    ensures value { MatchOption result (spelled_chars (chars_rest chars.old) ≡ [])
        (λ c. spelled_chars (chars_rest chars.old) ≡ c ∷ spelled_chars (chars_rest chars.new)) }
{
    let c = chars.next()?;
    if c != '\\' {
        return Some(c);
    }
    Some(escape(chars.next()?))
}

/// Returns true if two strings are the same with their escapes resolved.
pub(crate) fn is_spelled_alike(text: &str, other: &str) -> bool
    ensures { result ≡ bytes_eq (text_spelled text.now) (text_spelled other.now) }
{
    let mut chars = text.chars();
    let mut others = other.chars();
    while let Some(c) = next_spelled(&mut chars) {
        match next_spelled(&mut others) {
            Some(other) if other == c => {}
            _ => return false,
        }
    }
    next_spelled(&mut others).is_none()
}

/// Returns true if the text is the word, ignoring ASCII case.
pub(crate) fn is_word(text: &str, word: &str) -> bool
    ensures { result ≡ str_eq_ignore_ascii_case text.now word.now }
{
    text.eq_ignore_ascii_case(word)
}
