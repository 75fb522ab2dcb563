//! Decimal numbers as text.
ghost use Rattle.std.specs.Prelude.{◌≡◌, true};
ghost use Rattle.std.specs.Char.{is_ascii_digit};
ghost use Rattle.std.specs.List.{list_all};
ghost use Rattle.ts_core.specs.text.Numbers.{are_digits, is_number, without_minus, whole_of};

/// Returns the text without a leading minus.
pub fn after_minus(text: &[u8]) -> &[u8]
    ensures { result.now ≡ without_minus text.now }
{
    match text {
        [b'-', digits @ ..] => digits,
        _ => text,
    }
}

/// Returns true if the text is one or more digits.
pub fn are_digits(text: &[u8]) -> bool
    ensures { result ≡ are_digits text.now }
{
    !text.is_empty() && has_digits_alone(text)
}

fn has_digits_alone(bytes: &[u8]) -> bool
    ensures { result ≡ list_all is_ascii_digit bytes.now }
{
    bytes.iter().all(|byte| byte.is_ascii_digit())
}

/// Returns true if the text is one or more digits, with or without a leading minus.
#[tactic(auto, unfolding(crate::specs::text::Numbers::is_number))]
pub fn is_number(text: &[u8]) -> bool
    ensures { result ≡ is_number text.now }
{
    are_digits(after_minus(text))
}

/// Parses a number. Returns `None` if it doesn't fit 64 bits.
pub fn whole(text: &str) -> Option<i64>
    requires { is_number text.now ≡ true }
    ensures { result ≡ whole_of text.now }
{
    match text.parse::<i64>() {
        Ok(number) => Some(number),
        Err(_) => None,
    }
}
