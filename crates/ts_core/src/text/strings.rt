//! Comparisons of lists of texts.
ghost use Rattle.std.specs.Prelude.{◌≡◌, ◌↔◌, IsTrue, map, string_bytes};
ghost use Rattle.std.specs.List.{list_any};
ghost use Rattle.ts_core.specs.facts.Facts.{same_text};

use std::alloc::Allocator;

/// Returns true if `text` is one of `texts`.
pub fn is_among<A: Allocator>(text: &str, texts: &[String<A>]) -> bool
    ensures { result ≡ list_any (same_text text.now) (map string_bytes texts.now) }
{
    texts.iter().any(|other| text == other.as_str())
}

/// Returns true if two lists have the same texts in the same order.
pub(crate) fn same_strings<A: Allocator>(texts: &[String<A>], others: &[String<A>]) -> bool
    ensures { IsTrue result ↔ (map string_bytes texts.now ≡ map string_bytes others.now) }
{
    texts == others
}
