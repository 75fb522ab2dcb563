//! Hashes of texts.
ghost use Rattle.std.specs.Prelude.{◌≡◌};
ghost use Rattle.ts_core.specs.text.Hashing.{with_text};

use std::hash::{DefaultHasher, Hasher};

/// Hashes a text, and then a byte that occurs in no text, so texts that are cut elsewhere have other hashes.
#[tactic(auto, unfolding(crate::specs::text::Hashing::with_text))]
pub fn hash_text(hasher: &mut DefaultHasher, text: &str)
    ensures { hasher.new ≡ with_text hasher.old text.now }
{
    hasher.write(text.as_bytes());
    hasher.write_u8(0xff);
}
