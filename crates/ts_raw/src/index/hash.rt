//! Hashes of names, by a seed.
ghost use Rattle.std.specs.Prelude.{◌≡◌};
ghost use Rattle.ts_raw.specs.FieldKeys.{field_key, hash_of_field};
ghost use Rattle.ts_raw.specs.Hashes.{hash_of_series};
ghost use Rattle.ts_raw.specs.TagChains.{hash_of_tag};

use std::hash::{BuildHasher, Hasher, RandomState};
use ts_core::{KeyRef, hash_text};

/// Returns the hash of a series key.
pub(crate) fn hash_series(seed: &RandomState, key: &KeyRef<'_>) -> u64
    ensures { result ≡ hash_of_series seed.now key.now }
{
    let mut hasher = seed.build_hasher();
    hash_text(&mut hasher, key.measurement());
    for (tag, value) in key.tags() {
        hash_text(&mut hasher, tag);
        hash_text(&mut hasher, value);
    }
    hasher.finish()
}

/// Returns the hash of a measurement with a field.
#[tactic(auto, unfolding(crate::specs::FieldKeys::hash_of_field))]
pub(crate) fn hash_field(seed: &RandomState, measurement: &str, field: &str) -> u64
    ensures { result ≡ hash_of_field seed.now (field_key measurement.now field.now) }
{
    let mut hasher = seed.build_hasher();
    hash_text(&mut hasher, measurement);
    hash_text(&mut hasher, field);
    hasher.finish()
}

/// Returns the hash of a tag of a measurement.
#[tactic(auto, unfolding(crate::specs::TagChains::hash_of_tag))]
pub(crate) fn hash_tag(seed: &RandomState, measurement: &str, tag: &str, value: &str) -> u32
    ensures { result ≡ hash_of_tag seed.now measurement.now (tag.now, value.now) }
{
    let mut hasher = seed.build_hasher();
    hash_text(&mut hasher, measurement);
    hash_text(&mut hasher, tag);
    hash_text(&mut hasher, value);
    (hasher.finish() % 4_294_967_296) as u32
}
