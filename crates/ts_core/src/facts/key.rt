//! Series keys: a measurement, and tags sorted by key.
ghost use Rattle.std.specs.Prelude.{◌≡◌, IfOk};
ghost use Rattle.std.specs.Cmp.Lexicographic.{slice_cmp};
ghost use Rattle.ts_core.specs.facts.Facts.{tag_cmp, series_cmp};
ghost use Rattle.ts_core.specs.facts.Tags.{value_among, tag_value};
ghost use Rattle.ts_core.specs.text.Texts.{owned_pairs, borrowed_pairs, borrowed_series, IsTagSet};

use std::alloc::{AllocError, Allocator};
use std::cmp::Ordering;
use std::marker::Model;

/// Owned series key: a measurement, and tags in byte order of their keys.
/// (InfluxData 1.8: series key.)
#[derive(Drop)]
pub struct Key<A: Allocator> {
    measurement: String<A>,
    tags: Vec<(String<A>, String<A>), A>,
}

impl<A: Allocator> Model for Key<A> {
    ghost use Rattle.std.specs.Prelude.{string_bytes};
    ghost use Rattle.ts_core.specs.facts.Facts.{Series};
    ghost use Rattle.ts_core.specs.text.Texts.{owned_pairs, IsTagSet};

    ghost Value = { Series };

    ghost view = { λ k. record { measurement = string_bytes k.measurement; tags = owned_pairs k.tags.items } };

    ghost invariant = { λ k. IsTagSet (owned_pairs k.tags.items) };
}

/// Borrowed series key: a measurement, and tags in byte order of their keys, each key once. Used for look-ups.
#[derive(Drop)]
pub struct KeyRef<'a> {
    measurement: &'a str,
    tags: &'a [(&'a str, &'a str)],
}

impl<'a> Model for KeyRef<'a> {
    ghost use Rattle.ts_core.specs.facts.Facts.{Series};
    ghost use Rattle.ts_core.specs.text.Texts.{borrowed_pairs, borrowed_series, IsTagSet};

    ghost Value = { Series };

    ghost view = { λ k. borrowed_series k.measurement.now k.tags.now };

    ghost invariant = { λ k. IsTagSet (borrowed_pairs k.tags.now) };
}

impl<'a> KeyRef<'a> {
    /// Creates a key of a measurement and tags. The tags must be in byte order of their keys, each key once.
    pub fn new(measurement: &'a str, tags: &'a [(&'a str, &'a str)]) -> KeyRef<'a>
        requires { IsTagSet (borrowed_pairs tags.now) }
        ensures { result ≡ borrowed_series measurement.now tags.now }
    {
        KeyRef { measurement, tags }
    }

    /// Returns the measurement.
    pub fn measurement(&self) -> &'a str
        ensures { result.now ≡ self.now.measurement }
    {
        self.measurement
    }

    /// Returns the tags as pairs of key and value, in byte order of the keys.
    pub fn tags(&self) -> &'a [(&'a str, &'a str)]
        ensures { borrowed_pairs result.now ≡ self.now.tags }
    {
        self.tags
    }
}

fn owned<A: Allocator + Copy>(
    alloc: A,
    pairs: &[(&str, &str)],
) -> Result<Vec<(String<A>, String<A>), A>, AllocError>
    ensures { IfOk result (λ v. owned_pairs v.items ≡ borrowed_pairs pairs.now) }
{
    let mut all = Vec::new(alloc);
    for (key, value) in pairs {
        let key = String::from_str(alloc, key)?;
        let value = String::from_str(alloc, value)?;
        all.push((key, value))?;
    }
    Ok(all)
}

/// Compares two lists of tags lexicographically, each tag by its key and then by its value.
fn compare_tags<A: Allocator>(tags: &[(String<A>, String<A>)], others: &[(&str, &str)]) -> Ordering
    ensures { result ≡ slice_cmp tag_cmp (owned_pairs tags.now) (borrowed_pairs others.now) }
{
    match (tags.split_first(), others.split_first()) {
        (None, None) => Ordering::Equal,
        (None, Some(_)) => Ordering::Less,
        (Some(_), None) => Ordering::Greater,
        (Some((tag, tags)), Some((other, others))) => match tag.0.as_str().cmp(&other.0) {
            Ordering::Equal => match tag.1.as_str().cmp(&other.1) {
                Ordering::Equal => compare_tags(tags, others),
                order => order,
            },
            order => order,
        },
    }
}

/// Returns the value of a tag, or the empty text if the list doesn't have the tag.
fn value_among<'a, A: Allocator>(tags: &'a [(String<A>, String<A>)], tag: &str) -> &'a str
    ensures { result.now ≡ value_among (owned_pairs tags.now) tag.now }
{
    match tags.split_first() {
        None => "",
        Some((first, others)) => {
            if first.0.as_str() == tag {
                first.1.as_str()
            } else {
                value_among(others, tag)
            }
        }
    }
}

impl<A: Allocator + Copy> Key<A> {
    /// Copies a borrowed key.
    pub fn new(alloc: A, key: &KeyRef<'_>) -> Result<Key<A>, AllocError>
        ensures { IfOk result (λ k. k ≡ key.now) }
    {
        Ok(Key {
            measurement: String::from_str(alloc, key.measurement)?,
            tags: owned(alloc, key.tags)?,
        })
    }

    /// Returns the measurement.
    pub fn measurement(&self) -> &str
        ensures { result.now ≡ self.now.measurement }
    {
        self.measurement.as_str()
    }

    /// Returns the tags as pairs of key and value, in byte order of the keys.
    pub fn tags(&self) -> &[(String<A>, String<A>)]
        ensures value { owned_pairs result.now ≡ self.now.tags }
        ensures set { IsTagSet (owned_pairs result.now) }
    {
        self.tags.as_slice()
    }

    /// Returns the value of a tag, or the empty text if the series doesn't have the tag.
    pub fn tag_value(&self, tag: &str) -> &str
        ensures { result.now ≡ tag_value self.now tag.now }
    {
        value_among(self.tags.as_slice(), tag)
    }

    /// Compares this key with a borrowed one.
    pub fn compare(&self, key: &KeyRef<'_>) -> Ordering
        ensures { result ≡ series_cmp self.now key.now }
    {
        match self.measurement.as_str().cmp(key.measurement) {
            Ordering::Equal => compare_tags(self.tags.as_slice(), key.tags),
            order => order,
        }
    }
}
