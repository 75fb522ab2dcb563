//! Hash table of series, by their keys.
ghost use Rattle.std.specs.Prelude.{◌≡◌, ◌≤◌, ◌<◌, ◌↔◌, [], length, IfSome, IfNone, IfOk, IsTrue, Err};
ghost use Rattle.ts_core.specs.lists.Members.{Among, AllDistinct};
ghost use Rattle.ts_raw.specs.Registering.{IsRegistered};
ghost use Rattle.ts_raw.specs.TagChains.{AreAmongTagged, IsHashed};
ghost use Rattle.ts_core.specs.lists.Numbered.{IsAt};

use crate::index::fault::IndexFault;
use crate::index::hash::{hash_series, hash_tag};
use crate::index::series_id::SeriesId;
use crate::index::tags::TagTable;
use std::alloc::{AllocError, Allocator};
use std::cmp::Ordering;
use std::hash::RandomState;
use std::marker::Model;
use ts_core::{Chains, Key, KeyRef, next_id};

/// Hash table of the registered series. Its model is their list, in creation order. Caches for each series the one that
/// `register` returned after it last time, so series that arrive in a recurring order are found without hashing. Finds
/// the series that have a tag, too.
#[derive(Drop)]
pub(crate) struct SeriesTable<A: Allocator> {
    keys: Vec<Key<A>, A>,
    chains: Chains<A>,
    tags: TagTable<A>,
    seed: RandomState,
    followers: Vec<u32, A>,
    last: u32,
}

impl<A: Allocator> Model for SeriesTable<A> {
    ghost use Rattle.std.specs.Prelude.{List};
    ghost use Rattle.ts_core.specs.facts.Facts.{Series};
    ghost use Rattle.ts_raw.specs.TagChains.{IsSeriesTable};

    ghost Value = { List Series };

    ghost view = { λ t. t.keys.items };

    ghost invariant = { λ t. IsSeriesTable t.seed t.keys.items t.chains t.tags };
}

/// Returns true if a series has this key.
fn has_key<A: Allocator + Copy>(series: &Key<A>, key: &KeyRef<'_>) -> bool
    ensures { IsTrue result ↔ (series.now ≡ key.now) }
{
    series.compare(key) == Ordering::Equal
}

/// Looks up the series of a key by its hash.
fn lookup_by_hash<A: Allocator + Copy>(
    keys: &[Key<A>],
    chains: &Chains<A>,
    hash: u64,
    key: &KeyRef<'_>,
) -> Option<SeriesId>
    requires { IsHashed keys.now chains.now key.now hash }
    ensures found { IfSome result (λ id. IsAt keys.now id key.now) }
    ensures absent { IfNone result (Among key.now keys.now → ⊥) }
{
    let number = chains.find(hash, |at| has_key(&keys[at as usize], key))?;
    Some(SeriesId { number })
}

impl<A: Allocator + Copy> SeriesTable<A> {
    /// Creates an empty table, with a seed of the hashes.
    pub(crate) fn new(alloc: A, seed: RandomState) -> SeriesTable<A>
        ensures { result ≡ [] }
    {
        SeriesTable {
            keys: Vec::new(alloc),
            chains: Chains::new(alloc),
            tags: TagTable::new(alloc),
            seed,
            followers: Vec::new(alloc),
            last: 0,
        }
    }

    /// Returns the seed of the hashes.
    pub(crate) fn seed(&self) -> RandomState {
        self.seed
    }

    /// Returns the number of series.
    pub(crate) fn len(&self) -> usize
        ensures value { result ≡ length self.now }
        ensures once { AllDistinct self.now }
    {
        self.keys.len()
    }

    /// Returns the keys, in creation order.
    pub(crate) fn keys(&self) -> &[Key<A>]
        ensures { result.now ≡ self.now }
    {
        self.keys.as_slice()
    }

    /// Returns the key of a series.
    pub(crate) fn key(&self, series: SeriesId) -> &Key<A>
        requires { series < length self.now }
        ensures { IsAt self.now series result.now }
    {
        &self.keys[series.number as usize]
    }

    /// Looks up the series of a key.
    pub(crate) fn lookup(&self, key: &KeyRef<'_>) -> Option<SeriesId>
        ensures found { IfSome result (λ id. IsAt self.now id key.now) }
        ensures absent { IfNone result (Among key.now self.now → ⊥) }
    {
        let hash = hash_series(&self.seed, key);
        lookup_by_hash(self.keys.as_slice(), &self.chains, hash, key)
    }

    /// Tries the series that followed the last one before; returns it if it has this key.
    fn lookup_follower(&self, key: &KeyRef<'_>) -> Option<SeriesId>
        ensures { IfSome result (λ id. IsAt self.now id key.now) }
    {
        let number = *self.followers.get(self.last as usize)?;
        let other = self.keys.get(number as usize)?;
        if has_key(other, key) {
            Some(SeriesId { number })
        } else {
            None
        }
    }

    /// Returns the indices of candidates, among them all series of a measurement that have this value of a tag.
    pub(crate) fn with_tag(
        &self,
        measurement: &str,
        tag: &str,
        value: &str,
    ) -> Result<Vec<u32, A>, AllocError>
        ensures { IfOk result (λ v. AreAmongTagged self.now measurement.now (tag.now, value.now) v.items) }
    {
        self.tags
            .series_of(hash_tag(&self.seed, measurement, tag, value))
    }

    /// Returns about how many series of a measurement have this value of a tag.
    pub(crate) fn count_with_tag(&self, measurement: &str, tag: &str, value: &str) -> usize {
        self.tags
            .count(hash_tag(&self.seed, measurement, tag, value))
    }

    /// Returns the series of a key, registering it if needed. Fails with `TooManySeries` if it is new and `limit`
    /// series are registered.
    pub(crate) fn register(
        &mut self,
        limit: usize,
        key: &KeyRef<'_>,
    ) -> Result<SeriesId, IndexFault>
        ensures registered { IsRegistered self.old self.new result key.now }
        ensures full { (result ≡ Err IndexFault.TooManySeries)
            ↔ ((limit ≤ length self.old) × (Among key.now self.old → ⊥)) }
        ensures once { AllDistinct self.new }
    {
        if let Some(series) = self.lookup_follower(key) {
            self.last = series.number;
            return Ok(series);
        }
        let series = self.register_by_hash(limit, key)?;
        if let Some(follower) = self.followers.get_mut(self.last as usize) {
            *follower = series.number;
        }
        self.last = series.number;
        Ok(series)
    }

    fn register_by_hash(&mut self, limit: usize, key: &KeyRef<'_>) -> Result<SeriesId, IndexFault>
        ensures registered { IsRegistered self.old self.new result key.now }
        ensures full { (result ≡ Err IndexFault.TooManySeries)
            ↔ ((limit ≤ length self.old) × (Among key.now self.old → ⊥)) }
        ensures once { AllDistinct self.new }
    {
        let hash = hash_series(&self.seed, key);
        if let Some(series) = lookup_by_hash(self.keys.as_slice(), &self.chains, hash, key) {
            return Ok(series);
        }
        if self.keys.len() >= limit {
            return Err(IndexFault::TooManySeries);
        }
        let number = next_id(self.keys.len())?;
        let copy = Key::new(*self.keys.allocator(), key)?;
        self.keys.reserve(1)?;
        self.followers.reserve(1)?;
        self.tags
            .push_all(&self.seed, key.measurement(), key.tags(), number)?;
        self.chains.push(hash)?;
        self.keys.push(copy).unwrap();
        self.followers.push(number.saturating_add(1)).unwrap();
        Ok(SeriesId { number })
    }
}
