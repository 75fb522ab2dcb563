//! Hash chains of series, by their tags.
ghost use Rattle.std.specs.Prelude.{◌≡◌, [], ℕ, IfOk, OnOk};
ghost use Rattle.ts_core.specs.lists.Members.{Among};
ghost use Rattle.ts_core.specs.text.Texts.{borrowed_pairs};
ghost use Rattle.ts_raw.specs.TagChains.{LeadsTo, KeepLeads, AllLead, next_of};

use crate::index::hash::hash_tag;
use std::alloc::{AllocError, Allocator};
use std::collections::HashMap;
use std::hash::{BuildHasherDefault, FoldHasher, RandomState};
use std::marker::Model;
use ts_core::{next_id, reserve_eighth};

/// Link of a chain: a series, and the index of the next older link. The oldest link of a chain has its own index there.
/// The count of links from here on is a hint: no result depends on it.
#[derive(Clone, Copy)]
pub(crate) struct TagLink {
    series: u32,
    older: u32,
    count: u32,
}

/// Hash chains that lead from a tag to the series that have it, newest first. They give candidates: two tags may share
/// a hash, and a registration that ran out of memory leaves links behind. Test a candidate's key before using it.
#[derive(Drop)]
pub(crate) struct TagTable<A: Allocator> {
    newest: HashMap<u32, u32, BuildHasherDefault<FoldHasher>, A>,
    links: Vec<TagLink, A>,
}

impl<A: Allocator> Model for TagTable<A> {
    ghost use Rattle.ts_raw.specs.TagChains.{TagChains, AreHeadsWithin};

    ghost Value = { TagChains };

    ghost view = { λ t. record { newest = t.newest.entries; links = t.links.items } };

    ghost invariant = { λ t. AreHeadsWithin (record { newest = t.newest.entries; links = t.links.items }) };
}

impl TagLink {
    /// Returns the index of the next older link, if this is the link with index `at`.
    fn next(self, at: u32) -> Option<u32>
        ensures { result ≡ next_of self at }
    {
        if self.older < at {
            Some(self.older)
        } else {
            None
        }
    }
}

/// Returns the number of links of a chain, from the link with this index on. It is 0 if there is no such link.
fn count_from(links: &[TagLink], at: u32) -> u32 {
    match links.get(at as usize) {
        Some(link) => link.count,
        None => 0,
    }
}

impl<A: Allocator + Copy> TagTable<A> {
    /// Creates an empty table. Does not allocate.
    pub(crate) fn new(alloc: A) -> TagTable<A>
        ensures newest { result.newest ≡ [] }
        ensures links { result.links ≡ [] }
    {
        TagTable {
            newest: HashMap::new(alloc),
            links: Vec::new(alloc),
        }
    }

    /// Returns the number of series in the chain of a hash, to choose between chains.
    pub(crate) fn count(&self, hash: u32) -> usize {
        match self.newest.get(&hash) {
            Some(at) => count_from(&self.links, *at) as usize,
            None => 0,
        }
    }

    /// Prepends a series to the chain of a hash.
    fn push(&mut self, hash: u32, series: u32) -> Result<(), AllocError>
        ensures kept { KeepLeads self.old self.new }
        ensures ok { OnOk result (LeadsTo self.new hash series) }
    {
        let at = next_id(self.links.len())?;
        reserve_eighth(&mut self.links, 1)?;
        let older = self.newest.insert(hash, at)?;
        let older = older.unwrap_or(at);
        let count = count_from(&self.links, older).saturating_add(1);
        let link = TagLink {
            series,
            older,
            count,
        };
        self.links.push(link).unwrap();
        Ok(())
    }

    /// Prepends a series to the chains of its tags, whose hashes are by a seed. When out of memory, it may be in some
    /// of them.
    pub(crate) fn push_all(
        &mut self,
        seed: &RandomState,
        measurement: &str,
        tags: &[(&str, &str)],
        series: u32,
    ) -> Result<(), AllocError>
        ensures kept { KeepLeads self.old self.new }
        ensures ok { OnOk result (AllLead seed.now self.new measurement.now (borrowed_pairs tags.now) series) }
    {
        match tags.split_first() {
            None => Ok(()),
            Some((tag, tags)) => {
                self.push(hash_tag(seed, measurement, tag.0, tag.1), series)?;
                self.push_all(seed, measurement, tags, series)
            }
        }
    }

    /// Returns the series of the chain of a hash, newest first.
    pub(crate) fn series_of(&self, hash: u32) -> Result<Vec<u32, A>, AllocError>
        ensures { IfOk result (λ v. (n : ℕ) → LeadsTo self.now hash n → Among n v.items) }
    {
        let mut found = Vec::new(*self.links.allocator());
        let mut next = self.newest.get(&hash).copied();
        while let Some(at) = next {
            let link = self.links[at as usize];
            found.push(link.series)?;
            next = link.next(at);
        }
        Ok(found)
    }
}
