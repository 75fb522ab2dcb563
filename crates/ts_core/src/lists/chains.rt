//! Hash chains over list indices, newest entry first.
ghost use Rattle.std.specs.Prelude.{◌≡◌, ℕ, ◌<◌, ◌++◌, [], ◌∷◌, length, slice_index, true, false, IfSome, IfNone, OnOk, OnErr};
ghost use Rattle.ts_core.specs.lists.LastBelow.{newest_of};
ghost use Rattle.ts_core.specs.lists.Numbered.{IsAt};

use crate::lists::{next_id, reserve_eighth};
use std::alloc::{AllocError, Allocator};
use std::collections::HashMap;
use std::hash::{BuildHasherDefault, FoldHasher};
use std::marker::Model;

/// Entry of a chain: its hash, and the index of the next older entry with the same hash.
#[derive(Clone, Copy)]
pub(crate) struct Link {
    hash: u64,
    older: Option<u32>,
}

/// Hash chains: half of a hash table that maps names to indices. The other half is the list of the names, in the same
/// order. The model is the list of the hashes.
///
/// ```text
/// chains.find(hash, |at| names[at as usize] == name)
/// ```
#[derive(Drop)]
pub struct Chains<A: Allocator> {
    newest: HashMap<u64, u32, BuildHasherDefault<FoldHasher>, A>,
    links: Vec<Link, A>,
}

impl<A: Allocator> Model for Chains<A> {
    ghost use Rattle.std.specs.Prelude.{List, ℕ, nat_eq};
    ghost use Rattle.std.specs.HashMap.{get};
    ghost use Rattle.ts_core.specs.lists.Links.{hashes_of, AreChained};

    ghost Value = { List ℕ };

    ghost view = { λ c. hashes_of c.links.items };

    ghost invariant = { λ c. AreChained (get nat_eq c.newest) c.links.items };
}

impl<A: Allocator + Copy> Chains<A> {
    /// Creates empty chains.
    pub fn new(alloc: A) -> Chains<A>
        ensures { result ≡ [] }
    {
        Chains {
            newest: HashMap::new(alloc),
            links: Vec::new(alloc),
        }
    }

    /// Returns the newest index with this hash.
    fn newest(&self, hash: u64) -> Option<u32>
        ensures { result ≡ newest_of self.now hash (length self.now) }
    {
        self.newest.get(&hash).copied()
    }

    /// Returns the next older index with the same hash as index `at`.
    fn older(&self, at: u32) -> Option<u32>
        requires { at < length self.now }
        ensures { result ≡ newest_of self.now (slice_index self.now at) at }
    {
        self.links[at as usize].older
    }

    /// Returns the newest index with this hash that passes a test.
    pub fn find<F: Fn(u32) -> bool>(&self, hash: u64, is: F) -> Option<u32>
        requires { (at : ℕ) → IsAt self.now at hash → F.pre is at }
        ensures found { IfSome result (λ at. IsAt self.now at hash × F.post is at true) }
        ensures newest { IfSome result (λ at. (n : ℕ) → at < n → IsAt self.now n hash → F.post is n false) }
        ensures absent { IfNone result ((at : ℕ) → IsAt self.now at hash → F.post is at false) }
    {
        let mut next = self.newest(hash);
        while let Some(at) = next {
            if is(at) {
                return Some(at);
            }
            next = self.older(at);
        }
        None
    }

    /// Appends an entry for a hash. On allocation failure, changes nothing.
    pub fn push(&mut self, hash: u64) -> Result<(), AllocError>
        ensures ok { OnOk result (self.new ≡ self.old ++ hash ∷ []) }
        ensures err { OnErr result (self.new ≡ self.old) }
    {
        let at = next_id(self.links.len())?;
        reserve_eighth(&mut self.links, 1)?;
        let older = self.newest.insert(hash, at)?;
        self.links.push(Link { hash, older }).unwrap();
        Ok(())
    }
}
