// The chains that callers see.
ghost use Rattle.std.specs.Prelude.{◌≡◌, ◌<◌, ◌++◌, ◌∷◌, [], length, OnErr, OnOk, slice_index_or};
ghost use Rattle.place_chains.specs.Chains.{IsLast};

use crate::links::{Link, bucket_of, is_long_from, replace_head, same_from, wider_heads};
use std::alloc::{AllocError, Global};
use std::marker::Model;

/// The hashes of places 0, 1, 2 and so on, by which they are found again.
#[derive(Drop)]
pub struct HashChains {
    /// The last place of each bucket.
    heads: Vec<Option<usize>>,
    links: Vec<Link>,
}

// Hashes that are spread well hardly ever bring so many places into one bucket.
const LONG: usize = 16;

impl Model for HashChains {
    ghost use Rattle.std.specs.Prelude.{◌≤◌, List, ℕ, vec_capacity, vec_len};
    ghost use Rattle.place_chains.specs.Buckets.{IsChained, hashes_of};

    ghost Value = { List ℕ };

    ghost view = { λ s. hashes_of s.links.items };

    ghost invariant = { λ s. IsChained s.heads.items s.links.items × (vec_len s.heads ≤ vec_capacity s.links) };
}

impl HashChains {
    /// No places, which takes no memory.
    pub fn new(alloc: Global) -> HashChains
        ensures { result ≡ [] }
    {
        HashChains {
            heads: Vec::new(alloc),
            links: Vec::new(alloc),
        }
    }

    /// The last place that has a hash, or none. It takes a few steps where hashes are spread well, and one for each place where
    /// they all fall together.
    pub fn latest(&self, hash: u64) -> Option<usize>
        ensures { IsLast hash self.now (length self.now) result }
    {
        let count = self.heads.len();
        if count == 0 {
            return None;
        }
        same_from(&self.links, hash, self.heads[bucket_of(hash, count)])
    }

    /// The last place before one that has the same hash, or none, in as many steps as `latest`.
    pub fn earlier(&self, place: usize) -> Option<usize>
        requires { place < length self.now }
        ensures { IsLast (slice_index_or self.now place 0) self.now place result }
    {
        let link = self.links[place];
        same_from(&self.links, link.hash, link.earlier)
    }

    /// Whether the bucket in which a hash is searched has sixteen places or more. It depends on where places lie, which no clause
    /// tells: so each answer is a right one, and serves to save time alone. If places are added only where it says no, no search
    /// looks at more than sixteen.
    pub fn is_long(&self, hash: u64) -> bool {
        let count = self.heads.len();
        if count == 0 {
            return false;
        }
        is_long_from(&self.links, self.heads[bucket_of(hash, count)], LONG)
    }

    /// Adds the next place, with its hash. It takes a few steps, except where there are as many places as buckets: then these are
    /// made anew, twice as many, in a step for each place. The error is out of memory, and the places are as they were.
    pub fn push(&mut self, alloc: Global, hash: u64) -> Result<(), AllocError>
        ensures ok { OnOk result (self.new ≡ self.old ++ hash ∷ []) }
        ensures err { OnErr result (self.new ≡ self.old) }
    {
        if self.links.len() == self.heads.len() {
            self.heads = wider_heads(alloc, &mut self.links)?;
        }
        let place = self.links.len();
        let earlier = replace_head(&mut self.heads, hash, place);
        self.links.push_reserved(Link { hash, earlier });
        Ok(())
    }
}
