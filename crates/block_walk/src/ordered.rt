// Entries that are found by the order of their keys, whatever their hashes.
ghost use Rattle.std.specs.Prelude.{◌≡◌, ◌<◌, ℕ, None, IfOk, OnOk, length};
ghost use Rattle.beas_core.specs.Types.{Row};
ghost use Rattle.block_walk.specs.Ordered.{HasSame, IsPlaced, Keeps, kept_under};

use beas_core::{Duplicate, NoMemory, Value};
use place_chains::HashChains;
use seeded_hash::{FIXED_FACTOR, mixed};
use std::alloc::Global;
use std::collections::BTreeMap;

/// The entries of some steps and keys. A look-up compares as many keys as the logarithm of how many there are, whatever the keys
/// are. Each key is a piece of memory of its own.
#[derive(Drop)]
pub struct OrderedKeys {
    /// Those of step 0, of step 1 and so on.
    pub steps: Vec<BTreeMap<Vec<Value>, usize>>,
}

// A copy of a key.
fn copy_key(alloc: Global, key: &[Value]) -> Result<Vec<Value>, NoMemory>
    ensures { IfOk result (λ copy. copy.items ≡ key.now) }
{
    let mut copy = Vec::with_capacity(alloc, key.len())?;
    for value in key {
        copy.push(value.copy(alloc)?)?;
    }
    Ok(copy)
}

// Makes maps for all steps up to this one.
fn reach(
    alloc: Global,
    steps: &mut Vec<BTreeMap<Vec<Value>, usize>>,
    step: usize,
) -> Result<(), NoMemory>
    ensures there { OnOk result (step < length steps.new.items) }
    ensures same { OnOk result (HasSame steps.old.items steps.new.items) }
{
    'maps: while steps.len() <= step {
        steps.push(BTreeMap::new(alloc))?;
    }
    Ok(())
}

impl OrderedKeys {
    /// No keys, which takes no memory.
    pub fn new(alloc: Global) -> OrderedKeys
        ensures { (step : ℕ) (key : Row) → kept_under result.steps.items step key ≡ None }
    {
        OrderedKeys {
            steps: Vec::new(alloc),
        }
    }

    /// The entry of a step and a key, if it's kept here.
    #[inline(always)]
    pub fn get(&self, step: usize, key: &[Value]) -> Option<usize>
        ensures { result ≡ kept_under self.now.steps.items step key.now }
    {
        if step < self.steps.len() {
            self.steps[step].get(key).copied()
        } else {
            None
        }
    }

    // Keeps an entry under its step and key, in the place of one that has the same.
    fn put(
        &mut self,
        alloc: Global,
        step: usize,
        key: &[Value],
        entry: usize,
    ) -> Result<(), NoMemory>
        ensures { OnOk result (Keeps self.old.steps.items self.new.steps.items step key.now entry) }
    {
        reach(alloc, &mut self.steps, step)?;
        let key = copy_key(alloc, key)?;
        self.steps[step].insert(key, entry)?;
        Ok(())
    }

    /// The hash with which an entry goes into the chains: that of its step and key, or one that is made up, where a search for that
    /// one is long: then the entry is kept here. Made-up hashes bring a few more places into a bucket than a search would find long.
    #[inline(always)]
    pub fn hash_for(
        &mut self,
        alloc: Global,
        chains: &HashChains,
        step: usize,
        key: &[Value],
        entry: usize,
        hash: u64,
    ) -> Result<u64, NoMemory>
        ensures { IfOk result (IsPlaced self.old.steps.items self.new.steps.items step key.now entry hash) }
    {
        if !chains.is_long(hash) {
            return Ok(hash);
        }
        self.put(alloc, step, key, entry)?;
        // Those of entries one after another fall into buckets far apart.
        Ok(mixed(FIXED_FACTOR, entry as u64, 0))
    }
}
