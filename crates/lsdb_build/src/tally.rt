//! How often keys came.
ghost use Rattle.std.specs.Prelude.{◌≡◌, ◌<◌, ◌^◌, List, [], ◌∷◌, IfOk};
ghost use Rattle.lsdb_build.specs.Tallies.{IsTally, count_of};

use cost_base::OutOfMemory;
use indexmap::IndexMap;
use std::alloc::Global;
use std::hash::Hash;

/// How often each key came.
#[derive(Drop)]
pub struct Tally<K: Copy + Eq + Hash> {
    counts: IndexMap<K, u32>,
}

impl<K: Copy + Eq + Hash> Tally<K> {
    /// No key.
    pub fn new(alloc: Global) -> Tally<K>
        ensures { IsTally K.eq result.counts [] }
    {
        Tally {
            counts: IndexMap::new(alloc),
        }
    }

    /// How often a key came.
    pub fn count(&self, key: K) -> u32
        ensures { result ≡ count_of K.eq self.now.counts key }
    {
        match self.counts.get(&key) {
            Some(count) => *count,
            None => 0,
        }
    }

    /// Adds a key; tells how often it came before.
    pub fn add(&mut self, key: K) -> Result<u32, OutOfMemory>
        requires few { count_of K.eq self.old.counts key < 2 ^ 31 }
        ensures before { IfOk result (λ count. count ≡ count_of K.eq self.old.counts key) }
        ensures added { IfOk result (λ _. (keys : List K) → IsTally K.eq self.old.counts keys →
            IsTally K.eq self.new.counts (key ∷ keys)) }
    {
        let count = self.count(key);
        self.counts.insert(key, count + 1)?;
        Ok(count)
    }
}
