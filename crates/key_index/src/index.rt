//! A list of keys, with the first index of each.

use indexmap::IndexMap;
use sleep_base::Mem;
use std::alloc::Global;
use std::hash::Hash;
use std::marker::Model;

/// A list of keys, of which each is found at its first index at once. Contracts see the list.
#[derive(Drop)]
pub struct KeyIndex<K: Hash + Eq + Copy> {
    keys: Vec<K>,
    indices: IndexMap<K, usize>,
}

impl<K: Hash + Eq + Copy> Model for KeyIndex<K> {
    ghost use Rattle.std.specs.Prelude.{◌≡◌, List, position};
    ghost use Rattle.indexmap.specs.IndexMap.{get};

    ghost Value = { List K };

    ghost view = { λ p. p.keys.items };

    ghost invariant = { λ p. (k : K) → get K.eq p.indices k ≡ position (K.eq k) p.keys.items };
}

impl<K: Hash + Eq + Copy> KeyIndex<K> {
    ghost use Rattle.std.specs.Prelude.{◌≡◌, length, ◌<◌, IfOk, IfSome, position};

    /// These keys, in this order. `Mem` if there is no memory for their indices.
    pub fn new(alloc: Global, keys: Vec<K>) -> Result<Self, Mem>
        ensures { IfOk result (λ p. p ≡ keys.items) }
    {
        let indices = first_indices(alloc, &keys)?;
        Ok(KeyIndex { keys, indices })
    }

    /// The keys, in order.
    pub fn keys(&self) -> &[K]
        ensures { result.now ≡ self.now }
    {
        self.keys.as_slice()
    }

    /// The first index of a key. None exactly if it is none of them.
    pub fn place(&self, key: &K) -> Option<usize>
        ensures place { result ≡ position (K.eq key.now) self.now }
        ensures within { IfSome result (λ i. i < length self.now) }
    {
        self.indices.get(key).copied()
    }
}

ghost use Rattle.std.specs.Prelude.{◌≡◌, IfOk, position};
ghost use Rattle.indexmap.specs.IndexMap.{get};

/// The first index of each key, from the last key on.
fn first_indices<K: Hash + Eq + Copy>(alloc: Global, keys: &[K]) -> Result<IndexMap<K, usize>, Mem>
    ensures { IfOk result (λ m. (k : K) → get K.eq m k ≡ position (K.eq k) keys.now) }
{
    let mut indices = IndexMap::with_capacity(alloc, keys.len())?;
    for i in (0..keys.len()).rev() {
        indices.insert(keys[i], i)?;
    }
    Ok(indices)
}
