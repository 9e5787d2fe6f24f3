//! Keys that come before others.

ghost use Rattle.std.specs.Prelude.{◌≡◌, [], not, take};
ghost use Rattle.std.specs.List.{list_any};
ghost use Rattle.file_rules.specs.Places.{first_not_after};

use key_index::KeyIndex;
use std::hash::Hash;

/// Whether a key is among the first `count`.
pub(crate) fn is_before<K: Hash + Eq + Copy>(keys: &KeyIndex<K>, key: &K, count: usize) -> bool
    ensures { result ≡ list_any (K.eq key.now) (take count keys.now) }
{
    match keys.place(key) {
        Some(place) => place < count,
        None => false,
    }
}

/// The number of the first key that comes before.
pub(crate) fn first_repeated<K: Hash + Eq + Copy>(keys: &KeyIndex<K>) -> Option<usize>
    ensures { result ≡ first_not_after (λ before k. not (list_any (K.eq k) before)) [] 0 keys.now }
{
    let list = keys.keys();
    for i in 0..list.len() {
        let key = list[i];
        if is_before(keys, &key, i) {
            return Some(i);
        }
    }
    None
}
