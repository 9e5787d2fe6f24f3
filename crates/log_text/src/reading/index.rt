//! The things that a log names, by their names.

ghost use Rattle.std.specs.Prelude.{◌≡◌, ◌<◌, ◌^◌, length, nat_lt, true, IfSome};
ghost use Rattle.log_text.specs.Cutting.{index_in};

use crate::reading::guesses::NameGuesses;
use crate::reading::names::OfNames;
use key_index::KeyIndex;
use sleep_base::{Mem, drop_for_mem};
use sleep_model::Name;
use std::alloc::Global;

/// Names of things, each of which is found at once by its bytes.
#[derive(Drop)]
pub struct NameIndex {
    indices: KeyIndex<Name>,
    guesses: NameGuesses,
    ghost few: { length indices < 2 ^ 32 },
}

impl OfNames for NameIndex {
    ghost listed = { λ n. n.indices };

    /// The index of these names. `Mem` also if there is no number for each.
    fn of_names(alloc: Global, names: Vec<Name>) -> Result<Self, Mem> {
        if names.len() > u32::MAX as usize {
            return Err(Mem);
        }
        let guesses = NameGuesses::of(alloc, &names)?;
        let Ok(indices) = KeyIndex::new(alloc, names) else {
            return Err(drop_for_mem(guesses));
        };
        Ok(NameIndex { indices, guesses })
    }
}

impl NameIndex {
    /// A guess at the number of the thing whose name and that byte a text begins with, which the caller
    /// compares.
    #[inline(always)]
    pub fn guess(&self, text: &[u8], end: u8) -> u32 {
        self.guesses.guess(text, end)
    }

    /// The number of the first thing of that name. None if there is none.
    #[tactic(auto, using(crate::proofs::SameNames::found_is))]
    pub fn find(&self, word: &[u8]) -> Option<u32>
        ensures place { result ≡ index_in self.now.indices word.now }
        ensures within { IfSome result (λ i. nat_lt i (length self.now.indices) ≡ true) }
    {
        match Name::of_bytes(word) {
            Some(name) => match self.indices.place(&name) {
                Some(place) => Some(place as u32),
                None => None,
            },
            None => None,
        }
    }
}
