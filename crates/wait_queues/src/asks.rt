//! Sets of actors by number, gone through in order.

ghost use Rattle.std.specs.Prelude.{◌≡◌, ℕ, ◌+◌, ◌*◌, ◌/◌, ◌<◌, ◌≤◌, ◌^◌, ◌==◌, ◌↔◌, Bool, true, false, List, length, replicate, min, slice_index, slice_set, IfOk, IfSome};
ghost use Rattle.std.specs.Int.{trailing_zeros, w64};
ghost use Rattle.std.specs.Option.{MatchOption};
ghost use Rattle.wait_queues.specs.NumberSets.{is_in, union, IsNextNumber};

use std::alloc::{AllocError, Global};
use std::marker::Model;

/// A set of numbers, gone through in order: who is to be asked.
#[derive(Drop)]
pub(crate) struct Asks {
    /// A bit for each number that there is room for.
    words: Vec<u64>,
    /// A bit for each word in which a number is, so that empty stretches cost nothing.
    full: u64,
}

/// For each number that there is room for, whether it is in the set.
impl Model for Asks {
    ghost use Rattle.std.specs.Prelude.{Bool, List};

    ghost Value = { List Bool };

    ghost use Rattle.wait_queues.specs.NumberSets.{bits_of, AreMarked};

    ghost view = { λ a. bits_of a.words.items };

    ghost invariant = { λ a. AreMarked a.words.items a.full };
}

/// The word at that place, 0 after the last.
#[inline(always)]
fn word_of(words: &[u64], at: usize) -> u64
    ensures { result ≡ slice_index words.now at }
{
    match words.get(at) {
        Some(word) => *word,
        None => 0,
    }
}

/// The lowest number of that word, if it is below `many`.
#[inline(always)]
fn lowest_of(at: u32, word: u64, many: u32) -> Option<u32>
    requires at { at < 2 ^ 26 }
    requires word { 0 < word }
    ensures { let lowest = at * 64 + trailing_zeros w64 word in
        MatchOption result (many ≤ lowest) (λ n. (n ≡ lowest) × (lowest < many)) }
{
    let number = at * 64 + word.trailing_zeros();
    if number < many { Some(number) } else { None }
}

impl Asks {
    /// No number, with room for those below `many`, and for 4,032 at most.
    pub(crate) fn new(alloc: Global, many: usize) -> Result<Self, AllocError>
        ensures { IfOk result (λ set. set ≡ replicate (64 * min (many / 64 + 1) 63) false) }
    {
        let words = vec![in alloc; 0; (many / 64 + 1).min(63)]?;
        Ok(Asks { words, full: 0 })
    }

    /// Puts the number in.
    pub(crate) fn insert(&mut self, number: u32)
        ensures { self.new ≡ slice_set self.old number true }
    {
        let at = (number / 64) as usize;
        if at < self.words.len() {
            let word = self.words[at];
            self.words[at] = word | 1 << (number % 64);
            self.full |= 1 << at;
        }
    }

    /// Takes the number out.
    pub(crate) fn remove(&mut self, number: u32)
        ensures { self.new ≡ slice_set self.old number false }
    {
        let at = (number / 64) as usize;
        if at < self.words.len() {
            let word = self.words[at] & !(1 << (number % 64));
            self.words[at] = word;
            if word == 0 {
                self.full &= !(1 << at);
            }
        }
    }

    /// Whether no number is in it.
    pub(crate) fn is_empty(&self) -> bool
        ensures { result ≡ true ↔ ((k : ℕ) → is_in self.now k ≡ false) }
    {
        self.full == 0
    }

    /// Whether that number and no other is in it.
    pub(crate) fn is_only(&self, number: u32) -> bool
        ensures { result ≡ true ↔ ((k : ℕ) → is_in self.now k ≡ (k == number)) }
    {
        let at = number / 64;
        at < 64 && self.full == 1 << at && word_of(&self.words, at as usize) == 1 << (number % 64)
    }

    /// Whether that number is in it.
    pub(crate) fn has(&self, number: u32) -> bool
        ensures { result ≡ is_in self.now number }
    {
        word_of(&self.words, (number / 64) as usize) & (1 << (number % 64)) != 0
    }

    /// Puts all in that are in the other.
    pub(crate) fn add(&mut self, other: &Asks)
        ensures { self.new ≡ union self.old other.now }
    {
        let length = self.words.len();
        for at in 0..length {
            let word = self.words[at];
            self.words[at] = word | word_of(&other.words, at);
        }
        self.full |= other.full & !(u64::MAX << length);
    }

    /// Takes all out.
    fn clear(&mut self)
        ensures { self.new ≡ replicate (length self.old) false }
    {
        self.words.fill(0);
        self.full = 0;
    }

    /// Puts all in that are in the other, and takes them out there.
    pub(crate) fn take(&mut self, other: &mut Asks)
        ensures taken { self.new ≡ union self.old other.old }
        ensures left { other.new ≡ replicate (length other.old) false }
    {
        if !other.is_empty() {
            self.add(other);
            other.clear();
        }
    }

    /// The first from a number on that is in it, below `many`.
    #[inline(always)]
    pub(crate) fn next(&self, from: u32, many: u32) -> Option<u32>
        ensures next { IsNextNumber self.now from many result }
        ensures below { IfSome result (λ n. n < many) }
    {
        if self.is_empty() {
            return None;
        }
        let left = word_of(&self.words, (from / 64) as usize) & (u64::MAX << (from % 64));
        if left != 0 {
            return lowest_of(from / 64, left, many);
        }
        let full = self.full & (u64::MAX << (from / 64 + 1).min(63));
        if full == 0 {
            return None;
        }
        let at = full.trailing_zeros();
        lowest_of(at, word_of(&self.words, at as usize), many)
    }
}
