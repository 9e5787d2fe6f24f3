//! How a table of locks is made.
ghost use Rattle.std.specs.Prelude.{◌≡◌, ◌<◌, ◌≤◌, ◌+◌, ℕ, [], ◌∷◌, map, length, vec_len, IfOk, Some, replicate};
ghost use Rattle.turn_lock.specs.Passes.{AreNew, first_of};
ghost use Rattle.turn_lock.specs.Passing.{tokens};

use crate::booked::Booked;
use crate::table::{LockTable, Pass};
use atomic_table::Table;
use sleep_base::Mem;
use std::alloc::Global;
use std::snapshot::Snapshot;

/// Each value in a slot.
fn slotted<V: Drop>(alloc: Global, values: Vec<V>) -> Result<Vec<Option<V>>, Mem>
    ensures { IfOk result (λ slots. slots.items ≡ map (λ (y : V). Some y) values.items) }
{
    let mut slots = Vec::with_capacity(alloc, values.len())?;
    for value in values {
        slots.push(Some(value))?;
    }
    Ok(slots)
}

impl<V: Booked> LockTable<V> {
    /// A table with no pass yet.
    fn empty(alloc: Global, values: Vec<V>) -> Result<LockTable<V>, Mem>
        requires { 1 ≤ vec_len values }
        ensures { IfOk result (λ locks. (first_of locks.own ≡ values.items) × (locks.own.me.0.next ≡ 0) × (locks.own.me.0.known ≡ [])) }
    {
        let words = vec![in alloc; 0; values.len()]?;
        let locks = LockTable::of_words(alloc, words.as_slice(), values);
        drop(words);
        locks
    }

    /// A table with no pass yet, over these words, of which each value has one that is 0.
    fn of_words(alloc: Global, words: &[u64], values: Vec<V>) -> Result<LockTable<V>, Mem>
        requires some { 1 ≤ vec_len values }
        requires words { words.now ≡ replicate (vec_len values) 0 }
        ensures { IfOk result (λ locks. (first_of locks.own ≡ values.items) × (locks.own.me.0.next ≡ 0) × (locks.own.me.0.known ≡ [])) }
    {
        let about = Snapshot::of(&values);
        let slots = slotted(alloc, values)?;
        let Ok((cells, own)) = Table::new(alloc, words, slots, &about) else {
            return Err(Mem);
        };
        Ok(LockTable { cells, own })
    }

    /// That many new passes, in the order of their numbers.
    fn passes(&mut self, alloc: Global, count: u32) -> Result<Vec<Pass<V>>, Mem>
        requires { (self.old.own.me.0.next ≡ 0) × (self.old.own.me.0.known ≡ []) }
        ensures own { IfOk result (λ passes. first_of self.new.own ≡ first_of self.old.own) }
        ensures new { IfOk result (λ passes. (vec_len passes ≡ count) × AreNew self.new.own (tokens passes.items)) }
    {
        let mut passes = Vec::with_capacity(alloc, count as usize)?;
        for _ in 0..count {
            passes.push(self.pass())?;
        }
        Ok(passes)
    }

    /// A table of these objects, and that many passes.
    pub fn new(
        alloc: Global,
        values: Vec<V>,
        passes: u32,
    ) -> Result<(LockTable<V>, Vec<Pass<V>>), Mem>
        requires values { (1 ≤ vec_len values) × (vec_len values ≤ 257) }
        requires passes { (1 ≤ passes) × (passes ≤ 2000) }
        ensures first { IfOk result (λ made. first_of made.0.own ≡ values.items) }
        ensures count { IfOk result (λ made. vec_len made.1 ≡ passes) }
        ensures passes { IfOk result (λ made. AreNew made.0.own (tokens made.1.items)) }
    {
        let mut locks = LockTable::empty(alloc, values)?;
        let made = locks.passes(alloc, passes)?;
        Ok((locks, made))
    }
}
