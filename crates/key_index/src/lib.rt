//! Lists of keys, each of which is found at once: readers of machine files and of logs find names in them.
//! Its tests are in `part_cases`.
//!
//! Promises: A key is found at its first index in the list, and not found exactly if the list has none that
//! equals it. By the clauses of `KeyIndex::new`, `keys`, `place`.
//!
//! Begin reading in `src/index.rt`.
#![tactic(auto)]

mod index;

pub use index::KeyIndex;
