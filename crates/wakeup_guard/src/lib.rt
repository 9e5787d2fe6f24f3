//! The saved count and the test for a wakeup (`drivers/base/power/wakeup.c`), over a visible count of 1 to 24
//! bits. Its tests are in `part_cases`.
//!
//! Promises: Save, test, forgetting and the count in force are exactly the rule's, for 1 to 24 visible bits;
//! at 24 bits they are the definitions'. By the clauses of `Guard::save`, `pending`, `is_pending`,
//! `clear_hard`, `finish`, `in_force`, `note`; `twenty_four_bits_are_pending`,
//! `twenty_four_bits_are_in_force`.
//!
//! Begin reading in `src/guard.rt`.
#![tactic(auto)]

mod guard;
pub mod laws;

pub use guard::Guard;
