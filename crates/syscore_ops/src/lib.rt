//! Syscore operations, which an attempt suspends backward and resumes forward (`drivers/base/syscore.c`).
//! Its tests are in `part_cases`.
//!
//! Promises: The next core step, down and up; after an entry, which of them are owed their undo. By the
//! clauses of `Syscore::..`.
//!
//! Begin reading in `src/syscore.rt`.
#![tactic(auto)]

mod syscore;

pub use syscore::Syscore;
