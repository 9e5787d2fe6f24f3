//! Rows of device numbers that grow one by one, flags by number, and a stack. The core, the checker and
//! `sleep_stats` keep what they know of devices in them. Its tests are in `part_cases`.
//!
//! Promises: Rows, flags and stacks are what they say. Out of memory changes nothing. By the clauses of
//! `Rows`, `Flags`, `Stack`.
//!
//! Begin reading in `src/rows.rt`.
#![tactic(auto)]

mod flags;
mod rows;
mod stack;

pub use flags::Flags;
pub use rows::Rows;
pub use stack::Stack;
