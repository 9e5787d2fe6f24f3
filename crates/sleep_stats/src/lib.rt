//! What a log counts of its attempts (`struct suspend_stats`), and the longest chain of devices that wait for
//! one another at its end. Its tests are in `part_cases`; `row_trials` runs the command `stats`.
//!
//! Promises: What a log counts is the counting that is defined, with the last two devices and errors that
//! failed, in one pass and without memory. The longest chain and the certificate are those of the links at
//! the log's end. By the clauses of `count`, `longest`, `certified`.
//!
//! Begin reading in `specs/Counting.antt`, `specs/Linked.antt`; `src/counts.rt`, `src/linked.rt`,
//! `src/chain.rt`.
#![tactic(auto)]

mod chain;
mod counts;
mod linked;

pub use chain::{certified, longest};
pub use counts::{Counts, LastDev, LastDevs, LastErrnos, count};
pub use device_chain::Chain;
pub use linked::{Ends, added_ends};
