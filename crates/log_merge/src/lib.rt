//! The one log of a machine's journal and of its sources' histories: the journal stays as it is stored, and
//! the sources' entries are put into it (own: Linux keeps no such log). Its tests are in `part_cases`.
//!
//! Promises: The one log of a journal and the sources' histories is the merge that is defined: the journal,
//! as it is stored, with the sources' entries put into it. By the clauses of `merge_journal`, `merge`;
//! `rises`.
//!
//! Begin reading in `src/with_counts.rt`, `src/merged.rt`.
#![tactic(auto)]

mod journal;
mod merged;
mod order;
mod sources;
mod with_counts;

pub use journal::rises;
pub use merged::merge;
pub use sources::{in_order, sorted, with_history};
pub use with_counts::{leads, merge_journal};
