//! What the checker of logs knows of the entries that it has passed. Its tests are in `row_trials`, by the
//! command `check`.
//!
//! Promises: Of a log that fits its machine, whatever a rule asks of the entries that were passed is answered
//! at once, as the definitions read it from these entries. It may ask for the word, the time and the open
//! attempt; for the state of each task, device and source; for who is next in each walk, and which calls each
//! actor owes. One more entry is passed, unless memory is short. By the clauses of `Passed::new`, `pass`, and
//! one call a question; `is_accepted`, `all_fit`, `is_graph`.
//!
//! Begin reading in `src/passed.rt`, `src/walks.rt`, `src/journal.rt`; `specs/Passing.antt`,
//! `specs/JournalStates.antt`.
#![tactic(auto)]

mod attempt;
mod devices;
mod journal;
mod order;
mod passed;
mod past_state;
mod sources;
mod tasks;
mod walks;

pub use passed::Passed;
pub use tasks::UnfrozenTasks;
pub use walks::{is_direct_complete, is_down_in, is_not_up, is_prepared};
