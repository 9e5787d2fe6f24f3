//! What the checker of logs knows of wakeup sources: what each one's history leaves, and which calls on
//! sources each actor owes and has made. The calls come from the machine's scripts and from what its
//! callbacks answer; each answer is found at once, by an index of the checker's own. Its tests are in
//! `row_trials`, by the command `check`.
//!
//! Promises: After each entry of a log the account of each source is what the definitions read from its own
//! entries: the steps that its call owes, who made it, its expiry, its statistics. How many calls each actor
//! has made and which it owes is what the definitions read, after each entry of a log that fits its machine.
//! The operations and the answers are those of the machine; each answer is found by an index. Whose entry each
//! kind is stands in one table, which the other crates of the checker ask. By the clauses
//! of `SourceAccounts::new`, `pass`, `source`; `sources_agree`, `flags_are_steps`; `Callers::new`, `note`,
//! `pass`, `made`, `due`, `next`; `callers_agree`; `AnswerIndex::error`, `number`, `reports`.
//!
//! Begin reading in `src/source.rt`, `src/callers.rt`, `src/plans.rt`, `src/answers.rt`;
//! `specs/SourceStates.antt`, `specs/Calling.antt`, `specs/AnswerKeys.antt`.
#![tactic(auto)]

mod actor_row;
mod answers;
mod callers;
mod calls;
mod class;
mod law;
mod owed;
mod plans;
mod source;
mod sources;

pub use actor_row::actor_index;
pub use answers::AnswerIndex;
pub use callers::Callers;
pub use class::{EntryClass, class_of};
pub use law::{callers_agree, flags_are_steps, sources_agree};
pub use owed::Owed;
pub use plans::Plans;
pub use source::{Source, source_in};
pub use sources::SourceAccounts;
