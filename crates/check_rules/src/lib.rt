//! The rules of a log as code: whether an entry keeps each of them after the entries that were passed, and
//! the number of the least that it breaks. Its tests are in `row_trials`, by the command `check`.
//!
//! Promises: `check_rules` finds that an entry keeps a rule exactly if the definition says so, each rule by
//! itself. The least rule that an entry breaks is named by its number, and none exactly if the entry keeps
//! all. Whether an entry is the next, the journal's and due at its index, is answered exactly. That no
//! attempt is open and nobody can make anything is found exactly if it is so. By the clauses of
//! `first_broken`, `is_next_entry`, `is_idle_outside`.
//!
//! Begin reading in `src/next.rt`, `src/judge.rt`, `src/entries.rt`, `src/jump.rt`, `src/source.rt`;
//! `specs/Next.antt`, `specs/Judging.antt`.
#![tactic(auto)]

mod answers;
mod calls;
mod enabled;
mod entries;
mod freezer;
mod judge;
mod jump;
mod kinds;
mod next;
mod numbers;
mod owed;
mod path;
mod reads;
mod restored;
mod same;
mod skip;
mod source;
mod steps;
mod walk;

pub use answers::{keeps_answers, keeps_links, keeps_runtime};
pub use entries::{enabled_entry, freezer_entry, path_entry, steps_entry, walk_entry};
pub use judge::first_broken;
pub use jump::is_idle_outside;
pub use next::is_next_entry;
pub use numbers::{keeps_attempts, keeps_numbers};
pub use owed::keeps_owed;
pub use reads::keeps_reads;
pub use restored::keeps_restored;
pub use skip::keeps_skip;
pub use source::source_entry;
