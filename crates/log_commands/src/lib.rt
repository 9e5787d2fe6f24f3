//! Commands that read a machine with a log of it: `check` judges the log, `stats` says what it counts.
//!
//! Its tests are rows of `row_trials`.
//!
//! Promises: The verdict on a text that is to be a log of a machine. For a machine with its log the text of
//! the counts, of a longest chain and of all levels; or the first cause that refuses them, the machine's
//! before the log's, and that before the first link that is refused. An input of a machine and a log that
//! fits it, no link of which is refused, is never refused. By the clauses of `read_log_input`: `read`,
//! `refused`; `stats_of`: `outcome`, `refused`; `judge`: `judged`, `refused`; `proofs/Fitting.antt`.
//!
//! Begin reading in `src/texts.rt`, `src/input.rt`, `src/verdict.rt`, `src/links.rt`, `src/stats.rt`;
//! `specs/Endings.antt`, `specs/Input.antt`, `specs/Judging.antt`, `specs/Stats.antt`.
#![tactic(auto)]

mod commands;
mod input;
mod links;
mod stats;
mod texts;
mod verdict;

pub use commands::{write_check, write_stats};
pub use input::{LogInput, read_log_input};
pub use stats::stats_of;
pub use verdict::{Judged, judge};
