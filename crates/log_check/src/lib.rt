//! The checker of logs: yes exactly if a log is legal and finished, else its first bad line and the least
//! rule that this breaks. Its tests are in `row_trials`, by the command `check`.
//!
//! Promises: The verdict on a log that fits its machine: good exactly if the log is legal and finished; else
//! its first bad line, with the number of the least rule that this breaks: an entry, a source's statistics,
//! or the end. By the law of `log_rules` it is enough that an entry of the journal is due; the rules are
//! asked of one that is not. By the clauses of `check`.
//!
//! Begin reading in `src/judging.rt`, `src/ending.rt`; `specs/Verdicts.antt`.
#![tactic(auto)]

mod ending;
mod judging;

pub use ending::Verdict;
pub use judging::check;
