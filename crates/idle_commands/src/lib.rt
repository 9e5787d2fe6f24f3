//! The command `idle`: a run of suspend-to-idle by several workers, and the text of its log.
//!
//! Its tests are in `row_trials`, with those of the whole program.
//!
//! Promises: What the command `idle` writes is the text of such a log, line by line: how many hard events
//! came before an entry, who made it, and what. Only out of memory comes in its place. By the clauses of
//! `idle_of`: `text`, `memory`; `write_idle`.
//!
//! Begin reading in `src/text.rt`, `src/command.rt`; `specs/Lines.antt`, `specs/Endings.antt`.
#![tactic(auto)]

mod command;
mod text;

pub use command::{idle_of, write_idle};
