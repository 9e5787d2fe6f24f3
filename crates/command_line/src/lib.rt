//! The words of the command line, and what they ask for.
//!
//! Its tests are those of the whole program, `row_trials`.
//!
//! Promises: The words ask for exactly that command, with 1 to 64 workers and 4 if the words name none, or
//! they are of no form. Each number is in its range. By the clauses of `command_of`: `asks`, `range`.
//!
//! Begin reading in `src/words.rt`, `specs/Words.antt`.
#![tactic(auto)]

mod command;
mod idle;
mod number;
mod words;

pub use command::Command;
pub use words::command_of;
