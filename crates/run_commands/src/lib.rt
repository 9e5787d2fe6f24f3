//! The commands that run a machine. `run` reads it from a file. `gen` writes the file of one that is made of
//! a seed, and `soak` runs such a machine and writes the numbers of its log.
//!
//! Its tests are those of the whole program, `row_trials`.
//!
//! Promises: A machine file that is read gives the text of the log of its run, written whole or up to the
//! first write that fails; else its ending says why. The file of a generated machine, and the line of the
//! numbers of the log of its run, likewise. By the clauses of `run_file`, `write_generated`,
//! `soak_generated`.
//!
//! Begin reading in `src/run.rt`, `src/generated.rt`, `src/counts.rt`; `specs/Endings.antt`,
//! `specs/Counting.antt`.
#![tactic(auto)]

mod counts;
mod generated;
mod run;

pub use generated::{soak_generated, write_generated};
pub use run::run_file;
