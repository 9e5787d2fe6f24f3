//! Runs a machine by workers, to its end: the one call over the rounds and bursts of `machine_rounds`. It has
//! a crate of its own, so that a wrong body of it is tried without proving those anew. Its tests are in
//! `row_trials`.
//!
//! Promises: The same of the whole run of a machine, by any number of workers. By the clauses of
//! `run_machine`.
//!
//! Begin reading in `src/run.rt`.
#![tactic(auto)]

mod run;

pub use machine_rounds::RunFault;
pub use run::{RunEnd, run_machine};
pub use run_world::{Gate, OpenGate};
