//! A run of a machine, as far as it has come: rounds over its actors, bursts of their tries on threads
//! between the rounds, jumps of time, and at the end the log of every step. `wait_queues` says whom a round
//! asks. `sleep_run` makes a whole run of it.
//!
//! Promises: A run that was begun gives, by one worker or by several, a legal log that is finished or stuck,
//! with no attempt left open, and that fits its machine. So `read_log` reads its text as that log, and a
//! stuck one names somebody. Its loop has a bound, by any number of workers, and its log at most 37,585,025
//! entries. A source is full only if the machine's calls may fill it, and a call on a full one is never
//! answered as out of memory. By the clauses of `Run::new`, `to_end`.
//!
//! Begin reading in `src/rounds.rt`, `src/tries.rt`, `src/bursts.rt`, `src/after_idle_round.rt`,
//! `src/going.rt`, `specs/Runs.antt`.
#![tactic(auto)]

mod after_idle_round;
mod bursts;
mod going;
mod jobs;
mod looks;
mod pace;
mod rounds;
mod run;
mod tasks;
mod tries;

pub use run::Run;
pub use world_workers::RunFault;
