//! What each actor does next, call by call and turn by turn. Its steps and its callbacks make calls on
//! sources, with turns of the core between them. Its tests are in `part_cases`.
//!
//! Promises: The first call on a source that an actor still has to make before its next entry of the journal,
//! else a turn, else nothing. After each entry and call a job stays that of its actor, for every journal
//! (`IsJobOf`). The machine of a seed is the one of the definitions; a file may spell it, and its calls need
//! at most 16 places on each source. By the clauses of `ActorJob::next`, `told_core`, `told_source`;
//! `TimerJob`; `generate`: `machine`, `accepted`, `roomy`.
//!
//! Begin reading in `specs/Jobs.antt`, `src/job.rt`; `specs/Generated.antt`, `src/generator.rt`.
#![tactic(auto)]

mod draws;
mod generator;
mod job;
mod timer;

pub use generator::generate;
pub use job::ActorJob;
pub use timer::TimerJob;
