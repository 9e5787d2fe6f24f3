//! Jobs that workers take for a while: each job has one worker, in contiguous parts. Its tests are in
//! `thread_trials`.
//!
//! Promises: `burst` gives each worker a slice of the jobs. A worker goes round its jobs until one answers
//! `Stop`, a round does nothing, or 1,000 rounds are over. What a job became is in its turns' relation to
//! what the job was. It makes no round after one of these. The answer counts the turns that did something. No
//! clause says that threads run at the same time. By the clauses of `Job::turn`; `burst`: `went`, `ended`,
//! `rounds`, `firsts`, `goes`.
//!
//! Begin reading in `src/turns.rt`, `src/lend.rt`.
#![tactic(auto)]

mod lend;
mod rounds;
mod turns;

pub use lend::burst;
pub use turns::{Job, Turn};
