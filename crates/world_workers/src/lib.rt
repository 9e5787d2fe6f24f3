//! The workers of a burst: each makes turns of a task of its own in the world that all share, with a pass of
//! its own (own: Linux has its scheduler). What a worker did in a burst is a chain of acts of its task, and
//! its pass made just what they added. Its tests are rows of `row_trials`.
//!
//! Promises: A worker's turn is one act of its task: nothing, the turn of the machine that a job wants, the
//! call on a source that it wants, or the expiry of a timer. The task notes what was made, and the pass made
//! just that. So since whatever moment, its acts bring its task on one after another, and its pass made what
//! they added. A whole burst is one call: the machine and its sources go under locks and come back with what
//! the passes made, each pass just what its task's acts added. They may go into another burst then: the
//! machine is the same, each source has its seat and its number, and the tasks are of the same actors. All
//! this holds for every gate, and for every number of workers from 1 on. By the clauses of `act`; the turns
//! of `Worker`: `made`; `make_burst`: `burst`, `ready`, `kept`, `actors`.
//!
//! Begin reading in `src/acts.rt`, `src/turns.rt`, `src/burst.rt`, `src/pause.rt`; `specs/Tries.antt`,
//! `specs/Workers.antt`, `specs/Bursts.antt`.
#![tactic(auto)]

mod acts;
mod burst;
mod contents;
mod fault;
mod outcome;
mod pause;
mod pool;
mod turns;
mod worker;

pub use acts::{Tried, act};
pub use burst::make_burst;
pub use contents::{Burst, BurstContents, BurstPlan};
pub use fault::RunFault;
pub use outcome::TurnOutcome;
pub use worker::Worker;
