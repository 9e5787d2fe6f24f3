//! Who may have something to do in a run, and who waits for what. A round asks only those that may have
//! something to do; whoever waits is woken once something may have ended the wait (own: Linux has its run
//! queues and wait queues). Its tests are in `row_trials`, which runs whole machines.
//!
//! Promises: The script or device that is next to be asked has a number below the bound that the caller
//! gives. As far as it has room, a set of numbers gains or loses just the number that is put in or taken out.
//! It gains just the numbers of another set, and that set is empty after its numbers were taken. Its next
//! number from a number on is the first that is in it. No clause says who is asked: leaving an actor out is
//! legal, and a run finds whoever was left out before time jumps. By the clauses of `Waiters::next_script`,
//! `next_device`; `Asks::insert`, `remove`, `has`, `add`, `take`, `next`.
//!
//! Begin reading in `src/waiters.rt`; `src/asks.rt`, `specs/NumberSets.antt`.
#![tactic(auto)]

mod asks;
mod waiters;

pub use waiters::Waiters;
