//! A machine with what its core and the jobs of its actors look up, made once for all of them. These are the
//! answers of its callbacks, found at once by thing and attempt, and the plan of each of its scripts. Its
//! tests are in `part_cases`.
//!
//! Promises: A thing's own answer for the attempt, else the one for any attempt, else 0; the first of equal
//! ones; its reports in that attempt. The answers and the plan of each script are the machine's. By the
//! clauses of `PlannedAnswers::answer`, `error`, `number`, `reports`; `MachinePlans::new`, `answers`,
//! `script`.
//!
//! Begin reading in `src/plans.rt`, `src/planned_answers.rt`.
#![tactic(auto)]

mod indices;
mod key;
mod planned_answers;
mod plans;

pub use planned_answers::PlannedAnswers;
pub use plans::MachinePlans;
