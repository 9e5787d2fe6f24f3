//! Laws tried by worked logs, computed in the prover: what no program can show. Seven logs and one of two
//! workers meet the premises of the laws of the merge and of a run; entries, lists and tables with one thing
//! broken do not. Broken logs break the laws of sleep that they should, and short lists the laws of how logs
//! end. The checker tries all worked logs and their broken copies, in `row_trials`. No program uses this
//! crate.
//!
//! Begin reading in `src/merging.rt`, `src/running.rt`, `src/refuted.rt`, `src/rules.rt`.
#![tactic(auto)]

pub mod ending;
pub mod merged;
pub mod merging;
pub mod orders;
pub mod refuted;
pub mod rounds;
pub mod rules;
pub mod running;
pub mod whole;
