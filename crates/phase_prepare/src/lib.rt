//! What the phases prepare and complete do next (`drivers/base/power/main.c`, `dpm_prepare`, `dpm_complete`).
//! Its tests are in `part_cases`.
//!
//! Promises: What prepare and complete do next, exactly. By the clauses of `prepare_due`, `complete_due`.
//!
//! Begin reading in `src/prepare.rt`.
#![tactic(auto)]

mod law;
mod prepare;

pub use law::prepare_follows;
pub use prepare::{complete_due, prepare_due};
