//! What the walks of the three phases on the way up do next (`drivers/base/power/main.c`, `dpm_resume`), and
//! a device that they scheduled. Its tests are in `part_cases`.
//!
//! Promises: What each walk up, and each scheduled device, does next, exactly. By the clauses of `walk_due`,
//! `device_due`.
//!
//! Begin reading in `src/up.rt`.
#![tactic(auto)]

mod law;
mod up;

pub use law::up_follows;
pub use up::{device_due, walk_due};
