//! What the walks of the three phases on the way down do next (`drivers/base/power/main.c`, `dpm_suspend`),
//! and the devices that they scheduled. What the core answers to a request for a runtime status meanwhile.
//! Its tests are in `part_cases`.
//!
//! Promises: What each walk down, and each scheduled device, does next, exactly. A request for a runtime
//! status inside an attempt is answered EACCES, EAGAIN or 0, exactly. By the clauses of `Down::walk_due`,
//! `device_due`; `runtime_due`.
//!
//! Begin reading in `src/down.rt`.
#![tactic(auto)]

mod down;
mod law;
mod runtime;

pub use down::{Down, DownEnv};
pub use law::down_follows;
pub use runtime::runtime_due;
