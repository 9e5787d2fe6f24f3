//! Autosleep: its lock, its setting, and the work that puts the machine to sleep whenever no event is in
//! progress (`kernel/power/autosleep.c`). Its tests are in `part_cases`.
//!
//! Promises: After an entry the lock, the setting and the work are as the definitions say. What the work
//! makes next and what it waits for, exactly. By the clauses of `Autosleep::note`, `due`, `naps_until`.
//!
//! Begin reading in `src/autosleep.rt`, `src/due.rt`.
#![tactic(auto)]

mod autosleep;
mod due;

pub use autosleep::{Autosleep, is_actor};
