//! What an attempt asks of notifiers, of the platform and of the other processors (`kernel/power/suspend.c`,
//! `kernel/power/main.c`, `kernel/cpu.c`). Its tests are in `part_cases`.
//!
//! Promises: The next notifier and processor, down and up; after an entry, which of them are owed their undo.
//! By the clauses of `Platform::..`.
//!
//! Begin reading in `src/platform.rt`.
#![tactic(auto)]

mod order;
mod platform;

pub use platform::Platform;
