//! The freezer of tasks: whom a freeze asks, who froze, for whom it still waits, and what becomes of it at a
//! moment (`kernel/power/process.c`, `kernel/freezer.c`). Its tests are in `part_cases`.
//!
//! Promises: After an entry each script is asked or frozen as the definitions say. How many tasks a freeze
//! waits for and which is the first; whether the freeze ends, gives up or looks again at a moment. By the
//! clauses of `Freezer::note`, `freezing`, `left_count`, `left`, `round`.
//!
//! Begin reading in `src/freezer.rt`, `src/left.rt`.
#![tactic(auto)]

mod asking;
mod freezer;
mod left;

pub use freezer::{Freezer, Round, gives_up_at};
pub use left::Left;
