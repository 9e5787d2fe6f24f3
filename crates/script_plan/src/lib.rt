//! What a script's operations are: its steps, as often as the file says, and the texts that it writes. They
//! are counted once, so that each turn finds its own at once. The core and the checker both use it, since
//! this is a fact of the machine and no rule of sleep. Its tests are in `part_cases`, and `row_trials` runs
//! it.
//!
//! Promises: The operation of each turn, how many calls are made before it, and which right before it; which
//! text is `mem`, which is `off`. By the clauses of `Plan::operation`, `calls_before`, `calls_at`; `is_mem`,
//! `is_off`, `is_autosleep_text`.
//!
//! Begin reading in `src/plan.rt`, `src/calls.rt`, `src/texts.rt`.
#![tactic(auto)]

mod calls;
mod expand;
mod plan;
mod texts;
mod turns;

pub use plan::{Plan, plans_of};
pub use texts::{is_autosleep_text, is_mem, is_off};
pub use turns::ends_turn;
