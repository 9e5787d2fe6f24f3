//! What is due of an actor after the entries that were passed, as the checker of logs finds it. Its tests are
//! in `row_trials`, by the command `check`.
//!
//! Promises: What is due of an actor after the passed entries is what the definitions say, for whatever actor
//! and word; and so is each of their parts that a rule asks for. By the clauses of `due`; `row_now`,
//! `turn_of`, `froze_due`, `wakes_due`, `read_due`, `count_due`, `state_due`, `runtime_due`, `link_add_due`,
//! and the others.
//!
//! Begin reading in `src/next.rt`, `src/attempt.rt`, `src/walks.rt`, `src/steps.rt`.
#![tactic(auto)]

mod answers;
mod attempt;
mod next;
mod steps;
mod tasks;
mod texts;
mod turns;
mod waits;
mod walks;
mod work;

pub use answers::{answered, busy_error, row_now};
pub use next::due;
pub use steps::{
    autosleep_due, count_due, later_by, mark_due, read_due, saved_number, sleep_d_due, sleep_due,
    state_due, unless_unsaved,
};
pub use tasks::{
    freezes_at, is_line, is_user, link_add_due, link_state_due, next_attempt, runtime_due,
};
pub use texts::{is_mem, is_off};
pub use turns::{async_work, device_error, taken, turn_of};
pub use waits::{auto_save, froze_due, gives_up_at, seen_count, wakes_due};
