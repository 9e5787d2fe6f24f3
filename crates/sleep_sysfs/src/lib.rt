//! What reads of and writes to the files of sleep answer: `wakeup_count`, `state` and `autosleep`
//! (`kernel/power/main.c`). Its tests are in `part_cases`.
//!
//! Promises: What a read of or a write to `wakeup_count`, `state` and `autosleep` answers or waits for,
//! exactly; the state that a text names. By the clauses of `read_count`, `write_count`, `write_state`,
//! `write_autosleep`, `saved_number`, `decode_state`.
//!
//! Begin reading in `src/count.rt`, `src/state.rt`.
#![tactic(auto)]

mod count;
mod state;
mod texts;

pub use count::{read_count, saved_number, write_count};
pub use sleep_model::visible;
pub use state::{write_autosleep, write_state};
pub use texts::decode_state;
