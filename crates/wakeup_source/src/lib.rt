//! Wakeup sources: their calls, what is counted of them, and their histories (`drivers/base/power/wakeup.c`).
//! Their tests are in `thread_trials` and `part_cases`.
//!
//! Promises: A call adds exactly its note and the steps that it makes, each with the word before it. Ticks
//! rise, no position falls, the history is legal. `Full` comes exactly if fewer than four places are left,
//! and changes nothing. An expiry comes exactly if its moment has come. Statistics and expiry are the
//! history's. By the clauses of `WakeSource::call`, `stay_awake`, `relax`, `event`, `expire`, `due`, `stats`,
//! `history`, `raise`; `stats_line`.
//!
//! Begin reading in `src/source.rt`, `specs/Called.antt`, `specs/Shown.antt`.
#![tactic(auto)]

mod call_by;
mod fault;
mod kinds;
mod line;
mod reserved_places;
mod source;
mod source_history;
mod steps;
mod tally;

pub use call_by::CallBy;
pub use fault::SourceFault;
pub use line::stats_line;
pub use sleep_model::MOST_ENTRIES;
pub use source::WakeSource;
