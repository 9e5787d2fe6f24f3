//! The history of a machine: its journal, and what the definitions read from it, which each entry brings up to
//! date. The core decides what is due, and only its history writes. Its tests are rows of `row_trials`.
//!
//! Promises: Each component of the history is what the definitions read from the entries: the guard, the open
//! attempt, the devices, the tasks, the freezer, the autosleep work, the notifiers and the syscore operations.
//! An entry is appended just as it was made, with the word that its maker saw. A wakeup is pending exactly if
//! the definitions say so, and an attempt ends with its own error. The open attempt's maker and a device have
//! room for each entry. By the clauses of `History::append`, `append_device`, `append_jump`, `is_pending`,
//! `over`, `make_room`; of `guard`, `attempt`, `devices`, `board`, `tasks`, `freezer`, `autosleep`,
//! `platform`, `syscore`.
//!
//! Begin reading in `src/history.rt`, `src/components.rt`; `specs/Histories.antt`.
#![tactic(auto)]

mod components;
mod history;

pub use history::History;
