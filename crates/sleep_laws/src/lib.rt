//! The laws of sleep: what holds of every legal log, whoever wrote it. Each function here is a law, and does
//! nothing. `law_trials` tries the definitions on worked logs.
//!
//! Promises: In every legal log no device suspends before its dependents or resumes before its suppliers,
//! each abort restores devices and tasks, and an undisturbed attempt enters. An attempt under a saved count
//! enters only if no event was registered since its task read that count, and none is in progress. By the
//! clauses of `dependents_first`, `suppliers_first`, `restored`, `undisturbed_attempts_enter`,
//! `guarded_sleep`, and of each other function here.
//!
//! Begin reading in `src/laws.rt`, `proofs/Lawful.antt`.
#![tactic(auto)]

mod ends;
mod guarded;
mod laws;
mod links;

pub use ends::{attempts_end_closed, idle_means_closed};
pub use guarded::guarded_sleep;
pub use laws::{
    all_laws, all_laws_of_logs, attempts_answer_their_failure, dependents_first,
    devices_are_taken_once, enters_only_with_all_down, found_tests_are_true, nothing_is_owed_twice,
    restored, steps_once_and_in_order, suppliers_first, undisturbed_attempts_enter,
    undo_only_what_is_owed,
};
pub use links::{links_stay_through_attempts, order_keeps_dependents_after};
