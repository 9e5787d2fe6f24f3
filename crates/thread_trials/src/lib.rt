//! Tests of what threads share: jobs of a pool, objects under locks, the event word in its table, the merge
//! of what several workers made, suspend-to-idle by four workers. Tests of calls that no line of `part_cases`
//! can make, since the caller has to know what came before: those on a wakeup source, on named locks and on
//! the job of an actor. They have a crate of their own, so that the crates that they try are proved once. No
//! program uses this crate.
//! Begin reading in `src/`.
#![tactic(auto)]

#[cfg(test)]
mod idle_tests;
#[cfg(test)]
mod list_tests;
#[cfg(test)]
mod lock_tests;
#[cfg(test)]
mod lock_thread_tests;
#[cfg(test)]
mod merge_thread_tests;
#[cfg(test)]
mod named_lock_tests;
#[cfg(test)]
mod pool_tests;
#[cfg(test)]
mod script_tests;
#[cfg(test)]
mod source_tests;
#[cfg(test)]
mod threads;
#[cfg(test)]
mod word_close_tests;
#[cfg(test)]
mod word_overlap_tests;
#[cfg(test)]
mod word_table_tests;
#[cfg(test)]
mod word_tests;
#[cfg(test)]
mod word_thread_tests;
