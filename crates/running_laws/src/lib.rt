//! The invariant of a run: every turn, call and jump preserves it, and so does every burst, since a burst is
//! serial. At a run's end it yields one legal log (own: Linux keeps no such log). It has no tests:
//! `row_trials` runs whole machines and first bursts.
//!
//! Promises: The run's invariant: each turn of an actor, each whole call on a source, each expiry and each
//! jump of time preserves it. A run has made at most as many entries as a log has. With the closed table of
//! the event word it is the one log: legal, finished or stuck as the run is, its fields in their ranges. No
//! source has more entries than the machine's calls have room for. By the lemmas `running_turn`,
//! `running_call`, `running_expire`, `running_jump`, `running_ends`, `running_keeps`, `run_few` (and no
//! function's clause).
//!
//! The acts of a burst have an order in which each finds the machine's journal and the histories as those
//! before it left them, and which ends with the tasks, the journal and the histories that came back. The
//! run's invariant holds through acts in such an order; so a run goes on after each burst at its time. By the
//! clauses of `bursts_are_serial`, `courses_go_on`, `bursts_go_on`.
//!
//! Begin reading in `specs/Running.antt`; `proofs/Turns.antt`, `proofs/Calls.antt`, `proofs/Ends.antt`,
//! `proofs/Few.antt`; of bursts in `specs/Courses.antt`, `specs/Serial.antt`, `specs/Preservation.antt`;
//! `proofs/SerialOrder.antt`, `proofs/GoingOn.antt`.
#![tactic(auto)]

mod laws;

pub use laws::{bursts_are_serial, bursts_go_on, bursts_grow, courses_go_on};
