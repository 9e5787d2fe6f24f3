//! The laws of the one log that a journal and the sources' histories merge to, from what each of them says by
//! itself; and of a run by workers, in which each of them knows that (own: Linux keeps no such log).
//! `law_trials` tries them on worked logs.
//!
//! Promises: If each list, each step of the word, each look and each jump is right by itself, the merge is a
//! legal log. It is finished or stuck if they say so. What is known of all that was made (each actor's steps, each source, each jump, stamps, times)
//! is known again after each entry that may be made. So it is after a turn of the machine, a whole call on a
//! source and a jump of time. What each source and the machine have besides their seats gives the closed
//! table of the word: steps without a gap, looks between them. A look that no source's floor exceeds saw the
//! last word. With that table, what is known at the end makes the merge a legal log, finished or stuck if the
//! run is. A job follows each entry, and says what its actor makes next. If each pass of the locks made
//! entries of one actor, the journal has of each actor what its pass made. By the clauses of
//! `lists_merge_to_a_legal_log`, `invariant_grows`, `turns_keep_all_known`, `calls_keep_all_known`, `jumps_keep_all_known`,
//! `seats_cover_the_table`, `invariant_ends`, `log_says_who` and the other laws.
//!
//! Begin reading in `src/merging.rt`, `specs/Fitting.antt`, `src/laws.rt`, `specs/Invariant.antt`, `specs/Acts.antt`, `specs/ClosedOver.antt`.
#![tactic(auto)]

mod laws;
mod merging;

pub use laws::{
    acts_are_steps, calls_keep_all_known, calls_keep_their_seat, closed_table_covers_the_word,
    invariant_begins, invariant_ends, invariant_grows, invariant_merges,
    jobs_follow_all_that_was_made, jobs_want_what_is_next, jumps_keep_all_known,
    last_look_saw_the_last_word, log_says_who, seats_cover_the_table, settled_sources_free_all,
    turns_keep_all_known, turns_keep_the_watch,
};
pub use merging::{
    lists_fit_together, lists_merge_to_a_legal_log, merges_to_a_finished_log,
    merges_to_a_legal_log, merges_to_a_stuck_log, own_lists_are_own_entries,
};
