//! How many entries may still come: of an open attempt in its journal, and in the history of a wakeup source.
//! And a legal log fits its machine if its run is over. Each function here is a law of all legal journals or
//! lists of entries, and does nothing. `law_trials` tries the definitions on worked logs.
//!
//! Promises: An attempt's own entries fit the room that the attempt reserved. A source's history never has
//! more entries than the machine's calls have places on it, in every legal list of entries of every machine.
//! By the clauses of `attempt_needs_few`, `own_entry_spends`, `device_entry_spends`, `others_need_nothing`;
//! `histories_keep_to_their_places`. What is due names only things of the machine. If nobody goes on, each
//! script that has not exited waits for events to end or for a mark, so a stuck log names somebody; and a
//! legal log that is over fits its machine. By the clauses of `kinds_are_ranged` and the laws with it; the
//! rest are lemmas.
//!
//! Begin reading in `specs/AttemptRoom.antt`, `specs/SourceRoom.antt`, `proofs/Naming.antt`,
//! `proofs/Fitted.antt`.
#![tactic(auto)]

mod attempts;
mod ranges;
mod sources;

pub use attempts::{
    attempt_needs_few, device_entry_spends, none_needed_outside, others_need_nothing,
    own_entry_spends,
};
pub use ranges::{calls_are_ranged, kinds_are_ranged, moments_are_ranged, stats_are_ranged};
pub use sources::histories_keep_to_their_places;
