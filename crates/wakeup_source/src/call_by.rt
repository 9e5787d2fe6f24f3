//! By whom a call is made, and what the caller knows.
use sleep_model::{Actor, Stamp};

/// Who makes a call on a source, what it last knew, and when: a moment in ms, at most 2^63.
#[derive(Clone, Copy)]
pub struct CallBy {
    pub actor: Actor,
    pub floor: Stamp,
    pub now: u64,
}
