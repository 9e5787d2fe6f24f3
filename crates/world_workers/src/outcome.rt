//! What came of a try of an actor or a timer.

use sleep_model::Why;

/// What came of a try of an actor or a timer, in a round or in a burst.
#[derive(Clone, Copy)]
pub enum TurnOutcome {
    /// It made entries.
    Made,
    /// It waits, and for that if the core said so.
    Waits(Option<Why>),
    /// It has nothing to do any more.
    Exited,
}
