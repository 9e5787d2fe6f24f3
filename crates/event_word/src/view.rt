//! What a seat at the table of the event word knows.
use sleep_model::{EventNow, WordKind};
use std::collections::LinkedList;

/// A step that was made on the word, and the word before it.
pub struct MadeStep {
    pub step: WordKind,
    pub before: EventNow,
}

/// What a seat knows. No value of it is made.
pub struct WordView {
    /// Whether it is the seat that only looks, and that is needed to close the table.
    pub keeps: bool,
    /// How many sources there are, if it is that seat.
    pub next: u64,
    /// What the sources made whose seats came back, in order, if it is that seat.
    pub known: LinkedList<LinkedList<MadeStep>>,
    /// What they looked at, in order, if it is that seat.
    pub heard: LinkedList<LinkedList<EventNow>>,
    /// The source's number, if it is a source's.
    pub number: Option<u64>,
    /// The steps that it made, the newest first.
    pub made: LinkedList<MadeStep>,
    /// The words that it looked at, the newest first.
    pub looked: LinkedList<EventNow>,
    /// The least position that the word can have.
    pub floor: u64,
}
