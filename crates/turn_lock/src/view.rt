//! What a seat at the table knows.
use std::collections::LinkedList;

/// An entry that a pass made, with its object and its index in that object's list.
#[derive(Drop)]
pub struct Made<I> {
    pub object: u64,
    pub place: u64,
    pub entry: I,
}

/// What a seat knows. No value of it is made.
pub struct PassView<V, I> {
    /// The values that the table was made of.
    pub first: LinkedList<V>,
    /// Whether it is the table's own seat.
    pub keeps: bool,
    /// How many passes there are, for the table's own seat.
    pub next: u64,
    /// What the passes made that came back, in order, for the table's own seat.
    pub known: LinkedList<LinkedList<Made<I>>>,
    /// The pass's number, for the seat of a pass.
    pub number: Option<u64>,
    /// The object that is out with it.
    pub out: Option<u64>,
    /// That object's list as it was taken.
    pub had: LinkedList<I>,
    /// What it made.
    pub made: LinkedList<Made<I>>,
}
