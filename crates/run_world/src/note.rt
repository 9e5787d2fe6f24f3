//! What the list of an object has.

use sleep_model::JournalEntry;
use std::collections::LinkedList;
use std::marker::Model;

/// An entry of an object, with the entries there before it. No value of it is made: it says what a pass knows
/// of its entries.
#[derive(Drop)]
pub struct WorldNote {
    entry: JournalEntry,
    past: LinkedList<JournalEntry>,
}

impl Model for WorldNote {
    ghost use Rattle.run_laws.specs.Passes.{Noted};

    ghost Value = { Noted };

    ghost use Rattle.run_world.specs.NoteFields.{noted};

    ghost view = { noted };
}
