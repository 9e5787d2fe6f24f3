//! What goes into a burst, and comes out of it.

use crate::fault::RunFault;
use event_word::EventTable;
use run_objects::{SeatedCore, SeatedSource};
use run_world::Task;
use sleep_model::Machine;

/// What is the same in each burst of a run.
#[derive(Drop)]
pub struct BurstPlan<'w, 'm, G> {
    /// Who sees the turns.
    pub gate: &'w G,
    /// The event word.
    pub table: &'w EventTable,
    /// The machine that is run.
    pub machine: &'m Machine,
    /// How many workers there are.
    pub workers: u8,
}

/// What goes into a burst, and comes out of it.
#[derive(Drop)]
pub struct BurstContents<'m> {
    pub core: SeatedCore<'m>,
    /// The wakeup sources in the order of their numbers, `autosleep` last.
    pub sources: Vec<SeatedSource>,
    pub tasks: Vec<Task<'m>>,
}

/// What a burst came to.
#[derive(Drop)]
pub struct Burst<'m> {
    pub contents: BurstContents<'m>,
    /// How many turns did something.
    pub did: u64,
    /// How many calls on sources were made, but for those of the task that made most. No clause speaks of it.
    pub other_calls: u64,
    /// Why a task stopped, if one did: out of memory before a full source, and the least of those. No clause
    /// speaks of it.
    pub stop: Option<RunFault>,
}
