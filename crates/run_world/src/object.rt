//! What a lock of the world guards.

ghost use Rattle.std.specs.Prelude.{◌≡◌, ◌+◌, List, map, None, Some};
ghost use Rattle.sleep_model.specs.declared.entry.JournalEntry.{JournalEntry};
ghost use Rattle.sleep_model.specs.declared.entry.SourceEntry.{SourceEntry};
ghost use Rattle.sleep_model.specs.declared.machine.Machine.{Machine};
ghost use Rattle.sleep_model.specs.Merge.{of_source};
ghost use Rattle.sleep_core.specs.Cores.{IsActor};
ghost use Rattle.run_laws.specs.Passes.{items};
ghost use Rattle.turn_lock.specs.Passes.{HasGrown, gained};
ghost use Rattle.run_world.specs.Objects.{notes_of, root_of};
ghost use Rattle.run_world.specs.Outcomes.{AfterCoreTurn, AfterReport};

use crate::boxed::BoxedCore;
use crate::note::WorldNote;
use crate::timed::TimedSource;
use event_word::EventTable;
use sleep_core::{CoreFault, CoreTurn};
use sleep_model::{Actor, SourceCall, Stamp};
use std::sync::Wait;
use turn_lock::Booked;
use wakeup_source::{CallBy, SourceFault};

/// What one lock of the world guards: the machine (`kernel/power/suspend.c`), or a wakeup source
/// (`drivers/base/power/wakeup.c`), each with its seat at the event word.
#[derive(Drop)]
pub enum WorldObject<'m> {
    /// The machine. It is object 0.
    Machine(BoxedCore<'m>),
    /// A wakeup source. Source s is object 1 + s.
    Source(TimedSource),
}

impl<'m> Booked for WorldObject<'m> {
    ghost use Rattle.run_world.specs.Roots.{WorldRoot};
    ghost use Rattle.run_world.specs.Objects.{root_of, notes_of};

    type Item = WorldNote;

    ghost Root = { WorldRoot };

    ghost root = { root_of };

    ghost entries = { notes_of };
}

impl<'m> WorldObject<'m> {
    /// A whole call on the source that it is.
    pub(crate) fn report<R: Wait>(
        &mut self,
        rt: &R,
        table: &EventTable,
        by: CallBy,
        call: SourceCall,
    ) -> Result<Option<Stamp>, SourceFault>
        requires source { (root_of self.old).machine ≡ None }
        requires table { (root_of self.old).table ≡ table.now.cells.shared.table_id }
        requires now { by.now ≡ (root_of self.old).moment }
        ensures root { root_of self.new ≡ root_of self.old }
        ensures grown { HasGrown root_of notes_of (notes_of self.old) self.new }
        ensures after { (past : List SourceEntry) × (notes_of self.old ≡ items (map of_source past))
            × AfterReport by call (root_of self.old).number past result
            (gained root_of notes_of (1 + (root_of self.old).number) (notes_of self.old) self.new) }
    {
        match self {
            WorldObject::Source(source) => source.report(rt, table, by, call),
            WorldObject::Machine(_) => unreachable!(),
        }
    }

    /// A turn of the machine that it is, at the time `now` by an actor that has made `calls` calls on
    /// sources. `Stale` if those are not all that are due, or that is not the time.
    pub(crate) fn turn<R: Wait>(
        &mut self,
        rt: &R,
        table: &EventTable,
        who: Actor,
        calls: u32,
        floor: Stamp,
        now: u64,
    ) -> Result<CoreTurn, CoreFault>
        requires machine { (m : Machine) × ((root_of self.old).machine ≡ Some m) × IsActor m who }
        requires table { (root_of self.old).table ≡ table.now.cells.shared.table_id }
        ensures root { root_of self.new ≡ root_of self.old }
        ensures grown { HasGrown root_of notes_of (notes_of self.old) self.new }
        ensures after { (m : Machine) → (root_of self.old).machine ≡ Some m
            → (past : List JournalEntry) × (notes_of self.old ≡ items past)
            × AfterCoreTurn m who calls floor now past result (gained root_of notes_of 0 (notes_of self.old) self.new) }
    {
        match self {
            WorldObject::Machine(machine) => machine.turn(rt, table, who, calls, floor, now),
            WorldObject::Source(_) => unreachable!(),
        }
    }
}
