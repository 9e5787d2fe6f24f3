//! The locks of the world, and the calls that workers make under them.

ghost use Rattle.std.specs.Prelude.{◌≡◌, ◌≤◌, ◌+◌, ◌++◌, List, length};
ghost use Rattle.sleep_model.specs.declared.entry.JournalEntry.{JournalEntry};
ghost use Rattle.sleep_model.specs.declared.entry.SourceEntry.{SourceEntry};
ghost use Rattle.sleep_model.specs.declared.machine.Machine.{Machine};
ghost use Rattle.sleep_core.specs.Cores.{IsActor};
ghost use Rattle.run_laws.specs.Passes.{Noted};
ghost use Rattle.turn_lock.specs.declared.view.Made.{Made};
ghost use Rattle.turn_lock.specs.Passes.{first_of, made_of, number_of};
ghost use Rattle.run_world.specs.Objects.{IsWorldPass};
ghost use Rattle.run_world.specs.Outcomes.{AfterCoreTurn, AfterReport, FindsMachine, FindsSource};

use crate::gate::Gate;
use crate::note::WorldNote;
use crate::object::WorldObject;
use event_word::EventTable;
use sleep_core::{CoreFault, CoreTurn};
use sleep_model::{Actor, Machine, SourceCall, Stamp};
use std::sync::Wait;
use turn_lock::{Pass, SharedLocks, give, take};
use wakeup_source::{CallBy, SourceFault};

/// The locks of the world, an object each.
pub type SharedWorld<'m> = SharedLocks<WorldObject<'m>, WorldNote>;

/// The right to take one object of the world at a time. It knows what it made.
pub type WorldPass<'m> = Pass<WorldObject<'m>>;

/// What all workers of a burst share. Nobody holds it: each call takes one lock and gives it back.
#[derive(Drop)]
pub struct World<'w, 'm, R, G> {
    pub rt: &'w R,
    /// Who hears of the turns.
    pub gate: &'w G,
    /// The machine that is run.
    pub machine: &'m Machine,
    /// The event word.
    pub table: &'w EventTable,
    /// The locks: object 0 is the machine, object 1 + s the source s.
    pub cells: &'w SharedWorld<'m>,
    /// The time in ms, which does not pass in a burst.
    pub moment: u64,
}

/// What came of taking a lock of the world, with the pass.
#[derive(Drop)]
pub struct Reply<'m, A> {
    pub pass: WorldPass<'m>,
    pub answer: A,
}

impl<'w, 'm, R: Wait, G: Gate> World<'w, 'm, R, G> {
    /// A whole call on a source, under only its lock (`__pm_stay_awake`, `__pm_relax`, `pm_wakeup_ws_event`,
    /// `pm_wakeup_timer_fn`). Answers as `SeatedSource::call`, and None exactly for an expiry whose moment
    /// has not come. What the pass then made is what it had made, and the call's entries, which are at the
    /// end of the source's history. Any other answer than a stamp adds nothing.
    pub fn report(
        &self,
        pass: WorldPass<'m>,
        source: u32,
        call: SourceCall,
        by: CallBy,
    ) -> Reply<'m, Result<Option<Stamp>, SourceFault>>
        requires pass { IsWorldPass self.now.machine.now self.now.table.now.cells.shared.table_id
            self.now.cells.now.shared.table_id self.now.moment pass.token }
        requires there { source ≤ length self.now.machine.now.sources }
        requires now { by.now ≡ self.now.moment }
        ensures pass { IsWorldPass self.now.machine.now self.now.table.now.cells.shared.table_id
            self.now.cells.now.shared.table_id self.now.moment result.pass.token }
        ensures same { (number_of result.pass.token ≡ number_of pass.entry.token) × (first_of result.pass.token ≡ first_of pass.entry.token) }
        ensures made { (gains : List (Made Noted)) × (made_of result.pass.token ≡ made_of pass.entry.token ++ gains)
            × (past : List SourceEntry) × FindsSource pass.entry.token source past
            × AfterReport by call source past result.answer gains }
    {
        let mut held = take(self.cells, self.rt, pass, 1 + source as usize);
        let answer = held.value().report(self.rt, self.table, by, call);
        Reply {
            pass: give(self.cells, held),
            answer,
        }
    }

    /// A turn at the time `now` of an actor that has made `calls` calls on sources, under only the machine's
    /// lock. The gate hears of the actor once it has the lock, before it looks at anything. `NotYet(Stale)`
    /// with the machine's own numbers exactly if those are not all calls that are due, or that is not the
    /// machine's time. Else answers as `SeatedCore::turn`; what the pass then made is what it had made, and
    /// the turn's entry, which is at the end of the journal. Any other answer than `Did` adds nothing.
    pub fn core_turn(
        &self,
        pass: WorldPass<'m>,
        who: Actor,
        calls: u32,
        floor: Stamp,
        now: u64,
    ) -> Reply<'m, Result<CoreTurn, CoreFault>>
        requires pass { IsWorldPass self.now.machine.now self.now.table.now.cells.shared.table_id
            self.now.cells.now.shared.table_id self.now.moment pass.token }
        requires actor { IsActor self.now.machine.now who }
        ensures pass { IsWorldPass self.now.machine.now self.now.table.now.cells.shared.table_id
            self.now.cells.now.shared.table_id self.now.moment result.pass.token }
        ensures same { (number_of result.pass.token ≡ number_of pass.entry.token) × (first_of result.pass.token ≡ first_of pass.entry.token) }
        ensures made { (gains : List (Made Noted)) × (made_of result.pass.token ≡ made_of pass.entry.token ++ gains)
            × (past : List JournalEntry) × FindsMachine pass.entry.token past
            × AfterCoreTurn self.now.machine.now who calls floor now past result.answer gains }
    {
        let mut held = take(self.cells, self.rt, pass, 0);
        self.gate.held(who);
        let answer = held
            .value()
            .turn(self.rt, self.table, who, calls, floor, now);
        Reply {
            pass: give(self.cells, held),
            answer,
        }
    }
}
