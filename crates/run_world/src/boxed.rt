//! The machine in a burst.

ghost use Rattle.std.specs.Prelude.{◌≡◌, IfOk};
ghost use Rattle.event_word.specs.Seats.{source_count};
ghost use Rattle.run_objects.specs.Objects.{IsSeatedCore};
ghost use Rattle.sleep_core.specs.Cores.{IsActor};
ghost use Rattle.run_world.specs.Calling.{AfterMachineTurn};

use event_word::EventTable;
use run_objects::SeatedCore;
use sleep_base::Mem;
use sleep_core::{CoreFault, CoreTurn};
use sleep_model::{Actor, Stamp, Why};
use std::alloc::Global;
use std::marker::Model;
use std::sync::Wait;

/// The machine under its lock in a burst, boxed on the heap. Who takes a lock moves what the lock guards, and
/// a source is moved for each of its calls, so an object of the world has to be small. Contracts see the
/// machine.
#[derive(Drop)]
pub struct BoxedCore<'m> {
    core: Box<SeatedCore<'m>>,
}

impl<'m> Model for BoxedCore<'m> {
    ghost use Rattle.run_objects.specs.Objects.{SeatedCoreState};

    ghost Value = { SeatedCoreState };

    ghost view = { λ p. p.core.value };
}

/// That number of calls in the bits that a turn has for it; more of them wait for ever.
fn calls_in_bits<R: Wait>(rt: &R, calls: u64) -> u32
    ensures { result ≡ calls }
{
    if calls <= u64::from(u32::MAX) {
        return calls as u32;
    }
    for _ in rt.forever() {}
    unreachable!()
}

/// A turn of the machine, or its own numbers if those given are not all its own.
fn turn_of<R: Wait>(
    machine: &mut SeatedCore<'_>,
    rt: &R,
    table: &EventTable,
    who: Actor,
    calls: u32,
    floor: Stamp,
    now: u64,
) -> Result<CoreTurn, CoreFault>
    requires actor { IsActor machine.old.core.machine who }
    requires table { machine.old.seat.table_id ≡ table.now.cells.shared.table_id }
    ensures after { AfterMachineTurn machine.old.core machine.new.core who calls floor now result }
    ensures table { machine.new.seat.table_id ≡ machine.old.seat.table_id }
    ensures sources { source_count machine.new.seat ≡ source_count machine.old.seat }
    ensures machine { machine.new.core.machine ≡ machine.old.core.machine }
{
    let due = machine.core().calls_due(who);
    let time = machine.core().time();
    if due != u64::from(calls) || time != now {
        let calls = calls_in_bits(rt, due);
        return Ok(CoreTurn::NotYet(Why::Stale { calls, time }));
    }
    machine.turn(rt, table, who, calls, floor, now)
}

impl<'m> BoxedCore<'m> {
    /// The machine in a box. `Mem` if there is no memory.
    pub(crate) fn of(alloc: Global, core: SeatedCore<'m>) -> Result<Self, Mem>
        ensures { IfOk result (λ placed. placed ≡ core.entry) }
    {
        Ok(BoxedCore {
            core: Box::new(alloc, core)?,
        })
    }

    /// The machine, when the burst is over.
    pub(crate) fn into_core(self) -> SeatedCore<'m>
        ensures machine { result ≡ self.entry }
        ensures kept { IsSeatedCore result }
    {
        let BoxedCore { core } = self;
        let core = Box::into_inner(core);
        let _preserved = core.core();
        core
    }

    /// A turn of the machine at the time `now` by an actor that has made `calls` calls on sources. `Stale` if
    /// those are not all that are due, or that is not the time.
    pub(crate) fn turn<R: Wait>(
        &mut self,
        rt: &R,
        table: &EventTable,
        who: Actor,
        calls: u32,
        floor: Stamp,
        now: u64,
    ) -> Result<CoreTurn, CoreFault>
        requires actor { IsActor self.old.core.machine who }
        requires table { self.old.seat.table_id ≡ table.now.cells.shared.table_id }
        ensures after { AfterMachineTurn self.old.core self.new.core who calls floor now result }
        ensures table { self.new.seat.table_id ≡ self.old.seat.table_id }
        ensures sources { source_count self.new.seat ≡ source_count self.old.seat }
        ensures machine { self.new.core.machine ≡ self.old.core.machine }
    {
        turn_of(&mut self.core, rt, table, who, calls, floor, now)
    }
}
