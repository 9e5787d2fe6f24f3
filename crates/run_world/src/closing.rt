//! How the machine and its sources come back from the world of a burst.

ghost use Rattle.std.specs.Prelude.{◌≡◌, ℕ, IfOk};
ghost use Rattle.atomic_table.specs.Seated.{TableId};
ghost use Rattle.sleep_model.specs.declared.machine.Machine.{Machine};
ghost use Rattle.turn_lock.specs.Passes.{AreAll as AreAllPasses, first_of};
ghost use Rattle.turn_lock.specs.Passing.{made_lists, tokens};
ghost use Rattle.run_objects.specs.Objects.{SourcesInvariant, IsSeatedCore, IsSeatedSource};
ghost use Rattle.run_world.specs.declared.object.WorldObject.TheVariants as variant;
ghost use Rattle.run_world.specs.ObjectLists.{AreAtMoment, AreThose, IsAtMoment, IsClosedWorld, IsMachine, IsThat};
ghost use Rattle.run_world.specs.Objects.{AreObjects};

use crate::object::WorldObject;
use crate::world::WorldPass;
use run_objects::{SeatedCore, SeatedSource};
use sleep_base::{Mem, drop_for_mem};
use std::alloc::Global;
use turn_lock::{LockTable, close_locks};

/// The machine that the object is.
fn machine_of<'m>(object: WorldObject<'m>) -> SeatedCore<'m>
    requires { IsMachine object }
    ensures machine { object.entry ≡ variant.Machine result }
    ensures kept { IsSeatedCore result }
{
    match object {
        WorldObject::Machine(placed) => placed.into_core(),
        WorldObject::Source(_) => unreachable!(),
    }
}

/// The source that the object is.
fn source_of(object: WorldObject<'_>) -> SeatedSource
    requires { (moment : ℕ) × IsAtMoment moment object }
    ensures that { IsThat result object.entry }
    ensures kept { IsSeatedSource result }
{
    match object {
        WorldObject::Source(timed) => {
            let source = timed.into_source();
            let _preserved = source.source();
            source
        }
        WorldObject::Machine(_) => unreachable!(),
    }
}

/// The sources that the objects are, in order.
fn sources_of(alloc: Global, objects: Vec<WorldObject<'_>>) -> Result<Vec<SeatedSource>, Mem>
    requires { (moment : ℕ) × AreAtMoment moment objects.items }
    ensures those { IfOk result (λ sources. AreThose sources.items objects.entry.items) }
    ensures kept { IfOk result (λ sources. SourcesInvariant sources.items) }
{
    let Ok(mut sources) = Vec::with_capacity(alloc, objects.len()) else {
        return Err(drop_for_mem(objects));
    };
    for object in objects {
        sources.push_reserved(source_of(object));
    }
    Ok(sources)
}

/// Closes the world: the machine, and its sources in the order of their numbers, with what the passes made,
/// which are in the order of theirs. Each has its seat. `Mem` if there is no memory.
pub fn close_world<'m>(
    alloc: Global,
    locks: LockTable<WorldObject<'m>>,
    passes: Vec<WorldPass<'m>>,
) -> Result<(SeatedCore<'m>, Vec<SeatedSource>), Mem>
    requires passes { AreAllPasses locks.own (tokens passes.items) }
    requires objects { (m : Machine) × (table : TableId) × (moment : ℕ) × AreObjects m table moment (first_of locks.own) }
    ensures closed { IfOk result (λ contents. IsClosedWorld (first_of locks.entry.own) (made_lists passes.entry.items) contents.0 contents.1.items) }
    ensures kept { IfOk result (λ contents. IsSeatedCore contents.0 × SourcesInvariant contents.1.items) }
{
    let mut objects = close_locks(alloc, locks, passes)?;
    let machine = machine_of(objects.remove(0));
    let Ok(sources) = sources_of(alloc, objects) else {
        return Err(drop_for_mem(machine));
    };
    Ok((machine, sources))
}
