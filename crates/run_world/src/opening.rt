//! How the world of a burst is made of the machine and its sources.

ghost use Rattle.std.specs.Prelude.{◌≡◌, ◌≤◌, ◌+◌, ◌^◌, ◌∷◌, [], vec_len, vec_capacity, IfOk};
ghost use Rattle.run_objects.specs.Objects.{SourcesInvariant};
ghost use Rattle.run_world.specs.declared.object.WorldObject.TheVariants as object;
ghost use Rattle.run_world.specs.ObjectLists.{AreObjectsOf, AreTimely};

use crate::boxed::BoxedCore;
use crate::object::WorldObject;
use crate::timed::TimedSource;
use run_objects::{SeatedCore, SeatedSource};
use sleep_base::{Mem, drop_for_mem};
use std::alloc::Global;

/// The machine as the first of all objects, with room for that many sources. `Mem` if there is no memory.
fn with_machine<'m>(
    alloc: Global,
    machine: SeatedCore<'m>,
    sources: usize,
) -> Result<Vec<WorldObject<'m>>, Mem>
    requires { sources ≤ 2 ^ 63 }
    ensures first { IfOk result (λ objects. objects.items ≡ object.Machine machine.entry ∷ []) }
    ensures room { IfOk result (λ objects. vec_len objects + sources ≤ vec_capacity objects) }
{
    let placed = BoxedCore::of(alloc, machine)?;
    let Ok(mut objects) = Vec::with_capacity(alloc, sources + 1) else {
        return Err(drop_for_mem(placed));
    };
    objects.push_reserved(WorldObject::Machine(placed));
    Ok(objects)
}

/// The objects of a world, for a burst at that moment in ms: the machine, and its sources, in the order of
/// their numbers. Each has its seat. `Mem` if there is no memory.
pub fn world_objects<'m>(
    alloc: Global,
    machine: SeatedCore<'m>,
    sources: Vec<SeatedSource>,
    moment: u64,
) -> Result<Vec<WorldObject<'m>>, Mem>
    requires timely { AreTimely moment sources.items }
    requires small { moment ≤ 2 ^ 63 }
    ensures all { IfOk result (λ objects. AreObjectsOf moment machine.entry sources.items objects.items) }
    ensures kept { IfOk result (λ objects. SourcesInvariant sources.items) }
{
    let Ok(mut objects) = with_machine(alloc, machine, sources.len()) else {
        return Err(drop_for_mem(sources));
    };
    for source in sources {
        let _preserved = source.source();
        objects.push_reserved(WorldObject::Source(TimedSource::new(source, moment)));
    }
    Ok(objects)
}
