//! A whole burst: a world is opened, its workers make their turns, and it is closed.

ghost use Rattle.std.specs.Prelude.{◌≡◌, ◌≤◌, ◌<◌, ◌^◌, length, map, IfOk};
ghost use Rattle.sleep_model.specs.declared.machine.Machine.{Machine};
ghost use Rattle.atomic_table.specs.Seated.{TableId};
ghost use Rattle.sleep_model.specs.Numbers.{time_of};
ghost use Rattle.sleep_state.specs.JournalRooms.{entries};
ghost use Rattle.run_objects.specs.Objects.{SourcesInvariant};
ghost use Rattle.run_world.specs.ObjectLists.{AreTimely};
ghost use Rattle.run_world.specs.Acts.{actor_of};
ghost use Rattle.run_world.specs.Bursts.{IsBurst};
ghost use Rattle.world_workers.specs.Bursts.{AreReady, HaveTurns};
ghost use Rattle.world_workers.specs.Opened.{Began, HasEnded, HasRun, IsOpened};
ghost use Rattle.world_workers.specs.Workers.{AreFresh, AreWorkersOf, HaveTurned};

use crate::contents::{Burst, BurstContents, BurstPlan};
use crate::pool::{Brought, came_to, taken_apart, workers_of};
use crate::worker::Worker;
use room_laws::moments_are_ranged;
use run_world::{Gate, SharedWorld, World, WorldObject, close_world, world_objects};
use sleep_base::{Mem, drop_for_mem};
use sleep_pool::burst;
use std::alloc::Global;
use std::sync::Wait;
use std::thread::Threads;
use turn_lock::LockTable;

/// The locks of the world of a burst.
type WorldLocks<'m> = LockTable<WorldObject<'m>>;

/// Opens a burst at that moment in ms: the machine and its sources go under locks, and each task to a worker.
/// `Mem` if there is no memory; all that went in is lost then.
fn open_burst<'m>(
    alloc: Global,
    contents: BurstContents<'m>,
    moment: u64,
) -> Result<(WorldLocks<'m>, Vec<Worker<'m>>), Mem>
    requires timely { AreTimely moment contents.sources.items }
    requires small { moment ≤ 2 ^ 63 }
    requires turns { HaveTurns contents.tasks.items }
    requires few { (length contents.tasks.items ≤ 2000) × (length contents.sources.items ≤ 256) }
    requires some { 1 ≤ length contents.tasks.items }
    ensures opened { IfOk result (λ opened. (m : Machine) (table : TableId) → AreReady m table contents.entry.core contents.entry.sources.items contents.entry.tasks.items
        → IsOpened (record { machine = m; table = table; moment = moment; core = contents.entry.core; sources = contents.entry.sources.items; tasks = contents.entry.tasks.items })
        opened.0.own opened.0.cells.shared.table_id opened.1.items) }
{
    moments_are_ranged(moment);
    let BurstContents {
        core,
        sources,
        tasks,
    } = contents;
    let count = tasks.len() as u32;
    let Ok(objects) = world_objects(alloc, core, sources, moment) else {
        return Err(drop_for_mem(tasks));
    };
    let Ok((locks, passes)) = LockTable::new(alloc, objects, count) else {
        return Err(drop_for_mem(tasks));
    };
    let Ok(workers) = workers_of(alloc, passes, tasks, moment) else {
        return Err(drop_for_mem(locks));
    };
    Ok((locks, workers))
}

/// The workers make their turns, at the same time if threads can be made. Answers how many turns did
/// something.
fn run_workers<'m, R: Threads + Sync + Wait, G: Gate + Sync>(
    rt: &R,
    plan: &BurstPlan<'_, 'm, G>,
    cells: &SharedWorld<'m>,
    workers: &mut [Worker<'m>],
    moment: u64,
) -> u64
    requires some { 0 < plan.now.workers }
    requires goes { AreWorkersOf plan.now.machine.now plan.now.table.now.cells.shared.table_id cells.now.shared.table_id moment workers.old }
    requires fresh { AreFresh moment workers.old }
    requires short { length workers.old < 2 ^ 32 }
    ensures went { HaveTurned workers.old workers.new result }
    ensures goes { AreWorkersOf plan.now.machine.now plan.now.table.now.cells.shared.table_id cells.now.shared.table_id moment workers.new }
{
    let world = World {
        rt,
        gate: plan.gate,
        machine: plan.machine,
        table: plan.table,
        cells,
        moment,
    };
    burst(rt, workers, &world, moment, plan.workers)
}

/// Closes a burst in which so many turns did something: all come back with what the workers made. `Mem` if
/// there is no memory; all that went in is lost then.
fn close_burst<'m>(
    alloc: Global,
    locks: WorldLocks<'m>,
    workers: Vec<Worker<'m>>,
    did: u64,
) -> Result<Burst<'m>, Mem>
    requires ran { (b : Began) × HasRun b locks.own locks.cells.shared.table_id workers.items }
    ensures ended { IfOk result (λ made. (b : Began) → HasRun b locks.entry.own locks.entry.cells.shared.table_id workers.entry.items
        → HasEnded b made.contents.core made.contents.sources.items made.contents.tasks.items) }
    ensures kept { IfOk result (λ made. SourcesInvariant made.contents.sources.items) }
{
    let (stop, other_calls) = came_to(workers.as_slice());
    let Ok(brought) = taken_apart(alloc, workers) else {
        return Err(drop_for_mem(locks));
    };
    let Brought { passes, tasks } = brought;
    let Ok((core, sources)) = close_world(alloc, locks, passes) else {
        return Err(drop_for_mem(tasks));
    };
    Ok(Burst {
        contents: BurstContents {
            core,
            sources,
            tasks,
        },
        did,
        other_calls,
        stop,
    })
}

/// One burst: the machine and its sources go under locks, each task goes to a worker, and all come back with
/// what the workers made. Time does not pass in it. That it is over says nothing of who could go on. `Mem` if
/// there is no memory; all that went in is lost then.
pub fn make_burst<'m, R: Threads + Sync + Wait, G: Gate + Sync>(
    rt: &R,
    alloc: Global,
    plan: &BurstPlan<'_, 'm, G>,
    contents: BurstContents<'m>,
) -> Result<Burst<'m>, Mem>
    requires ready { AreReady plan.now.machine.now plan.now.table.now.cells.shared.table_id contents.core contents.sources.items contents.tasks.items }
    requires timely { AreTimely (time_of (entries contents.core.core.past)) contents.sources.items }
    requires turns { HaveTurns contents.tasks.items }
    requires some { (0 < plan.now.workers) × (1 ≤ length contents.tasks.items) }
    requires few { (length contents.tasks.items ≤ 2000) × (length plan.now.machine.now.sources ≤ 255) }
    ensures burst { IfOk result (λ made. IsBurst (time_of (entries contents.entry.core.core.past))
        contents.entry.core contents.entry.sources.items contents.entry.tasks.items made.contents.core made.contents.sources.items made.contents.tasks.items) }
    ensures ready { IfOk result (λ made. AreReady plan.now.machine.now plan.now.table.now.cells.shared.table_id
        made.contents.core made.contents.sources.items made.contents.tasks.items) }
    ensures kept { IfOk result (λ made. SourcesInvariant made.contents.sources.items) }
    ensures actors { IfOk result (λ made. map actor_of made.contents.tasks.items ≡ map actor_of contents.entry.tasks.items) }
{
    let moment = contents.core.core().time();
    let Ok((locks, mut workers)) = open_burst(alloc, contents, moment) else {
        return Err(Mem);
    };
    let did = run_workers(rt, plan, &locks.cells, workers.as_mut_slice(), moment);
    close_burst(alloc, locks, workers, did)
}
