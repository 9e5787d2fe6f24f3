//! The first burst of a machine, by two workers on threads.

ghost use Rattle.std.specs.Prelude.{◌≡◌, ◌≤◌, [], length, IfOk, reverse};
ghost use Rattle.sleep_model.specs.Accepted.{IsAccepted};
ghost use Rattle.sleep_model.specs.Numbers.{time_of};
ghost use Rattle.sleep_model.specs.Order.{parents_of};
ghost use Rattle.sleep_state.specs.JournalRooms.{entries};
ghost use Rattle.run_world.specs.ObjectLists.{AreTimely};
ghost use Rattle.world_workers.specs.Bursts.{AreReady, AreTasksIn, HaveTurns};

use device_links::Links;
use event_word::EventTable;
use machine_file::{ReadMachine, read_machine};
use machine_plans::MachinePlans;
use run_objects::{SeatedCore, seated_sources};
use run_world::{OpenGate, Task};
use sleep_base::{Mem, drop_for_mem};
use sleep_core::Core;
use sleep_model::Machine;
use sleep_script::{ActorJob, TimerJob};
use std::alloc::Global;
use std::sync::Wait;
use std::thread::Threads;
use world_workers::{Burst, BurstContents, BurstPlan, make_burst};

/// The tasks of a machine of one script and no source, before anything was done.
fn few_tasks<'m>(alloc: Global, plans: &'m MachinePlans<'_>) -> Result<Vec<Task<'m>>, Mem>
    requires accepted { IsAccepted plans.now }
    requires one { length plans.now.actors ≡ 1 }
    ensures in_all { IfOk result (λ tasks. AreTasksIn plans.now tasks.items) }
    ensures turns { IfOk result (λ tasks. HaveTurns tasks.items) }
    ensures count { IfOk result (λ tasks. length tasks.items ≡ 3) }
{
    let script = ActorJob::of_script(plans, 0);
    let tasks = vec![in alloc;
        Task::Acts(script),
        Task::Acts(ActorJob::of_auto(plans)),
        Task::Fires(TimerJob::new(0)),
    ]?;
    Ok(tasks)
}

/// The tasks of a machine of one script and one source, before anything was done.
fn more_tasks<'m>(alloc: Global, plans: &'m MachinePlans<'_>) -> Result<Vec<Task<'m>>, Mem>
    requires accepted { IsAccepted plans.now }
    requires one { (length plans.now.actors ≡ 1) × (length plans.now.sources ≡ 1) }
    ensures in_all { IfOk result (λ tasks. AreTasksIn plans.now tasks.items) }
    ensures turns { IfOk result (λ tasks. HaveTurns tasks.items) }
    ensures count { IfOk result (λ tasks. length tasks.items ≡ 4) }
{
    let script = ActorJob::of_script(plans, 0);
    let tasks = vec![in alloc;
        Task::Acts(script),
        Task::Acts(ActorJob::of_auto(plans)),
        Task::Fires(TimerJob::new(0)),
        Task::Fires(TimerJob::new(1)),
    ]?;
    Ok(tasks)
}

/// The tasks of a machine of one script and at most one source, before anything was done. `Mem` also of
/// another machine.
fn tasks_of<'m>(alloc: Global, plans: &'m MachinePlans<'_>) -> Result<Vec<Task<'m>>, Mem>
    requires accepted { IsAccepted plans.now }
    ensures in_all { IfOk result (λ tasks. AreTasksIn plans.now tasks.items) }
    ensures turns { IfOk result (λ tasks. HaveTurns tasks.items) }
    ensures count { IfOk result (λ tasks. (1 ≤ length tasks.items) × (length tasks.items ≤ 4)) }
{
    let machine = plans.machine();
    if machine.actors.len() != 1 {
        return Err(Mem);
    }
    if machine.sources.len() == 1 {
        more_tasks(alloc, plans)
    } else {
        few_tasks(alloc, plans)
    }
}

/// How many turns did something in a burst, which is let go.
fn did_in(made: Result<Burst<'_>, Mem>) -> Result<u64, Mem> {
    let Ok(burst) = made else {
        return Err(Mem);
    };
    let did = burst.did;
    drop(burst);
    Ok(did)
}

/// How many turns of two workers did something in the first burst with these contents.
fn did_at<'m, R: Threads + Sync + Wait>(
    rt: &R,
    alloc: Global,
    machine: &'m Machine,
    table: &EventTable,
    contents: BurstContents<'m>,
) -> Result<u64, Mem>
    requires accepted { IsAccepted machine.now }
    requires ready { AreReady machine.now table.now.cells.shared.table_id contents.core contents.sources.items contents.tasks.items }
    requires timely { AreTimely (time_of (entries contents.core.core.past)) contents.sources.items }
    requires turns { HaveTurns contents.tasks.items }
    requires count { (1 ≤ length contents.tasks.items) × (length contents.tasks.items ≤ 4) }
{
    let plan = BurstPlan {
        gate: &OpenGate,
        table,
        machine,
        workers: 2,
    };
    did_in(make_burst(rt, alloc, &plan, contents))
}

/// How many turns did something in the first burst of a machine with that core and these tasks.
fn seated_burst<'m, R: Threads + Sync + Wait>(
    rt: &R,
    alloc: Global,
    machine: &'m Machine,
    core: Core<'m>,
    tasks: Vec<Task<'m>>,
) -> Result<u64, Mem>
    requires accepted { IsAccepted machine.now }
    requires core { core ≡ record { machine = machine.now; past = [] } }
    requires tasks { AreTasksIn machine.now tasks.items }
    requires turns { HaveTurns tasks.items }
    requires count { (1 ≤ length tasks.items) × (length tasks.items ≤ 4) }
{
    let count = machine.sources.len() as u32 + 1;
    let Ok((table, sources, look)) = seated_sources(alloc, count) else {
        return Err(drop_for_mem((core, tasks)));
    };
    let core = SeatedCore::new(core, look);
    let contents = BurstContents {
        core,
        sources,
        tasks,
    };
    let did = did_at(rt, alloc, machine, &table, contents);
    drop(table);
    did
}

/// How many turns did something in the first burst over the plans of a machine.
fn first_burst<R: Threads + Sync + Wait>(
    rt: &R,
    alloc: Global,
    plans: &MachinePlans<'_>,
    links: Links,
) -> Result<u64, Mem>
    requires accepted { IsAccepted plans.now }
    requires links { links ≡ record { parents = parents_of plans.now.devices; links = reverse plans.now.links } }
{
    let Ok(tasks) = tasks_of(alloc, plans) else {
        return Err(drop_for_mem(links));
    };
    let Ok(core) = Core::new(alloc, plans, links) else {
        return Err(drop_for_mem(tasks));
    };
    seated_burst(rt, alloc, plans.machine(), core, tasks)
}

/// How many turns did something in the first burst of a machine.
fn burst_of<R: Threads + Sync + Wait>(
    rt: &R,
    alloc: Global,
    machine: &Machine,
    links: Links,
) -> Result<u64, Mem>
    requires accepted { IsAccepted machine.now }
    requires links { links ≡ record { parents = parents_of machine.now.devices; links = reverse machine.now.links } }
{
    let Ok(plans) = MachinePlans::new(alloc, machine) else {
        return Err(drop_for_mem(links));
    };
    let did = first_burst(rt, alloc, &plans, links);
    drop(plans);
    did
}

/// How many turns did something in the first burst of a file's machine.
pub(crate) fn did_first<R: Threads + Sync + Wait>(
    rt: &R,
    alloc: Global,
    file: &[u8],
) -> Result<u64, Mem> {
    let Ok(ReadMachine { machine, links }) = read_machine(alloc, file) else {
        return Err(Mem);
    };
    let did = burst_of(rt, alloc, &machine, links);
    drop(machine);
    did
}
