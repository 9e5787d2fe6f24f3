//! The workers of a burst, as they go into it and come out.

ghost use Rattle.std.specs.Prelude.{◌≡◌, ◌≤◌, ◌<◌, ◌+◌, ◌^◌, ℕ, List, length, IfOk};
ghost use Rattle.sleep_model.specs.declared.machine.Machine.{Machine};
ghost use Rattle.atomic_table.specs.Seated.{TableId};
ghost use Rattle.world_workers.specs.Bursts.{HaveTurns};
ghost use Rattle.world_workers.specs.Workers.{AreFresh, AreContents, AreWorkersOf};

use crate::fault::{RunFault, graver};
use crate::worker::Worker;
use run_world::{Task, WorldPass};
use sleep_base::{Mem, drop_for_mem};
use std::alloc::Global;

/// A worker for each task, with a pass each, for a burst at that moment in ms.
pub(crate) fn workers_of<'m>(
    alloc: Global,
    passes: Vec<WorldPass<'m>>,
    tasks: Vec<Task<'m>>,
    moment: u64,
) -> Result<Vec<Worker<'m>>, Mem>
    requires count { length passes.items ≡ length tasks.items }
    requires few { length tasks.items ≤ 2000 }
    requires turns { HaveTurns tasks.items }
    ensures contents { IfOk result (λ workers. AreContents workers.items passes.entry.items tasks.entry.items) }
    ensures fresh { IfOk result (λ workers. AreFresh moment workers.items) }
{
    let Ok(mut workers) = Vec::with_capacity(alloc, tasks.len()) else {
        return Err(drop_for_mem((passes, tasks)));
    };
    let mut left = passes.into_iter();
    for task in tasks {
        let place = workers.len();
        let Some(pass) = left.next() else {
            unreachable!()
        };
        let worker = Worker::new(pass, task, place as u32, moment);
        workers.push_reserved(worker);
    }
    Ok(workers)
}

/// Why one of these workers stopped, if one did, and how many calls on sources they made, but for those of
/// the busiest.
pub(crate) fn came_to(workers: &[Worker<'_>]) -> (Option<RunFault>, u64) {
    let mut stop = None;
    let mut calls: u64 = 0;
    let mut most = 0;
    for worker in workers {
        let made = u64::from(worker.calls());
        stop = graver(stop, worker.stop);
        calls = calls.saturating_add(made);
        most = made.max(most);
    }
    (stop, calls.saturating_sub(most))
}

/// The passes and the tasks that workers bring out of a burst, in their order.
#[derive(Drop)]
pub(crate) struct Brought<'m> {
    pub(crate) passes: Vec<WorldPass<'m>>,
    pub(crate) tasks: Vec<Task<'m>>,
}

impl<'m> Brought<'m> {
    ghost use Rattle.std.specs.Prelude.{[], vec_len, vec_capacity};

    /// None, with room for those of so many workers.
    fn new(alloc: Global, workers: usize) -> Result<Self, Mem>
        ensures none { IfOk result (λ brought. (brought.passes.items ≡ []) × (brought.tasks.items ≡ [])) }
        ensures passes { IfOk result (λ brought. vec_len brought.passes + workers ≤ vec_capacity brought.passes) }
        ensures tasks { IfOk result (λ brought. vec_len brought.tasks + workers ≤ vec_capacity brought.tasks) }
    {
        Ok(Brought {
            passes: Vec::with_capacity(alloc, workers)?,
            tasks: Vec::with_capacity(alloc, workers)?,
        })
    }
}

/// The passes and the tasks of the workers, in their order.
pub(crate) fn taken_apart<'m>(alloc: Global, workers: Vec<Worker<'m>>) -> Result<Brought<'m>, Mem>
    requires { (m : Machine) × (table : TableId) × (locks : TableId) × (moment : ℕ) × AreWorkersOf m table locks moment workers.items }
    ensures { IfOk result (λ brought. AreContents workers.entry.items brought.passes.items brought.tasks.items) }
{
    let Ok(mut brought) = Brought::new(alloc, workers.len()) else {
        return Err(drop_for_mem(workers));
    };
    for worker in workers {
        let (pass, task) = worker.into_components();
        brought.passes.push_reserved(pass);
        brought.tasks.push_reserved(task);
    }
    Ok(brought)
}
