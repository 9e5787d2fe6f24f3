//! One try of a task in the world.

ghost use Rattle.std.specs.Prelude.{◌≡◌, ◌≤◌, ◌<◌, ◌+◌, ◌^◌, true, [], length};
ghost use Rattle.sleep_model.specs.declared.log.Want.TheVariants as want;
ghost use Rattle.sleep_model.specs.Calls.{note};
ghost use Rattle.sleep_script.specs.Jobs.{IsWanted};
ghost use Rattle.room_laws.specs.Ranged.{is_ranged};
ghost use Rattle.run_world.specs.declared.task.Task.TheVariants as variant;
ghost use Rattle.world_workers.specs.Tries.{GoesIn, HasActed, IsRangedTurn, told_source, timer_after_call, told_core, turns_of};

use crate::fault::RunFault;
use crate::outcome::TurnOutcome;
use room_laws::{calls_are_ranged, kinds_are_ranged};
use run_world::{Gate, Reply, Task, World, WorldPass};
use sleep_core::{CoreFault, CoreTurn};
use sleep_model::{Actor, DeviceFlags, Machine, SourceCall, Stamp, Want};
use sleep_script::{ActorJob, TimerJob};
use std::sync::Wait;
use wakeup_source::{CallBy, SourceFault};

/// What came of a try of a task, with the pass, or why the task comes to no end of its own.
pub type Tried<'m> = Reply<'m, Result<TurnOutcome, RunFault>>;

/// Reports to a job what its turn of the machine came to.
fn pass_turn(
    job: &mut ActorJob<'_>,
    answer: Result<CoreTurn, CoreFault>,
) -> Result<TurnOutcome, RunFault>
    requires made { job.old.pending ≡ [] }
    requires few { job.old.turns < 2 ^ 63 }
    ensures shown { job.new ≡ told_core answer job.old }
    ensures ranged { IsRangedTurn answer }
{
    match answer {
        Ok(
            CoreTurn::Did {
                stamp,
                kind,
                attempt,
            },
        ) => {
            kinds_are_ranged(kind);
            job.told_core(stamp, kind, attempt);
            Ok(TurnOutcome::Made)
        }
        Ok(CoreTurn::NotYet(why)) => Ok(TurnOutcome::Waits(Some(why))),
        Ok(CoreTurn::Done) => Ok(TurnOutcome::Exited),
        Err(CoreFault::Mem) => Err(RunFault::Mem),
    }
}

/// What came of a call on that source.
fn outcome_of_call(
    source: u32,
    answer: Result<Option<Stamp>, SourceFault>,
) -> Result<TurnOutcome, RunFault> {
    match answer {
        Ok(Some(_)) => Ok(TurnOutcome::Made),
        Ok(None) => Ok(TurnOutcome::Waits(None)),
        Err(fault) => Err(RunFault::of_call(fault, source)),
    }
}

/// Reports to a job what its call on a source came to.
fn pass_call(job: &mut ActorJob<'_>, answer: Result<Option<Stamp>, SourceFault>)
    requires left { 0 < length job.old.pending }
    requires few { job.old.calls + 1 < 2 ^ 32 }
    ensures { job.new ≡ told_source answer job.old }
{
    if let Ok(Some(stamp)) = answer {
        job.told_source(stamp);
    }
}

/// Reports to the timer of a source what its call came to (`pm_wakeup_timer_fn`).
fn pass_expiry(timer: &mut TimerJob, answer: Result<Option<Stamp>, SourceFault>)
    ensures { timer.new ≡ timer_after_call answer timer.old }
{
    if let Ok(Some(stamp)) = answer {
        timer.told_source(stamp);
    }
}

/// Whether the actor is a device that has no turns of its own (`is_async`): the walk makes its callbacks.
fn is_synchronous(machine: &Machine, who: Actor) -> bool {
    match who {
        Actor::Dev(device) => match machine.devices.as_slice().get(device as usize) {
            Some(device) => !device.flags.has(DeviceFlags::ASYNC),
            None => true,
        },
        _ => false,
    }
}

/// A turn of the machine by an actor whose job wants one. A device that has no turns takes no lock.
fn turn<'m, R: Wait, G: Gate>(
    world: &World<'_, 'm, R, G>,
    pass: WorldPass<'m>,
    job: &mut ActorJob<'m>,
) -> Tried<'m>
    requires goes { GoesIn world.now.machine.now world.now.table.now.cells.shared.table_id
        world.now.cells.now.shared.table_id world.now.moment (variant.Acts job.old) pass.token }
    requires wants { IsWanted job.old want.Core }
    requires few { job.old.turns < 2 ^ 63 }
    ensures { HasActed world.now.machine.now world.now.table.now.cells.shared.table_id
        world.now.cells.now.shared.table_id world.now.moment (variant.Acts job.old) (variant.Acts job.new)
        pass.entry.token result.pass.token }
{
    let who = job.who();
    if is_synchronous(world.machine, who) {
        return Reply {
            pass,
            answer: Ok(TurnOutcome::Waits(None)),
        };
    }
    let reply = world.core_turn(pass, who, job.calls(), job.floor(), world.moment);
    let answer = pass_turn(job, reply.answer);
    Reply {
        pass: reply.pass,
        answer,
    }
}

/// A call on a source by an actor whose job wants it.
fn call<'m, R: Wait, G: Gate>(
    world: &World<'_, 'm, R, G>,
    pass: WorldPass<'m>,
    job: &mut ActorJob<'m>,
    source: u32,
    call: SourceCall,
) -> Tried<'m>
    requires goes { GoesIn world.now.machine.now world.now.table.now.cells.shared.table_id
        world.now.cells.now.shared.table_id world.now.moment (variant.Acts job.old) pass.token }
    requires wants { IsWanted job.old (want.Source source call) }
    ensures { HasActed world.now.machine.now world.now.table.now.cells.shared.table_id
        world.now.cells.now.shared.table_id world.now.moment (variant.Acts job.old) (variant.Acts job.new)
        pass.entry.token result.pass.token }
{
    if source as usize > world.machine.sources.len() || job.calls() == u32::MAX {
        return Reply {
            pass,
            answer: Ok(TurnOutcome::Waits(None)),
        };
    }
    calls_are_ranged(source, call);
    let by = CallBy {
        actor: job.who(),
        floor: job.floor(),
        now: world.moment,
    };
    let reported = world.report(pass, source, call, by);
    pass_call(job, reported.answer);
    Reply {
        pass: reported.pass,
        answer: outcome_of_call(source, reported.answer),
    }
}

/// The call of a source's timer, which ends the event in progress once its moment has come
/// (`pm_wakeup_timer_fn`).
fn expire<'m, R: Wait, G: Gate>(
    world: &World<'_, 'm, R, G>,
    pass: WorldPass<'m>,
    timer: &mut TimerJob,
    source: u32,
) -> Tried<'m>
    requires goes { GoesIn world.now.machine.now world.now.table.now.cells.shared.table_id
        world.now.cells.now.shared.table_id world.now.moment (variant.Fires timer.old) pass.token }
    requires source { source ≡ timer.old.source }
    ensures { HasActed world.now.machine.now world.now.table.now.cells.shared.table_id
        world.now.cells.now.shared.table_id world.now.moment (variant.Fires timer.old) (variant.Fires timer.new)
        pass.entry.token result.pass.token }
{
    let by = CallBy {
        actor: Actor::Timer(source),
        floor: timer.floor(),
        now: world.moment,
    };
    let reported = world.report(pass, source, SourceCall::Expire, by);
    pass_expiry(timer, reported.answer);
    Reply {
        pass: reported.pass,
        answer: outcome_of_call(source, reported.answer),
    }
}

/// One try of an actor's job: the call on a source that is next, else a turn of the machine.
fn act_job<'m, R: Wait, G: Gate>(
    world: &World<'_, 'm, R, G>,
    pass: WorldPass<'m>,
    job: &mut ActorJob<'m>,
) -> Tried<'m>
    requires goes { GoesIn world.now.machine.now world.now.table.now.cells.shared.table_id
        world.now.cells.now.shared.table_id world.now.moment (variant.Acts job.old) pass.token }
    requires few { job.old.turns < 2 ^ 63 }
    ensures { HasActed world.now.machine.now world.now.table.now.cells.shared.table_id
        world.now.cells.now.shared.table_id world.now.moment (variant.Acts job.old) (variant.Acts job.new)
        pass.entry.token result.pass.token }
{
    match job.next() {
        Want::Core => turn(world, pass, job),
        Want::Source(source, wanted) => call(world, pass, job, source, wanted),
        Want::Nothing => Reply {
            pass,
            answer: Ok(TurnOutcome::Exited),
        },
    }
}

/// One try of a timer.
fn act_timer<'m, R: Wait, G: Gate>(
    world: &World<'_, 'm, R, G>,
    pass: WorldPass<'m>,
    timer: &mut TimerJob,
) -> Tried<'m>
    requires goes { GoesIn world.now.machine.now world.now.table.now.cells.shared.table_id
        world.now.cells.now.shared.table_id world.now.moment (variant.Fires timer.old) pass.token }
    ensures { HasActed world.now.machine.now world.now.table.now.cells.shared.table_id
        world.now.cells.now.shared.table_id world.now.moment (variant.Fires timer.old) (variant.Fires timer.new)
        pass.entry.token result.pass.token }
{
    match timer.next() {
        Want::Source(source, _) => expire(world, pass, timer, source),
        _ => unreachable!(),
    }
}

/// One try of a task: the call on a source that is next, else a turn of the machine. The task notes what was
/// made, and the pass made just that. It takes one lock, or none.
pub fn act<'m, R: Wait, G: Gate>(
    world: &World<'_, 'm, R, G>,
    pass: WorldPass<'m>,
    task: &mut Task<'m>,
) -> Tried<'m>
    requires goes { GoesIn world.now.machine.now world.now.table.now.cells.shared.table_id
        world.now.cells.now.shared.table_id world.now.moment task.old pass.token }
    requires few { turns_of task.old < 2 ^ 63 }
    ensures { HasActed world.now.machine.now world.now.table.now.cells.shared.table_id
        world.now.cells.now.shared.table_id world.now.moment task.old task.new pass.entry.token result.pass.token }
{
    match task {
        Task::Acts(job) => act_job(world, pass, job),
        Task::Fires(timer) => act_timer(world, pass, timer),
    }
}
