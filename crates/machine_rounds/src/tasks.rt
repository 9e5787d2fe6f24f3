//! The jobs of a run's actors and the timers of its sources as the tasks of a burst, and back.

ghost use Rattle.std.specs.Prelude.{◌≡◌, ◌<◌, ◌^◌, ◌++◌, ◌∷◌, [], length, map, OnOk, IfOk};
ghost use Rattle.sleep_script.specs.Jobs.{later};
ghost use Rattle.machine_rounds.specs.TasksOf.{AreJobsOf, acts, highest, jobs_in, all_tasks, timers};

use crate::jobs::{ActorJobs, Jobs};
use run_world::Task;
use sleep_base::Mem;
use sleep_model::Stamp;
use sleep_script::{ActorJob, TimerJob};
use std::alloc::{AllocError, Global};

/// Puts the task of a job, which knows at least that stamp, after others.
fn push_job<'m>(
    tasks: &mut Vec<Task<'m>>,
    mut job: ActorJob<'m>,
    floor: Stamp,
) -> Result<(), AllocError>
    ensures { OnOk result (tasks.new.items ≡ tasks.old.items ++ acts floor job.entry ∷ []) }
{
    job.raise(floor);
    tasks.push(Task::Acts(job))?;
    Ok(())
}

/// Puts the tasks of these jobs after others.
fn push_jobs<'m>(
    tasks: &mut Vec<Task<'m>>,
    jobs: Vec<ActorJob<'m>>,
    floor: Stamp,
) -> Result<(), AllocError>
    ensures { OnOk result (tasks.new.items ≡ tasks.old.items ++ map (acts floor) jobs.entry.items) }
{
    for job in jobs {
        push_job(tasks, job, floor)?;
    }
    Ok(())
}

/// Puts the timers of the first sources, as tasks, after other tasks.
fn push_timers(tasks: &mut Vec<Task<'_>>, sources: u32, floor: Stamp) -> Result<(), AllocError>
    ensures { OnOk result (tasks.new.items ≡ tasks.old.items ++ timers floor sources) }
{
    for source in 0..sources {
        let mut timer = TimerJob::new(source);
        timer.raise(floor);
        tasks.push(Task::Fires(timer))?;
    }
    Ok(())
}

/// The jobs among these tasks.
fn jobs_among<'m>(alloc: Global, tasks: Vec<Task<'m>>) -> Result<Vec<ActorJob<'m>>, AllocError>
    ensures { IfOk result (λ jobs. jobs.items ≡ jobs_in tasks.entry.items) }
{
    let mut jobs = Vec::with_capacity(alloc, tasks.len())?;
    for task in tasks {
        if let Task::Acts(job) = task {
            jobs.push_reserved(job);
        }
    }
    Ok(jobs)
}

/// The later of two stamps, number by number.
fn later(one: Stamp, other: Stamp) -> Stamp
    ensures { result ≡ later one other }
{
    Stamp {
        pos: one.pos.max(other.pos),
        tick: one.tick.max(other.tick),
    }
}

/// The greatest stamp of these tasks and of that one.
pub(crate) fn highest_of(tasks: &[Task<'_>], floor: Stamp) -> Stamp
    ensures { result ≡ highest floor tasks.now }
{
    let mut highest = floor;
    for task in tasks {
        highest = later(task.floor(), highest);
    }
    highest
}

impl<'m> Jobs<'m> {
    /// The tasks of all jobs, and of the timers of the first sources. Each knows at least that stamp.
    pub(crate) fn into_tasks(
        self,
        alloc: Global,
        sources: u32,
        floor: Stamp,
    ) -> Result<Vec<Task<'m>>, AllocError>
        ensures { IfOk result (λ tasks. tasks.items ≡ all_tasks floor sources self.entry) }
    {
        let ActorJobs {
            scripts,
            auto,
            devices,
        } = self.actors;
        let mut tasks = Vec::with_capacity(alloc, scripts.len())?;
        push_jobs(&mut tasks, scripts, floor)?;
        push_job(&mut tasks, auto, floor)?;
        push_jobs(&mut tasks, devices, floor)?;
        push_timers(&mut tasks, sources, floor)?;
        Ok(tasks)
    }

    /// The jobs among tasks that came back; the first are those of the scripts.
    pub(crate) fn of_tasks(alloc: Global, tasks: Vec<Task<'m>>, scripts: usize) -> Result<Self, Mem>
        requires few { length (jobs_in tasks.items) < 2 ^ 30 }
        requires there { scripts < length (jobs_in tasks.items) }
        ensures { IfOk result (AreJobsOf (jobs_in tasks.entry.items) scripts) }
    {
        let mut all = jobs_among(alloc, tasks)?;
        let devices = all.split_off(scripts + 1)?;
        match all.pop() {
            Some(auto) => Ok(Jobs::counted(all, auto, devices)),
            None => unreachable!(),
        }
    }
}
