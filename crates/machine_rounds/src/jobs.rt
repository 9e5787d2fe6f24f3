//! The jobs of all actors that the core has turns for.

ghost use Rattle.std.specs.Prelude.{◌≡◌, ◌≤◌, ◌<◌, ◌+◌, ◌^◌, [], length, map, IfOk};
ghost use Rattle.sleep_model.specs.declared.entry.Actor.TheVariants.{Script, Dev};
ghost use Rattle.sleep_model.specs.Accepted.{IsAccepted};
ghost use Rattle.sleep_model.specs.Places.{one_if};
ghost use Rattle.sleep_script.specs.Jobs.{IsWanted, first_job, after_turn, after_call};
ghost use Rattle.machine_rounds.specs.JobsOf.{owes, owing_of, job_at, HasJob, MayHear, after_hearing, with_job, first_jobs_of, first_jobs};

use machine_plans::MachinePlans;
use sleep_base::Mem;
use sleep_model::{Actor, Kind, Stamp, Want};
use sleep_script::ActorJob;
use std::alloc::Global;
use std::marker::Model;

/// What a job hears of its actor.
#[derive(Clone, Copy)]
pub(crate) enum Heard {
    /// It made an entry of the journal, with that stamp, when `attempt` attempts were begun.
    Entry {
        stamp: Stamp,
        kind: Kind,
        attempt: u32,
    },
    /// It made the call that was next, and knows that stamp.
    Call(Stamp),
}

/// The jobs of the scripts, the autosleep work and the devices, by number.
#[derive(Drop)]
pub(crate) struct ActorJobs<'m> {
    pub(crate) scripts: Vec<ActorJob<'m>>,
    pub(crate) auto: ActorJob<'m>,
    pub(crate) devices: Vec<ActorJob<'m>>,
}

impl<'m> Model for ActorJobs<'m> {
    ghost use Rattle.machine_rounds.specs.JobsOf.{JobsState};

    ghost Value = { JobsState };

    ghost view = { λ j. record { scripts = j.scripts.items; auto = j.auto; devices = j.devices.items } };
}

/// Those jobs, and how many of them have a call on a source to make.
#[derive(Drop)]
pub(crate) struct Jobs<'m> {
    pub(crate) actors: ActorJobs<'m>,
    owing: u32,
}

impl<'m> Model for Jobs<'m> {
    ghost use Rattle.machine_rounds.specs.JobsOf.{JobsState};

    ghost Value = { JobsState };

    ghost use Rattle.machine_rounds.specs.JobsFields.{jobs, jobs_invariant};

    ghost view = { jobs };

    ghost invariant = { jobs_invariant };
}

/// The jobs of a machine's scripts.
fn script_jobs<'m>(alloc: Global, plans: &'m MachinePlans<'_>) -> Result<Vec<ActorJob<'m>>, Mem>
    requires { IsAccepted plans.now }
    ensures { IfOk result (λ v. v.items ≡ first_jobs_of plans.now Script (length plans.now.actors)) }
{
    let scripts = plans.machine().actors.len();
    let mut jobs = Vec::with_capacity(alloc, scripts)?;
    for script in 0..scripts as u32 {
        jobs.push_reserved(ActorJob::of_script(plans, script));
    }
    Ok(jobs)
}

/// The jobs of a machine's devices.
fn device_jobs<'m>(alloc: Global, plans: &'m MachinePlans<'_>) -> Result<Vec<ActorJob<'m>>, Mem>
    requires { IsAccepted plans.now }
    ensures { IfOk result (λ v. v.items ≡ first_jobs_of plans.now Dev (length plans.now.devices)) }
{
    let devices = plans.machine().devices.len();
    let mut jobs = Vec::with_capacity(alloc, devices)?;
    for device in 0..devices as u32 {
        jobs.push_reserved(ActorJob::of_device(plans, device));
    }
    Ok(jobs)
}

/// How many of these have a call on a source to make.
fn owing_among(jobs: &[ActorJob<'_>]) -> u32
    requires { length jobs.now < 2 ^ 30 }
    ensures is { result ≡ owing_of jobs.now }
{
    let mut owing = 0;
    for job in jobs {
        owing = more_owing(job.owes(), owing);
    }
    owing
}

/// One more, if another has a call to make.
#[inline(always)]
fn more_owing(owes: bool, owing: u32) -> u32
    requires { owing + 1 < 2 ^ 32 }
    ensures { result ≡ owing + one_if owes }
{
    if owes { owing + 1 } else { owing }
}

/// One fewer, if the one that made a call has none left to make.
#[inline(always)]
fn left_owing(owes: bool, owing: u32) -> u32
    requires { 0 < owing }
    ensures { result + 1 ≡ owing + one_if owes }
{
    if owes { owing } else { owing - 1 }
}

/// A job hears what its actor made. Whether it has a call on a source to make then.
#[inline(always)]
fn hear(job: &mut ActorJob<'_>, heard: Heard) -> bool
    requires { MayHear job.old heard }
    ensures job { job.new ≡ after_hearing heard job.old }
    ensures owes { result ≡ owes job.new }
{
    match heard {
        Heard::Entry {
            stamp,
            kind,
            attempt,
        } => job.told_core(stamp, kind, attempt),
        Heard::Call(stamp) => job.told_source(stamp),
    }
    job.owes()
}

impl<'m> ActorJobs<'m> {
    /// The job of an actor.
    #[inline(always)]
    fn job(&self, who: Actor) -> &ActorJob<'m>
        requires { HasJob self.now who }
        ensures { result.now ≡ job_at self.now who }
    {
        match who {
            Actor::Script(script) => &self.scripts[script as usize],
            Actor::Dev(device) => &self.devices[device as usize],
            _ => &self.auto,
        }
    }

    /// The job of an actor hears what that made. Whether it has a call on a source to make then.
    #[inline(always)]
    fn hear(&mut self, who: Actor, heard: Heard) -> bool
        requires job { HasJob self.old who }
        requires may { MayHear (job_at self.old who) heard }
        ensures jobs { self.new ≡ with_job self.old who (after_hearing heard (job_at self.old who)) }
        ensures owes { result ≡ owes (after_hearing heard (job_at self.old who)) }
    {
        match who {
            Actor::Script(script) => hear(&mut self.scripts[script as usize], heard),
            Actor::Dev(device) => hear(&mut self.devices[device as usize], heard),
            _ => hear(&mut self.auto, heard),
        }
    }
}

impl<'m> Jobs<'m> {
    ghost use Rattle.std.specs.Bool.{OnTrue};
    ghost use Rattle.machine_rounds.specs.JobsOf.{OweNone};

    /// The jobs of these parts, before anything was done: only a script may have a call to make then.
    fn of_components(
        scripts: Vec<ActorJob<'m>>,
        auto: ActorJob<'m>,
        devices: Vec<ActorJob<'m>>,
    ) -> Self
        requires scripts { length scripts.items < 2 ^ 30 }
        requires devices { length devices.items < 2 ^ 30 }
        requires auto { one_if (owes auto) ≡ 0 }
        requires none { owing_of devices.items ≡ 0 }
        ensures { result ≡ record { scripts = scripts.entry.items; auto = auto.entry; devices = devices.entry.items } }
    {
        let owing = owing_among(scripts.as_slice());
        Jobs {
            actors: ActorJobs {
                scripts,
                auto,
                devices,
            },
            owing,
        }
    }

    /// These jobs, and how many of them have a call to make.
    pub(crate) fn counted(
        scripts: Vec<ActorJob<'m>>,
        auto: ActorJob<'m>,
        devices: Vec<ActorJob<'m>>,
    ) -> Self
        requires scripts { length scripts.items < 2 ^ 30 }
        requires devices { length devices.items < 2 ^ 30 }
        ensures { result ≡ record { scripts = scripts.entry.items; auto = auto.entry; devices = devices.entry.items } }
    {
        let scripts_owing = owing_among(scripts.as_slice());
        let devices_owing = owing_among(devices.as_slice());
        let owing = more_owing(auto.owes(), scripts_owing + devices_owing);
        Jobs {
            actors: ActorJobs {
                scripts,
                auto,
                devices,
            },
            owing,
        }
    }

    /// The jobs of a machine, before anything was done. `Mem` if there is no memory.
    pub(crate) fn new(alloc: Global, plans: &'m MachinePlans<'_>) -> Result<Self, Mem>
        requires { IsAccepted plans.now }
        ensures { IfOk result (λ jobs. jobs ≡ first_jobs plans.now) }
    {
        let scripts = script_jobs(alloc, plans)?;
        let auto = ActorJob::of_auto(plans);
        let devices = device_jobs(alloc, plans)?;
        Ok(Jobs::of_components(scripts, auto, devices))
    }

    /// What an actor does next: the call on a source that is next, else a turn of the core.
    #[inline(always)]
    pub(crate) fn next(&self, who: Actor) -> Want
        requires { HasJob self.now who }
        ensures { IsWanted (job_at self.now who) result }
    {
        self.actors.job(who).next()
    }

    /// How many calls on sources an actor has made.
    #[inline(always)]
    pub(crate) fn calls(&self, who: Actor) -> u32
        requires { HasJob self.now who }
        ensures { result ≡ (job_at self.now who).calls }
    {
        self.actors.job(who).calls()
    }

    /// An actor made an entry of the journal, with that stamp, when `attempt` attempts were begun.
    #[inline(always)]
    pub(crate) fn told_core(&mut self, who: Actor, stamp: Stamp, kind: Kind, attempt: u32)
        requires job { HasJob self.old who }
        requires made { (job_at self.old who).pending ≡ [] }
        requires few { (job_at self.old who).turns < 2 ^ 63 }
        ensures { self.new ≡ with_job self.old who (after_turn stamp kind attempt (job_at self.old who)) }
    {
        let heard = Heard::Entry {
            stamp,
            kind,
            attempt,
        };
        let owes = self.actors.hear(who, heard);
        self.owing = more_owing(owes, self.owing);
    }

    /// An actor made the call that was next, and knows that stamp.
    pub(crate) fn told_source(&mut self, who: Actor, stamp: Stamp)
        requires job { HasJob self.old who }
        requires left { 0 < length (job_at self.old who).pending }
        requires few { (job_at self.old who).calls + 1 < 2 ^ 32 }
        ensures { self.new ≡ with_job self.old who (after_call stamp (job_at self.old who)) }
    {
        let owes = self.actors.hear(who, Heard::Call(stamp));
        self.owing = left_owing(owes, self.owing);
    }

    /// Whether no actor has a call on a source to make before its next entry of the journal.
    pub(crate) fn owe_none(&self) -> bool
        ensures { OnTrue result (OweNone self.now) }
    {
        self.owing == 0
    }
}
