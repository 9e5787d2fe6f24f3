//! A run of a machine, try by try.

ghost use Rattle.std.specs.Prelude.{◌≡◌, ◌≤◌, ◌<◌, ◌+◌, zero, suc, true, length, IfOk};
ghost use Rattle.sleep_model.specs.Accepted.{IsAccepted};

use crate::jobs::Jobs;
use device_links::Links;
use event_word::EventTable;
use machine_plans::MachinePlans;
use room_laws::{calls_are_ranged, kinds_are_ranged, moments_are_ranged};
use run_objects::{SeatedCore, SeatedSource, seated_sources};
use sleep_base::{Mem, drop_for_mem};
use sleep_core::{Core, CoreTurn};
use sleep_model::{Actor, EventNow, Kind, Machine, Phase, SourceCall, Stamp};
use std::alloc::Global;
use std::marker::Model;
use std::sync::Wait;
use wait_queues::Waiters;
use wakeup_source::CallBy;
use world_workers::{RunFault, TurnOutcome};

/// A run of a machine, as far as it has come.
#[derive(Drop)]
pub struct Run<'m> {
    pub(crate) machine: &'m Machine,
    /// The event word.
    pub(crate) table: EventTable,
    /// The machine's core, with its seat at the word.
    pub(crate) seated: SeatedCore<'m>,
    /// The wakeup sources with their seats, `autosleep` last.
    pub(crate) sources: Vec<SeatedSource>,
    pub(crate) jobs: Jobs<'m>,
    /// The last stamp that anybody made.
    pub(crate) floor: Stamp,
    pub(crate) waiters: Waiters,
}

impl<'m> Model for Run<'m> {
    ghost use Rattle.machine_rounds.specs.Runs.{RunState};

    ghost Value = { RunState };

    ghost use Rattle.machine_rounds.specs.RunFields.{state, RunFieldsInvariant};

    ghost view = { state };

    ghost invariant = { RunFieldsInvariant };
}

/// Everybody is to be asked.
fn all_waiters(alloc: Global, machine: &Machine) -> Result<Waiters, Mem>
    requires { IsAccepted machine.now }
{
    Waiters::new(
        alloc,
        machine.actors.len(),
        machine.marks.len(),
        machine.devices.as_slice(),
    )
}

/// A device is done with that phase: the devices that waited for it are right above it on the way down, right
/// below it on the way up.
fn waiting_for<'a>(core: &'a Core<'_>, phase: Phase, device: u32) -> &'a [u32] {
    if phase.is_down() {
        core.above(device)
    } else {
        core.below(device)
    }
}

/// Wakes a device, if it is scheduled in that phase and waits for none.
#[inline(always)]
fn wake_if_ready(core: &Core<'_>, waiters: &mut Waiters, phase: Phase, device: u32) {
    if core.is_ready(phase, device) {
        waiters.wake_device(device);
    }
}

/// Wakes those of these devices that are scheduled in that phase and wait for none.
#[inline(never)]
fn wake_ready(core: &Core<'_>, waiters: &mut Waiters, phase: Phase, devices: &[u32]) {
    for device in devices {
        wake_if_ready(core, waiters, phase, *device);
    }
}

impl<'m> Run<'m> {
    ghost use Rattle.std.specs.Prelude.{◌≡◌, ◌≤◌, ◌<◌, ◌+◌, [], true, length, reverse, vec_len, Err, IfOk, OnOk, IfErr};
    ghost use Rattle.sleep_model.specs.Accepted.{IsAccepted};
    ghost use Rattle.sleep_model.specs.Calls.{calls_due};
    ghost use Rattle.sleep_model.specs.Numbers.{time_of};
    ghost use Rattle.sleep_model.specs.Order.{parents_of};
    ghost use Rattle.sleep_model.specs.Sources.{expiry, has_expired, most_entries};
    ghost use Rattle.event_word.specs.Seats.{AreNew, IsUntouched};
    ghost use Rattle.sleep_state.specs.JournalRooms.{entries};
    ghost use Rattle.sleep_core.specs.Cores.{IsActor};
    ghost use Rattle.running_laws.specs.Running.{CallsNext, calls_made, histories, of_sources};
    ghost use Rattle.run_objects.specs.Objects.{AreUncalled, seats_of};
    ghost use Rattle.world_workers.specs.declared.fault.RunFault.TheVariants as fault;
    ghost use Rattle.machine_rounds.specs.Runs.{IsGoingOn, IsRefused, MadeNothing, IsLastLook, entries_made};
    ghost use Rattle.machine_rounds.specs.Tries.{AfterAsking};
    ghost use Rattle.machine_rounds.specs.JobsOf.{first_jobs};

    /// A run of these parts, in which nothing is done yet.
    fn of_components(
        machine: &'m Machine,
        table: EventTable,
        seated: SeatedCore<'m>,
        sources: Vec<SeatedSource>,
        jobs: Jobs<'m>,
        waiters: Waiters,
    ) -> Self
        requires accepted { IsAccepted machine.now }
        requires core { seated.core ≡ record { machine = machine.now; past = [] } }
        requires table { seated.seat.table_id ≡ table.cells.shared.table_id }
        requires count { vec_len sources ≡ length machine.now.sources + 1 }
        requires sources { AreUncalled sources.items }
        requires seats { AreNew seated.seat (seats_of sources.items) }
        requires jobs { jobs ≡ first_jobs machine.now }
        ensures { result.machine ≡ machine.now }
    {
        Run {
            machine,
            table,
            seated,
            sources,
            jobs,
            floor: Stamp { pos: 0, tick: 0 },
            waiters,
        }
    }

    /// A run in which nothing is done yet.
    pub fn new(alloc: Global, plans: &'m MachinePlans<'_>, links: Links) -> Result<Self, Mem>
        requires accepted { IsAccepted plans.now }
        requires links { links ≡ record { parents = parents_of plans.now.devices; links = reverse plans.now.links } }
        ensures { IfOk result (λ run. run.machine ≡ plans.now) }
    {
        let machine = plans.machine();
        let Ok(core) = Core::new(alloc, plans, links) else {
            return Err(Mem);
        };
        let Ok(jobs) = Jobs::new(alloc, plans) else {
            return Err(drop_for_mem(core));
        };
        let Ok(waiters) = all_waiters(alloc, machine) else {
            return Err(drop_for_mem((core, jobs)));
        };
        let Ok((table, sources, look)) = seated_sources(alloc, machine.sources.len() as u32 + 1)
        else {
            return Err(drop_for_mem((core, jobs, waiters)));
        };
        let seated = SeatedCore::new(core, look);
        Ok(Run::of_components(machine, table, seated, sources, jobs, waiters))
    }

    /// The machine's core.
    #[inline(always)]
    pub(crate) fn core(&self) -> &Core<'m>
        ensures is { result.now ≡ record { machine = self.now.machine; past = self.now.journal } }
        ensures kept { IsGoingOn self.now }
    {
        self.seated.core()
    }

    /// The event word, at or after all that was made.
    #[inline(always)]
    pub(crate) fn look<R: Wait>(&mut self, rt: &R) -> EventNow
        ensures same { MadeNothing self.old self.new }
        ensures seen { IsLastLook self.new result }
    {
        self.seated.word(rt, &self.table, self.floor.pos)
    }

    /// An actor makes the call on a source that is next, as a whole: its note, and all steps that it makes.
    /// `Mem` only if the source has room left for it.
    pub(crate) fn call<R: Wait>(
        &mut self,
        rt: &R,
        who: Actor,
        source: u32,
        call: SourceCall,
    ) -> Result<(), RunFault>
        requires actor { IsActor self.old.machine who }
        requires next { CallsNext self.old.machine self.old.journal self.old.sources who source call }
        ensures machine { self.new.machine ≡ self.old.machine }
        ensures made { OnOk result (entries_made self.old < entries_made self.new) }
        ensures fault { IfErr result (IsRefused self.new) }
        ensures want { result ≡ Err fault.Mem → length (of_sources self.old.sources source) + 4 ≤ most_entries }
    {
        let by = CallBy {
            actor: who,
            floor: self.floor,
            now: self.core().time(),
        };
        moments_are_ranged(by.now);
        calls_are_ranged(source, call);
        let one = &mut self.sources[source as usize];
        match one.call(rt, &self.table, by, call) {
            Ok(stamp) => {
                self.floor = stamp;
                self.jobs.told_source(who, stamp);
                self.waiters.wake_for_word();
                Ok(())
            }
            Err(fault) => Err(RunFault::of_call(fault, source)),
        }
    }

    /// The timer of a source ends the event in progress, whose moment has come. Refuses as `call`.
    pub(crate) fn expire<R: Wait>(&mut self, rt: &R, source: u32) -> Result<(), RunFault>
        requires there { source ≤ length self.old.machine.sources }
        requires due { has_expired (expiry (histories self.old.sources source)) (time_of (entries self.old.journal)) ≡ true }
        ensures machine { self.new.machine ≡ self.old.machine }
        ensures made { OnOk result (entries_made self.old < entries_made self.new) }
        ensures fault { IfErr result (IsRefused self.new) }
        ensures want { result ≡ Err fault.Mem → length (of_sources self.old.sources source) + 4 ≤ most_entries }
    {
        let by = CallBy {
            actor: Actor::Timer(source),
            floor: self.floor,
            now: self.core().time(),
        };
        moments_are_ranged(by.now);
        let one = &mut self.sources[source as usize];
        match one.call(rt, &self.table, by, SourceCall::Expire) {
            Ok(stamp) => {
                self.floor = stamp;
                self.waiters.wake_for_word();
                Ok(())
            }
            Err(fault) => Err(RunFault::of_call(fault, source)),
        }
    }

    /// Wakes those that waited for a device, which is done with that phase and has nothing to do itself.
    #[inline(always)]
    fn wake_after_end(&mut self, phase: Phase, device: u32)
        ensures { self.new ≡ self.old }
    {
        self.waiters.wake_maker(device);
        if !self.waiters.are_in_step() {
            self.waiters.device_waits(device);
            let waiting = waiting_for(self.seated.core(), phase, device);
            wake_ready(self.seated.core(), &mut self.waiters, phase, waiting);
        }
    }

    /// Wakes a device that was scheduled in that phase, unless it waits for another.
    #[inline(never)]
    fn wake_scheduled(&mut self, phase: Phase, device: u32)
        ensures { self.new ≡ self.old }
    {
        wake_if_ready(self.seated.core(), &mut self.waiters, phase, device);
    }

    /// A script that has begun to sleep is not asked again before its sleep ends.
    #[inline(always)]
    fn sleeps_until(&mut self, who: Actor, until: u64)
        ensures { self.new ≡ self.old }
    {
        if until > self.core().time() {
            self.waiters.sleeps(who);
        }
    }

    /// Wakes those that may have something to do by an actor's entry.
    #[inline(always)]
    pub(crate) fn wake_after(&mut self, who: Actor, kind: Kind)
        ensures { self.new ≡ self.old }
    {
        match kind {
            Kind::Schedule(phase, device) => self.wake_scheduled(phase, device),
            Kind::End(phase, device, _) | Kind::Skip(phase, device, _) => {
                self.wake_after_end(phase, device);
            }
            Kind::Post(mark) => {
                let scripts = self.machine.actors.len() as u32;
                self.waiters.call_for_mark(who, mark, scripts);
            }
            Kind::Over { .. } | Kind::AutoDone | Kind::AutoOff => {
                let scripts = self.machine.actors.len() as u32;
                self.waiters.wake_for_lock(who, scripts);
            }
            Kind::Freeze(_) | Kind::Thaw(_) | Kind::Wake { .. } => self.waiters.wake_scripts(),
            Kind::Frozen | Kind::Exit => self.waiters.wake_for_word(),
            Kind::Sleep(until) | Kind::SleepD(until) => self.sleeps_until(who, until),
            _ => {}
        }
    }

    /// A turn of an actor that has made its calls. What it made comes after all entries.
    #[inline(always)]
    pub(crate) fn turn<R: Wait>(&mut self, rt: &R, who: Actor) -> Result<TurnOutcome, RunFault>
        requires actor { IsActor self.old.machine who }
        requires calls { calls_made self.old.machine self.old.sources who ≡ calls_due self.old.machine who (entries self.old.journal) }
        ensures machine { self.new.machine ≡ self.old.machine }
        ensures after { AfterAsking self.old self.new result }
    {
        // A journal is shorter than 2^63, so the job's number of turns stays in its range.
        let _made = self.core().len();
        let calls = self.jobs.calls(who);
        let time = self.core().time();
        let turn = self
            .seated
            .turn(rt, &self.table, who, calls, self.floor, time)?;
        match turn {
            CoreTurn::Did {
                stamp,
                kind,
                attempt,
            } => {
                // What the fields are makes known here that their numbers are in range.
                moments_are_ranged(time);
                kinds_are_ranged(kind);
                self.floor = stamp;
                self.jobs.told_core(who, stamp, kind, attempt);
                self.wake_after(who, kind);
                Ok(TurnOutcome::Made)
            }
            CoreTurn::NotYet(why) => Ok(TurnOutcome::Waits(Some(why))),
            CoreTurn::Done => Ok(TurnOutcome::Exited),
        }
    }
}
