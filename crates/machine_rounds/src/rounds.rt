//! Rounds over the actors, and what comes after them.

use crate::after_idle_round::EndOfRun;
use crate::run::Run;
use sleep_model::{Actor, Want, Why};
use std::sync::Wait;
use world_workers::{RunFault, TurnOutcome};

impl<'m> Run<'m> {
    ghost use Rattle.std.specs.Prelude.{◌≡◌, ◌≤◌, ◌<◌, length, IfSome};
    ghost use Rattle.sleep_core.specs.Cores.{IsActor};
    ghost use Rattle.machine_rounds.specs.Runs.{MadeNothing, AfterTry, AfterRounds, AfterStretches};
    ghost use Rattle.machine_rounds.specs.Tries.{AfterAsking};

    /// An actor's try in a round: its next call on a source, else its turn. What the core answers to a turn.
    #[inline(always)]
    fn ask<R: Wait>(&mut self, rt: &R, who: Actor) -> Result<TurnOutcome, RunFault>
        requires { IsActor self.old.machine who }
        ensures machine { self.new.machine ≡ self.old.machine }
        ensures after { AfterAsking self.old self.new result }
    {
        match self.jobs.next(who) {
            Want::Source(source, call) => {
                self.call(rt, who, source, call)?;
                self.wake_readers(rt);
                Ok(TurnOutcome::Made)
            }
            Want::Core => self.turn(rt, who),
            Want::Nothing => Ok(TurnOutcome::Exited),
        }
    }

    /// An actor that was woken for the autosleep lock has had its try.
    fn pass_lock(&mut self, who: Actor, tried: &TurnOutcome)
        ensures { self.new ≡ self.old }
    {
        let scripts = self.machine.actors.len() as u32;
        let is_held = matches!(tried, TurnOutcome::Waits(Some(Why::LockHeld)));
        self.waiters.had_lock_turn(who, is_held, scripts);
    }

    /// An actor that was called for a mark has had its try. If the mark is raised yet, the next one is
    /// called.
    #[inline(never)]
    fn pass_mark(&mut self, who: Actor, mark: u32)
        ensures { self.new ≡ self.old }
    {
        if self.core().raised(mark) > 0 {
            let scripts = self.machine.actors.len() as u32;
            self.waiters.call_for_mark(who, mark, scripts);
        }
    }

    /// Wakes the readers of the count, if no event is in progress.
    #[inline(always)]
    pub(crate) fn wake_readers<R: Wait>(&mut self, rt: &R)
        ensures { MadeNothing self.old self.new }
    {
        if self.waiters.has_readers() && self.look(rt).inpr == 0 {
            self.waiters.wake_readers();
        }
    }

    /// The try of an actor by the rules for all actors. It is not asked again until something may have ended
    /// its wait. Whether entries were made. It stays out of line, so that the tries that come often do not
    /// pay for it.
    #[inline(never)]
    pub(crate) fn ask_once<R: Wait>(&mut self, rt: &R, who: Actor) -> Result<bool, RunFault>
        requires { IsActor self.old.machine who }
        ensures machine { self.new.machine ≡ self.old.machine }
        ensures after { AfterTry self.old self.new result }
    {
        let tried = self.ask(rt, who)?;
        if self.waiters.has_lock_turn(who) {
            self.pass_lock(who, &tried);
        }
        if let Some(mark) = self.waiters.take_call(who) {
            self.pass_mark(who, mark);
        }
        match tried {
            TurnOutcome::Made => Ok(true),
            TurnOutcome::Waits(Some(why)) => {
                self.waiters.waits(who, why);
                Ok(false)
            }
            TurnOutcome::Waits(None) => Ok(false),
            TurnOutcome::Exited => {
                self.waiters.is_exited(who);
                Ok(false)
            }
        }
    }

    /// The first script from a number on that may have something to do.
    #[inline(always)]
    fn next_script(&self, from: u32) -> Option<u32>
        ensures { IfSome result (λ n. n < length self.now.machine.actors) }
    {
        let scripts = self.machine.actors.len() as u32;
        self.waiters.next_script(from, scripts)
    }

    /// The first device from a number on that may have something to do.
    #[inline(always)]
    pub(crate) fn next_device(&self, from: u32) -> Option<u32>
        ensures { IfSome result (λ n. n < length self.now.machine.devices) }
    {
        let devices = self.machine.devices.len() as u32;
        self.waiters.next_device(from, devices)
    }

    /// The tries of the scripts that may have something to do, in order. If one of them is the only actor
    /// that may, it is asked on: each such try is a round of its own. Whether entries were made.
    #[inline(always)]
    fn ask_scripts<R: Wait>(&mut self, rt: &R) -> Result<bool, RunFault>
        ensures machine { self.new.machine ≡ self.old.machine }
        ensures after { AfterTry self.old self.new result }
    {
        let mut made = false;
        let mut next = self.next_script(0);
        for _ in 0..u64::MAX {
            let Some(script) = next else {
                break;
            };
            let who = Actor::Script(script);
            // `ask_maker` asks the maker of an attempt on itself, while nobody else may have something to do.
            let is_maker = self.core().is_maker(who);
            made = self.ask_script(rt, script)? | made;
            if is_maker || !self.waiters.is_alone(who) {
                next = self.next_script(script.saturating_add(1));
            }
        }
        Ok(made)
    }

    /// The tries of the autosleep work, while it may have something to do and nobody else. Whether entries
    /// were made.
    #[inline(never)]
    fn ask_auto<R: Wait>(&mut self, rt: &R) -> Result<bool, RunFault>
        ensures machine { self.new.machine ≡ self.old.machine }
        ensures after { AfterTry self.old self.new result }
    {
        let mut made = false;
        for _ in 0..u64::MAX {
            made = self.ask_once(rt, Actor::Auto)? | made;
            if !self.waiters.is_alone(Actor::Auto) {
                break;
            }
        }
        Ok(made)
    }

    /// The tries of the scripts, the autosleep work and the devices that may have something to do, in order.
    /// Whether entries were made.
    #[inline(always)]
    fn ask_actors<R: Wait>(&mut self, rt: &R) -> Result<bool, RunFault>
        ensures machine { self.new.machine ≡ self.old.machine }
        ensures after { AfterTry self.old self.new result }
    {
        let by_script = self.ask_scripts(rt)?;
        let by_task = if self.waiters.asks_auto() {
            self.ask_auto(rt)? | by_script
        } else {
            by_script
        };
        if !self.waiters.asks_devices() {
            return Ok(by_task);
        }
        let by_device = self.ask_devices(rt)? | by_task;
        Ok(by_device)
    }

    /// The try of a source's timer: it makes a call if its moment has come.
    fn ask_timer<R: Wait>(&mut self, rt: &R, source: u32) -> Result<bool, RunFault>
        requires { source ≤ length self.old.machine.sources }
        ensures machine { self.new.machine ≡ self.old.machine }
        ensures after { AfterTry self.old self.new result }
    {
        if self.has_expired(source) {
            self.expire(rt, source)?;
            self.wake_readers(rt);
            Ok(true)
        } else {
            Ok(false)
        }
    }

    /// The tries of all timers, by their sources. Whether entries were made.
    fn ask_all_timers<R: Wait>(&mut self, rt: &R) -> Result<bool, RunFault>
        ensures machine { self.new.machine ≡ self.old.machine }
        ensures after { AfterTry self.old self.new result }
    {
        let mut made = false;
        for source in 0..self.sources() {
            made = self.ask_timer(rt, source)? | made;
        }
        Ok(made)
    }

    /// The tries of the timers, which are not asked again until time has jumped if none was due. Whether
    /// entries were made.
    #[inline(never)]
    fn ask_timers<R: Wait>(&mut self, rt: &R) -> Result<bool, RunFault>
        ensures machine { self.new.machine ≡ self.old.machine }
        ensures after { AfterTry self.old self.new result }
    {
        let made = self.ask_all_timers(rt)?;
        if !made {
            self.waiters.timers_wait();
        }
        Ok(made)
    }

    /// One round: each actor that may have something to do gets one try, the scripts first, then the
    /// autosleep work, the devices and the timers. Whether entries were made.
    #[inline(always)]
    fn round<R: Wait>(&mut self, rt: &R) -> Result<bool, RunFault>
        ensures machine { self.new.machine ≡ self.old.machine }
        ensures after { AfterTry self.old self.new result }
    {
        if self.waiters.asks_nobody() {
            return Ok(false);
        }
        let by_actor = self.ask_actors(rt)?;
        if self.waiters.asks_timers() {
            let by_timer = self.ask_timers(rt)? | by_actor;
            return Ok(by_timer);
        }
        Ok(by_actor)
    }

    /// Rounds for as long as each makes entries, `most` at most. Whether the last one did.
    fn rounds<R: Wait>(&mut self, rt: &R, most: u64) -> Result<bool, RunFault>
        ensures machine { self.new.machine ≡ self.old.machine }
        ensures after { AfterRounds self.old self.new result }
    {
        let mut made = false;
        for _ in 0..most {
            if !self.round(rt)? {
                return Ok(false);
            }
            made = true;
        }
        Ok(made)
    }

    /// A stretch: rounds, and if the last one made no entry what comes then, an entry or the end of the run.
    /// How the run is over, if it is.
    pub(crate) fn stretch<R: Wait>(
        &mut self,
        rt: &R,
        most: u64,
    ) -> Result<Option<EndOfRun>, RunFault>
        ensures machine { self.new.machine ≡ self.old.machine }
        ensures after { AfterStretches 1 self.old self.new result }
    {
        if self.rounds(rt, most)? {
            return Ok(None);
        }
        self.after_idle_round(rt)
    }
}
