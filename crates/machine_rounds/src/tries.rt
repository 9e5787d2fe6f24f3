//! Tries of the kinds that come often: a callback of a device, a step of a walk over devices, a sleep. Each
//! kind of entry has code of its own, so that it pays for no other. `Run::ask_once` has the rules for all
//! actors.

ghost use Rattle.std.specs.Prelude.{◌≡◌, ◌<◌, false, length, IfSome, OnOk, IfErr};
ghost use Rattle.std.specs.Bool.{OnTrue};
ghost use Rattle.sleep_model.specs.declared.progress.Due.TheVariants.{Makes};
ghost use Rattle.sleep_model.specs.Due.{due};
ghost use Rattle.sleep_model.specs.Path.{is_actor, maker};
ghost use Rattle.sleep_state.specs.JournalRooms.{entries};
ghost use Rattle.sleep_core.specs.Cores.{IsActor};
ghost use Rattle.core_history.specs.Histories.{IsOfDevice, IsOfNone};
ghost use Rattle.machine_rounds.specs.Runs.{AfterTry, IsLastLook, IsRefused, MadeNothing, entries_made};
ghost use Rattle.machine_rounds.specs.Tries.{AfterStep, AfterWalk, HasCalled};

use crate::run::Run;
use room_laws::{kinds_are_ranged, moments_are_ranged};
use sleep_model::{Actor, AsyncWork, Due, EventNow, Kind, Want};
use std::sync::Wait;
use world_workers::RunFault;

/// What came of a step of a walk over devices.
#[derive(Clone, Copy)]
pub(crate) enum WalkStep {
    /// It made an entry that wakes nobody.
    Made,
    /// It made an entry by which others may have something to do.
    Wakes,
    /// It waits, and made nothing.
    Waits,
}

impl<'m> Run<'m> {
    /// Whether an actor has made its calls on sources, so that a turn of the core is next.
    #[inline(always)]
    fn has_called(&self, who: Actor) -> bool
        requires { IsActor self.now.machine who }
        ensures { OnTrue result (HasCalled self.now who) }
    {
        matches!(self.jobs.next(who), Want::Core)
    }

    /// Makes the entry of a device that is due of an actor, by the word that was looked at last.
    #[inline(always)]
    fn make_device<R: Wait>(&mut self, rt: &R, who: Actor, word: EventNow, kind: Kind)
        requires actor { IsActor self.old.machine who }
        requires calls { HasCalled self.old who }
        requires seen { IsLastLook self.old word }
        requires device { IsOfDevice kind }
        requires due { due self.old.machine (entries self.old.journal) who word ≡ Makes kind }
        ensures machine { self.new.machine ≡ self.old.machine }
        ensures seen { IsLastLook self.new word }
        ensures made { entries_made self.old < entries_made self.new }
    {
        // A journal is shorter than 2^63, so the job's number of turns stays in its range.
        let _made = self.core().len();
        let calls = self.jobs.calls(who);
        // What the fields are makes known here that their numbers are in range.
        moments_are_ranged(self.core().time());
        kinds_are_ranged(kind);
        let stamp = self
            .seated
            .make_of_device(rt, who, word, kind, calls, self.floor);
        let attempt = self.seated.core().attempts();
        self.floor = stamp;
        self.jobs.told_core(who, stamp, kind, attempt);
        self.wake_after(who, kind);
    }

    /// Begins the callback that is due of an actor, or has it wait, by the word that was looked at last.
    /// Whether it made an entry; `None` if something else is due.
    #[inline(always)]
    fn begin_turn<R: Wait>(&mut self, rt: &R, who: Actor, word: EventNow, next: Due) -> Option<bool>
        requires actor { IsActor self.old.machine who }
        requires calls { HasCalled self.old who }
        requires seen { IsLastLook self.old word }
        requires due { next ≡ due self.old.machine (entries self.old.journal) who word }
        ensures machine { self.new.machine ≡ self.old.machine }
        ensures seen { IsLastLook self.new word }
        ensures after { AfterWalk self.old self.new result }
    {
        match next {
            Due::Makes(Kind::Begin(phase, device)) => {
                self.make_device(rt, who, word, Kind::Begin(phase, device));
                Some(true)
            }
            Due::Waits(why) => {
                self.waiters.waits(who, why);
                Some(false)
            }
            _ => None,
        }
    }

    /// Ends the callback that a device's own work runs, by the word that was looked at last. `None` if
    /// something else is due.
    #[inline(always)]
    fn end_turn<R: Wait>(&mut self, rt: &R, who: Actor, word: EventNow, next: Due) -> Option<bool>
        requires actor { IsActor self.old.machine who }
        requires calls { HasCalled self.old who }
        requires seen { IsLastLook self.old word }
        requires due { next ≡ due self.old.machine (entries self.old.journal) who word }
        ensures machine { self.new.machine ≡ self.old.machine }
        ensures seen { IsLastLook self.new word }
        ensures after { AfterWalk self.old self.new result }
    {
        match next {
            Due::Makes(Kind::End(phase, device, r)) => {
                self.make_device(rt, who, word, Kind::End(phase, device, r));
                Some(true)
            }
            _ => None,
        }
    }

    /// The next step of a walk over devices, by the word that was looked at last. Each kind that walks have
    /// most of has code of its own. `None` if it is of another kind.
    #[inline(always)]
    fn walk_turn<R: Wait>(
        &mut self,
        rt: &R,
        who: Actor,
        word: EventNow,
        next: Due,
    ) -> Option<WalkStep>
        requires actor { IsActor self.old.machine who }
        requires calls { HasCalled self.old who }
        requires seen { IsLastLook self.old word }
        requires due { next ≡ due self.old.machine (entries self.old.journal) who word }
        ensures machine { self.new.machine ≡ self.old.machine }
        ensures seen { IsLastLook self.new word }
        ensures after { AfterStep self.old self.new result }
    {
        match next {
            Due::Makes(Kind::Schedule(phase, device)) => {
                self.make_device(rt, who, word, Kind::Schedule(phase, device));
                Some(WalkStep::Wakes)
            }
            Due::Makes(Kind::Prepare { device, r }) => {
                self.make_device(rt, who, word, Kind::Prepare { device, r });
                Some(WalkStep::Made)
            }
            Due::Makes(Kind::Complete(device)) => {
                self.make_device(rt, who, word, Kind::Complete(device));
                Some(WalkStep::Made)
            }
            _ => match self.begin_turn(rt, who, word, next) {
                Some(true) => Some(WalkStep::Made),
                Some(false) => Some(WalkStep::Waits),
                None => None,
            },
        }
    }

    /// The try of a device, by the word that was looked at last. Whether it made an entry; `None` if the try
    /// is to be made by the rules for all actors.
    #[inline(always)]
    fn device_try<R: Wait>(&mut self, rt: &R, device: u32, word: EventNow) -> Option<bool>
        requires device { device < length self.old.machine.devices }
        requires seen { IsLastLook self.old word }
        ensures machine { self.new.machine ≡ self.old.machine }
        ensures seen { IsLastLook self.new word }
        ensures after { AfterWalk self.old self.new result }
    {
        let who = Actor::Dev(device);
        if !self.has_called(who) {
            return None;
        }
        match self.core().async_work(device) {
            AsyncWork::Inside(phase) => {
                let due = self
                    .core()
                    .due_of_device(device, AsyncWork::Inside(phase), word);
                self.end_turn(rt, who, word, due)
            }
            AsyncWork::Scheduled(phase) => {
                let due = self
                    .core()
                    .due_of_device(device, AsyncWork::Scheduled(phase), word);
                self.begin_turn(rt, who, word, due)
            }
            AsyncWork::Idle => None,
        }
    }

    /// The tries of the devices that may have something to do, in order, by one look at the word for as long
    /// as nobody makes a step on it. Whether entries were made.
    #[inline(never)]
    pub(crate) fn ask_devices<R: Wait>(&mut self, rt: &R) -> Result<bool, RunFault>
        ensures machine { self.new.machine ≡ self.old.machine }
        ensures after { AfterTry self.old self.new result }
    {
        let mut word = self.look(rt);
        let mut made = false;
        let mut from = 0;
        for _ in 0..u64::MAX {
            let Some(device) = self.next_device(from) else {
                return Ok(made);
            };
            made = match self.device_try(rt, device, word) {
                Some(by_device) => by_device | made,
                None => {
                    let by_rules = self.ask_once(rt, Actor::Dev(device))?;
                    word = self.look(rt);
                    by_rules | made
                }
            };
            from = device.saturating_add(1);
        }
        Ok(made)
    }

    /// The try of a script that makes an attempt, if it is about devices, by the word that was looked at last.
    /// `None` if the try is to be made by the rules for all actors.
    #[inline(always)]
    fn walk_try<R: Wait>(&mut self, rt: &R, script: u32, word: EventNow) -> Option<WalkStep>
        requires script { script < length self.old.machine.actors }
        requires seen { IsLastLook self.old word }
        ensures machine { self.new.machine ≡ self.old.machine }
        ensures seen { IsLastLook self.new word }
        ensures after { AfterStep self.old self.new result }
    {
        let who = Actor::Script(script);
        if !self.has_called(who) || !self.core().is_maker(who) {
            return None;
        }
        if let Some((phase, device, r)) = self.core().callback_end(who, word) {
            self.make_device(rt, who, word, Kind::End(phase, device, r));
            return Some(WalkStep::Wakes);
        }
        let due = self.core().due_of(true, who, word);
        self.walk_turn(rt, who, word, due)
    }

    /// The tries of a script that makes an attempt, while it may have something to do and nobody else, by one
    /// look at the word for as long as nobody makes a step on it. Whether entries were made.
    #[inline(never)]
    fn ask_maker<R: Wait>(&mut self, rt: &R, script: u32) -> Result<bool, RunFault>
        requires { script < length self.old.machine.actors }
        ensures machine { self.new.machine ≡ self.old.machine }
        ensures after { AfterTry self.old self.new result }
    {
        let who = Actor::Script(script);
        let mut word = self.look(rt);
        let mut is_alone = self.waiters.is_alone(who);
        let mut made = false;
        for _ in 0..u64::MAX {
            match self.walk_try(rt, script, word) {
                Some(WalkStep::Made) => made = true,
                Some(WalkStep::Wakes) => {
                    made = true;
                    is_alone = self.waiters.is_alone(who);
                }
                Some(WalkStep::Waits) => is_alone = self.waiters.is_alone(who),
                None => {
                    made = self.ask_once(rt, who)? | made;
                    word = self.look(rt);
                    is_alone = self.waiters.is_alone(who);
                }
            }
            if !is_alone {
                break;
            }
        }
        Ok(made)
    }

    /// Makes the entry, of no device, that is due of an actor who makes no attempt, by the word that was
    /// looked at last.
    #[inline(always)]
    fn make_own<R: Wait>(
        &mut self,
        rt: &R,
        who: Actor,
        word: EventNow,
        kind: Kind,
    ) -> Result<(), RunFault>
        requires actor { IsActor self.old.machine who }
        requires calls { HasCalled self.old who }
        requires makes { is_actor who (maker (entries self.old.journal)) ≡ false }
        requires seen { IsLastLook self.old word }
        requires other { IsOfNone kind }
        requires due { due self.old.machine (entries self.old.journal) who word ≡ Makes kind }
        ensures machine { self.new.machine ≡ self.old.machine }
        ensures made { OnOk result (entries_made self.old < entries_made self.new) }
        ensures fault { IfErr result (IsRefused self.new) }
    {
        // A journal is shorter than 2^63, so the job's number of turns stays in its range.
        let _made = self.core().len();
        // What the fields are makes known here that their numbers are in range.
        moments_are_ranged(self.core().time());
        kinds_are_ranged(kind);
        let stamp = self.seated.make_own(rt, who, word, kind, self.floor)?;
        let attempt = self.seated.core().attempts();
        self.floor = stamp;
        self.jobs.told_core(who, stamp, kind, attempt);
        self.wake_after(who, kind);
        Ok(())
    }

    /// The try of a script that begins or ends a sleep. The two kinds have code of their own. Whether it made
    /// an entry; if it made none the try is to be made by the rules for all actors.
    #[inline(always)]
    fn sleep_try<R: Wait>(&mut self, rt: &R, script: u32) -> Result<bool, RunFault>
        requires { script < length self.old.machine.actors }
        ensures machine { self.new.machine ≡ self.old.machine }
        ensures after { AfterTry self.old self.new result }
    {
        let who = Actor::Script(script);
        if !self.has_called(who) {
            return Ok(false);
        }
        let word = self.look(rt);
        match self.core().sleep_step(script, word) {
            Some(Kind::Sleep(until)) => self.make_own(rt, who, word, Kind::Sleep(until))?,
            Some(Kind::Slept) => self.make_own(rt, who, word, Kind::Slept)?,
            _ => return Ok(false),
        }
        Ok(true)
    }

    /// The try of an actor that has a call on a source to make. Whether it made the call; if it has none to
    /// make it did nothing.
    #[inline(always)]
    fn call_try<R: Wait>(&mut self, rt: &R, who: Actor) -> Result<bool, RunFault>
        requires { IsActor self.old.machine who }
        ensures machine { self.new.machine ≡ self.old.machine }
        ensures after { AfterTry self.old self.new result }
    {
        match self.jobs.next(who) {
            Want::Source(source, call) => {
                self.call(rt, who, source, call)?;
                self.wake_readers(rt);
                Ok(true)
            }
            _ => Ok(false),
        }
    }

    /// The try of a script. Whether it made entries.
    #[inline(always)]
    pub(crate) fn ask_script<R: Wait>(&mut self, rt: &R, script: u32) -> Result<bool, RunFault>
        requires { script < length self.old.machine.actors }
        ensures machine { self.new.machine ≡ self.old.machine }
        ensures after { AfterTry self.old self.new result }
    {
        let who = Actor::Script(script);
        if self.core().is_maker(who) {
            return self.ask_maker(rt, script);
        }
        if self.call_try(rt, who)? {
            return Ok(true);
        }
        if self.sleep_try(rt, script)? {
            return Ok(true);
        }
        self.ask_once(rt, who)
    }
}
