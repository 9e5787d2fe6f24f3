//! Who can go on after a round that did nothing: its next entry is made by the word that was looked at.

use crate::run::Run;
use room_laws::{kinds_are_ranged, moments_are_ranged};
use sleep_core::CoreTurn;
use sleep_model::{Actor, EventNow, Want};
use std::sync::Wait;
use world_workers::RunFault;

impl<'m> Run<'m> {
    ghost use Rattle.std.specs.Bool.{OnTrue};
    ghost use Rattle.std.specs.Prelude.{◌≡◌, ◌≤◌, ◌<◌, ◌+◌, true, length, IfSome, IfNone, OnOk, IfErr};
    ghost use Rattle.sleep_model.specs.declared.entry.Actor.TheVariants.{Script, Auto, Dev};
    ghost use Rattle.sleep_model.specs.Calls.{calls_due};
    ghost use Rattle.sleep_model.specs.Due.{due};
    ghost use Rattle.sleep_model.specs.Legal.{is_enabled, is_made, next_expiry, none_enabled, none_expires};
    ghost use Rattle.sleep_model.specs.Numbers.{time_of};
    ghost use Rattle.sleep_model.specs.Sources.{expiry, has_expired};
    ghost use Rattle.sleep_state.specs.JournalRooms.{entries};
    ghost use Rattle.sleep_core.specs.Cores.{IsActor};
    ghost use Rattle.running_laws.specs.Running.{calls_made, histories};
    ghost use Rattle.machine_rounds.specs.Runs.{AfterGoing, CanGoOn, IsQuiescent, IsRefused, IsLastLook, actors_idle, entries_made};

    /// Whether the run is quiescent: nobody has a call on a source to make, and no attempt is open.
    fn is_quiescent(&self) -> bool
        ensures { OnTrue result (IsQuiescent self.now) }
    {
        self.jobs.owe_none() && !self.core().is_open()
    }

    /// Whether a script can make anything that sees this word. If the run is quiescent, none can that has
    /// exited or sleeps on.
    #[inline(always)]
    fn may_go(&self, quiescent: bool, script: u32, word: EventNow) -> bool
        requires quiescent { OnTrue quiescent (IsQuiescent self.now) }
        requires script { script < length self.now.machine.actors }
        ensures { result ≡ is_enabled self.now.machine (entries self.now.journal) (histories self.now.sources) word (Script script) }
    {
        if quiescent && self.core().is_stopped(script) {
            return false;
        }
        self.is_enabled(Actor::Script(script), word)
    }

    /// The first script that can make something that sees this word. If the run is quiescent and all scripts
    /// are stopped, none is asked.
    fn enabled_script(&self, quiescent: bool, word: EventNow) -> Option<Actor>
        requires { OnTrue quiescent (IsQuiescent self.now) }
        ensures one { IfSome result (CanGoOn self.now word) }
        ensures none { IfNone result (none_enabled self.now.machine (entries self.now.journal) (histories self.now.sources) word Script (length self.now.machine.actors) ≡ true) }
    {
        if quiescent && self.core().are_stopped() {
            return None;
        }
        for script in 0..self.machine.actors.len() as u32 {
            if self.may_go(quiescent, script, word) {
                return Some(Actor::Script(script));
            }
        }
        None
    }

    /// The first device that can. If the run is quiescent, none can.
    fn enabled_device(&self, quiescent: bool, word: EventNow) -> Option<Actor>
        requires { OnTrue quiescent (IsQuiescent self.now) }
        ensures one { IfSome result (CanGoOn self.now word) }
        ensures none { IfNone result (none_enabled self.now.machine (entries self.now.journal) (histories self.now.sources) word Dev (length self.now.machine.devices) ≡ true) }
    {
        // A look at the field makes the invariant known here: the entries are legal.
        let _ = &self.machine;
        if quiescent {
            return None;
        }
        for device in 0..self.machine.devices.len() as u32 {
            if self.is_enabled(Actor::Dev(device), word) {
                return Some(Actor::Dev(device));
            }
        }
        None
    }

    /// Whether the autosleep work can make anything that sees this word. If the run is quiescent, it cannot
    /// while it rests and is not queued.
    #[inline(always)]
    fn may_work(&self, quiescent: bool, word: EventNow) -> bool
        requires { OnTrue quiescent (IsQuiescent self.now) }
        ensures { result ≡ is_enabled self.now.machine (entries self.now.journal) (histories self.now.sources) word Auto }
    {
        if quiescent && self.core().is_unqueued() {
            return false;
        }
        self.is_enabled(Actor::Auto, word)
    }

    /// The first of the scripts, the autosleep work and the devices that can.
    fn enabled_actor(&self, word: EventNow) -> Option<Actor>
        ensures one { IfSome result (CanGoOn self.now word) }
        ensures none { IfNone result (actors_idle self.now word ≡ true) }
    {
        let quiescent = self.is_quiescent();
        match self.enabled_script(quiescent, word) {
            Some(who) => Some(who),
            None if self.may_work(quiescent, word) => Some(Actor::Auto),
            None => self.enabled_device(quiescent, word),
        }
    }

    /// The first source whose event in progress is to end now, each source being asked.
    #[inline(never)]
    fn expired_source(&self) -> Option<u32>
        ensures there { IfSome result (λ s. s ≤ length self.now.machine.sources) }
        ensures due { IfSome result (λ s. has_expired (expiry (histories self.now.sources s)) (time_of (entries self.now.journal)) ≡ true) }
        ensures none { IfNone result (none_expires (length self.now.machine.sources + 1) (histories self.now.sources) (time_of (entries self.now.journal)) ≡ true) }
    {
        for source in 0..self.sources() {
            if self.has_expired(source) {
                return Some(source);
            }
        }
        None
    }

    /// The first source whose event in progress is to end now, if `soonest` is their least expiry. Most often
    /// none is due, and so none is asked.
    fn first_expired(&self, soonest: Option<u64>) -> Option<u32>
        requires { soonest ≡ next_expiry (length self.now.machine.sources + 1) (histories self.now.sources) }
        ensures there { IfSome result (λ s. s ≤ length self.now.machine.sources) }
        ensures due { IfSome result (λ s. has_expired (expiry (histories self.now.sources s)) (time_of (entries self.now.journal)) ≡ true) }
        ensures none { IfNone result (none_expires (length self.now.machine.sources + 1) (histories self.now.sources) (time_of (entries self.now.journal)) ≡ true) }
    {
        match soonest {
            Some(at) if at <= self.time() => self.expired_source(),
            _ => None,
        }
    }

    /// A turn of an actor that has made its calls and of which something is due, by the word that was looked
    /// at last. What it made comes after all entries.
    fn turn_by<R: Wait>(&mut self, rt: &R, who: Actor, word: EventNow) -> Result<(), RunFault>
        requires actor { IsActor self.old.machine who }
        requires calls { calls_made self.old.machine self.old.sources who ≡ calls_due self.old.machine who (entries self.old.journal) }
        requires seen { IsLastLook self.old word }
        requires due { is_made (due self.old.machine (entries self.old.journal) who word) ≡ true }
        ensures machine { self.new.machine ≡ self.old.machine }
        ensures made { OnOk result (entries_made self.old < entries_made self.new) }
        ensures fault { IfErr result (IsRefused self.new) }
    {
        // A journal is shorter than 2^63, so the job's number of turns stays in its range.
        let _made = self.core().len();
        let calls = self.jobs.calls(who);
        let time = self.core().time();
        let turn = self.seated.turn_by(rt, word, who, calls, self.floor, time)?;
        match turn {
            CoreTurn::Did {
                stamp,
                kind,
                attempt,
            } => {
                // What the fields are makes known here that their numbers are in range.
                moments_are_ranged(time);
                kinds_are_ranged(kind);
                self.floor = stamp;
                self.jobs.told_core(who, stamp, kind, attempt);
                self.wake_after(who, kind);
                Ok(())
            }
            CoreTurn::NotYet(_) | CoreTurn::Done => unreachable!(),
        }
    }

    /// The next entry of an actor that can go on: its next call on a source, else its turn by that word.
    fn act_by<R: Wait>(&mut self, rt: &R, who: Actor, word: EventNow) -> Result<(), RunFault>
        requires can { CanGoOn self.old word who }
        requires seen { IsLastLook self.old word }
        ensures machine { self.new.machine ≡ self.old.machine }
        ensures made { OnOk result (entries_made self.old < entries_made self.new) }
        ensures fault { IfErr result (IsRefused self.new) }
    {
        match self.jobs.next(who) {
            Want::Source(source, call) => self.call(rt, who, source, call),
            Want::Core | Want::Nothing => self.turn_by(rt, who, word),
        }
    }

    /// The next entry of the first who can go on by the word that was looked at last, if anybody can. All
    /// actors are asked again after it. Whether it was made. `soonest` is the least expiry of the sources.
    pub(crate) fn go_by<R: Wait>(
        &mut self,
        rt: &R,
        word: EventNow,
        soonest: Option<u64>,
    ) -> Result<bool, RunFault>
        requires seen { IsLastLook self.old word }
        requires soonest { soonest ≡ next_expiry (length self.old.machine.sources + 1) (histories self.old.sources) }
        ensures machine { self.new.machine ≡ self.old.machine }
        ensures after { AfterGoing self.old self.new word result }
    {
        if let Some(who) = self.enabled_actor(word) {
            self.waiters.wake_all();
            self.act_by(rt, who, word)?;
            return Ok(true);
        }
        if let Some(source) = self.first_expired(soonest) {
            self.waiters.wake_all();
            self.expire(rt, source)?;
            return Ok(true);
        }
        Ok(false)
    }
}
