//! Turns in two parts: what is due of an actor, and the entry that is made of it. So a caller that has found
//! the kind of an entry pays for that kind alone (`drivers/base/power/main.c`, `dpm_suspend`,
//! `async_suspend`).

ghost use Rattle.std.specs.Prelude.{◌≡◌, ◌<◌, ◌^◌, true, false, length, is_some, IfSome, IfOk, OnErr};
ghost use Rattle.sleep_model.specs.declared.entry.Actor.TheVariants.{Dev, Script};
ghost use Rattle.sleep_model.specs.declared.entry.Kind.TheVariants.{End};
ghost use Rattle.sleep_model.specs.declared.progress.Due.TheVariants.{Makes};
ghost use Rattle.sleep_model.specs.Calls.{calls_due};
ghost use Rattle.sleep_model.specs.Devices.{async_work};
ghost use Rattle.sleep_model.specs.Due.{due};
ghost use Rattle.sleep_model.specs.Legal.{JournalPart};
ghost use Rattle.sleep_model.specs.Path.{is_actor, maker};
ghost use Rattle.sleep_state.specs.JournalRooms.{entries};
ghost use Rattle.sleep_core.specs.Cores.{IsActor, core_after, made_entry, next_stamp};
ghost use Rattle.sleep_core.specs.Stages.{runs_callback};
ghost use Rattle.sleep_core.specs.Steps.{is_sleep_due};
ghost use Rattle.core_history.specs.Histories.{IsOfDevice, IsOfNone};

use crate::state::Core;
use crate::turns::CoreFault;
use sleep_base::Errno;
use sleep_model::{Actor, AsyncWork, Due, EventNow, Kind, Phase, Stage, Stamp};
use std::sync::Wait;

impl<'m> Core<'m> {
    /// The entry by which a script that makes no attempt begins or ends a sleep, if that is due of it, no
    /// freeze is about, and the machine is awake. `None` exactly if not. The word is an argument for the
    /// clauses only.
    #[inline(always)]
    pub fn sleep_step(&self, script: u32, now: EventNow) -> Option<Kind>
        requires { script < length self.now.machine.actors }
        ensures makes { IfSome result (λ _. is_actor (Script script) (maker (entries self.now.past)) ≡ false) }
        ensures due { IfSome result (λ kind. due self.now.machine (entries self.now.past) (Script script) now ≡ Makes kind) }
        ensures step { is_some result ≡ is_sleep_due self.now.machine (entries self.now.past) script now }
    {
        let _ = now;
        if self.is_maker(Actor::Script(script)) {
            return None;
        }
        match self.sleep_due(script) {
            Some(Due::Makes(kind)) => Some(kind),
            _ => None,
        }
    }

    /// Makes the entry, of no device, that is due of an actor who makes no attempt and saw this word. Answers
    /// its stamp. `Mem` if there is no memory for it, or no number; nothing has changed then.
    #[inline(always)]
    pub fn make_own<R: Wait>(
        &mut self,
        rt: &R,
        who: Actor,
        word: EventNow,
        kind: Kind,
        floor: Stamp,
    ) -> Result<Stamp, CoreFault>
        requires other { IsOfNone kind }
        requires actor { IsActor self.old.machine who }
        requires makes { is_actor who (maker (entries self.old.past)) ≡ false }
        requires due { due self.old.machine (entries self.old.past) who word ≡ Makes kind }
        ensures ok { IfOk result (λ stamp. (stamp ≡ next_stamp self.old.past floor word)
            × (self.new ≡ core_after self.old (made_entry self.old.past who word floor kind))) }
        ensures err { OnErr result (self.new ≡ self.old) }
        ensures legal { JournalPart self.new.machine (entries self.new.past) }
    {
        let stamp = self.next_stamp(rt, word, floor);
        let made = self.make_other(false, who, word, kind, stamp);
        // A look at the field makes the invariant known here: the journal is legal.
        let _ = &self.history;
        match made {
            Ok(()) => Ok(stamp),
            Err(fault) => Err(fault),
        }
    }

    /// The end of a callback that the maker of the attempt runs in a walk over devices: its phase, device and
    /// answer. `None` exactly if it runs none. The actor and the word are arguments for the clauses only.
    #[inline(always)]
    pub fn callback_end(&self, who: Actor, now: EventNow) -> Option<(Phase, u32, Option<Errno>)>
        requires { is_actor who (maker (entries self.now.past)) ≡ true }
        ensures due { IfSome result (λ end. due self.now.machine (entries self.now.past) who now ≡ Makes (End end.0 end.1 end.2)) }
        ensures runs { is_some result ≡ runs_callback (entries self.now.past) }
    {
        let _ = (who, now);
        let c = self.callback()?;
        match self.stage() {
            Some(Stage::Downs(p)) => Some((p, c.device, self.device_error(p, c.device))),
            Some(Stage::Ups(p)) => Some((p, c.device, self.device_error(p, c.device))),
            _ => None,
        }
    }

    /// The state of a device's own work.
    #[inline(always)]
    pub fn async_work(&self, device: u32) -> AsyncWork
        ensures { result ≡ async_work self.now.machine (entries self.now.past) device }
    {
        self.board().work(device)
    }

    /// What is due of a device that sees this word, by that state of its work. A device makes no attempt.
    #[inline(always)]
    pub fn due_of_device(&self, device: u32, work: AsyncWork, now: EventNow) -> Due
        requires { work ≡ async_work self.now.machine (entries self.now.past) device }
        ensures { result ≡ due self.now.machine (entries self.now.past) (Dev device) now }
    {
        // A look at the field makes the invariant known here: the journal is legal.
        let _ = &self.history;
        self.device_due_at(now, device, work)
    }

    /// Makes the entry of a device that is due of an actor who saw this word. Answers its stamp.
    #[inline(always)]
    pub fn make_of_device<R: Wait>(
        &mut self,
        rt: &R,
        who: Actor,
        word: EventNow,
        kind: Kind,
        floor: Stamp,
    ) -> Stamp
        requires device { IsOfDevice kind }
        requires actor { IsActor self.old.machine who }
        requires due { due self.old.machine (entries self.old.past) who word ≡ Makes kind }
        requires calls { calls_due self.old.machine who (entries self.old.past) < 2 ^ 32 }
        ensures made { self.new ≡ core_after self.old (made_entry self.old.past who word floor kind) }
        ensures stamp { result ≡ next_stamp self.old.past floor word }
        ensures legal { JournalPart self.new.machine (entries self.new.past) }
    {
        let stamp = self.next_stamp(rt, word, floor);
        self.make_device(who, word, kind, stamp);
        // A look at the field makes the invariant known here: the journal is legal.
        let _ = &self.history;
        stamp
    }
}
