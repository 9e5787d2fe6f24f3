//! What is due of an actor.

ghost use Rattle.std.specs.Prelude.{◌≡◌};
ghost use Rattle.sleep_model.specs.Due.{own_due, due};
ghost use Rattle.sleep_model.specs.Path.{is_actor, maker};
ghost use Rattle.sleep_state.specs.JournalRooms.{entries};
ghost use Rattle.sleep_core.specs.Cores.{IsActor};

use crate::state::Core;
use sleep_model::{Actor, Due, EventNow, Stage};

impl<'m> Core<'m> {
    /// What is due of an actor that makes no attempt.
    #[inline(always)]
    fn own_due(&self, who: Actor, now: EventNow) -> Due
        requires { IsActor self.now.machine who }
        ensures { result ≡ own_due self.now.machine (entries self.now.past) who now }
    {
        match who {
            Actor::Script(script) => self.script_due(script, now),
            Actor::Auto => self.auto_due(now),
            Actor::Dev(device) => self.device_due(now, device),
            Actor::Timer(_) | Actor::Time => Due::Nothing,
        }
    }

    /// What is due of an actor that sees this word, and that makes the open attempt or not. A walk over
    /// devices always has something to do, or waits, so that the stage after it is not asked.
    #[inline(always)]
    pub fn due_of(&self, makes: bool, who: Actor, now: EventNow) -> Due
        requires makes { makes ≡ is_actor who (maker (entries self.now.past)) }
        requires actor { IsActor self.now.machine who }
        ensures { result ≡ due self.now.machine (entries self.now.past) who now }
    {
        if !makes {
            return self.own_due(who, now);
        }
        match self.stage() {
            None => Due::Nothing,
            Some(Stage::Downs(p)) => self.down_due(now, p),
            Some(Stage::Ups(p)) => self.up_due(p),
            Some(Stage::Prepares) => self.prepare_due(),
            Some(Stage::Completes) => self.complete_due(),
            Some(stage) => self.stage_or_next(now, stage),
        }
    }

    /// What is due of an actor that sees this word.
    pub fn due(&self, who: Actor, now: EventNow) -> Due
        requires { IsActor self.now.machine who }
        ensures { result ≡ due self.now.machine (entries self.now.past) who now }
    {
        self.due_of(self.is_maker(who), who, now)
    }
}
