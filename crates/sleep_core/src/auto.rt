//! What the autosleep work does next (`kernel/power/autosleep.c`, `try_to_suspend`).

ghost use Rattle.std.specs.Prelude.{◌≡◌};
ghost use Rattle.sleep_model.specs.Attempt.{sleeps_now};
ghost use Rattle.sleep_model.specs.Autosleep.{work, work_due, auto_due};
ghost use Rattle.sleep_model.specs.Due.{is_over};
ghost use Rattle.sleep_state.specs.JournalRooms.{entries};

use crate::state::Core;
use sleep_model::{Due, EventNow, Why};

impl<'m> Core<'m> {
    /// The work's next entry.
    #[tactic(auto, using(crate::proofs::Working::work_is))]
    fn work_due(&self, now: EventNow) -> Due
        ensures { result ≡ work_due self.now.machine (entries self.now.past) now (work (entries self.now.past)) }
    {
        let attempt = self.attempt();
        let time = self.time_ms();
        let cycles = self.machine().auto_cycles;
        self.history.autosleep().due(cycles, now, time, attempt)
    }

    /// The work outside its own attempts.
    #[inline(never)]
    pub(crate) fn auto_due(&self, now: EventNow) -> Due
        ensures { result ≡ auto_due self.now.machine (entries self.now.past) now (sleeps_now (entries self.now.past))
            (is_over self.now.machine (entries self.now.past)) }
    {
        if self.is_asleep() {
            Due::Waits(Why::Asleep)
        } else if self.whole() {
            Due::Waits(Why::NoWork)
        } else {
            self.work_due(now)
        }
    }
}
