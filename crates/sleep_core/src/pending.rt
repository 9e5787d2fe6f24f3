//! Pending moments, only by the journal.

ghost use Rattle.std.specs.Prelude.{◌≡◌, ◌≤◌, ◌<◌, ◌^◌, length, slice_get};
ghost use Rattle.sleep_model.specs.Attempt.{sleep_of, freeze_since};
ghost use Rattle.sleep_model.specs.Autosleep.{naps_until, work};
ghost use Rattle.sleep_model.specs.Legal.{alarm_at, deadline_at, pending_sleep, next_sleep, pending_nap, journal_time};
ghost use Rattle.sleep_state.specs.JournalRooms.{entries};
ghost use Rattle.sleep_core.specs.Steps.{sleep_end};

use crate::state::Core;
use crate::steps::is_line;
use sleep_state::sooner;
use task_freezer::gives_up_at;

impl<'m> Core<'m> {
    /// When the alarm of a machine that sleeps is due.
    fn alarm_at(&self) -> Option<u64>
        ensures { result ≡ alarm_at self.now.machine (sleep_of (entries self.now.past)) }
    {
        match self.sleep() {
            None => None,
            Some(sleep) => Some(sleep.since + self.alarm_ms()),
        }
    }

    /// When a freeze that goes on gives up.
    fn deadline_at(&self) -> Option<u64>
        ensures { result ≡ deadline_at (freeze_since (entries self.now.past)) }
    {
        match self.freeze_since() {
            None => None,
            Some(since) => Some(gives_up_at(since)),
        }
    }

    /// The end of the autosleep work's nap, if it is pending.
    fn pending_nap(&self) -> Option<u64>
        ensures { result ≡ pending_nap (entries self.now.past) }
    {
        if self.is_asleep() {
            None
        } else {
            self.history.autosleep().naps_until()
        }
    }

    /// The end of a script's sleep, if it is pending.
    fn pending_sleep(&self, script: u32) -> Option<u64>
        requires { script < length self.now.machine.actors }
        ensures { result ≡ sleep_end self.now.machine (entries self.now.past) script }
    {
        let freezing = self.history.freezer().freezing(script);
        if freezing.frozen || (self.is_asleep() && !is_line(self.kind_of(script))) {
            None
        } else {
            self.history.tasks().position(script).until
        }
    }

    /// The least end of those scripts' sleeps that are pending, each script being asked.
    fn least_sleep(&self) -> Option<u64>
        ensures { result ≡ next_sleep self.now.machine (entries self.now.past) (length self.now.machine.actors) }
    {
        let mut next = None;
        for script in 0..self.scripts() {
            next = sooner(self.pending_sleep(script), next);
        }
        next
    }

    /// The least pending time in ms, the sources' expiries left out, while an attempt may be open.
    #[inline(never)]
    fn open_time(&self) -> Option<u64>
        ensures { result ≡ journal_time self.now.machine (entries self.now.past) }
    {
        let sleeps = sooner(self.pending_nap(), self.least_sleep());
        sooner(self.alarm_at(), sooner(self.deadline_at(), sleeps))
    }

    /// The least pending time in ms, the sources' expiries left out. None if none is pending. While no attempt is
    /// open, only the ends of the work's nap and of all sleeps are pending.
    pub fn next_time(&self) -> Option<u64>
        ensures { result ≡ journal_time self.now.machine (entries self.now.past) }
    {
        if self.is_open() {
            return self.open_time();
        }
        let nap = self.history.autosleep().naps_until();
        sooner(nap, self.history.tasks().least_end())
    }
}
