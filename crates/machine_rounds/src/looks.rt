//! What a run's core, its sources and its word say of all entries so far.

use crate::run::Run;
use sleep_model::{Actor, EventNow};
use sleep_state::sooner;

impl<'m> Run<'m> {
    ghost use Rattle.std.specs.Prelude.{◌≡◌, ◌≤◌, ◌<◌, ◌+◌, ◌^◌, ◌&&◌, true, false, None, is_none, length, IfSome};
    ghost use Rattle.sleep_model.specs.Due.{have_all_exited};
    ghost use Rattle.sleep_model.specs.declared.word.EventNow.{EventNow};
    ghost use Rattle.sleep_model.specs.Legal.{is_enabled, next_time, next_expiry};
    ghost use Rattle.sleep_model.specs.Numbers.{time_of};
    ghost use Rattle.sleep_model.specs.Path.{maker};
    ghost use Rattle.sleep_model.specs.Sources.{expiry, has_expired};
    ghost use Rattle.sleep_state.specs.JournalRooms.{entries};
    ghost use Rattle.sleep_core.specs.Cores.{IsActor};
    ghost use Rattle.running_laws.specs.Running.{histories};
    ghost use Rattle.machine_rounds.specs.Runs.{is_over, nobody_enabled};

    /// The time of the last jump in ms, else 0.
    pub(crate) fn time(&self) -> u64
        ensures is { result ≡ time_of (entries self.now.journal) }
        ensures small { result ≤ 2 ^ 63 }
    {
        self.core().time()
    }

    /// Whether an actor can make something that sees this word.
    pub(crate) fn is_enabled(&self, who: Actor, word: EventNow) -> bool
        requires { IsActor self.now.machine who }
        ensures { result ≡ is_enabled self.now.machine (entries self.now.journal) (histories self.now.sources) word who }
    {
        let calls = self.jobs.calls(who);
        self.core().enabled(who, calls, word, self.core().time())
    }

    /// Whether every script has exited and no attempt is open.
    pub(crate) fn is_whole(&self) -> bool
        ensures { result ≡ (have_all_exited self.now.machine (entries self.now.journal) && is_none (maker (entries self.now.journal))) }
    {
        self.core().whole()
    }

    /// When the event in progress of a source ends by itself, in ms, if it does.
    pub(crate) fn due_at(&self, source: u32) -> Option<u64>
        requires { source ≤ length self.now.machine.sources }
        ensures { result ≡ expiry (histories self.now.sources source) }
    {
        let one = &self.sources[source as usize];
        one.source().due()
    }

    /// Whether the event in progress of a source is to end now.
    pub(crate) fn has_expired(&self, source: u32) -> bool
        requires { source ≤ length self.now.machine.sources }
        ensures { result ≡ has_expired (expiry (histories self.now.sources source)) (time_of (entries self.now.journal)) }
    {
        match self.due_at(source) {
            Some(at) => at <= self.time(),
            None => false,
        }
    }

    /// How many sources there are, `autosleep` among them.
    pub(crate) fn sources(&self) -> u32
        ensures { result ≡ length self.now.machine.sources + 1 }
    {
        // A look at the field makes the invariant known here: the machine has few sources.
        let _ = &self.sources;
        self.machine.sources.len() as u32 + 1
    }

    /// The least expiry of the sources.
    pub(crate) fn next_expiry(&self) -> Option<u64>
        ensures { result ≡ next_expiry (length self.now.machine.sources + 1) (histories self.now.sources) }
    {
        let mut next = None;
        for source in 0..self.sources() {
            next = sooner(self.due_at(source), next);
        }
        next
    }

    /// The next pending moment in ms, if there is one. `soonest` is the least expiry of the sources.
    pub(crate) fn next_time(&self, soonest: Option<u64>) -> Option<u64>
        requires { soonest ≡ next_expiry (length self.now.machine.sources + 1) (histories self.now.sources) }
        ensures is { result ≡ next_time self.now.machine (entries self.now.journal) (histories self.now.sources) }
        // If nobody can make anything and no moment is pending no attempt is open.
        ensures closed { (word : EventNow) → result ≡ None → nobody_enabled self.now word ≡ true → maker (entries self.now.journal) ≡ None }
        // If nobody can make anything and the run is not over it is later than now.
        ensures ahead { (word : EventNow) → nobody_enabled self.now word ≡ true → is_over self.now word ≡ false → IfSome result (λ at. time_of (entries self.now.journal) < at) }
    {
        sooner(self.core().next_time(), soonest)
    }
}
