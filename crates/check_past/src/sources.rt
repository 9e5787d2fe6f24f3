//! What the passed entries leave of wakeup sources, and of the calls on them.

use crate::passed::Passed;
use check_sources::Source;
use sleep_base::Mem;
use sleep_model::{Actor, Kind};

impl<'m> Passed<'m> {
    ghost use Rattle.std.specs.Prelude.{◌≡◌, ◌+◌, true, length, slice_get, IfOk};
    ghost use Rattle.sleep_model.specs.Calls.{calls_due, calls_of, made};
    ghost use Rattle.sleep_model.specs.Fits.{fits_actor};
    ghost use Rattle.sleep_model.specs.Sources.{history};
    ghost use Rattle.check_past.specs.Passing.{journal_of, past_of};
    ghost use Rattle.check_sources.specs.SourceStates.{source_of};

    /// The state of a source; that of a new one if it is not registered.
    pub fn source(&self, number: u32) -> Source
        ensures { result ≡ source_of (history number (past_of self.now)) }
    {
        self.past_state.sources.source(number)
    }

    /// How many calls an actor of the machine has made.
    pub fn made(&self, who: Actor) -> usize
        requires { fits_actor self.now.machine who ≡ true }
        ensures { result ≡ made (length self.now.machine.sources + 1) (λ s. history s (past_of self.now)) who }
    {
        self.past_state.calls.made(who)
    }

    /// How many calls an actor of the machine owes in all before it may append to the journal. `Mem` if the
    /// sum has no room.
    pub fn calls_due(&self, who: Actor) -> Result<usize, Mem>
        requires { fits_actor self.now.machine who ≡ true }
        ensures { IfOk result (λ n. n ≡ calls_due self.now.machine who (journal_of self.now)) }
    {
        self.past_state.calls.due(who)
    }

    /// The next call of an actor of the machine, if it has one to make.
    pub fn next_call(&self, who: Actor) -> Option<Kind>
        requires { fits_actor self.now.machine who ≡ true }
        ensures { result ≡ slice_get (calls_of self.now.machine who (journal_of self.now))
            (made (length self.now.machine.sources + 1) (λ s. history s (past_of self.now)) who) }
    {
        self.past_state.calls.next(who)
    }
}
