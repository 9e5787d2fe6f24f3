//! What the passed entries leave, before a law names the entries.

ghost use Rattle.std.specs.Prelude.{◌≡◌, OnOk};
ghost use Rattle.sleep_model.specs.EntryClasses.{class_of};
ghost use Rattle.check_sources.specs.Calling.{callers_after};
ghost use Rattle.check_sources.specs.Classes.{meant};

use crate::journal::JournalState;
use check_account::{time_after, word_after};
use check_sources::{Callers, EntryClass, SourceAccounts, class_of};
use sleep_base::{Mem, drop_for_mem};
use sleep_model::{Entry, EventNow, Machine};
use std::alloc::Global;

/// The account of the word, of time, of the journal, of the sources and of the calls on them.
#[derive(Drop)]
pub(crate) struct PastState<'m> {
    pub(crate) word: EventNow,
    pub(crate) time: u64,
    pub(crate) journal: JournalState,
    pub(crate) sources: SourceAccounts,
    pub(crate) calls: Callers<'m>,
}

/// Passes one more entry, of that class, to the calls, after that number of attempts.
fn pass_calls_in(
    calls: &mut Callers<'_>,
    e: Entry,
    attempts: u32,
    class: EntryClass,
) -> Result<(), Mem>
    ensures { OnOk result (calls.new ≡ record calls.old {
      state = callers_after calls.old.machine e attempts (meant class) calls.old.state;
    }) }
{
    match class {
        EntryClass::Note(..) => calls.note(e.actor),
        EntryClass::Step(..) => Ok(()),
        EntryClass::Journal | EntryClass::Jump => calls.pass(e, attempts),
    }
}

/// Passes one more entry to the calls, after that number of attempts.
fn pass_calls(calls: &mut Callers<'_>, e: Entry, attempts: u32) -> Result<(), Mem>
    ensures { OnOk result (calls.new ≡ record calls.old {
      state = callers_after calls.old.machine e attempts (class_of e.kind) calls.old.state;
    }) }
{
    pass_calls_in(calls, e, attempts, class_of(e.kind))
}

impl<'m> PastState<'m> {
    ghost use Rattle.std.specs.Prelude.{◌≡◌, ◌<◌, ◌^◌, [], length, IfOk, OnOk};
    ghost use Rattle.sleep_model.specs.Accepted.{IsAccepted};
    ghost use Rattle.check_past.specs.JournalStates.{MayAdd};
    ghost use Rattle.check_past.specs.Passing.{Holds, past_state_after};

    /// Before the first entry, on a machine as files spell it. `Mem` if there is no memory for it.
    pub(crate) fn new(alloc: Global, machine: &'m Machine) -> Result<Self, Mem>
        requires { IsAccepted machine.now }
        ensures { IfOk result (λ k. Holds machine.now [] k) }
    {
        let sources = SourceAccounts::new(alloc, machine.sources.len() + 1)?;
        let Ok(calls) = Callers::new(alloc, machine) else {
            return Err(drop_for_mem(sources));
        };
        // The largest comes last, with no exit after it.
        let Ok(journal) = JournalState::new(alloc, machine) else {
            return Err(drop_for_mem((sources, calls)));
        };
        Ok(PastState {
            word: EventNow {
                inpr: 0,
                count: 0,
                hard: 0,
            },
            time: 0,
            journal,
            sources,
            calls,
        })
    }

    /// Passes one more entry, which adds no link that may not be added. `Mem` if a counter has no room, or if
    /// there is no memory for what it leaves.
    #[tactic(auto, using(crate::proofs::Passing::together))]
    pub(crate) fn pass(&mut self, machine: &Machine, e: Entry) -> Result<(), Mem>
        requires all { length self.old.journal.tasks.freezings ≡ length machine.now.actors }
        requires few { length machine.now.actors < 2 ^ 32 }
        requires link { MayAdd self.old.journal.graph e.kind }
        ensures { OnOk result (self.new ≡ past_state_after machine.now e self.old) }
    {
        self.word = word_after(e.kind, self.word)?;
        self.time = time_after(e.kind, e.time, self.time);
        self.sources.pass(e)?;
        pass_calls(&mut self.calls, e, self.journal.attempt.attempts())?;
        self.journal.pass_if(machine, e)?;
        Ok(())
    }
}
