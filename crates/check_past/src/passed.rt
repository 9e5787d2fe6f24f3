//! The entries of a log that were passed, with the account that answers what rules ask of them.

ghost use Rattle.std.specs.Prelude.{◌≡◌, ◌+◌, IfOk};

use crate::journal::JournalState;
use crate::order::call_order;
use crate::past_state::PastState;
use crate::walks::any_async;
use check_account::{AttemptAccount, DeviceAccount, TaskAccount};
use check_order::DeviceGraph;
use check_sources::{Callers, SourceAccounts};
use sleep_base::Mem;
use sleep_model::{Entry, EntryList, EventNow, Machine};
use std::alloc::Global;
use std::marker::Model;

/// The entries of a log that were passed, the first ones, and what they leave: each call answers at once what
/// a definition reads from them. Contracts see the machine, the entries, and how many were passed.
#[derive(Drop)]
pub struct Passed<'m> {
    pub(crate) machine: &'m Machine,
    pub(crate) entries: &'m EntryList,
    pub(crate) passed: usize,
    // The notifiers in the order in which they are called.
    pub(crate) call_order: Vec<u32>,
    // Whether a device is asynchronous.
    pub(crate) has_async: bool,
    // In a box of its own, since the other fields are moved at each entry.
    pub(crate) past_state: Box<PastState<'m>>,
}

impl<'m> Model for Passed<'m> {
    ghost use Rattle.check_past.specs.Passing.{Passage};

    ghost Value = { Passage };

    ghost use Rattle.check_past.specs.PassedFields.{passage, passed_invariant};

    ghost view = { passage };

    ghost invariant = { passed_invariant };
}

/// One more. `Mem` if the counter has no room.
fn one_further(count: usize) -> Result<usize, Mem>
    ensures { IfOk result (λ n. n ≡ count + 1) }
{
    match count.checked_add(1) {
        Some(n) => Ok(n),
        None => Err(Mem),
    }
}

impl<'m> Passed<'m> {
    ghost use Rattle.std.specs.Prelude.{◌≡◌, ◌+◌, true, Some, slice_get, IfOk};
    ghost use Rattle.std.specs.List.{list_all};
    ghost use Rattle.sleep_model.specs.Accepted.{IsAccepted};
    ghost use Rattle.sleep_model.specs.Fits.{fits_entry};
    ghost use Rattle.check_account.specs.Accounts.{attempt_of, devices_of, tasks_of};
    ghost use Rattle.check_order.specs.Graphs.{IsGraph};
    ghost use Rattle.check_past.specs.JournalStates.{MayAdd, state_of};
    ghost use Rattle.check_past.specs.Passing.{journal_of, past_of};

    /// Before the first of these entries, on a machine as files spell it. `Mem` if there is no memory for it.
    pub fn new(alloc: Global, machine: &'m Machine, entries: &'m EntryList) -> Result<Self, Mem>
        requires accepted { IsAccepted machine.now }
        requires fits { list_all (fits_entry machine.now) entries.now ≡ true }
        ensures { IfOk result (λ p. p ≡ record { machine = machine.now; entries = entries.now; passed = 0 }) }
    {
        let call_order = call_order(alloc, machine.notifiers.as_slice())?;
        let past_state = PastState::new(alloc, machine)?;
        Ok(Passed {
            machine,
            entries,
            passed: 0,
            call_order,
            has_async: any_async(machine.devices.as_slice()),
            past_state: Box::new(alloc, past_state)?,
        })
    }

    /// Passes the next entry, which adds no link that may not be added. `Mem` if a counter has no room, or if
    /// there is no memory for what it leaves.
    pub fn pass(self, e: Entry) -> Result<Self, Mem>
        requires next { slice_get self.entries self.passed ≡ Some e }
        requires link { MayAdd (state_of self.machine (journal_of self)).graph e.kind }
        ensures { IfOk result (λ p. p ≡ record self.entry { passed = self.entry.passed + 1 }) }
    {
        let Passed {
            machine,
            entries,
            passed,
            call_order,
            has_async,
            mut past_state,
        } = self;
        let passed = one_further(passed)?;
        past_state.pass(machine, e)?;
        Ok(Passed {
            machine,
            entries,
            passed,
            call_order,
            has_async,
            past_state,
        })
    }

    /// What the passed entries leave of the open attempt.
    #[inline(always)]
    pub(crate) fn attempt_account(&self) -> &AttemptAccount
        ensures { result.now ≡ attempt_of (journal_of self.now) }
    {
        &self.past_state.journal.attempt
    }

    /// What they leave of the tasks.
    #[inline(always)]
    pub(crate) fn task_account(&self) -> &TaskAccount
        ensures { result.now ≡ tasks_of self.now.machine (journal_of self.now) }
    {
        &self.past_state.journal.tasks
    }

    /// What they leave of the devices.
    #[inline(always)]
    pub(crate) fn device_account(&self) -> &DeviceAccount
        ensures { result.now ≡ devices_of self.now.machine (journal_of self.now) }
    {
        &self.past_state.journal.devices
    }

    /// The devices' parents and links that they leave.
    #[inline(always)]
    pub(crate) fn device_graph(&self) -> &DeviceGraph
        ensures { result.now ≡ (state_of self.now.machine (journal_of self.now)).graph }
    {
        &self.past_state.journal.graph
    }

    /// The machine is one as files spell it.
    pub fn is_accepted(&self)
        ensures { IsAccepted self.now.machine }
    {
        let _machine = &self.machine;
    }

    /// The entries that were passed name what the machine has.
    pub fn all_fit(&self)
        ensures { list_all (fits_entry self.now.machine) (past_of self.now) ≡ true }
    {
        let _entries = &self.entries;
    }

    /// The links are links as the reader of machines accepts them.
    pub fn is_graph(&self)
        ensures { IsGraph (state_of self.now.machine (journal_of self.now)).graph }
    {
        self.device_graph().is_graph()
    }
}
