//! What is planned of a machine: its answers, and its scripts turn by turn.
use crate::planned_answers::PlannedAnswers;
use script_plan::{Plan, plans_of};
use sleep_base::Mem;
use sleep_model::Machine;
use std::alloc::Global;
use std::marker::Model;

/// A machine, what its callbacks answer by thing and attempt, and the steps of each of its scripts, taken and
/// counted once. Contracts see the machine.
#[derive(Drop)]
pub struct MachinePlans<'m> {
    machine: &'m Machine,
    answers: PlannedAnswers<'m>,
    scripts: Vec<Plan<'m>>,
}

impl<'m> Model for MachinePlans<'m> {
    ghost use Rattle.sleep_model.specs.declared.machine.Machine.{Machine};

    ghost Value = { Machine };

    ghost use Rattle.machine_plans.specs.PlanFields.{planned, plans_invariant};

    ghost view = { planned };

    ghost invariant = { plans_invariant };
}

impl<'m> MachinePlans<'m> {
    ghost use Rattle.std.specs.Prelude.{◌≡◌, ◌<◌, ◌≤◌, ◌^◌, Some, length, slice_get, IfOk};
    ghost use Rattle.sleep_model.specs.Places.{all_operations};

    /// The plans of a machine, whose scripts make at most 200,000 steps in all. `Mem` if there is no memory.
    pub fn new(alloc: Global, machine: &'m Machine) -> Result<Self, Mem>
        requires steps { length (all_operations machine.now.actors) ≤ 200000 }
        requires sources { length machine.now.sources < 2 ^ 32 }
        requires answers { length machine.now.answers < 2 ^ 32 }
        ensures { IfOk result (λ p. p ≡ machine.now) }
    {
        let source = machine.sources.len() as u32;
        let answers = PlannedAnswers::new(alloc, machine.answers.as_slice())?;
        let scripts = plans_of(alloc, machine.actors.as_slice(), source)?;
        Ok(MachinePlans {
            machine,
            answers,
            scripts,
        })
    }

    /// The machine.
    pub fn machine(&self) -> &'m Machine
        ensures { result.now ≡ self.now }
    {
        self.machine
    }

    /// What its callbacks answer.
    pub fn answers(&self) -> &PlannedAnswers<'m>
        ensures { result.now ≡ self.now.answers }
    {
        &self.answers
    }

    /// The plan of its script with that number. Autosleep has the source after the machine's own.
    pub fn script(&self, number: u32) -> &Plan<'m>
        requires { number < length self.now.actors }
        ensures source { result.now.source ≡ length self.now.sources }
        ensures script { slice_get self.now.actors number ≡ Some result.now.script }
    {
        &self.scripts[number as usize]
    }
}
