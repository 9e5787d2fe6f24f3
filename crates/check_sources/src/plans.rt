//! The steps of a machine's scripts, counted once, with what its callbacks answer.

use crate::answers::AnswerIndex;
use script_plan::{Plan, plans_of};
use sleep_base::Mem;
use sleep_model::{Machine, Op, Report};
use std::alloc::Global;
use std::marker::Model;

/// The operations and the calls of each script of a machine, and its answers. Contracts see the machine.
#[derive(Drop)]
pub struct Plans<'m> {
    machine: &'m Machine,
    scripts: Vec<Plan<'m>>,
    answers: AnswerIndex<'m>,
}

impl<'m> Model for Plans<'m> {
    ghost use Rattle.sleep_model.specs.declared.machine.Machine.{Machine};

    ghost Value = { Machine };

    ghost use Rattle.check_sources.specs.PlanFields.{planned, check_plans_invariant};

    ghost view = { planned };

    ghost invariant = { check_plans_invariant };
}

impl<'m> Plans<'m> {
    ghost use Rattle.std.specs.Prelude.{◌≡◌, ◌<◌, ◌≤◌, ◌^◌, length, map, slice_get, option_copied, IfOk};
    ghost use Rattle.sleep_model.specs.Places.{all_operations};
    ghost use Rattle.sleep_model.specs.Laws.{steps_of};
    ghost use Rattle.sleep_model.specs.Calls.{calls_at, pieces_in};
    ghost use Rattle.script_plan.specs.CallPlans.{noted};

    /// The steps of a machine's scripts, at most 200,000 in all. `Mem` if there is no memory for them.
    pub fn new(alloc: Global, machine: &'m Machine) -> Result<Self, Mem>
        requires steps { length (all_operations machine.now.actors) ≤ 200000 }
        requires sources { length machine.now.sources < 2 ^ 32 }
        ensures { IfOk result (λ p. p ≡ machine.now) }
    {
        let answers = AnswerIndex::new(alloc, machine)?;
        let scripts = machine.actors.as_slice();
        let source = machine.sources.len() as u32;
        Ok(Plans {
            machine,
            scripts: plans_of(alloc, scripts, source)?,
            answers,
        })
    }

    /// The machine.
    pub fn machine(&self) -> &'m Machine
        ensures { result.now ≡ self.now }
    {
        self.machine
    }

    /// What the machine's callbacks answer.
    pub fn answers(&self) -> &AnswerIndex<'m>
        ensures { result.now ≡ self.now }
    {
        &self.answers
    }

    /// The operation that makes a script's entries with that number, from 0. None if it has none left, or if
    /// there is no such script.
    pub fn operation(&self, script: u32, number: usize) -> Option<&'m Op>
        ensures { option_copied result ≡ slice_get (steps_of (slice_get self.now.actors script)) number }
    {
        let plan = self.scripts.get(script as usize)?;
        plan.operation(number)
    }

    /// The calls right before a script's turn with that number, from 0, or before its exit; none if there is
    /// no such script.
    pub fn calls_at(&self, script: u32, turn: usize) -> &[Report]
        ensures { map noted result.now ≡ calls_at (pieces_in self.now script) turn }
    {
        match self.scripts.get(script as usize) {
            None => &[],
            Some(plan) => plan.calls_at(turn),
        }
    }
}
