//! The planned answers of a machine, found by thing and attempt.
use crate::indices::first_indices;
use crate::key::{Key, key_of};
use indexmap::IndexMap;
use sleep_base::{Errno, Mem};
use sleep_model::{Answer, Report, What};
use std::alloc::Global;
use std::marker::Model;

/// The answers of a machine, each found at once by its thing and its attempt. Contracts see the
/// list of the answers.
#[derive(Drop)]
pub struct PlannedAnswers<'a> {
    answers: &'a [Answer],
    indices: IndexMap<Key, u32>,
}

impl<'a> Model for PlannedAnswers<'a> {
    ghost use Rattle.std.specs.Prelude.{List};
    ghost use Rattle.sleep_model.specs.declared.machine.Answer.{Answer};

    ghost Value = { List Answer };

    ghost use Rattle.indexmap.specs.IndexMap.{get};
    ghost use Rattle.machine_plans.specs.Keys.{IsIndexed};

    ghost view = { λ b. b.answers.now };

    ghost invariant = { λ b. IsIndexed b.answers.now (get ⟦<Key as PartialEq>⟧.eq b.indices) };
}

impl<'a> PlannedAnswers<'a> {
    ghost use Rattle.std.specs.Prelude.{◌≡◌, ◌<◌, ◌^◌, length, IfOk};
    ghost use Rattle.std.specs.Option.{option_copied};
    ghost use Rattle.sleep_model.specs.Answers.{answer_for, answer_error, answer_number, answer_reports};
    ghost use Rattle.machine_plans.specs.PlannedAnswers.{answer_among};

    /// The index of these answers. Of two of one thing and attempt the first counts. `Mem` if there
    /// is no memory for it.
    pub fn new(alloc: Global, answers: &'a [Answer]) -> Result<Self, Mem>
        requires { length answers.now < 2 ^ 32 }
        ensures { IfOk result (λ b. b ≡ answers.now) }
    {
        let indices = first_indices(alloc, answers)?;
        Ok(PlannedAnswers { answers, indices })
    }

    /// What a thing answers in an attempt: its own answer for the attempt, else the one for any.
    /// None if the machine gives neither.
    pub fn answer(&self, what: What, attempt: u32) -> Option<&'a Answer>
        ensures { option_copied result ≡ answer_among self.now what attempt }
    {
        if self.answers.is_empty() {
            return None;
        }
        match self.given(what, Some(attempt)) {
            Some(own) => Some(own),
            None => self.given(what, None),
        }
    }

    /// The answer that is given of a thing for that attempt, or for any.
    fn given(&self, what: What, attempt: Option<u32>) -> Option<&'a Answer>
        ensures { option_copied result ≡ answer_for what attempt self.now }
    {
        let place = self.indices.get(&key_of(what, attempt))?;
        self.answers.get(*place as usize)
    }

    /// The error that a thing answers in an attempt. None if it answers 0 or 1, or if the machine gives no
    /// answer.
    pub fn error(&self, what: What, attempt: u32) -> Option<Errno>
        ensures { result ≡ answer_error (answer_among self.now what attempt) }
    {
        match self.answer(what, attempt) {
            Some(answer) => Errno::of_answer(answer.ret),
            None => None,
        }
    }

    /// The number that a thing answers in an attempt: 0, 1, or an error as a negative number; 0 if the
    /// machine gives no answer.
    pub fn number(&self, what: What, attempt: u32) -> i32
        ensures { result ≡ answer_number (answer_among self.now what attempt) }
    {
        match self.answer(what, attempt) {
            Some(answer) => answer.ret,
            None => 0,
        }
    }

    /// What a thing reports in an attempt, in order: calls on sources. Nothing if the machine gives no
    /// answer.
    pub fn reports(&self, what: What, attempt: u32) -> &'a [Report]
        ensures { result.now ≡ answer_reports (answer_among self.now what attempt) }
    {
        match self.answer(what, attempt) {
            Some(answer) => answer.reports.as_slice(),
            None => &[],
        }
    }
}
