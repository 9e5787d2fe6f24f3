//! What a machine's callbacks answer, each found at once by its thing and its attempt.

ghost use Rattle.std.specs.Prelude.{◌≡◌, IfOk, map};
ghost use Rattle.check_sources.specs.AnswerKeys.{answer_key, key_for, phase_rank, step_rank, thing_of};

use key_index::KeyIndex;
use phase_table::Phase;
use sleep_base::{Errno, Mem};
use sleep_model::{Answer, Machine, PlatDo, Report, What};
use std::alloc::Global;
use std::marker::Model;

/// A thing that answers: a phase and a step of the platform by their ranks in an attempt.
#[derive(Clone, Copy, PartialEq, Eq, Hash)]
pub(crate) enum AnsweringThing {
    Device(u32, u8),
    Syscore(u32),
    Notifier(u32),
    Platform(u8),
}

/// A thing, and the attempt that an answer is for; none if it is for any.
#[derive(Clone, Copy, PartialEq, Eq, Hash)]
pub(crate) struct AnswerKey {
    pub(crate) thing: AnsweringThing,
    pub(crate) attempt: Option<u32>,
}

/// The rank of a phase in an attempt.
fn phase_rank(phase: Phase) -> u8
    ensures { result ≡ phase_rank phase }
{
    match phase {
        Phase::Prepare => 0,
        Phase::Suspend => 1,
        Phase::Late => 2,
        Phase::Noirq => 3,
        Phase::Syscore => 4,
        Phase::SyscoreResume => 5,
        Phase::ResumeNoirq => 6,
        Phase::Early => 7,
        Phase::Resume => 8,
        Phase::Complete => 9,
    }
}

/// The rank of a step of the platform in an attempt.
fn step_rank(step: PlatDo) -> u8
    ensures { result ≡ step_rank step }
{
    match step {
        PlatDo::Begin => 0,
        PlatDo::Prepare => 1,
        PlatDo::PrepareLate => 2,
    }
}

/// The thing, with ranks.
fn thing_of(what: What) -> AnsweringThing
    ensures { result ≡ thing_of what }
{
    match what {
        What::Device(device, phase) => AnsweringThing::Device(device, phase_rank(phase)),
        What::Syscore(part) => AnsweringThing::Syscore(part),
        What::Notifier(notifier) => AnsweringThing::Notifier(notifier),
        What::Platform(step) => AnsweringThing::Platform(step_rank(step)),
    }
}

/// By what an answer of a thing for that attempt is found.
fn key_for(what: What, attempt: Option<u32>) -> AnswerKey
    ensures { result ≡ key_for what attempt }
{
    AnswerKey {
        thing: thing_of(what),
        attempt,
    }
}

/// By what each answer is found.
fn keys_of(alloc: Global, answers: &[Answer]) -> Result<Vec<AnswerKey>, Mem>
    ensures { IfOk result (λ v. v.items ≡ map answer_key answers.now) }
{
    let mut keys = Vec::new(alloc);
    for answer in answers {
        keys.push(key_for(answer.what, answer.attempt))?;
    }
    Ok(keys)
}

/// The answers of a machine, each found at once. Contracts see the machine.
#[derive(Drop)]
pub struct AnswerIndex<'m> {
    machine: &'m Machine,
    places: KeyIndex<AnswerKey>,
}

impl<'m> Model for AnswerIndex<'m> {
    ghost use Rattle.std.specs.Prelude.{position};
    ghost use Rattle.sleep_model.specs.declared.machine.Machine.{Machine};
    ghost use Rattle.check_sources.specs.AnswerKeys.{IsIndexed};

    ghost Value = { Machine };

    ghost view = { λ a. a.machine.now };

    ghost invariant = { λ a. IsIndexed a.machine.now.answers (λ k. position (⟦<AnswerKey as PartialEq>⟧.eq k) a.places) };
}

impl<'m> AnswerIndex<'m> {
    ghost use Rattle.std.specs.Prelude.{◌≡◌, IfOk, option_copied};
    ghost use Rattle.sleep_model.specs.Answers.{answer, answer_error, answer_for, answer_number, answer_reports};

    /// The answers of a machine. `Mem` if there is no memory for their index.
    pub fn new(alloc: Global, machine: &'m Machine) -> Result<Self, Mem>
        ensures { IfOk result (λ a. a ≡ machine.now) }
    {
        let keys = keys_of(alloc, machine.answers.as_slice())?;
        let places = KeyIndex::new(alloc, keys)?;
        Ok(AnswerIndex { machine, places })
    }

    /// The answer of a thing for that attempt, or for any.
    #[tactic(auto, using(crate::proofs::Answering::none_given))]
    fn given(&self, what: What, attempt: Option<u32>) -> Option<&'m Answer>
        ensures { option_copied result ≡ answer_for what attempt self.now.answers }
    {
        // Most machines give few answers, many none.
        if self.machine.answers.len() == 0 {
            return None;
        }
        let place = self.places.place(&key_for(what, attempt))?;
        self.machine.answers.as_slice().get(place)
    }

    /// The answer of a thing in that attempt, if the machine gives one: one for this attempt goes before one
    /// for any.
    fn answer(&self, what: What, attempt: u32) -> Option<&'m Answer>
        ensures { option_copied result ≡ answer self.now what attempt }
    {
        match self.given(what, Some(attempt)) {
            Some(own) => Some(own),
            None => self.given(what, None),
        }
    }

    /// The error that a thing answers in that attempt, if it answers one.
    pub fn error(&self, what: What, attempt: u32) -> Option<Errno>
        ensures { result ≡ answer_error (answer self.now what attempt) }
    {
        match self.answer(what, attempt) {
            None => None,
            Some(a) => Errno::of_answer(a.ret),
        }
    }

    /// The number that a thing answers in that attempt: 0 if the machine gives no answer.
    pub fn number(&self, what: What, attempt: u32) -> i32
        ensures { result ≡ answer_number (answer self.now what attempt) }
    {
        match self.answer(what, attempt) {
            None => 0,
            Some(a) => a.ret,
        }
    }

    /// What is reported in a thing's callback in that attempt.
    pub fn reports(&self, what: What, attempt: u32) -> &'m [Report]
        ensures { result.now ≡ answer_reports (answer self.now what attempt) }
    {
        match self.answer(what, attempt) {
            None => &[],
            Some(a) => a.reports.as_slice(),
        }
    }
}
