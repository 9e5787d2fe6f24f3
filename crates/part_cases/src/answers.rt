//! What callbacks answer: `answers`, with `given ATTEMPT RET WHAT` for each answer of a machine, whose
//! attempt is `-` for any.

use crate::asked::{Words, after, cut, found};
use crate::parts::CaseRunner;
use crate::reply::{CaseReply, Out, ReplyWord};
use machine_plans::PlannedAnswers;
use sleep_base::Mem;
use sleep_model::{Answer, ListOf, Phase, PlatDo, What};
use std::alloc::Global;

/// What is answered for, of the first device or part.
const WHATS: [(&str, What); 6] = [
    ("device", What::Device(0, Phase::Prepare)),
    ("syscore", What::Syscore(0)),
    ("notifier", What::Notifier(0)),
    ("platform_begin", What::Platform(PlatDo::Begin)),
    ("platform_prepare", What::Platform(PlatDo::Prepare)),
    ("platform_prepare_late", What::Platform(PlatDo::PrepareLate)),
];

/// What a text names; the platform's first step if it names none.
fn what_of(text: &str) -> What {
    let (word, rest) = cut(text, ' ');
    let words = Words::of(rest);
    match found(&WHATS, word) {
        Some(What::Device(_, _)) => What::Device(words.number(0), words.phase(1)),
        Some(What::Syscore(_)) => What::Syscore(words.number(0)),
        Some(What::Notifier(_)) => What::Notifier(words.number(0)),
        Some(what) => what,
        None => What::Platform(PlatDo::Begin),
    }
}

/// An answer of a machine, or a question about what a machine with those so far plans.
#[derive(Clone, Copy)]
pub enum AnswerCall {
    Given,
    Number,
    Error,
    Found,
}

/// The verb of each call.
pub const ANSWER_CALLS: [(&str, AnswerCall); 4] = [
    ("given", AnswerCall::Given),
    ("number", AnswerCall::Number),
    ("error", AnswerCall::Error),
    ("found", AnswerCall::Found),
];

/// The answers of a machine.
#[derive(Drop)]
pub struct AnswerCase {
    pub alloc: Global,
    pub answers: Vec<Answer>,
}

/// The answer of an attempt, or of any, and what gives it.
fn given(alloc: Global, text: &str) -> Answer {
    let words = Words::of(text);
    Answer {
        what: what_of(after(text, 2)),
        attempt: words.maybe(0),
        ret: words.signed(1),
        reports: ListOf::of_vec(Vec::new(alloc)),
    }
}

/// What the planned answers say of an attempt.
fn planned_word(planned: &PlannedAnswers, call: AnswerCall, text: &str) -> ReplyWord {
    let (attempt, what) = (Words::of(text).number(0), what_of(after(text, 1)));
    match call {
        AnswerCall::Number => ReplyWord::Signed(i64::from(planned.number(what, attempt))),
        AnswerCall::Error => ReplyWord::Error(planned.error(what, attempt)),
        _ => ReplyWord::Flag(planned.answer(what, attempt).is_some()),
    }
}

/// What few answers plan.
fn plan_of(alloc: Global, answers: &[Answer]) -> Result<PlannedAnswers<'_>, Mem> {
    if answers.len() > 99 {
        return Err(Mem);
    }
    PlannedAnswers::new(alloc, answers)
}

impl CaseRunner<AnswerCall> for AnswerCase {
    /// Takes an answer, or replies to a question.
    fn answer(&mut self, call: AnswerCall, rest: &str, out: &mut Out) -> CaseReply {
        if matches!(call, AnswerCall::Given) {
            return out.check(self.answers.push(given(self.alloc, rest)));
        }
        match plan_of(self.alloc, &self.answers) {
            Ok(planned) => CaseReply::One(planned_word(&planned, call, rest)),
            Err(_) => out.lack(),
        }
    }
}
