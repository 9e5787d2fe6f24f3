//! What a freeze asks, and how its rounds go: `freezer KIND ..` with the kind of each task.

use crate::asked::Words;
use crate::kinds::entry_of;
use crate::parts::{CaseRunner, answer_all};
use crate::reply::{CaseReply, Out, ReplyWord};
use crate::spelled::Said;
use sleep_base::Mem;
use sleep_model::{Freezing, Group, ListOf, Name, Script, TaskKind};
use std::alloc::Global;
use task_freezer::{Freezer, Left, Round};

/// A question about a freeze, of a group of tasks or of one, or an entry.
#[derive(Clone, Copy)]
enum FreezeCall {
    Note,
    Freezing,
    Left(Group),
    Round(Group),
}

/// The verb of each call.
const FREEZE_CALLS: [(&str, FreezeCall); 6] = [
    ("note", FreezeCall::Note),
    ("freezing", FreezeCall::Freezing),
    ("left_user", FreezeCall::Left(Group::User)),
    ("left_kernel", FreezeCall::Left(Group::Kernel)),
    ("round_user", FreezeCall::Round(Group::User)),
    ("round_kernel", FreezeCall::Round(Group::Kernel)),
];

/// How many tasks are left, and the first of them.
fn left_reply(left: Left) -> CaseReply {
    CaseReply::Two(ReplyWord::Number(left.count), ReplyWord::Maybe(left.first))
}

/// What becomes of a freeze.
fn round_reply(round: Round) -> CaseReply {
    match round {
        Round::Again { left, until } => CaseReply::Three(
            ReplyWord::Said(Said::Again),
            ReplyWord::Number(left),
            ReplyWord::Long(until),
        ),
        Round::Late { left, first } => CaseReply::Three(
            ReplyWord::Said(Said::Late),
            ReplyWord::Number(left),
            ReplyWord::Number(first),
        ),
        Round::AllFrozen => CaseReply::One(ReplyWord::Said(Said::AllFrozen)),
    }
}

/// Whether a task is asked, and frozen.
fn freezing_reply(freezing: Freezing) -> CaseReply {
    CaseReply::Two(
        ReplyWord::Flag(freezing.asked),
        ReplyWord::Flag(freezing.frozen),
    )
}

impl CaseRunner<FreezeCall> for Freezer<'_> {
    /// Answers a question about the freezer, or notes an entry.
    fn answer(&mut self, call: FreezeCall, rest: &str, out: &mut Out) -> CaseReply {
        let words = Words::of(rest);
        let first = words.number(0);
        match call {
            FreezeCall::Note => {
                let (who, kind) = entry_of(rest, out);
                self.note(who, kind);
                CaseReply::Nothing
            }
            FreezeCall::Freezing => freezing_reply(self.freezing(first)),
            FreezeCall::Left(group) => left_reply(self.left(group)),
            FreezeCall::Round(group) => {
                round_reply(self.round(group, u64::from(first), words.long(1)))
            }
        }
    }
}

/// A script of this kind, which has no steps.
fn script_of(alloc: Global, name: Name, kind: TaskKind) -> Script {
    Script {
        name,
        kind,
        repeat: 1,
        steps: ListOf::of_vec(Vec::new(alloc)),
    }
}

/// Scripts of these kinds.
fn scripts_of(alloc: Global, text: &str) -> Result<Vec<Script>, Mem> {
    let name = Name::of_bytes(b"w").ok_or(Mem)?;
    let mut scripts = Vec::new(alloc);
    for word in text.split(' ') {
        let kind = TaskKind::of_bytes(word.as_bytes()).unwrap_or(TaskKind::User);
        scripts.push(script_of(alloc, name, kind))?;
    }
    Ok(scripts)
}

/// A freezer of few scripts.
fn freezer_of(alloc: Global, scripts: &[Script]) -> Result<Freezer<'_>, Mem> {
    if scripts.len() > 99 {
        return Err(Mem);
    }
    Freezer::new(alloc, scripts)
}

/// Answers the lines of a freezer.
pub fn freezers(alloc: Global, text: &str, lines: &str, out: &mut Out) {
    match scripts_of(alloc, text) {
        Ok(scripts) => {
            answer_all(freezer_of(alloc, &scripts), &FREEZE_CALLS, lines, out);
            drop(scripts);
        }
        Err(_) => {
            out.lack();
        }
    }
}
