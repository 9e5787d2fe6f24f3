//! The syscore operations: `syscore SUBJECTS`.

use crate::asked::Words;
use crate::entry_replies::kind_reply;
use crate::kinds::kind_of;
use crate::parts::CaseRunner;
use crate::reply::{CaseReply, Out, ReplyWord};
use sleep_model::Kind;
use syscore_ops::Syscore;

/// A call, a question, or an entry.
#[derive(Clone, Copy)]
pub enum SyscoreCall {
    Suspend,
    Resume,
    Next,
    NextStarted,
    Note,
}

/// The verb of each call.
pub const SYSCORE_CALLS: [(&str, SyscoreCall); 5] = [
    ("suspend", SyscoreCall::Suspend),
    ("resume", SyscoreCall::Resume),
    ("next", SyscoreCall::Next),
    ("next_started", SyscoreCall::NextStarted),
    ("note", SyscoreCall::Note),
];

/// The entry of the next operation that is suspended.
fn suspended(core: &mut Syscore, text: &str) -> Option<Kind> {
    core.next()?;
    Some(core.suspend_turn(Words::of(text).error(0)))
}

impl CaseRunner<SyscoreCall> for Syscore {
    /// Answers a call on the syscore operations, or notes an entry.
    fn answer(&mut self, call: SyscoreCall, rest: &str, out: &mut Out) -> CaseReply {
        let made = match call {
            SyscoreCall::Suspend => suspended(self, rest),
            SyscoreCall::Resume => self.resume_turn(),
            SyscoreCall::Next => return CaseReply::One(ReplyWord::Maybe(self.next())),
            SyscoreCall::NextStarted => {
                return CaseReply::One(ReplyWord::Maybe(self.next_syscore_resumed()));
            }
            SyscoreCall::Note => {
                self.note(kind_of(rest, out));
                return CaseReply::Nothing;
            }
        };
        match made {
            Some(kind) => kind_reply(kind),
            None => CaseReply::One(ReplyWord::Nothing),
        }
    }
}
