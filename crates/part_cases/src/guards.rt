//! Guards of a saved count: `guard BITS`, with 4, 5 or 24 bits.

use crate::asked::{Words, after, now_of, number_of};
use crate::kinds::kind_of;
use crate::parts::{CaseRunner, answer_lines};
use crate::reply::{CaseReply, Out, ReplyWord};
use wakeup_guard::Guard;

/// A call of a guard.
#[derive(Clone, Copy)]
enum GuardCall {
    Save,
    IsPending,
    Pending,
    InForce,
    ClearHard,
    Visible,
    Finish,
    Note,
}

/// The verb of each call.
const GUARD_CALLS: [(&str, GuardCall); 8] = [
    ("save", GuardCall::Save),
    ("is_pending", GuardCall::IsPending),
    ("pending", GuardCall::Pending),
    ("in_force", GuardCall::InForce),
    ("clear_hard", GuardCall::ClearHard),
    ("visible", GuardCall::Visible),
    ("finish", GuardCall::Finish),
    ("note", GuardCall::Note),
];

impl<const BITS: u32> CaseRunner<GuardCall> for Guard<BITS> {
    /// Answers a question about the guard, or notes an entry that saw a word.
    fn answer(&mut self, call: GuardCall, rest: &str, out: &mut Out) -> CaseReply {
        let now = now_of(rest);
        let word = match call {
            GuardCall::Save => ReplyWord::Flag(self.save(now, Words::of(rest).number(1))),
            GuardCall::IsPending => ReplyWord::Flag(self.is_pending(now)),
            GuardCall::Pending => ReplyWord::Flag(self.pending(now)),
            GuardCall::InForce => ReplyWord::Maybe(self.in_force()),
            GuardCall::Visible => ReplyWord::Number(self.visible(now)),
            GuardCall::ClearHard => {
                self.clear_hard(now);
                return CaseReply::Nothing;
            }
            GuardCall::Finish => {
                self.finish();
                return CaseReply::Nothing;
            }
            GuardCall::Note => {
                self.note(kind_of(after(rest, 1), out), now);
                return CaseReply::Nothing;
            }
        };
        CaseReply::One(word)
    }
}

/// Answers the lines of a guard.
pub fn guards(text: &str, lines: &str, out: &mut Out) {
    match number_of(text) {
        4 => answer_lines(&mut Guard::<4>::new(), &GUARD_CALLS, lines, out),
        5 => answer_lines(&mut Guard::<5>::new(), &GUARD_CALLS, lines, out),
        _ => answer_lines(&mut Guard::<24>::new(), &GUARD_CALLS, lines, out),
    }
}
