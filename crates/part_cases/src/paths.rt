//! The path of an attempt through its stages: `path`.

use crate::asked::{after, cut, long_of};
use crate::entry_replies::{actor_reply, stage_reply};
use crate::kinds::entry_of;
use crate::parts::CaseRunner;
use crate::reply::{CaseReply, Out, ReplyWord};
use sleep_model::Sleep;
use sleep_state::OpenAttempt;

/// A question about an attempt, or an entry.
#[derive(Clone, Copy)]
pub enum PathCall {
    Note,
    Attempts,
    Maker,
    Stage,
    Failed,
    FreezeSince,
    Sleep,
}

/// The verb of each call.
pub const PATH_CALLS: [(&str, PathCall); 7] = [
    ("note", PathCall::Note),
    ("attempts", PathCall::Attempts),
    ("maker", PathCall::Maker),
    ("stage", PathCall::Stage),
    ("failed", PathCall::Failed),
    ("freeze_since", PathCall::FreezeSince),
    ("sleep", PathCall::Sleep),
];

/// The sleep of the machine, if it sleeps.
fn sleep_reply(sleep: Option<Sleep>) -> CaseReply {
    match sleep {
        Some(sleep) => CaseReply::Two(ReplyWord::Long(sleep.pos), ReplyWord::Long(sleep.since)),
        None => CaseReply::One(ReplyWord::Nothing),
    }
}

/// Notes an entry after few attempts: the position before it, its time, and the entry.
#[tactic(auto, using(sleep_state::proofs::Counting::attempts_few))]
fn note(path: &mut OpenAttempt, text: &str, out: &mut Out) -> CaseReply {
    let (pos, rest) = cut(text, ' ');
    let (who, kind) = entry_of(after(rest, 1), out);
    if path.attempts() > 9 {
        return out.lack();
    }
    path.note(kind, who, long_of(pos), long_of(cut(rest, ' ').0));
    CaseReply::Nothing
}

impl CaseRunner<PathCall> for OpenAttempt {
    /// Answers a question about the path, or notes an entry.
    fn answer(&mut self, call: PathCall, rest: &str, out: &mut Out) -> CaseReply {
        match call {
            PathCall::Note => note(self, rest, out),
            PathCall::Attempts => CaseReply::One(ReplyWord::Number(self.attempts())),
            PathCall::Maker => actor_reply(self.maker()),
            PathCall::Stage => stage_reply(self.stage()),
            PathCall::Failed => CaseReply::One(ReplyWord::Error(self.error())),
            PathCall::FreezeSince => CaseReply::One(ReplyWord::MaybeLong(self.freeze_since())),
            PathCall::Sleep => sleep_reply(self.sleep()),
        }
    }
}
