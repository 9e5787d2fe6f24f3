//! Autosleep and its work: `autosleep`. The work's attempt is the first, under the count 5.

use crate::asked::number_of;
use crate::entry_replies::{actor_reply, due_reply};
use crate::kinds::entry_of;
use crate::parts::CaseRunner;
use crate::reply::{CaseReply, Out, ReplyWord};
use crate::spelled::Said;
use autosleep_loop::Autosleep;
use sleep_model::{EventNow, Kind, Work};

// Five events are registered.
const NOW: EventNow = EventNow {
    inpr: 0,
    count: 5,
    hard: 0,
};

const ATTEMPT: Kind = Kind::Attempt {
    n: 1,
    guarded: Some(5),
};

/// A question about autosleep, or an entry.
#[derive(Clone, Copy)]
pub enum AutosleepCall {
    Note,
    Due,
    Runs,
    IsOn,
    Holder,
    NapsUntil,
    Work,
}

/// The verb of each call.
pub const AUTOSLEEP_CALLS: [(&str, AutosleepCall); 7] = [
    ("note", AutosleepCall::Note),
    ("due", AutosleepCall::Due),
    ("runs", AutosleepCall::Runs),
    ("is_on", AutosleepCall::IsOn),
    ("holder", AutosleepCall::Holder),
    ("naps_until", AutosleepCall::NapsUntil),
    ("work", AutosleepCall::Work),
];

/// The count under which the work attempts to sleep; `-` if it does not.
fn work_reply(work: Work) -> CaseReply {
    match work {
        Work::Attempting(count) => {
            CaseReply::Two(ReplyWord::Said(Said::Attempting), ReplyWord::Number(count))
        }
        _ => CaseReply::One(ReplyWord::Nothing),
    }
}

/// Notes an entry, after few runs of the work.
#[tactic(auto, using(crate::proofs::Running::runs_few))]
fn note(auto: &mut Autosleep, text: &str, out: &mut Out) -> CaseReply {
    let (who, kind) = entry_of(text, out);
    if auto.runs() > 9 {
        return out.lack();
    }
    auto.note(kind, who);
    CaseReply::Nothing
}

impl CaseRunner<AutosleepCall> for Autosleep {
    /// Answers a question about the work, or notes an entry; of `due` for a work that may run so often.
    fn answer(&mut self, call: AutosleepCall, rest: &str, out: &mut Out) -> CaseReply {
        match call {
            AutosleepCall::Note => note(self, rest, out),
            AutosleepCall::Due => due_reply(self.due(number_of(rest), NOW, 0, ATTEMPT)),
            AutosleepCall::Runs => CaseReply::One(ReplyWord::Number(self.runs())),
            AutosleepCall::IsOn => CaseReply::One(ReplyWord::Flag(self.is_on())),
            AutosleepCall::Holder => actor_reply(self.holder()),
            AutosleepCall::NapsUntil => CaseReply::One(ReplyWord::MaybeLong(self.naps_until())),
            AutosleepCall::Work => work_reply(self.work()),
        }
    }
}
