//! What entries, stages and actors are, and what is due, as words of an answer.

use crate::reply::{CaseReply, ReplyWord};
use crate::spelled::Said;
use sleep_model::{Actor, Due, Kind, Stage, Thaw, Why};

/// What an entry says.
pub fn kind_reply(kind: Kind) -> CaseReply {
    let word = ReplyWord::Kind(kind);
    match kind {
        Kind::Read(n)
        | Kind::Saved(n)
        | Kind::SaveWait(n)
        | Kind::AutoSaved(n)
        | Kind::NotifyPost(n)
        | Kind::CpuOff(n)
        | Kind::CpuBusy(n)
        | Kind::CpuOn(n)
        | Kind::SyscoreResume(n)
        | Kind::Complete(n) => CaseReply::Two(word, ReplyWord::Number(n)),
        Kind::SleepD(ms) => CaseReply::Two(word, ReplyWord::Long(ms)),
        Kind::StateErr(error) => CaseReply::Two(word, ReplyWord::Error(Some(error))),
        Kind::PlatformDo(_, r) => CaseReply::Two(word, ReplyWord::Error(r)),
        Kind::SaveErr(count, error) => {
            CaseReply::Three(
                word,
                ReplyWord::Number(count),
                ReplyWord::Error(Some(error)),
            )
        }
        Kind::NotifyPrepare(n, r) | Kind::SyscoreSuspend(n, r) => {
            CaseReply::Three(word, ReplyWord::Number(n), ReplyWord::Error(r))
        }
        Kind::Attempt { n, guarded } => {
            CaseReply::Three(word, ReplyWord::Number(n), ReplyWord::Maybe(guarded))
        }
        kind => device_reply(kind),
    }
}

/// What an entry of a device's phase says; of any other its word.
fn device_reply(kind: Kind) -> CaseReply {
    let word = ReplyWord::Kind(kind);
    match kind {
        Kind::Prepare { device, r } => CaseReply::Three(
            word,
            ReplyWord::Number(device),
            ReplyWord::Signed(i64::from(r)),
        ),
        Kind::Schedule(phase, device) | Kind::Begin(phase, device) | Kind::Skip(phase, device, _) =>
            { CaseReply::Three(word, ReplyWord::Phase(phase), ReplyWord::Number(device)) }
        Kind::Done(phase, r) => {
            CaseReply::Three(word, ReplyWord::Phase(phase), ReplyWord::Error(r))
        }
        _ => CaseReply::One(word),
    }
}

/// What is due.
pub fn due_reply(due: Due) -> CaseReply {
    let waits = ReplyWord::Said(Said::Waits);
    match due {
        Due::Makes(kind) => kind_reply(kind),
        Due::Waits(Why::Device(device)) => CaseReply::Three(
            waits,
            ReplyWord::Said(Said::Device),
            ReplyWord::Number(device),
        ),
        Due::Waits(Why::InProgress) => CaseReply::Two(waits, ReplyWord::Said(Said::InProgress)),
        Due::Waits(Why::LockHeld) => CaseReply::Two(waits, ReplyWord::Said(Said::LockHeld)),
        Due::Waits(Why::NoWork) => CaseReply::Two(waits, ReplyWord::Said(Said::NoWork)),
        Due::Waits(_) => CaseReply::One(waits),
        Due::Nothing => CaseReply::One(ReplyWord::Said(Said::Gone)),
    }
}

/// The words of a stage, if there is one.
pub fn stage_reply(stage: Option<Stage>) -> CaseReply {
    let Some(stage) = stage else {
        return CaseReply::One(ReplyWord::Nothing);
    };
    let word = ReplyWord::Stage(stage);
    match stage {
        Stage::Freezes(group) => CaseReply::Two(word, ReplyWord::Group(group)),
        Stage::PlatformDo(step) => CaseReply::Two(word, ReplyWord::Do(step)),
        Stage::PlatformUndo(step) => CaseReply::Two(word, ReplyWord::Undo(step)),
        Stage::Downs(phase) | Stage::Ups(phase) => CaseReply::Two(word, ReplyWord::Phase(phase)),
        Stage::Thaws(Thaw::All) => CaseReply::Two(word, ReplyWord::Said(Said::All)),
        Stage::Thaws(Thaw::Kernel) => CaseReply::Two(word, ReplyWord::Said(Said::Kernel)),
        _ => CaseReply::One(word),
    }
}

/// The words of an actor, if there is one.
pub fn actor_reply(actor: Option<Actor>) -> CaseReply {
    match actor {
        Some(who) => match who {
            Actor::Script(n) | Actor::Dev(n) | Actor::Timer(n) => {
                CaseReply::Two(ReplyWord::Actor(who), ReplyWord::Number(n))
            }
            _ => CaseReply::One(ReplyWord::Actor(who)),
        },
        None => CaseReply::One(ReplyWord::Nothing),
    }
}
