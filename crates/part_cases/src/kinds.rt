//! What entries say, spelled as in a log, with an underscore for each space before its names and numbers, and
//! a number in place of each name: `begin late 2`, `save_err 3 EINVAL`, `skip_direct suspend 2`.

use crate::asked::{Words, actor_of, cut, found};
use crate::reply::Out;
use sleep_base::Errno;
use sleep_model::{Actor, FrozeEnd, Group, Kind, Phase, PlatDo, PlatUndo, SkipCause, State, Thaw};

// Any phase.
const ANY: Phase = Phase::Prepare;

const ATTEMPT: Kind = Kind::Attempt {
    n: 0,
    guarded: None,
};

const RUNTIME: Kind = Kind::RuntimeAsk {
    device: 0,
    to_suspended: false,
    r: None,
};

const TIMEOUT: FrozeEnd = FrozeEnd::Timeout { left: 0, first: 0 };

const WAKEUP: FrozeEnd = FrozeEnd::Wakeup { left: 0, first: 0 };

/// Each first word, with its kind of entry if all numbers are 0.
const KINDS: [(&str, Kind); 70] = [
    ("frozen", Kind::Frozen),
    ("read_wait", Kind::ReadWait),
    ("read", Kind::Read(0)),
    ("saved", Kind::Saved(0)),
    ("state_wait", Kind::StateWait),
    ("auto_set_mem", Kind::AutoSet(State::Mem)),
    ("auto_done", Kind::AutoDone),
    ("sleep", Kind::Sleep(0)),
    ("sleep_d", Kind::SleepD(0)),
    ("slept", Kind::Slept),
    ("pass", Kind::Pass),
    ("post", Kind::Post(0)),
    ("got", Kind::Got(0)),
    ("exit", Kind::Exit),
    ("auto_run", Kind::AutoRun),
    ("auto_saved", Kind::AutoSaved(0)),
    ("auto_unsaved", Kind::AutoUnsaved(0)),
    ("auto_after", Kind::AutoAfter(None)),
    ("auto_again", Kind::AutoAgain),
    ("awake", Kind::Awake(0)),
    ("relax", Kind::Relax(0)),
    ("expire", Kind::Expire(0)),
    ("start", Kind::Start(0)),
    ("finish", Kind::Finish(0)),
    ("jump", Kind::Jump),
    ("attempt", ATTEMPT),
    ("over", Kind::Over { n: 0, r: None }),
    ("save_err", Kind::SaveErr(0, Errno::EINVAL)),
    ("runtime", RUNTIME),
    ("enter", Kind::Enter { busy: false }),
    ("enter_busy", Kind::Enter { busy: true }),
    ("wake_event", Kind::Wake { by_event: true }),
    ("wake_alarm", Kind::Wake { by_event: false }),
    ("clear", Kind::Clear),
    ("freeze_user", Kind::Freeze(Group::User)),
    ("freeze_kernel", Kind::Freeze(Group::Kernel)),
    ("thaw_all", Kind::Thaw(Thaw::All)),
    ("notify_prepare", Kind::NotifyPrepare(0, None)),
    ("notify_post", Kind::NotifyPost(0)),
    ("froze_user", Kind::Froze(Group::User, FrozeEnd::AllFrozen)),
    (
        "froze_kernel",
        Kind::Froze(Group::Kernel, FrozeEnd::AllFrozen),
    ),
    ("froze_user_timeout", Kind::Froze(Group::User, TIMEOUT)),
    ("froze_kernel_timeout", Kind::Froze(Group::Kernel, TIMEOUT)),
    ("froze_user_wakeup", Kind::Froze(Group::User, WAKEUP)),
    ("platform_begin", Kind::PlatformDo(PlatDo::Begin, None)),
    ("platform_prepare", Kind::PlatformDo(PlatDo::Prepare, None)),
    (
        "platform_prepare_late",
        Kind::PlatformDo(PlatDo::PrepareLate, None),
    ),
    ("platform_recover", Kind::PlatformUndo(PlatUndo::Recover)),
    ("platform_wake", Kind::PlatformUndo(PlatUndo::Wake)),
    ("platform_finish", Kind::PlatformUndo(PlatUndo::Finish)),
    ("platform_end", Kind::PlatformUndo(PlatUndo::End)),
    ("prepare", Kind::Prepare { device: 0, r: 0 }),
    ("complete", Kind::Complete(0)),
    ("schedule", Kind::Schedule(ANY, 0)),
    ("begin", Kind::Begin(ANY, 0)),
    ("end", Kind::End(ANY, 0, None)),
    ("skip_error", Kind::Skip(ANY, 0, SkipCause::Error)),
    ("skip_pending", Kind::Skip(ANY, 0, SkipCause::Pending)),
    ("skip_direct", Kind::Skip(ANY, 0, SkipCause::Direct)),
    ("done", Kind::Done(ANY, None)),
    ("cpu_off", Kind::CpuOff(0)),
    ("cpu_busy", Kind::CpuBusy(0)),
    ("cpu_on", Kind::CpuOn(0)),
    ("irqs_off", Kind::Irqs { on: false }),
    ("irqs_on", Kind::Irqs { on: true }),
    ("syscore_check", Kind::SyscoreCheck(None)),
    ("syscore_suspend", Kind::SyscoreSuspend(0, None)),
    ("syscore_resume", Kind::SyscoreResume(0)),
    ("thaw_kernel", Kind::Thaw(Thaw::Kernel)),
    ("hard", Kind::Hard(0)),
];

/// What an entry of that text says. If the text has no form, that is told, and it is a pass.
pub fn kind_of(text: &str, out: &mut Out) -> Kind {
    let (word, rest) = cut(text, ' ');
    match found(&KINDS, word) {
        Some(kind) => filled(kind, Words::of(rest)),
        None => {
            out.lack();
            Kind::Pass
        }
    }
}

/// An entry's actor and what it says.
pub fn entry_of(text: &str, out: &mut Out) -> (Actor, Kind) {
    let (who, kind) = cut(text, ' ');
    (actor_of(who), kind_of(kind, out))
}

/// What an entry of a task, of the autosleep work or of a source says with these numbers.
fn filled(kind: Kind, words: Words) -> Kind {
    let (n, ms) = (words.number(0), words.long(0));
    match kind {
        Kind::Read(_) => Kind::Read(n),
        Kind::Saved(_) => Kind::Saved(n),
        Kind::Sleep(_) => Kind::Sleep(ms),
        Kind::SleepD(_) => Kind::SleepD(ms),
        Kind::Post(_) => Kind::Post(n),
        Kind::Got(_) => Kind::Got(n),
        Kind::AutoSaved(_) => Kind::AutoSaved(n),
        Kind::AutoUnsaved(_) => Kind::AutoUnsaved(n),
        Kind::AutoAfter(_) => Kind::AutoAfter(words.maybe(0)),
        Kind::Awake(_) => Kind::Awake(n),
        Kind::Relax(_) => Kind::Relax(n),
        Kind::Expire(_) => Kind::Expire(n),
        Kind::Start(_) => Kind::Start(n),
        Kind::Finish(_) => Kind::Finish(n),
        Kind::Hard(_) => Kind::Hard(n),
        Kind::NotifyPost(_) => Kind::NotifyPost(n),
        Kind::CpuOff(_) => Kind::CpuOff(n),
        Kind::CpuBusy(_) => Kind::CpuBusy(n),
        Kind::CpuOn(_) => Kind::CpuOn(n),
        Kind::SyscoreResume(_) => Kind::SyscoreResume(n),
        Kind::Complete(_) => Kind::Complete(n),
        kind => filled_step(kind, words),
    }
}

/// What another entry says with these words.
fn filled_step(kind: Kind, words: Words) -> Kind {
    let (n, device) = (words.number(0), words.number(1));
    let (phase, answer, r) = (words.phase(0), words.error(0), words.error(1));
    match kind {
        Kind::SaveErr(_, error) => Kind::SaveErr(n, r.unwrap_or(error)),
        Kind::RuntimeAsk { .. } => Kind::RuntimeAsk {
            device: n,
            to_suspended: words.flag(1),
            r: words.error(2),
        },
        Kind::Attempt { .. } => Kind::Attempt {
            n,
            guarded: words.maybe(1),
        },
        Kind::Over { .. } => Kind::Over { n, r },
        Kind::NotifyPrepare(_, _) => Kind::NotifyPrepare(n, r),
        Kind::Froze(group, end) => Kind::Froze(group, filled_end(end, n, device)),
        Kind::PlatformDo(step, _) => Kind::PlatformDo(step, answer),
        Kind::SyscoreCheck(_) => Kind::SyscoreCheck(answer),
        Kind::SyscoreSuspend(_, _) => Kind::SyscoreSuspend(n, r),
        Kind::Prepare { .. } => Kind::Prepare {
            device: n,
            r: words.signed(1),
        },
        Kind::Schedule(_, _) => Kind::Schedule(phase, device),
        Kind::Begin(_, _) => Kind::Begin(phase, device),
        Kind::End(_, _, _) => Kind::End(phase, device, words.error(2)),
        Kind::Skip(_, _, cause) => Kind::Skip(phase, device, cause),
        Kind::Done(_, _) => Kind::Done(phase, r),
        kind => kind,
    }
}

/// How a freeze ended, with these numbers.
fn filled_end(end: FrozeEnd, left: u32, first: u32) -> FrozeEnd {
    match end {
        FrozeEnd::AllFrozen => FrozeEnd::AllFrozen,
        FrozeEnd::Timeout { .. } => FrozeEnd::Timeout { left, first },
        FrozeEnd::Wakeup { .. } => FrozeEnd::Wakeup { left, first },
    }
}
