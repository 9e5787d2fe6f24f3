//! The open attempt.

ghost use Rattle.std.specs.Prelude.{◌≡◌, IfOk};
ghost use Rattle.sleep_model.specs.Attempt.{busy_error, failed_after, freeze_error, freeze_since_after, sleep_after};
ghost use Rattle.sleep_model.specs.Laws.{entered_after};
ghost use Rattle.sleep_model.specs.Path.{attempts_after, maker_after};
ghost use Rattle.sleep_model.specs.Walk.{or_else};

use crate::counts::one_more;
use sleep_base::{Errno, Mem};
use sleep_model::{Actor, FrozeEnd, Kind, Sleep};

/// How many attempts were begun after an entry (`kernel/power/suspend.c`, `pm_suspend`). `Mem` if the counter
/// has no room.
pub(crate) fn attempts_after(kind: Kind, before: u32) -> Result<u32, Mem>
    ensures { IfOk result (λ n. n ≡ attempts_after kind before) }
{
    match kind {
        Kind::Attempt { .. } => one_more(before),
        _ => Ok(before),
    }
}

/// Who makes the open attempt after an entry of that actor, if one is open.
pub(crate) fn maker_after(kind: Kind, who: Actor, before: Option<Actor>) -> Option<Actor>
    ensures { result ≡ maker_after kind who before }
{
    match kind {
        Kind::Attempt { .. } => Some(who),
        Kind::Over { .. } => None,
        _ => before,
    }
}

/// The first error, or else the second.
fn or_else(first: Option<Errno>, other: Option<Errno>) -> Option<Errno>
    ensures { result ≡ or_else first other }
{
    match first {
        None => other,
        Some(r) => Some(r),
    }
}

/// The error of a freeze that left tasks.
fn freeze_error(end: FrozeEnd) -> Option<Errno>
    ensures { result ≡ freeze_error end }
{
    match end {
        FrozeEnd::AllFrozen => None,
        _ => Some(Errno::EBUSY),
    }
}

/// The error of an entering that found a wakeup pending.
fn busy_error(busy: bool) -> Option<Errno>
    ensures { result ≡ busy_error busy }
{
    if busy { Some(Errno::EBUSY) } else { None }
}

/// The error of the open attempt's step that failed, after an entry (`enter_state`).
pub(crate) fn failed_after(kind: Kind, before: Option<Errno>) -> Option<Errno>
    ensures { result ≡ failed_after kind before }
{
    match kind {
        Kind::Attempt { .. } => None,
        Kind::NotifyPrepare(_, r) => or_else(r, before),
        Kind::Froze(_, end) => or_else(freeze_error(end), before),
        Kind::PlatformDo(_, r) => or_else(r, before),
        Kind::Done(_, r) => or_else(r, before),
        Kind::CpuBusy(_) => Some(Errno::EBUSY),
        Kind::SyscoreCheck(r) => or_else(r, before),
        Kind::SyscoreSuspend(_, r) => or_else(r, before),
        Kind::Enter { busy } => or_else(busy_error(busy), before),
        _ => before,
    }
}

/// Whether the open attempt has entered sleep, after an entry (`suspend_enter`).
pub(crate) fn entered_after(kind: Kind, before: bool) -> bool
    ensures { result ≡ entered_after kind before }
{
    match kind {
        Kind::Attempt { .. } => false,
        Kind::Enter { busy } => !busy || before,
        _ => before,
    }
}

/// Since when a freeze goes on, in ms, after an entry of that time, if one does
/// (`kernel/power/process.c`, `try_to_freeze_tasks`).
pub(crate) fn freeze_since_after(kind: Kind, time: u64, before: Option<u64>) -> Option<u64>
    ensures { result ≡ freeze_since_after kind time before }
{
    match kind {
        Kind::Freeze(_) => Some(time),
        Kind::Froze(..) => None,
        _ => before,
    }
}

/// The machine's sleep after an entry at that position of the word and that time, if it sleeps
/// (`kernel/power/suspend.c`, `suspend_enter`).
pub(crate) fn sleep_after(kind: Kind, pos: u64, time: u64, before: Option<Sleep>) -> Option<Sleep>
    ensures { result ≡ sleep_after kind pos time before }
{
    match kind {
        Kind::Enter { busy: false } => Some(Sleep { pos, since: time }),
        Kind::Wake { .. } => None,
        _ => before,
    }
}
