//! The event word, and the saved count.

ghost use Rattle.std.specs.Prelude.{◌≡◌, ◌+◌, if◌then◌else◌, None, IfOk};
ghost use Rattle.sleep_model.specs.Numbers.{after_step, time_after, word_step};
ghost use Rattle.sleep_model.specs.Guard.{count_effect, force_after, forgotten_after, has_changed, count_pending};

use sleep_base::{Errno, Mem};
use sleep_model::{EventNow, FrozeEnd, Group, Kind, SkipCause, visible};

/// One more. `Mem` if a counter has no room for it, which no log that fits into memory comes to.
pub(crate) fn one_more(count: u32) -> Result<u32, Mem>
    ensures { IfOk result (λ n. n ≡ count + 1) }
{
    match count.checked_add(1) {
        Some(n) => Ok(n),
        None => Err(Mem),
    }
}

/// The word after an entry: a start begins an event, a finish registers it, a hard step counts a hard one
/// (`drivers/base/power/wakeup.c`, `wakeup_source_activate`, `wakeup_source_deactivate`). `Mem` if a counter
/// has no room.
pub fn word_after(kind: Kind, word: EventNow) -> Result<EventNow, Mem>
    ensures { IfOk result (λ w. w ≡ after_step (word_step kind) word) }
{
    match kind {
        Kind::Start(_) => Ok(EventNow {
            inpr: one_more(word.inpr)?,
            ..word
        }),
        Kind::Finish(_) => Ok(EventNow {
            inpr: word.inpr.saturating_sub(1),
            count: one_more(word.count)?,
            ..word
        }),
        Kind::Hard(_) => Ok(EventNow {
            hard: one_more(word.hard)?,
            ..word
        }),
        _ => Ok(word),
    }
}

/// The time, in ms, after an entry: a jump sets it.
pub fn time_after(kind: Kind, at: u64, before: u64) -> u64
    ensures { result ≡ time_after kind at before }
{
    match kind {
        Kind::Jump => at,
        _ => before,
    }
}

/// Whether the count of events differs from the one in force, or an event is in progress
/// (`pm_wakeup_pending`).
fn has_changed(now: EventNow, count: u32) -> bool
    ensures { result ≡ has_changed now count }
{
    visible(now) != count || now.inpr > 0
}

/// Whether a count that is in force has changed.
pub(crate) fn count_pending(force: Option<u32>, now: EventNow) -> bool
    ensures { result ≡ count_pending force now }
{
    match force {
        None => false,
        Some(count) => has_changed(now, count),
    }
}

/// The count in force, unless it has changed.
fn unless_changed(force: Option<u32>, now: EventNow) -> Option<u32>
    ensures { result ≡ (if count_pending force now then None else force) }
{
    if count_pending(force, now) {
        None
    } else {
        force
    }
}

/// The count in force after an entry that saw this word: a save that succeeds stores, one that fails and the
/// end of an attempt drop, a test that found a wakeup drops what it found changed (`pm_save_wakeup_count`,
/// `pm_wakeup_pending`).
pub(crate) fn force_after(kind: Kind, now: EventNow, before: Option<u32>) -> Option<u32>
    ensures { result ≡ force_after (count_effect kind) now before }
{
    match kind {
        Kind::Saved(count) | Kind::AutoSaved(count) => Some(count),
        Kind::SaveErr(_, Errno::EINVAL) | Kind::AutoUnsaved(_) | Kind::Clear => None,
        Kind::Froze(_, FrozeEnd::Wakeup { .. })
        | Kind::Skip(_, _, SkipCause::Pending)
        | Kind::CpuBusy(_)
        | Kind::SyscoreCheck(Some(Errno::EBUSY))
        | Kind::Enter { busy: true } => unless_changed(before, now),
        _ => before,
    }
}

/// The hard events that are forgotten after an entry that saw this word: those before a freeze of user tasks
/// (`pm_wakeup_clear`).
pub(crate) fn forgotten_after(kind: Kind, now: EventNow, before: u32) -> u32
    ensures { result ≡ forgotten_after kind now before }
{
    match kind {
        Kind::Freeze(Group::User) => now.hard,
        _ => before,
    }
}
