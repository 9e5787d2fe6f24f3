//! What ends a freeze, a sleep and a nap; and what autosleep's work does next.

ghost use Rattle.std.specs.Prelude.{◌≡◌, IfOk};
ghost use Rattle.sleep_model.specs.Attempt.{froze_due, gives_up_at, wakes_due};
ghost use Rattle.sleep_model.specs.Autosleep.{auto_save, seen_count};
ghost use Rattle.sleep_model.specs.Freezer.{left};
ghost use Rattle.check_past.specs.Passing.{journal_of};
ghost use Rattle.check_due.specs.Frozen.{froze_by};

use crate::steps::later_by;
use check_past::{Passed, UnfrozenTasks};
use sleep_base::Mem;
use sleep_model::{
    Due, EventNow, FREEZE_TIMEOUT_MSECS, FrozeEnd, Group, Kind, Sleep, Why, pos, visible,
};

/// When a freeze gives up that has gone on since that moment, in ms. `Mem` if that overflows.
pub fn gives_up_at(since: u64) -> Result<u64, Mem>
    ensures { IfOk result (λ t. t ≡ gives_up_at since) }
{
    later_by(since, FREEZE_TIMEOUT_MSECS)
}

/// A freeze of a group that still waits for those tasks. `Mem` if its end overflows.
fn froze_by(
    past: &Passed<'_>,
    now: EventNow,
    group: Group,
    since: u64,
    left: UnfrozenTasks,
) -> Result<Due, Mem>
    ensures { IfOk result (λ d. d ≡ froze_by (journal_of past.now) now group since left.count left.first) }
{
    let until = gives_up_at(since)?;
    Ok(match left.first {
        None => Due::Makes(Kind::Froze(group, FrozeEnd::AllFrozen)),
        Some(first) => {
            let left = left.count;
            if until <= past.journal_time() {
                Due::Makes(Kind::Froze(group, FrozeEnd::Timeout { left, first }))
            } else if past.is_pending(now) {
                Due::Makes(Kind::Froze(group, FrozeEnd::Wakeup { left, first }))
            } else {
                Due::Waits(Why::Tasks { left, until })
            }
        }
    })
}

/// A freeze of a group that has gone on since that moment (`try_to_freeze_tasks`). `Mem` if its end
/// overflows.
pub fn froze_due(past: &Passed<'_>, now: EventNow, group: Group, since: u64) -> Result<Due, Mem>
    ensures { IfOk result (λ d. d ≡ froze_due (journal_of past.now) now group since
        (left past.now.machine group (journal_of past.now))) }
{
    froze_by(past, now, group, since, past.left(group))
}

/// A machine that sleeps wakes by a step of the word, else by its alarm (`suspend_enter`). `Mem` if the alarm
/// overflows.
pub fn wakes_due(past: &Passed<'_>, now: EventNow, sleep: Sleep) -> Result<Due, Mem>
    ensures { IfOk result (λ d. d ≡ wakes_due past.now.machine (journal_of past.now) now sleep) }
{
    if sleep.pos < pos(now) {
        return Ok(Due::Makes(Kind::Wake { by_event: true }));
    }
    let alarm = match sleep.since.checked_add(past.machine().alarm_ms) {
        Some(at) => at,
        None => return Err(Mem),
    };
    if alarm <= past.journal_time() {
        Ok(Due::Makes(Kind::Wake { by_event: false }))
    } else {
        Ok(Due::Waits(Why::Asleep))
    }
}

/// A save of the work's count (`pm_save_wakeup_count`).
pub fn auto_save(now: EventNow, count: u32) -> Kind
    ensures { result ≡ auto_save now count }
{
    if visible(now) == count && now.inpr == 0 {
        Kind::AutoSaved(count)
    } else {
        Kind::AutoUnsaved(count)
    }
}

/// The count that is seen if no event is in progress (`pm_get_wakeup_count`).
pub fn seen_count(now: EventNow) -> Option<u32>
    ensures { result ≡ seen_count now }
{
    if now.inpr == 0 {
        Some(visible(now))
    } else {
        None
    }
}
