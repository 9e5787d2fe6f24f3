//! The count of events, as user space reads and saves it (`wakeup_count_show`, `wakeup_count_store`).

ghost use Rattle.std.specs.Prelude.{◌≡◌};
ghost use Rattle.sleep_model.specs.Steps.{read_due, save_due, lock_due, count_due, saved_number};

use sleep_base::Errno;
use sleep_model::{Due, EventNow, Kind, Why, visible};

/// A read of the count by a task that waits for it already or not, and is asked to freeze or not. It answers
/// if no event is in progress (`pm_get_wakeup_count`).
pub fn read_count(now: EventNow, waits: bool, asked: bool) -> Due
    ensures { result ≡ read_due now waits asked }
{
    if now.inpr == 0 {
        Due::Makes(Kind::Read(visible(now)))
    } else if !waits {
        Due::Makes(Kind::ReadWait)
    } else if asked {
        Due::Makes(Kind::ReadIntr)
    } else {
        Due::Waits(Why::InProgress)
    }
}

/// A save of that number, with the lock free and autosleep off (`pm_save_wakeup_count`).
fn save(now: EventNow, count: u32) -> Due
    ensures { result ≡ save_due now count }
{
    if visible(now) == count && now.inpr == 0 {
        Due::Makes(Kind::Saved(count))
    } else {
        Due::Makes(Kind::SaveErr(count, Errno::EINVAL))
    }
}

/// Another holds the autosleep lock: a write says once that it waits, and gives up if it is asked to freeze
/// (`pm_autosleep_lock`).
pub(crate) fn wait_for_lock(waits: bool, asked: bool, says: Due, gives_up: Due) -> Due
    ensures { result ≡ lock_due waits asked says gives_up }
{
    if !waits {
        says
    } else if asked {
        gives_up
    } else {
        Due::Waits(Why::LockHeld)
    }
}

/// A write of that number to the count. Another holds the lock or not, autosleep is on or not, and the task
/// waits already or not, and is asked to freeze or not (`wakeup_count_store`).
pub fn write_count(held: bool, on: bool, waits: bool, asked: bool, now: EventNow, count: u32) -> Due
    ensures { result ≡ count_due held on waits asked now count }
{
    if held {
        let says = Due::Makes(Kind::SaveWait(count));
        let gives_up = Due::Makes(Kind::SaveErr(count, Errno::EINTR));
        wait_for_lock(waits, asked, says, gives_up)
    } else if on {
        Due::Makes(Kind::SaveErr(count, Errno::EBUSY))
    } else {
        save(now, count)
    }
}

/// The number that a save writes: the given one, else the one that was last read, else 0.
pub fn saved_number(count: Option<u32>, last_read: Option<u32>) -> u32
    ensures { result ≡ saved_number count last_read }
{
    match count {
        Some(count) => count,
        None => last_read.unwrap_or(0),
    }
}
