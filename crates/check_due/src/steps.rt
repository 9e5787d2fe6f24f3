//! What a task does next at its operation (`kernel/power/main.c`).

ghost use Rattle.std.specs.Prelude.{◌≡◌, ◌+◌, IfOk};
ghost use Rattle.sleep_model.specs.declared.entry.Kind.TheVariants as kind;
ghost use Rattle.sleep_model.specs.Steps.{autosleep_due, count_due, lock_due, mark_due, read_due, save_due, saved_number, sleep_due, slept_due, state_due, unless_unsaved};

use sleep_base::{Errno, Mem};
use sleep_model::{Due, EventNow, Kind, ScriptPosition, State, Why, visible};

/// The sum of a moment and a length, in ms. `Mem` if the sum overflows, to which no log comes (`attempt.rt`).
pub fn later_by(time: u64, ms: u32) -> Result<u64, Mem>
    ensures { IfOk result (λ t. t ≡ time + ms) }
{
    match time.checked_add(u64::from(ms)) {
        Some(t) => Ok(t),
        None => Err(Mem),
    }
}

/// A read of the count by a task that waits for it or not, and is asked to freeze or not
/// (`pm_get_wakeup_count`).
pub fn read_due(now: EventNow, waits: bool, asked: bool) -> Due
    ensures { result ≡ read_due now waits asked }
{
    if now.inpr == 0 {
        Due::Makes(Kind::Read(visible(now)))
    } else if !waits {
        Due::Makes(Kind::ReadWait)
    } else if asked {
        Due::Makes(Kind::ReadIntr)
    } else {
        Due::Waits(Why::InProgress)
    }
}

/// A save of that number, if the lock is free and autosleep is off.
fn save_due(now: EventNow, count: u32) -> Due
    ensures { result ≡ save_due now count }
{
    if visible(now) == count && now.inpr == 0 {
        Due::Makes(Kind::Saved(count))
    } else {
        Due::Makes(Kind::SaveErr(count, Errno::EINVAL))
    }
}

/// A write if another holds the lock: it says once that it waits, and gives up if it is asked to freeze.
fn lock_due(waits: bool, asked: bool, says: Due, gives_up: Due) -> Due
    ensures { result ≡ lock_due waits asked says gives_up }
{
    if !waits {
        says
    } else if asked {
        gives_up
    } else {
        Due::Waits(Why::LockHeld)
    }
}

/// A write of that number to the count, by whether the lock is held and autosleep is on
/// (`wakeup_count_store`).
pub fn count_due(held: bool, on: bool, waits: bool, asked: bool, now: EventNow, count: u32) -> Due
    ensures { result ≡ count_due held on waits asked now count }
{
    if held {
        lock_due(
            waits,
            asked,
            Due::Makes(Kind::SaveWait(count)),
            Due::Makes(Kind::SaveErr(count, Errno::EINTR)),
        )
    } else if on {
        Due::Makes(Kind::SaveErr(count, Errno::EBUSY))
    } else {
        save_due(now, count)
    }
}

/// A write to the state, whose text is `mem` or not, and whose attempt would be that (`state_store`).
pub fn state_due(held: bool, on: bool, waits: bool, asked: bool, mem: bool, attempt: Kind) -> Due
    ensures { result ≡ state_due held on waits asked mem attempt }
{
    if held {
        lock_due(
            waits,
            asked,
            Due::Makes(Kind::StateWait),
            Due::Makes(Kind::StateErr(Errno::EINTR)),
        )
    } else if on {
        Due::Makes(Kind::StateErr(Errno::EBUSY))
    } else if mem {
        Due::Makes(attempt)
    } else {
        Due::Makes(Kind::StateErr(Errno::EINVAL))
    }
}

/// A write to autosleep, whose text is `mem` or `off` or neither, by whether the lock is held and the state
/// is set already (`autosleep_store`).
pub fn autosleep_due(held: bool, begun: bool, mem: bool, off: bool) -> Due
    ensures { result ≡ autosleep_due held begun mem off }
{
    if !mem && !off {
        Due::Makes(Kind::AutoBad)
    } else if begun {
        Due::Makes(Kind::AutoDone)
    } else if held {
        Due::Waits(Why::LockHeld)
    } else if mem {
        Due::Makes(Kind::AutoSet(State::Mem))
    } else {
        Due::Makes(Kind::AutoSet(State::Off))
    }
}

/// The end of a sleep up to that moment.
fn slept_due(until: Option<u64>, time: u64) -> Due
    ensures { result ≡ slept_due until time }
{
    match until {
        None => Due::Nothing,
        Some(until) => {
            if until <= time {
                Due::Makes(Kind::Slept)
            } else {
                Due::Waits(Why::Until(until))
            }
        }
    }
}

/// A sleep that can be frozen, of so long, that has begun or not (`schedule_timeout`). `Mem` if its end
/// overflows.
pub fn sleep_due(ms: u32, position: ScriptPosition, time: u64) -> Result<Due, Mem>
    ensures { IfOk result (λ d. d ≡ sleep_due kind.Sleep ms position time) }
{
    if position.waits {
        Ok(slept_due(position.until, time))
    } else {
        Ok(Due::Makes(Kind::Sleep(later_by(time, ms)?)))
    }
}

/// A sleep that cannot be frozen.
pub fn sleep_d_due(ms: u32, position: ScriptPosition, time: u64) -> Result<Due, Mem>
    ensures { IfOk result (λ d. d ≡ sleep_due kind.SleepD ms position time) }
{
    if position.waits {
        Ok(slept_due(position.until, time))
    } else {
        Ok(Due::Makes(Kind::SleepD(later_by(time, ms)?)))
    }
}

/// A wait for a mark that was raised so often and not yet taken.
pub fn mark_due(mark: u32, raised: u32) -> Due
    ensures { result ≡ mark_due mark raised }
{
    if raised > 0 {
        Due::Makes(Kind::Got(mark))
    } else {
        Due::Waits(Why::Mark(mark))
    }
}

/// The number that a save writes: the given one, else the one that was last read, else 0.
pub fn saved_number(count: Option<u32>, last_read: Option<u32>) -> u32
    ensures { result ≡ saved_number count last_read }
{
    match count {
        Some(count) => count,
        None => last_read.unwrap_or(0),
    }
}

/// A write to the state is cut short if it asks for a good save and the last one was not.
pub fn unless_unsaved(if_saved: bool, saved: bool, due: Due) -> Due
    ensures { result ≡ unless_unsaved if_saved saved due }
{
    if if_saved && !saved {
        Due::Makes(Kind::StateUnsaved)
    } else {
        due
    }
}
