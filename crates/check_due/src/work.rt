//! What autosleep's work does next (`kernel/power/autosleep.c`, `try_to_suspend`).

ghost use Rattle.std.specs.Prelude.{◌≡◌, if◌then◌else◌, IfOk};
ghost use Rattle.sleep_model.specs.declared.entry.Kind.TheVariants.{AutoOff};
ghost use Rattle.sleep_model.specs.declared.progress.Due.TheVariants.{Makes};
ghost use Rattle.sleep_model.specs.declared.progress.Work.TheVariants.{Napping};
ghost use Rattle.sleep_model.specs.declared.word.EventNow.{EventNow};
ghost use Rattle.sleep_model.specs.Lock.{is_on};
ghost use Rattle.sleep_model.specs.Autosleep.{auto_due, work_due};
ghost use Rattle.sleep_model.specs.Attempt.{sleeps_now};
ghost use Rattle.sleep_model.specs.Due.{is_over};
ghost use Rattle.check_past.specs.Passing.{journal_of};

use crate::steps::later_by;
use crate::tasks::next_attempt;
use crate::waits::{auto_save, seen_count};
use check_past::Passed;
use sleep_base::Mem;
use sleep_model::{Due, EventNow, Kind, NAP_MSECS, Why, Work, visible};

/// A nap up to that moment, once it has begun.
fn nap_due(past: &Passed<'_>, until: Option<u64>) -> Result<Due, Mem>
    ensures { IfOk result (λ d. (now : EventNow) → d ≡ work_due past.now.machine (journal_of past.now) now (Napping until)) }
{
    let time = past.journal_time();
    match until {
        None => Ok(Due::Makes(Kind::SleepD(later_by(time, NAP_MSECS)?))),
        Some(until) => {
            if until <= time {
                Ok(Due::Makes(Kind::Slept))
            } else {
                Ok(Due::Waits(Why::Until(until)))
            }
        }
    }
}

/// The first if autosleep is on, else that the work ends.
fn if_on(past: &Passed<'_>, kind: Kind) -> Due
    ensures { result ≡ (if is_on (journal_of past.now) then Makes kind else Makes AutoOff) }
{
    if past.autosleep_is_on() {
        Due::Makes(kind)
    } else {
        Due::Makes(Kind::AutoOff)
    }
}

/// The work's next entry. `Mem` if the end of a nap overflows, or the next attempt has no number.
fn work_due(past: &Passed<'_>, now: EventNow, work: Work) -> Result<Due, Mem>
    ensures { IfOk result (λ d. d ≡ work_due past.now.machine (journal_of past.now) now work) }
{
    match work {
        Work::Resting => Ok(if past.may_run() {
            Due::Makes(Kind::AutoRun)
        } else {
            Due::Waits(Why::NoWork)
        }),
        Work::Reading => Ok(if now.inpr == 0 {
            Due::Makes(Kind::Read(visible(now)))
        } else {
            Due::Waits(Why::InProgress)
        }),
        Work::Saving(c) => Ok(if past.holder().is_none() {
            Due::Makes(auto_save(now, c))
        } else {
            Due::Waits(Why::LockHeld)
        }),
        Work::Attempting(_) => Ok(if_on(past, next_attempt(past)?)),
        Work::Looking(_) => Ok(Due::Makes(Kind::AutoAfter(seen_count(now)))),
        Work::Napping(until) => nap_due(past, until),
        Work::Closing => Ok(if_on(past, Kind::AutoAgain)),
    }
}

/// The work outside its own attempts: nothing while the machine sleeps, and nothing once all tasks have
/// exited and no attempt is open. `Mem` if the end of a nap overflows, or the next attempt has no number.
pub(crate) fn auto_due(past: &Passed<'_>, now: EventNow) -> Result<Due, Mem>
    ensures { IfOk result (λ d. d ≡ auto_due past.now.machine (journal_of past.now) now
        (sleeps_now (journal_of past.now)) (is_over past.now.machine (journal_of past.now))) }
{
    if past.sleeps() {
        Ok(Due::Waits(Why::Asleep))
    } else if past.is_over() {
        Ok(Due::Waits(Why::NoWork))
    } else {
        work_due(past, now, past.work())
    }
}
