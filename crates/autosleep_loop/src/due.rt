//! What the autosleep work does next (`try_to_suspend`).

ghost use Rattle.std.specs.Prelude.{◌≡◌, ◌≤◌, ◌^◌};
ghost use Rattle.sleep_model.specs.declared.progress.Due.TheVariants.{Makes};
ghost use Rattle.sleep_model.specs.Autosleep.{auto_save, seen_count, naps_until};
ghost use Rattle.autosleep_loop.specs.Autosleeps.{saving_due, nap_due, turn_due};

use crate::autosleep::Autosleep;
use sleep_model::{Due, EventNow, Kind, NAP_MSECS, Why, Work, visible};

/// A save of the work's count (`pm_save_wakeup_count`).
fn save(now: EventNow, count: u32) -> Kind
    ensures { result ≡ auto_save now count }
{
    if visible(now) == count && now.inpr == 0 {
        Kind::AutoSaved(count)
    } else {
        Kind::AutoUnsaved(count)
    }
}

/// The count, if no event is in progress (`pm_get_wakeup_count`).
fn seen_count(now: EventNow) -> Option<u32>
    ensures { result ≡ seen_count now }
{
    if now.inpr == 0 {
        Some(visible(now))
    } else {
        None
    }
}

/// A nap up to that moment in ms, once it has begun.
fn nap_due(until: Option<u64>, time: u64) -> Due
    requires { time ≤ 2 ^ 63 }
    ensures { result ≡ nap_due until time }
{
    match until {
        None => Due::Makes(Kind::SleepD(time + u64::from(NAP_MSECS))),
        Some(until) if until <= time => Due::Makes(Kind::Slept),
        Some(until) => Due::Waits(Why::Until(until)),
    }
}

impl Autosleep {
    ghost use Rattle.std.specs.Prelude.{◌≡◌, ◌≤◌, ◌^◌, ◌&&◌, nat_lt, if◌then◌else◌};

    /// Whether the work may run once more within its bound.
    fn may_run(&self, cycles: u32) -> bool
        ensures { result ≡ (self.now.queued && nat_lt self.now.runs cycles) }
    {
        self.queued && self.runs < cycles
    }

    /// A save of that count, for which the lock has to be free.
    fn saving_due(&self, now: EventNow, count: u32) -> Due
        ensures { result ≡ saving_due now count self.now.holder }
    {
        if self.holder.is_some() {
            Due::Waits(Why::LockHeld)
        } else {
            Due::Makes(save(now, count))
        }
    }

    /// The one if autosleep is on, else the other.
    fn if_on(&self, one: Kind, other: Kind) -> Due
        ensures { result ≡ Makes (if self.now.on then one else other) }
    {
        Due::Makes(if self.on { one } else { other })
    }

    /// The work's next entry outside its own attempts, while the machine is awake and some script has not
    /// exited: at a word that it sees, at that time in ms. It may run `cycles` times in all, and its attempt
    /// begins with that entry (`try_to_suspend`).
    pub fn due(&self, cycles: u32, now: EventNow, time: u64, attempt: Kind) -> Due
        requires { time ≤ 2 ^ 63 }
        ensures { result ≡ turn_due cycles now time attempt self.now }
    {
        match self.work {
            Work::Resting if self.may_run(cycles) => Due::Makes(Kind::AutoRun),
            Work::Resting => Due::Waits(Why::NoWork),
            Work::Reading if now.inpr == 0 => Due::Makes(Kind::Read(visible(now))),
            Work::Reading => Due::Waits(Why::InProgress),
            Work::Saving(count) => self.saving_due(now, count),
            Work::Attempting(_) => self.if_on(attempt, Kind::AutoOff),
            Work::Looking(_) => Due::Makes(Kind::AutoAfter(seen_count(now))),
            Work::Napping(until) => nap_due(until, time),
            Work::Closing => self.if_on(Kind::AutoAgain, Kind::AutoOff),
        }
    }

    /// The end of the work's nap in ms, if it naps (`schedule_timeout_uninterruptible`).
    pub fn naps_until(&self) -> Option<u64>
        ensures { result ≡ naps_until self.now.work }
    {
        match self.work {
            Work::Napping(until) => until,
            _ => None,
        }
    }
}
