//! What workers share or take may be sent to a thread.
ghost use Rattle.std.specs.Prelude.{◌≡◌};

use sleep_script::{ActorJob, TimerJob};
use wakeup_source::{MOST_ENTRIES, WakeSource};

/// Only what may be sent to a thread is accepted.
fn sent<T: Send + Drop>(value: T) -> T
    ensures { result ≡ value }
{
    value
}

/// A source may be sent to a thread.
pub fn sent_source(source: WakeSource<MOST_ENTRIES>) -> WakeSource<MOST_ENTRIES>
    ensures { result ≡ source }
{
    sent(source)
}

/// So may the job of an actor.
pub fn sent_job(job: ActorJob<'_>) -> ActorJob<'_>
    ensures { result ≡ job.entry }
{
    sent(job)
}

/// And that of a source's timer.
pub fn sent_timer(job: TimerJob) -> TimerJob
    ensures { result ≡ job }
{
    sent(job)
}
