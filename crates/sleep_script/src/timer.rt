//! The job of a source's timer.
use crate::job::later;
use sleep_model::{SourceCall, Stamp, Want};
use std::marker::Model;

/// The job of a source's timer, which ends the event in progress once its time is over
/// (`drivers/base/power/wakeup.c`, `pm_wakeup_timer_fn`). It takes no turn of the core.
#[derive(Drop)]
pub struct TimerJob {
    source: u32,
    calls: u32,
    floor: Stamp,
}

impl Model for TimerJob {
    ghost use Rattle.sleep_script.specs.Jobs.{TimerState};

    ghost Value = { TimerState };

    ghost view = { λ t. record { source = t.source; calls = t.calls; floor = t.floor } };
}

impl TimerJob {
    ghost use Rattle.std.specs.Prelude.{◌≡◌, ◌+◌, min};
    ghost use Rattle.sleep_script.specs.Jobs.{first_timer, after_expiry, raised_timer};

    /// The job of that source's timer, before its first call.
    pub fn new(source: u32) -> Self
        ensures { result ≡ first_timer source }
    {
        TimerJob {
            source,
            calls: 0,
            floor: Stamp { pos: 0, tick: 0 },
        }
    }

    /// What the timer does next: it asks whether the event in progress is over.
    pub fn next(&self) -> Want
        ensures { result ≡ Want.Source self.now.source SourceCall.Expire }
    {
        Want::Source(self.source, SourceCall::Expire)
    }

    /// The timer ended an event, and knows that stamp.
    pub fn told_source(&mut self, stamp: Stamp)
        ensures { self.new ≡ after_expiry stamp self.old }
    {
        self.calls = self.calls.saturating_add(1);
        self.floor = stamp;
    }

    /// The stamp that the timer last knew.
    pub fn floor(&self) -> Stamp
        ensures { result ≡ self.now.floor }
    {
        self.floor
    }

    /// The timer knows at least that stamp.
    pub fn raise(&mut self, floor: Stamp)
        ensures { self.new ≡ raised_timer floor self.old }
    {
        self.floor = later(floor, self.floor);
    }

    /// How many events the timer has ended, at most 4,294,967,295.
    pub fn calls(&self) -> u32
        ensures { result ≡ self.now.calls }
    {
        self.calls
    }
}
