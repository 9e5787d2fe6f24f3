//! A task of a burst.

use sleep_model::{Stamp, Want};
use sleep_script::{ActorJob, TimerJob};

/// What one worker does in a burst.
#[derive(Drop)]
pub enum Task<'m> {
    /// The job of a script, of autosleep's work or of a device.
    Acts(ActorJob<'m>),
    /// The timer of a wakeup source.
    Fires(TimerJob),
}

impl<'m> Task<'m> {
    ghost use Rattle.std.specs.Prelude.{◌≡◌};
    ghost use Rattle.run_world.specs.Acts.{Wants, calls_by, known_by};

    /// What it does next: a call on a source, else a turn of the machine.
    pub fn next(&self) -> Want
        ensures { Wants self.now result }
    {
        match self {
            Task::Acts(job) => job.next(),
            Task::Fires(timer) => timer.next(),
        }
    }

    /// The stamp that it last knew.
    pub fn floor(&self) -> Stamp
        ensures { result ≡ known_by self.now }
    {
        match self {
            Task::Acts(job) => job.floor(),
            Task::Fires(timer) => timer.floor(),
        }
    }
    /// How many calls on sources it has made, a timer those that ended an event.
    pub fn calls(&self) -> u32
        ensures { result ≡ calls_by self.now }
    {
        match self {
            Task::Acts(job) => job.calls(),
            Task::Fires(timer) => timer.calls(),
        }
    }
}
