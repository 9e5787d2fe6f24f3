//! When a run makes bursts, and by how many workers.

ghost use Rattle.std.specs.Prelude.{◌≤◌};

/// The fewest calls on sources, not counting the busiest task's, that make a burst worth each thread that is
/// made for it.
const WORTH: u64 = 256;

/// The fewest of them for each task that make it worth asking all tasks.
const WORTH_A_TASK: u64 = 16;

/// The first bursts, which all workers make.
const WHOLE: u32 = 2;

/// The most stretches in a row without a burst, each up to a jump of time.
const MOST_ALONE: u32 = 65_536;

/// A burst costs some tens of microseconds for each thread, which is most of a run that makes a few entries
/// at each moment. It asks each task again and again, while the caller knows who may have something to do.
/// Turns of the machine follow one another under its lock, and no thread makes faster what only one task
/// does. So if bursts come to few calls on sources for the threads that they take, the caller goes on by
/// itself for a while, and then tries again: twice as long each time. A burst after one that came to few
/// calls is made by few workers. All is counted, and nothing measured by a clock. No clause speaks of this.
#[derive(Drop)]
pub(crate) struct Pace {
    /// How many workers there are: one makes no burst.
    most: u8,
    ghost least: { 1 ≤ most },
    /// How many bursts were made.
    made: u32,
    /// How many bursts in a row came to little.
    short: u32,
    /// For how many stretches the caller then goes on by itself.
    alone: u32,
    /// How many workers the last burst was worth.
    worth: u64,
}

impl Pace {
    /// At first bursts are made, unless there is but one worker.
    pub(crate) fn new(most: u8) -> Self
        requires { 1 ≤ most }
    {
        Pace {
            most,
            made: 0,
            short: 0,
            alone: 0,
            worth: 0,
        }
    }

    /// For how many stretches the caller goes on by itself before the next burst. They are taken: the next
    /// answer is none, unless a burst comes to little in between, or there is only one worker.
    pub(crate) fn take_alone(&mut self) -> u32 {
        if self.most == 1 {
            return MOST_ALONE;
        }
        let alone = self.alone;
        self.alone = 0;
        alone
    }

    /// How many workers make the next burst: all the first ones, then as many as the last one was worth, and
    /// two at least.
    pub(crate) fn workers(&self) -> u8
        ensures { 1 ≤ result }
    {
        if self.made < WHOLE || self.worth >= u64::from(self.most) {
            return self.most;
        }
        self.most.min(2).max(self.worth as u8)
    }

    /// A burst of so many tasks and workers was made. `other_calls`: how many calls on sources were not the
    /// busiest task's.
    pub(crate) fn note(&mut self, other_calls: u64, tasks: usize, workers: u8) {
        self.made = self.made.saturating_add(1);
        self.worth = other_calls / WORTH + 1;
        let threads = (tasks as u64).min(u64::from(workers)).saturating_sub(1);
        let least = (threads * WORTH).max((tasks as u64).saturating_mul(WORTH_A_TASK));
        if other_calls >= least {
            self.short = 0;
            return;
        }
        self.short = self.short.saturating_add(1);
        if self.short >= WHOLE {
            self.alone = MOST_ALONE.min(1 << (self.short.min(14) + 2));
        }
    }
}
