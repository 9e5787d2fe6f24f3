//! How a task that has nothing to do spares the locks.

use sleep_pool::Turn;

/// The longest pause, in rounds.
const LONGEST: u32 = 255;

/// A task whose tries come to nothing takes no lock for a while, twice as long each time. None of this is
/// part of what is promised: whoever was left out in a burst is asked in the caller's own round after it.
#[derive(Drop)]
pub(crate) struct Pause {
    /// How many rounds it still takes no lock.
    left: u32,
    /// How long the last pause was.
    length: u32,
}

impl Pause {
    /// None at first.
    pub(crate) fn new() -> Self {
        Pause { left: 0, length: 0 }
    }

    /// Whether it takes no lock in this round.
    pub(crate) fn skips_round(&mut self) -> bool {
        if self.left == 0 {
            return false;
        }
        self.left -= 1;
        true
    }

    /// What came of a try.
    pub(crate) fn note(&mut self, turn: Turn) {
        match turn {
            Turn::Did => self.length = 0,
            Turn::NotYet => {
                self.length = 2 * self.length.min(LONGEST / 2) + 1;
                self.left = self.length;
            }
            Turn::Done | Turn::Stop => {}
        }
    }
}
