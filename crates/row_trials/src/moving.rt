//! An event word that moves at its second look, as a second processor would move it.

ghost use Rattle.sleep_model.specs.Word.{position};

use event_word::Events;
use sleep_model::EventNow;

/// An event word that moves at each look, after some quiet ones: an event begins, the next look finds it
/// registered, and so on; or each look finds one more hard event.
#[derive(Drop)]
pub struct MovingWord {
    quiet: u32,
    hard: bool,
    now: EventNow,
}

impl MovingWord {
    /// A word without events, which moves after `quiet` looks.
    pub fn new(quiet: u32, hard: bool) -> Self {
        let now = EventNow {
            inpr: 0,
            count: 0,
            hard: 0,
        };
        MovingWord { quiet, hard, now }
    }
}

impl Events for MovingWord {
    ghost use Rattle.std.specs.Prelude.{None, false};

    ghost shows = { λ _. None };

    ghost looked = { λ _. None };

    ghost made = { λ _. None };

    ghost can = { λ _ _. false };

    ghost floor = { λ e. position e.now };

    ghost Root = { Unit {0} };

    ghost root = { λ _. tt };

    fn look(&mut self) -> EventNow {
        if self.quiet > 0 {
            self.quiet -= 1;
        } else if self.hard && self.now.hard < u32::MAX {
            self.now.hard += 1;
        } else if self.now.inpr == 0 {
            self.now.inpr = 1;
        } else if self.now.count < u32::MAX {
            self.now.inpr -= 1;
            self.now.count += 1;
        }
        self.now
    }
}
