//! The event word as one plain counter.

ghost use Rattle.std.specs.Prelude.{◌≡◌, Some, None};
ghost use Rattle.sleep_model.specs.Word.{position};
ghost use Rattle.event_word.specs.Steps.{has_room_for_all};

use crate::events::{Bump, Events};
use sleep_model::EventNow;
use std::marker::Model;

/// One plain counter, which nobody else moves: contracts see its word.
#[derive(Clone, Copy, Drop)]
pub struct PlainEvents {
    now: EventNow,
}

impl Model for PlainEvents {
    ghost use Rattle.sleep_model.specs.declared.word.EventNow.{EventNow};

    ghost Value = { EventNow };

    ghost view = { λ e. e.now };

    ghost inverse = { λ word. record { now = word } };
}

impl PlainEvents {
    /// The word 0/0/0: no event in progress, none registered.
    pub fn new() -> Self
        ensures { result ≡ record { inpr = 0; count = 0; hard = 0 } }
    {
        PlainEvents {
            now: EventNow {
                inpr: 0,
                count: 0,
                hard: 0,
            },
        }
    }
}

impl Events for PlainEvents {
    ghost shows = { λ word. Some word };

    ghost looked = { λ _. None };

    ghost made = { λ _. None };

    ghost can = { has_room_for_all };

    ghost floor = { λ word. position word };

    ghost Root = { Unit {0} };

    ghost root = { λ _. tt };

    fn look(&mut self) -> EventNow {
        self.now
    }
}

impl Bump for PlainEvents {
    fn start(&mut self) -> EventNow {
        let before = self.now;
        self.now.inpr += 1;
        before
    }

    fn finish(&mut self) -> EventNow {
        let before = self.now;
        self.now.inpr -= 1;
        self.now.count += 1;
        before
    }

    fn hard(&mut self) -> EventNow {
        let before = self.now;
        self.now.hard += 1;
        before
    }
}
