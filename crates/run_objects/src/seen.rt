//! The event word as it was looked at last.

ghost use Rattle.std.specs.Prelude.{◌≡◌, Some, None, false};
ghost use Rattle.sleep_model.specs.Word.{position};

use event_word::Events;
use sleep_model::EventNow;
use std::marker::Model;

/// A word that was looked at: a turn that sees it is one by that look (`kernel/power/suspend.c`,
/// `pm_wakeup_pending`).
#[derive(Clone, Copy, Drop)]
pub(crate) struct SeenWord {
    word: EventNow,
}

impl Model for SeenWord {
    ghost use Rattle.sleep_model.specs.declared.word.EventNow.{EventNow};

    ghost Value = { EventNow };

    ghost view = { λ e. e.word };

    ghost inverse = { λ word. record { word = word } };
}

impl SeenWord {
    /// That word.
    pub(crate) fn new(word: EventNow) -> Self
        ensures { result ≡ word }
    {
        SeenWord { word }
    }
}

impl Events for SeenWord {
    ghost shows = { λ word. Some word };

    ghost looked = { λ _. None };

    ghost made = { λ _. None };

    ghost can = { λ _ _. false };

    ghost floor = { λ word. position word };

    ghost Root = { Unit {0} };

    ghost root = { λ _. tt };

    fn look(&mut self) -> EventNow {
        self.word
    }
}
