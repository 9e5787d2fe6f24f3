//! The steps on the word that a call still owes (`drivers/base/power/wakeup.c`).

ghost use Rattle.std.specs.Prelude.{◌≡◌, ◌↔◌, IsTrue, is_some};
ghost use Rattle.sleep_model.specs.Calls.{is_left};
ghost use Rattle.sleep_model.specs.Sources.{IsNext};
ghost use Rattle.check_sources.specs.Owing.{owed_by, after_first, steps_of};

use sleep_model::{SourceCall, WordKind};

/// The steps that a call owes, in this order.
#[derive(Clone, Copy)]
pub struct Owed {
    pub start: bool,
    pub hard: bool,
    pub finish: bool,
}

/// The steps of a call, by whether an event is in progress.
pub(crate) fn owed_by(call: SourceCall, active: bool) -> Owed
    ensures { result ≡ owed_by call active }
{
    match call {
        SourceCall::Awake => Owed {
            start: !active,
            hard: false,
            finish: false,
        },
        SourceCall::Relax | SourceCall::Expire => Owed {
            start: false,
            hard: false,
            finish: active,
        },
        SourceCall::Event { ms, hard } => Owed {
            start: !active,
            hard,
            finish: ms == 0,
        },
    }
}

impl Owed {
    /// The steps after the first.
    pub(crate) fn after_first(self) -> Owed
        ensures { result ≡ after_first self }
    {
        if self.start {
            Owed {
                start: false,
                ..self
            }
        } else if self.hard {
            Owed {
                hard: false,
                ..self
            }
        } else {
            Owed {
                finish: false,
                ..self
            }
        }
    }

    /// Whether a step is owed.
    pub fn is_left(self) -> bool
        ensures { result ≡ is_left (steps_of self) }
    {
        self.start || self.hard || self.finish
    }

    /// Whether that step is the one that is owed next.
    pub fn is_next(self, step: WordKind) -> bool
        ensures { IsTrue result ↔ IsNext step (steps_of self) }
    {
        match step {
            WordKind::Start => self.start,
            WordKind::Hard => !self.start && self.hard,
            WordKind::Finish => !self.start && !self.hard && self.finish,
        }
    }
}
