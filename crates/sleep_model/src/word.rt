//! The event word taken apart, its steps, and the stamps of entries.
ghost use Rattle.std.specs.Prelude.{◌≡◌};
ghost use Rattle.sleep_model.specs.Word.{position, visible};

/// The event word taken apart (`drivers/base/power/wakeup.c`, `combined_event_count`):
/// events in progress, registered events, hard events.
#[derive(Clone, Copy, Debug, PartialEq, Eq)]
pub struct EventNow {
    pub inpr: u32,
    pub count: u32,
    pub hard: u32,
}

/// One more than the greatest count of events that user space sees.
const COUNTS: u32 = 16_777_216;

/// The count of events that user space sees: those registered, modulo 16,777,216 (`pm_get_wakeup_count`).
pub fn visible(now: EventNow) -> u32
    ensures { result ≡ visible now }
{
    now.count % COUNTS
}

/// The word's position: how many steps were made on it so far. Each start, finish and hard
/// step raises it by one.
pub fn pos(now: EventNow) -> u64
    ensures { result ≡ position now }
{
    u64::from(now.inpr) + 2 * u64::from(now.count) + u64::from(now.hard)
}

/// Which step a source made on the word.
#[derive(Clone, Copy, Debug, PartialEq, Eq)]
pub enum WordKind {
    Start,
    Finish,
    Hard,
}

/// A step on the word, with the source that made it and the word before it.
#[derive(Clone, Copy)]
pub struct WordStep {
    pub source: u32,
    pub step: WordKind,
    pub before: EventNow,
}

/// What an actor or an object last knew: a position of the word and a tick of its own order.
#[derive(Clone, Copy, Debug, PartialEq, Eq)]
pub struct Stamp {
    pub pos: u64,
    pub tick: u64,
}
