//! The numbers and the time of an index, and the number of an attempt.

ghost use Rattle.std.specs.Prelude.{◌≡◌, ◌+◌, ◌↔◌, IsTrue};
ghost use Rattle.sleep_model.specs.EntryClasses.{class_of};
ghost use Rattle.rule_definitions.specs.Attempts.{KeepsAttempts};
ghost use Rattle.rule_definitions.specs.Numbers.{KeepsNumbers};
ghost use Rattle.check_past.specs.Passing.{journal_of, past_of};
ghost use Rattle.check_sources.specs.Classes.{meant};

use crate::same::is_same_number;
use check_past::Passed;
use check_sources::{EntryClass, class_of};
use sleep_model::{Entry, EventNow, Kind};

/// Whether both words are the same.
fn is_word(now: EventNow, word: EventNow) -> bool
    ensures { IsTrue result ↔ (now ≡ word) }
{
    now.inpr == word.inpr && now.count == word.count && now.hard == word.hard
}

/// Whether an entry of that class has the numbers and the time of its index: a jump has a time of its own.
#[inline(always)]
fn keeps_numbers_in(past: &Passed<'_>, e: Entry, class: EntryClass) -> bool
    ensures { IsTrue result ↔ KeepsNumbers (past_of past.now) e (meant class) }
{
    match class {
        EntryClass::Jump => is_word(e.now, past.word()),
        EntryClass::Journal | EntryClass::Note(..) | EntryClass::Step(..) => {
            is_word(e.now, past.word()) && e.time == past.time()
        }
    }
}

/// Whether an entry has the numbers and the time of its index (`combined_event_count`).
pub fn keeps_numbers(past: &Passed<'_>, e: Entry) -> bool
    ensures { IsTrue result ↔ KeepsNumbers (past_of past.now) e (class_of e.kind) }
{
    keeps_numbers_in(past, e, class_of(e.kind))
}

/// Whether that is the next number.
fn is_next(n: u32, before: u32) -> bool
    ensures { IsTrue result ↔ (n ≡ before + 1) }
{
    n > 0 && n - 1 == before
}

/// Whether an attempt has the next number and the count that guards it, and none is open; and its end its
/// number (`pm_suspend`, `events_check_enabled`).
pub fn keeps_attempts(past: &Passed<'_>, kind: Kind) -> bool
    ensures { IsTrue result ↔ KeepsAttempts (journal_of past.now) kind }
{
    match kind {
        Kind::Attempt { n, guarded } => {
            is_next(n, past.attempts())
                && is_same_number(guarded, past.in_force())
                && past.maker().is_none()
        }
        Kind::Over { n, .. } => n == past.attempts() && past.maker().is_some(),
        _ => true,
    }
}
