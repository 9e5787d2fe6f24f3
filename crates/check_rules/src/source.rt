//! A wakeup source's own entries, and who makes the steps of a call (`drivers/base/power/wakeup.c`).

ghost use Rattle.std.specs.Prelude.{◌≡◌, ◌↔◌, ◌+◌, ◌∷◌, [], true, nat_le, length, IsTrue};
ghost use Rattle.sleep_model.specs.Fits.{fits_entry};
ghost use Rattle.sleep_model.specs.Numbers.{time_of};
ghost use Rattle.sleep_model.specs.EntryClasses.{Notes, class_of};
ghost use Rattle.rule_definitions.specs.Source.{CallEntry, SourceEntry};
ghost use Rattle.sleep_model.specs.Sources.{IsNext, expiry, has_expired, history, most_entries, owed};
ghost use Rattle.check_past.specs.Passing.{past_of};
ghost use Rattle.check_sources.specs.Classes.{meant};
ghost use Rattle.check_rules.specs.Places.{are_short, with_own};

use crate::same::both;
use check_past::Passed;
use check_sources::{EntryClass, class_of, source_in};
use sleep_model::{Entry, MOST_ENTRIES, SourceCall, WordKind};

/// Whether a source's last call owes nothing.
fn is_free(past: &Passed<'_>, s: u32) -> bool
    ensures { IsTrue result ↔ (owed (history s (past_of past.now)) ≡ []) }
{
    !past.source(s).owes.is_left()
}

/// Whether that step is the one that a source owes next.
pub(crate) fn is_next(past: &Passed<'_>, s: u32, step: WordKind) -> bool
    ensures { IsTrue result ↔ IsNext step (owed (history s (past_of past.now))) }
{
    past.source(s).owes.is_next(step)
}

/// Whether the event in progress of a source has come to its end.
fn has_expired(past: &Passed<'_>, s: u32) -> bool
    ensures { result ≡ has_expired (expiry (history s (past_of past.now))) (time_of (past_of past.now)) }
{
    past.source(s).has_expired(past.time())
}

/// Whether a note of that call begins it if the source's last one owes nothing, an expiry only if it is due.
fn begins_call(past: &Passed<'_>, e: Entry, s: u32, call: SourceCall) -> bool
    ensures { IsTrue result ↔ CallEntry (past_of past.now) e (Notes s call) }
{
    match call {
        SourceCall::Awake | SourceCall::Relax | SourceCall::Event { .. } => is_free(past, s),
        SourceCall::Expire => is_free(past, s) && has_expired(past, s),
    }
}

/// Whether an entry of that class is in order among those of its source.
#[inline(always)]
fn keeps_call_in(past: &Passed<'_>, e: Entry, class: EntryClass) -> bool
    ensures { IsTrue result ↔ CallEntry (past_of past.now) e (meant class) }
{
    match class {
        EntryClass::Note(s, call) => begins_call(past, e, s, call),
        EntryClass::Step(s, step) => is_next(past, s, step),
        EntryClass::Journal | EntryClass::Jump => true,
    }
}

/// Whether a note is in order: it begins a call if the source's last one owes nothing, an expiry only if it
/// is due. A step is the one that is owed next (`wakeup_source_report_event`, `pm_wakeup_timer_fn`).
#[inline(always)]
pub fn keeps_call(past: &Passed<'_>, e: Entry) -> bool
    ensures { IsTrue result ↔ CallEntry (past_of past.now) e (class_of e.kind) }
{
    keeps_call_in(past, e, class_of(e.kind))
}

/// Whether a source's history of `entries` entries has room for one more of that source.
fn has_room(own: Option<u32>, s: u32, entries: usize) -> bool
    ensures { result ≡ nat_le (with_own own s entries) most_entries }
{
    match own {
        Some(own) if own == s => entries < MOST_ENTRIES,
        _ => entries <= MOST_ENTRIES,
    }
}

/// Whether each source's history has room for an entry.
fn have_room(past: &Passed<'_>, e: Entry) -> bool
    ensures { result ≡ are_short (e ∷ past_of past.now) (length past.now.machine.sources + 1) }
{
    let own = source_in(e.kind);
    let mut short = true;
    for s in 0..past.source_count() {
        short = both(has_room(own, s, past.source(s).entries), short);
    }
    short
}

/// Whether a source's entry is right: of its call, of a source that is there, and within the room of its
/// history (`drivers/base/power/wakeup.c`).
#[inline(always)]
pub fn source_entry(past: &Passed<'_>, e: Entry) -> bool
    requires { fits_entry past.now.machine e ≡ true }
    ensures { IsTrue result ↔ SourceEntry past.now.machine (past_of past.now) e (class_of e.kind) }
{
    past.all_fit();
    both(keeps_call(past, e), have_room(past, e))
}
