//! The calls of an actor: whether its turn has come, whether a note is its next call, whether it is inside
//! one.

ghost use Rattle.std.specs.Prelude.{◌≡◌, ◌↔◌, ◌+◌, ◌&&◌, true, IsTrue, IfOk, Some, length, slice_get};
ghost use Rattle.check_sources.specs.Owing.{steps_of};
ghost use Rattle.sleep_model.specs.Calls.{calls_of, is_calling, is_left, made};
ghost use Rattle.sleep_model.specs.Fits.{fits_actor};
ghost use Rattle.sleep_model.specs.Legal.{IsOwnCall, IsOwnTurn};
ghost use Rattle.sleep_model.specs.Path.{is_actor};
ghost use Rattle.rule_definitions.specs.Steps.{IsOfCall, is_inside};
ghost use Rattle.rule_definitions.specs.Walk.{is_in_callback};
ghost use Rattle.sleep_model.specs.Sources.{history};
ghost use Rattle.check_past.specs.Passing.{journal_of, past_of};

use crate::kinds::is_kind;
use crate::same::either;
use crate::source::is_next;
use check_account::is_actor;
use check_due::async_work;
use check_past::Passed;
use check_sources::Source;
use sleep_base::Mem;
use sleep_model::{Actor, AsyncWork, Kind, WordKind};

/// Whether an actor of the machine has made the calls that come before its next entry, and no more. `Mem` if
/// their number has no room.
#[inline]
pub(crate) fn is_own_turn(past: &Passed<'_>, who: Actor) -> Result<bool, Mem>
    requires { fits_actor past.now.machine who ≡ true }
    ensures { IfOk result (λ b. IsTrue b ↔ IsOwnTurn past.now.machine (journal_of past.now)
        (λ s. history s (past_of past.now)) who) }
{
    Ok(past.made(who) == past.calls_due(who)?)
}

/// Whether a note is the next call of an actor of the machine.
fn is_next_call(past: &Passed<'_>, who: Actor, kind: Kind) -> bool
    requires { fits_actor past.now.machine who ≡ true }
    ensures { IsTrue result ↔ (slice_get (calls_of past.now.machine who (journal_of past.now))
        (made (length past.now.machine.sources + 1) (λ s. history s (past_of past.now)) who) ≡ Some kind) }
{
    match past.next_call(who) {
        None => false,
        Some(call) => is_kind(call, kind),
    }
}

/// Whether a note is the next call of its actor, which is the machine's; a timer notes its source's expiry.
pub(crate) fn is_own_call(past: &Passed<'_>, who: Actor, kind: Kind) -> bool
    requires { fits_actor past.now.machine who ≡ true }
    ensures { IsTrue result ↔ IsOwnCall past.now.machine (journal_of past.now) (λ s. history s (past_of past.now)) who kind }
{
    match who {
        Actor::Timer(s) => is_kind(kind, Kind::Expire(s)),
        _ => is_next_call(past, who, kind),
    }
}

/// Whether a source owes steps of a call of that actor.
fn owes_to(source: Source, who: Actor) -> bool
    ensures { result ≡ (is_left (steps_of source.owes) && is_actor who source.caller) }
{
    source.owes.is_left() && is_actor(who, source.caller)
}

/// Whether an actor is inside a call on a source.
pub(crate) fn is_inside(past: &Passed<'_>, s: u32, who: Actor) -> bool
    ensures { result ≡ is_inside (history s (past_of past.now)) who }
{
    owes_to(past.source(s), who)
}

/// Whether an actor is inside a call: a source is owed steps of it.
pub(crate) fn is_calling(past: &Passed<'_>, who: Actor) -> bool
    ensures { result ≡ is_calling (length past.now.machine.sources + 1) (λ s. history s (past_of past.now)) who }
{
    let mut calling = false;
    for s in 0..past.source_count() {
        calling = either(is_inside(past, s, who), calling);
    }
    calling
}

/// Whether a step of the word is one that its actor owes: of a call on that source that it is inside, and the
/// next.
pub(crate) fn is_of_call(past: &Passed<'_>, who: Actor, s: u32, step: WordKind) -> bool
    ensures { IsTrue result ↔ IsOfCall (past_of past.now) who s step }
{
    is_inside(past, s, who) && is_next(past, s, step)
}

/// Whether an actor is inside a device's callback (`dpm_run_callback`).
pub(crate) fn is_in_callback(past: &Passed<'_>, who: Actor) -> bool
    ensures { result ≡ is_in_callback past.now.machine (journal_of past.now) who }
{
    match who {
        Actor::Dev(d) => matches!(async_work(past, d), AsyncWork::Inside(_)),
        _ => past.is_maker(who) && past.callback().is_some(),
    }
}
