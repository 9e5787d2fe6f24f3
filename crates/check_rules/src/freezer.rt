//! Who freezes, and how a freeze ends (`kernel/power/process.c`, `kernel/freezer.c`).

ghost use Rattle.std.specs.Prelude.{◌≡◌, ◌&&◌, ◌↔◌, true, false, IsTrue, IfOk, option_map, slice_get};
ghost use Rattle.sleep_model.specs.declared.entry.Actor.TheVariants as actor;
ghost use Rattle.sleep_model.specs.declared.machine.Script.{Script};
ghost use Rattle.sleep_model.specs.Attempt.{freeze_since};
ghost use Rattle.sleep_model.specs.Fits.{fits_actor};
ghost use Rattle.sleep_model.specs.Tasks.{freezes_at, is_user};
ghost use Rattle.rule_definitions.specs.Freezer.{FreezeEnds, FreezesBy, FreezesEntry, FreezesNot, GoesOnEntry, asked_at, asked_now, is_at_turn};
ghost use Rattle.rule_definitions.specs.Questions.{is_maker, op_of, position_of};
ghost use Rattle.check_past.specs.Passing.{journal_of, past_of};

use crate::calls::is_calling;
use crate::same::makes;
use check_due::{freezes_at, froze_due, is_user};
use check_past::Passed;
use sleep_base::Mem;
use sleep_model::{Actor, EventNow, Freezing, Kind};

/// Whether a task, at a freeze point or not, freezes if it is asked to, and makes nothing if it is frozen.
fn freezes_by(freezing: Freezing, point: bool, kind: Kind) -> bool
    ensures { IsTrue result ↔ FreezesBy freezing point kind }
{
    match kind {
        Kind::Frozen => !freezing.frozen && freezing.asked && point,
        _ => !freezing.frozen && !(freezing.asked && point),
    }
}

/// Whether nobody says that it freezes.
fn freezes_not(kind: Kind) -> bool
    ensures { IsTrue result ↔ FreezesNot kind }
{
    match kind {
        Kind::Frozen => false,
        _ => true,
    }
}

/// Whether script i is at an operation that has a freeze point, if it is there.
fn point_of(past: &Passed<'_>, i: u32) -> Option<bool>
    ensures { result ≡ option_map (λ (s : Script). freezes_at (is_user s.kind) (position_of past.now.machine (journal_of past.now) i).waits
        (op_of past.now.machine (journal_of past.now) i)) (slice_get past.now.machine.actors i) }
{
    let script = past.machine().actors.as_slice().get(i as usize)?;
    Some(freezes_at(
        is_user(script.kind),
        past.position(i).waits,
        past.operation(i),
    ))
}

/// Whether the next entry of an actor of the machine is one of the journal: it has made the calls that come
/// before it, and is inside none. `Mem` if a number has no room.
fn is_at_turn(past: &Passed<'_>, who: Actor) -> Result<bool, Mem>
    requires { fits_actor past.now.machine who ≡ true }
    ensures { IfOk result (λ b. b ≡ is_at_turn past.now.machine (past_of past.now) who) }
{
    let due = past.calls_due(who)?;
    Ok(past.made(who) == due && !is_calling(past, who))
}

/// What a task is asked as far as a freeze point may be its next step.
fn asked_at(turn: bool, freezing: Freezing) -> Freezing
    ensures { result ≡ asked_at turn freezing }
{
    Freezing {
        asked: turn && freezing.asked,
        frozen: freezing.frozen,
    }
}

/// So for script i. `Mem` if a number has no room.
fn asked_now(past: &Passed<'_>, i: u32) -> Result<Freezing, Mem>
    requires { fits_actor past.now.machine (actor.Script i) ≡ true }
    ensures { IfOk result (λ f. f ≡ asked_now past.now.machine (past_of past.now) i) }
{
    let turn = is_at_turn(past, Actor::Script(i))?;
    Ok(asked_at(turn, past.freezing(i)))
}

/// Whether script i freezes if it is asked to and comes to it, and makes nothing if it is frozen. `Mem` if a
/// number has no room.
fn freezes_script(past: &Passed<'_>, i: u32, kind: Kind) -> Result<bool, Mem>
    requires { fits_actor past.now.machine (actor.Script i) ≡ true }
    ensures { IfOk result (λ b. IsTrue b ↔ FreezesEntry past.now.machine (past_of past.now) (actor.Script i) false kind) }
{
    let freezing = asked_now(past, i)?;
    match point_of(past, i) {
        None => Ok(freezes_not(kind)),
        Some(point) => Ok(freezes_by(freezing, point, kind)),
    }
}

/// Whether an actor freezes, outside attempts of its own, if it is asked to and comes to it, and makes
/// nothing if it is frozen (`try_to_freeze`). `Mem` if a number has no room.
pub(crate) fn freezes_entry(past: &Passed<'_>, who: Actor, kind: Kind) -> Result<bool, Mem>
    requires { fits_actor past.now.machine who ≡ true }
    ensures { IfOk result (λ b. IsTrue b ↔ FreezesEntry past.now.machine (past_of past.now) who (is_maker (journal_of past.now) who) kind) }
{
    match who {
        Actor::Script(i) if !past.is_maker(who) => {
            let freezes = freezes_script(past, i, kind)?;
            Ok(freezes)
        }
        _ => Ok(freezes_not(kind)),
    }
}

/// Whether a task at a freeze point, or at none, goes on.
fn goes_on(freezing: Freezing, point: bool) -> bool
    ensures { IsTrue result ↔ (freezing.frozen ≡ false) × ((freezing.asked && point) ≡ false) }
{
    !freezing.frozen && !(freezing.asked && point)
}

/// Whether script i goes on. `Mem` if a number has no room.
fn goes_on_script(past: &Passed<'_>, i: u32) -> Result<bool, Mem>
    requires { fits_actor past.now.machine (actor.Script i) ≡ true }
    ensures { IfOk result (λ b. IsTrue b ↔ GoesOnEntry past.now.machine (past_of past.now) (actor.Script i) false) }
{
    let freezing = asked_now(past, i)?;
    match point_of(past, i) {
        None => Ok(true),
        Some(point) => Ok(goes_on(freezing, point)),
    }
}

/// Whether an actor that makes a call, a step of one or a jump is no frozen task, and none that is asked at a
/// freeze point (`__refrigerator`, `try_to_freeze`). `Mem` if a number has no room.
pub(crate) fn goes_on_entry(past: &Passed<'_>, who: Actor) -> Result<bool, Mem>
    requires { fits_actor past.now.machine who ≡ true }
    ensures { IfOk result (λ b. IsTrue b ↔ GoesOnEntry past.now.machine (past_of past.now) who (is_maker (journal_of past.now) who)) }
{
    match who {
        Actor::Script(i) if !past.is_maker(who) => {
            let goes = goes_on_script(past, i)?;
            Ok(goes)
        }
        _ => Ok(true),
    }
}

/// Whether a freeze ends rightly (`try_to_freeze_tasks`). `Mem` if its end overflows.
pub(crate) fn freeze_ends(past: &Passed<'_>, now: EventNow, kind: Kind) -> Result<bool, Mem>
    ensures { IfOk result (λ b. IsTrue b
        ↔ FreezeEnds past.now.machine (journal_of past.now) now (freeze_since (journal_of past.now)) kind) }
{
    match (past.freeze_since(), kind) {
        (None, Kind::Froze(..)) => Ok(false),
        (Some(since), Kind::Froze(group, _)) => {
            Ok(makes(froze_due(past, now, group, since)?, kind))
        }
        _ => Ok(true),
    }
}
