//! The phases of devices: who is next, what has to wait, and what callbacks answer
//! (`drivers/base/power/main.c`).

ghost use Rattle.std.specs.Prelude.{◌≡◌, ◌↔◌, true, IsTrue};
ghost use Rattle.sleep_model.specs.Devices.{is_async_device};
ghost use Rattle.rule_definitions.specs.Walk.{BeginsAt, BeginsAsync, BeginsBy, CompletesAt, DoneAt, EndsAt, EndsAsync, EndsBy, EndsOwn, IsDownDone, IsInside, IsNextUp, IsOwnCallback, IsUpDone, KeepsWalk, PreparesAt, SchedulesAt};
ghost use Rattle.phase_table.specs.Phases.{is_down};
ghost use Rattle.check_past.specs.Passing.{journal_of};

use crate::kinds::is_kind;
use crate::same::{is_answer, is_number, is_phase};
use crate::skip::{is_next_down, is_scheduled_down};
use check_due::{device_error, row_now, turn_of};
use check_past::Passed;
use phase_table::Phase;
use sleep_model::{Actor, Callback, EventNow, Kind, PhaseState, Stage, What};

/// Whether a device may be prepared now, and answers so.
fn prepares_at(past: &Passed<'_>, device: u32, r: i32, row: Option<Stage>) -> bool
    ensures { IsTrue result ↔ PreparesAt past.now.machine (journal_of past.now) device r row }
{
    match row {
        Some(Stage::Prepares) => {
            past.phase_failed().is_none()
                && is_number(past.next_prepared(), device)
                && r == past.answered_number(What::Device(device, Phase::Prepare))
        }
        _ => false,
    }
}

/// Whether a device may be completed now.
fn completes_at(past: &Passed<'_>, device: u32, row: Option<Stage>) -> bool
    ensures { IsTrue result ↔ CompletesAt past.now.machine (journal_of past.now) device row }
{
    match row {
        Some(Stage::Completes) => is_number(past.next_completed(), device),
        _ => false,
    }
}

/// Whether a device may be scheduled now.
fn schedules_at(past: &Passed<'_>, phase: Phase, device: u32, row: Option<Stage>) -> bool
    ensures { IsTrue result ↔ SchedulesAt past.now.machine (journal_of past.now) phase device row }
{
    match row {
        Some(Stage::Downs(open)) => {
            is_phase(phase, open)
                && past.callback().is_none()
                && past.phase_failed().is_none()
                && is_number(past.next_down(open), device)
                && past.is_async(device)
        }
        Some(Stage::Ups(open)) => {
            is_phase(phase, open)
                && past.callback().is_none()
                && is_number(past.next_to_schedule(open.mirror()), device)
        }
        _ => false,
    }
}

/// Whether an asynchronous device begins now.
fn begins_async(past: &Passed<'_>, now: EventNow, phase: Phase, device: u32) -> bool
    ensures { IsTrue result ↔ BeginsAsync past.now.machine (journal_of past.now) now phase device (is_down phase) }
{
    if phase.is_down() {
        is_scheduled_down(past, phase, device)
            && is_kind(
                turn_of(past, now, phase, device),
                Kind::Begin(phase, device),
            )
    } else {
        matches!(past.state(phase.mirror(), device), PhaseState::Rescheduled)
            && past.waits_above(phase.mirror(), device).is_none()
    }
}

/// Whether a device is next in the walk up.
fn is_next_up(past: &Passed<'_>, phase: Phase, device: u32) -> bool
    ensures { IsTrue result ↔ IsNextUp past.now.machine (journal_of past.now) phase device }
{
    past.callback().is_none()
        && past.next_to_schedule(phase).is_none()
        && is_number(past.next_up(phase), device)
        && past.waits_above(phase, device).is_none()
}

/// Whether a synchronous device begins now.
fn begins_at(
    past: &Passed<'_>,
    now: EventNow,
    phase: Phase,
    device: u32,
    row: Option<Stage>,
) -> bool
    ensures { IsTrue result ↔ BeginsAt past.now.machine (journal_of past.now) now phase device row }
{
    match row {
        Some(Stage::Downs(open)) => {
            is_phase(phase, open)
                && is_next_down(past, open, device)
                && is_kind(turn_of(past, now, open, device), Kind::Begin(open, device))
        }
        Some(Stage::Ups(open)) => is_phase(phase, open) && is_next_up(past, open.mirror(), device),
        _ => false,
    }
}

/// Whether a device begins now.
fn begins_by(
    past: &Passed<'_>,
    now: EventNow,
    phase: Phase,
    device: u32,
    row: Option<Stage>,
) -> bool
    ensures { IsTrue result ↔ BeginsBy past.now.machine (journal_of past.now) now phase device
        (is_async_device past.now.machine device) row }
{
    if past.is_async(device) {
        begins_async(past, now, phase, device)
    } else {
        begins_at(past, now, phase, device, row)
    }
}

/// Whether an asynchronous device ends now.
fn ends_async(past: &Passed<'_>, phase: Phase, device: u32) -> bool
    ensures { IsTrue result ↔ EndsAsync past.now.machine (journal_of past.now) phase device (is_down phase) }
{
    if phase.is_down() {
        matches!(past.state(phase, device), PhaseState::Suspending)
    } else {
        matches!(past.state(phase.mirror(), device), PhaseState::Resuming)
    }
}

/// Whether the maker is inside the callback of that device.
fn is_inside(device: u32, callback: Option<Callback>) -> bool
    ensures { IsTrue result ↔ IsInside device callback }
{
    match callback {
        None => false,
        Some(callback) => device == callback.device,
    }
}

/// Whether it is the device whose callback an actor is inside.
fn is_own_callback(past: &Passed<'_>, who: Actor, device: u32) -> bool
    ensures { IsTrue result ↔ IsOwnCallback (journal_of past.now) who device }
{
    match who {
        Actor::Dev(own) => device == own,
        _ => is_inside(device, past.callback()),
    }
}

/// Whether an entry of the journal is the end of the callback that its maker is inside (`dpm_run_callback`).
pub(crate) fn ends_own(past: &Passed<'_>, who: Actor, kind: Kind) -> bool
    ensures { IsTrue result ↔ EndsOwn (journal_of past.now) who kind }
{
    match kind {
        Kind::End(_, device, _) => is_own_callback(past, who, device),
        _ => false,
    }
}

/// Whether a synchronous device ends now.
fn ends_at(past: &Passed<'_>, phase: Phase, device: u32, row: Option<Stage>) -> bool
    ensures { IsTrue result ↔ EndsAt (journal_of past.now) phase device row }
{
    match row {
        Some(Stage::Downs(open)) | Some(Stage::Ups(open)) => {
            is_phase(phase, open) && is_inside(device, past.callback())
        }
        _ => false,
    }
}

/// Whether a device ends now.
fn ends_by(past: &Passed<'_>, phase: Phase, device: u32, row: Option<Stage>) -> bool
    ensures { IsTrue result ↔ EndsBy past.now.machine (journal_of past.now) phase device
        (is_async_device past.now.machine device) row }
{
    if past.is_async(device) {
        ends_async(past, phase, device)
    } else {
        ends_at(past, phase, device, row)
    }
}

/// Whether a phase on the way down is done.
fn is_down_done(past: &Passed<'_>, phase: Phase) -> bool
    ensures { IsTrue result ↔ IsDownDone past.now.machine (journal_of past.now) phase }
{
    past.callback().is_none()
        && past.waits_down(phase).is_none()
        && (past.phase_failed().is_some() || past.next_down(phase).is_none())
}

/// Whether a phase on the way up, whose mirror is that, is done.
fn is_up_done(past: &Passed<'_>, phase: Phase) -> bool
    ensures { IsTrue result ↔ IsUpDone past.now.machine (journal_of past.now) phase }
{
    past.callback().is_none()
        && past.next_to_schedule(phase).is_none()
        && past.next_up(phase).is_none()
        && past.waits_up(phase).is_none()
}

/// Whether the phase under way is done.
fn done_at(past: &Passed<'_>, phase: Phase, row: Option<Stage>) -> bool
    ensures { IsTrue result ↔ DoneAt past.now.machine (journal_of past.now) phase row }
{
    match row {
        Some(Stage::Prepares) => {
            is_phase(phase, Phase::Prepare)
                && (past.phase_failed().is_some() || past.next_prepared().is_none())
        }
        Some(Stage::Downs(open)) => is_phase(phase, open) && is_down_done(past, open),
        Some(Stage::Ups(open)) => is_phase(phase, open) && is_up_done(past, open.mirror()),
        Some(Stage::Completes) => {
            is_phase(phase, Phase::Complete) && past.next_completed().is_none()
        }
        _ => false,
    }
}

/// Whether devices are taken in order, each after those that it waits for, while their phase is under way,
/// and answer what the machine answers (`drivers/base/power/main.c`).
pub fn keeps_walk(past: &Passed<'_>, now: EventNow, kind: Kind) -> bool
    ensures { IsTrue result ↔ KeepsWalk past.now.machine (journal_of past.now) now kind }
{
    match kind {
        Kind::Prepare { device, r } => prepares_at(past, device, r, row_now(past)),
        Kind::Complete(d) => completes_at(past, d, row_now(past)),
        Kind::Schedule(p, d) => schedules_at(past, p, d, row_now(past)),
        Kind::Begin(p, d) => begins_by(past, now, p, d, row_now(past)),
        Kind::End(p, d, r) => {
            ends_by(past, p, d, row_now(past)) && is_answer(r, device_error(past, p, d))
        }
        Kind::Done(p, _) => done_at(past, p, row_now(past)),
        _ => true,
    }
}
