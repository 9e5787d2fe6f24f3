//! What the walks of the devices' phases do next (`drivers/base/power/main.c`).

ghost use Rattle.std.specs.Prelude.{◌≡◌, None};
ghost use Rattle.sleep_model.specs.Devices.{after_device, callback, close_down, complete_due, device_due, down_due, next_completed, next_prepared, phase_error, phase_failed, prepare_due, scheduled_due, take_down, up_due, async_work};
ghost use Rattle.check_past.specs.Passing.{journal_of};

use crate::turns::{async_work, device_error, taken, turn_of};
use check_past::Passed;
use phase_table::Phase;
use sleep_base::Errno;
use sleep_model::{AsyncWork, Callback, Due, EventNow, Kind, What, Why};

/// Wait for that device, or else do this.
fn after_device(device: Option<u32>, next: Due) -> Due
    ensures { result ≡ after_device device next }
{
    match device {
        None => next,
        Some(device) => Due::Waits(Why::Device(device)),
    }
}

/// Prepare goes forward, and an error ends it (`dpm_prepare`).
pub(crate) fn prepare_due(past: &Passed<'_>) -> Due
    ensures { result ≡ prepare_due past.now.machine (journal_of past.now) (phase_failed (journal_of past.now))
        (next_prepared past.now.machine (journal_of past.now)) }
{
    match (past.phase_failed(), past.next_prepared()) {
        (None, Some(device)) => {
            let what = What::Device(device, Phase::Prepare);
            let r = past.answered_number(what);
            Due::Makes(Kind::Prepare { device, r })
        }
        (error, _) => Due::Makes(Kind::Done(Phase::Prepare, error)),
    }
}

/// Complete goes backward over the prepared devices (`dpm_complete`).
pub(crate) fn complete_due(past: &Passed<'_>) -> Due
    ensures { result ≡ complete_due (next_completed past.now.machine (journal_of past.now)) }
{
    match past.next_completed() {
        None => Due::Makes(Kind::Done(Phase::Complete, None)),
        Some(device) => Due::Makes(Kind::Complete(device)),
    }
}

/// What a phase on the way down answers.
fn phase_error(past: &Passed<'_>) -> Option<Errno>
    ensures { result ≡ phase_error (journal_of past.now) }
{
    match past.own_error() {
        None => past.phase_failed(),
        error => error,
    }
}

/// The end of a phase on the way down, once it is done with all that were scheduled.
fn close_down(past: &Passed<'_>, phase: Phase) -> Due
    ensures { result ≡ close_down past.now.machine (journal_of past.now) phase }
{
    after_device(
        past.waits_down(phase),
        Due::Makes(Kind::Done(phase, phase_error(past))),
    )
}

/// The walk down at a device.
fn take_down(past: &Passed<'_>, now: EventNow, phase: Phase, device: u32) -> Due
    ensures { result ≡ take_down past.now.machine (journal_of past.now) now phase device }
{
    if past.is_async(device) {
        Due::Makes(Kind::Schedule(phase, device))
    } else {
        after_device(
            past.waits_for_subordinates(phase, device),
            Due::Makes(taken(past, now, phase, device)),
        )
    }
}

/// The walk down between callbacks.
fn walk_down(past: &Passed<'_>, now: EventNow, phase: Phase) -> Due
    ensures { result ≡ down_due past.now.machine (journal_of past.now) now phase None }
{
    match (past.phase_failed(), past.next_down(phase)) {
        (None, Some(device)) => take_down(past, now, phase, device),
        _ => close_down(past, phase),
    }
}

/// A phase on the way down, at its walk (`dpm_suspend`, `dpm_suspend_late`, `dpm_noirq_suspend_devices`).
pub(crate) fn down_due(past: &Passed<'_>, now: EventNow, phase: Phase) -> Due
    ensures { result ≡ down_due past.now.machine (journal_of past.now) now phase (callback (journal_of past.now)) }
{
    match past.callback() {
        Some(Callback { device, .. }) => {
            Due::Makes(Kind::End(phase, device, device_error(past, phase, device)))
        }
        None => walk_down(past, now, phase),
    }
}

/// The walk up between callbacks.
fn walk_up(past: &Passed<'_>, phase: Phase) -> Due
    ensures { result ≡ up_due past.now.machine (journal_of past.now) phase None }
{
    let pair = phase.mirror();
    match (past.next_to_schedule(pair), past.next_up(pair)) {
        (Some(device), _) => Due::Makes(Kind::Schedule(phase, device)),
        (None, Some(device)) => after_device(
            past.waits_above(pair, device),
            Due::Makes(Kind::Begin(phase, device)),
        ),
        (None, None) => after_device(past.waits_up(pair), Due::Makes(Kind::Done(phase, None))),
    }
}

/// A phase on the way up, at its walk (`dpm_resume_noirq`, `dpm_resume_early`, `dpm_resume`).
pub(crate) fn up_due(past: &Passed<'_>, phase: Phase) -> Due
    ensures { result ≡ up_due past.now.machine (journal_of past.now) phase (callback (journal_of past.now)) }
{
    match past.callback() {
        Some(Callback { device, .. }) => {
            Due::Makes(Kind::End(phase, device, device_error(past, phase, device)))
        }
        None => walk_up(past, phase),
    }
}

/// A device that is scheduled, at its turn.
fn scheduled_due(past: &Passed<'_>, now: EventNow, phase: Phase, device: u32) -> Due
    ensures { result ≡ scheduled_due past.now.machine (journal_of past.now) now phase device }
{
    if phase.is_down() {
        after_device(
            past.waits_for_subordinates(phase, device),
            Due::Makes(turn_of(past, now, phase, device)),
        )
    } else {
        after_device(
            past.waits_above(phase.mirror(), device),
            Due::Makes(Kind::Begin(phase, device)),
        )
    }
}

/// An asynchronous device, by the state of its work (`async_suspend`, `async_resume`).
pub(crate) fn device_due(past: &Passed<'_>, now: EventNow, device: u32) -> Due
    ensures { result ≡ device_due past.now.machine (journal_of past.now) now device
        (async_work past.now.machine (journal_of past.now) device) }
{
    match async_work(past, device) {
        AsyncWork::Idle => Due::Waits(Why::NotScheduled),
        AsyncWork::Scheduled(phase) => scheduled_due(past, now, phase, device),
        AsyncWork::Inside(phase) => {
            Due::Makes(Kind::End(phase, device, device_error(past, phase, device)))
        }
    }
}
