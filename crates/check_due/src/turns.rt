//! What a device does at its turn (`drivers/base/power/main.c`).

ghost use Rattle.std.specs.Prelude.{◌≡◌};
ghost use Rattle.sleep_model.specs.Devices.{async_work, device_error, is_direct, is_direct_now, taken, work_in};
ghost use Rattle.rule_definitions.specs.Questions.{turn_of};
ghost use Rattle.check_past.specs.Passing.{journal_of};

use check_past::{Passed, is_direct_complete};
use phase_table::Phase;
use sleep_base::Errno;
use sleep_model::{AsyncWork, EventNow, Kind, PhaseState, SkipCause, What};

/// Whether a device is direct-complete in suspend.
fn is_direct_now(past: &Passed<'_>, device: u32) -> bool
    ensures { result ≡ is_direct_now past.now.machine (journal_of past.now) device }
{
    past.asks_direct().is_set(device)
        && past.statuses().is_set(device)
        && !past.may_wake(device)
        && past.all_direct_below(device)
}

/// Whether a phase skips a device as direct-complete.
fn is_direct(past: &Passed<'_>, phase: Phase, device: u32) -> bool
    ensures { result ≡ is_direct past.now.machine (journal_of past.now) phase device }
{
    match phase {
        Phase::Suspend => is_direct_now(past, device),
        _ => is_direct_complete(past.state(Phase::Suspend, device)),
    }
}

/// A device at its turn: it is skipped for a pending wakeup, in a phase that checks for one, or as
/// direct-complete; else its callback begins (`__device_suspend`).
pub fn taken(past: &Passed<'_>, now: EventNow, phase: Phase, device: u32) -> Kind
    ensures { result ≡ taken past.now.machine (journal_of past.now) now phase device }
{
    if phase.checks_wakeup() && past.is_pending(now) {
        Kind::Skip(phase, device, SkipCause::Pending)
    } else if is_direct(past, phase, device) {
        Kind::Skip(phase, device, SkipCause::Direct)
    } else {
        Kind::Begin(phase, device)
    }
}

/// What a device does at its turn: after an error it is skipped.
pub fn turn_of(past: &Passed<'_>, now: EventNow, phase: Phase, device: u32) -> Kind
    ensures { result ≡ turn_of past.now.machine (journal_of past.now) now phase device }
{
    match past.phase_failed() {
        Some(_) => Kind::Skip(phase, device, SkipCause::Error),
        None => taken(past, now, phase, device),
    }
}

/// The error that a device's callback answers in a phase of the open attempt.
pub fn device_error(past: &Passed<'_>, phase: Phase, device: u32) -> Option<Errno>
    ensures { result ≡ device_error past.now.machine (journal_of past.now) phase device }
{
    past.answered_error(What::Device(device, phase))
}

/// The work of a device in that state in a phase or its mirror, else the other.
fn work_in(phase: Phase, state: PhaseState, other: AsyncWork) -> AsyncWork
    ensures { result ≡ work_in phase state other }
{
    match state {
        PhaseState::Scheduled => AsyncWork::Scheduled(phase),
        PhaseState::Suspending => AsyncWork::Inside(phase),
        PhaseState::Rescheduled => AsyncWork::Scheduled(phase.mirror()),
        PhaseState::Resuming => AsyncWork::Inside(phase.mirror()),
        _ => other,
    }
}

/// The work of an asynchronous device; a synchronous one has none of its own (`async_schedule_dev`).
pub fn async_work(past: &Passed<'_>, device: u32) -> AsyncWork
    ensures { result ≡ async_work past.now.machine (journal_of past.now) device }
{
    if !past.is_async(device) {
        return AsyncWork::Idle;
    }
    let noirq = work_in(
        Phase::Noirq,
        past.state(Phase::Noirq, device),
        AsyncWork::Idle,
    );
    let late = work_in(Phase::Late, past.state(Phase::Late, device), noirq);
    work_in(Phase::Suspend, past.state(Phase::Suspend, device), late)
}
