//! The state that a device's answer leaves, and tests of a state.

ghost use Rattle.std.specs.Prelude.{◌≡◌};
ghost use Rattle.std.specs.Bool.{OnFalse, OnTrue};
ghost use Rattle.phase_table.specs.declared.phase.Phase.{Phase};
ghost use Rattle.sleep_model.specs.Devices.{work_in};
ghost use Rattle.sleep_model.specs.declared.progress.AsyncWork.{AsyncWork};
ghost use Rattle.sleep_model.specs.declared.progress.AsyncWork.TheVariants.{Idle};
ghost use Rattle.sleep_model.specs.PhaseStates as states;

use sleep_base::Errno;
use sleep_model::{AsyncWork, Phase, PhaseState, SkipCause};

/// The state of a device on the way down once its callback has answered (`dpm_run_callback`).
#[inline]
pub(crate) fn ended_by(r: Option<Errno>) -> PhaseState
    ensures { result ≡ states.ended_by r }
{
    match r {
        None => PhaseState::Suspended,
        Some(_) => PhaseState::Failed,
    }
}

/// The state of a device that is skipped on the way down (`__device_suspend`).
pub(crate) fn skipped_for(cause: SkipCause) -> PhaseState
    ensures { result ≡ states.skipped_for cause }
{
    match cause {
        SkipCause::Direct => PhaseState::Direct,
        _ => PhaseState::Failed,
    }
}

/// The work in a phase on the way down or its mirror of a device in that state, else the other
/// (`dpm_run_callback`).
pub(crate) fn work_in(p: Phase, state: PhaseState, other: AsyncWork) -> AsyncWork
    ensures { result ≡ work_in p state other }
{
    match state {
        PhaseState::Scheduled => AsyncWork::Scheduled(p),
        PhaseState::Suspending => AsyncWork::Inside(p),
        PhaseState::Rescheduled => AsyncWork::Scheduled(p.mirror()),
        PhaseState::Resuming => AsyncWork::Inside(p.mirror()),
        _ => other,
    }
}

/// Whether the device is scheduled or inside its callback, on the way down or up.
#[inline]
pub(crate) fn is_at_work(state: PhaseState) -> bool
    ensures yes { OnTrue result ((p : Phase) (other : AsyncWork) → work_in p state other ≡ work_in p state Idle) }
    ensures no { OnFalse result ((p : Phase) (other : AsyncWork) → work_in p state other ≡ other) }
{
    matches!(
        state,
        PhaseState::Scheduled
            | PhaseState::Suspending
            | PhaseState::Rescheduled
            | PhaseState::Resuming
    )
}

/// Whether the device is not prepared (`power.is_prepared`).
pub(crate) fn is_unprepared(state: PhaseState) -> bool
    ensures { result ≡ states.is_unprepared state }
{
    matches!(state, PhaseState::Unprepared)
}

/// Whether the device is prepared (`power.is_prepared`).
pub fn is_prepared(state: PhaseState) -> bool
    ensures { result ≡ states.is_prepared state }
{
    !matches!(state, PhaseState::Unprepared)
}

/// Whether the device is prepared and not yet taken by the phase on the way down
/// (`dpm_prepared_list`).
pub fn is_ready(state: PhaseState) -> bool
    ensures { result ≡ states.is_ready state }
{
    matches!(state, PhaseState::Prepared)
}

/// Whether the device is not done with the phase on the way down (`power.completion`).
pub fn is_not_down(state: PhaseState) -> bool
    ensures { result ≡ states.is_not_down state }
{
    matches!(state, PhaseState::Unprepared | PhaseState::Prepared) || is_going_down(state)
}

/// Whether the device is scheduled on the way down and not done (`async_schedule_dev`).
pub(crate) fn is_going_down(state: PhaseState) -> bool
    ensures { result ≡ states.is_going_down state }
{
    matches!(state, PhaseState::Scheduled | PhaseState::Suspending)
}

/// Whether the device's callback on the way down answered 0, and it is still down
/// (`power.is_suspended`).
pub fn is_down_in(state: PhaseState) -> bool
    ensures { result ≡ states.is_down_in state }
{
    matches!(state, PhaseState::Suspended)
}

/// Whether the device is direct-complete (`power.direct_complete`).
pub fn is_direct_complete(state: PhaseState) -> bool
    ensures { result ≡ states.is_direct_complete state }
{
    matches!(state, PhaseState::Direct)
}

/// Whether the device went down and is not yet up (`power.completion`).
pub fn is_not_up(state: PhaseState) -> bool
    ensures { result ≡ states.is_not_up state }
{
    matches!(
        state,
        PhaseState::Suspended | PhaseState::Rescheduled | PhaseState::Resuming
    )
}

/// Whether the late phase has taken the device (`__device_suspend_late`).
pub fn is_taken(state: PhaseState) -> bool
    ensures { result ≡ states.is_taken state }
{
    !matches!(
        state,
        PhaseState::Unprepared | PhaseState::Prepared | PhaseState::Scheduled
    )
}
