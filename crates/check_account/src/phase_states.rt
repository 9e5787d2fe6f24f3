//! The states of devices in each phase and its mirror (`drivers/base/power/main.c`, `struct dev_pm_info`).

ghost use Rattle.std.specs.Prelude.{◌≡◌, ◌||◌, Some, IfOk, replicate};
ghost use Rattle.phase_table.specs.Phases.{is_phase, mirror};
ghost use Rattle.sleep_model.specs.PhaseStates.{prepared_by, ended_by, skipped_for, by_phase, phase_state_after, device_of, phase_states_after};
ghost use Rattle.sleep_model.specs.declared.progress.PhaseState.TheVariants as state;
ghost use Rattle.check_account.specs.Accounts.{is_of_device, is_of_task};
ghost use Rattle.check_account.specs.PairStates.{may_move};

use phase_table::Phase;
use sleep_base::{Errno, Mem};
use sleep_model::{Kind, PhaseState, SkipCause};
use std::alloc::Global;

/// A prepare that answers an error leaves the device as it was.
fn prepared_by(r: i32, before: PhaseState) -> PhaseState
    ensures { result ≡ prepared_by r before }
{
    if r >= 0 { PhaseState::Prepared } else { before }
}

/// The state that a callback on the way down leaves.
fn ended_by(r: Option<Errno>) -> PhaseState
    ensures { result ≡ ended_by r }
{
    match r {
        None => PhaseState::Suspended,
        Some(_) => PhaseState::Failed,
    }
}

/// The state of a device that is skipped.
fn skipped_for(cause: SkipCause) -> PhaseState
    ensures { result ≡ skipped_for cause }
{
    match cause {
        SkipCause::Direct => PhaseState::Direct,
        _ => PhaseState::Failed,
    }
}

/// Whether both are the same phase.
fn is_phase(phase: Phase, wanted: Phase) -> bool
    ensures { result ≡ is_phase phase wanted }
{
    phase == wanted
}

/// One for that phase, one for its mirror, another for any other.
fn by_phase(
    pair: Phase,
    phase: Phase,
    down: PhaseState,
    up: PhaseState,
    other: PhaseState,
) -> PhaseState
    ensures { result ≡ by_phase pair phase down up other }
{
    if is_phase(phase, pair) {
        down
    } else if is_phase(phase, pair.mirror()) {
        up
    } else {
        other
    }
}

/// The state of an entry's device after it, in that phase and its mirror.
fn phase_state_after(pair: Phase, kind: Kind, before: PhaseState) -> PhaseState
    ensures { result ≡ phase_state_after pair kind before }
{
    match kind {
        Kind::Prepare { r, .. } => prepared_by(r, before),
        Kind::Complete(_) => PhaseState::Unprepared,
        Kind::Schedule(phase, _) => {
            by_phase(
                pair,
                phase,
                PhaseState::Scheduled,
                PhaseState::Rescheduled,
                before,
            )
        }
        Kind::Begin(phase, _) => by_phase(
            pair,
            phase,
            PhaseState::Suspending,
            PhaseState::Resuming,
            before,
        ),
        Kind::End(phase, _, r) => by_phase(pair, phase, ended_by(r), PhaseState::Resumed, before),
        Kind::Skip(phase, _, cause) => by_phase(pair, phase, skipped_for(cause), before, before),
        _ => before,
    }
}

/// The device that an entry is of, if it is of one.
pub(crate) fn device_of(kind: Kind) -> Option<u32>
    ensures { result ≡ device_of kind }
{
    match kind {
        Kind::Prepare { device, .. }
        | Kind::Complete(device)
        | Kind::Schedule(_, device)
        | Kind::Begin(_, device)
        | Kind::End(_, device, _)
        | Kind::Skip(_, device, _) => Some(device),
        _ => None,
    }
}

/// Whether an entry is one of a device that is prepared, scheduled, called back or completed.
pub(crate) fn is_of_device(kind: Kind) -> bool
    ensures { result ≡ is_of_device kind }
{
    matches!(
        kind,
        Kind::Prepare { .. }
            | Kind::Complete(_)
            | Kind::Schedule(..)
            | Kind::Begin(..)
            | Kind::End(..)
    )
}

/// Whether an entry is one of a task that sleeps, passes a freeze point, or raises or takes a mark: of no
/// attempt and no device.
#[inline(always)]
pub(crate) fn is_of_task(kind: Kind) -> bool
    ensures { result ≡ is_of_task kind }
{
    matches!(
        kind,
        Kind::Sleep(_) | Kind::SleepD(_) | Kind::Slept | Kind::Pass | Kind::Post(_) | Kind::Got(_)
    )
}

/// No device is prepared. `Mem` if there is no memory for the list.
fn none_prepared(alloc: Global, count: usize) -> Result<Vec<PhaseState>, Mem>
    ensures { IfOk result (λ v. v.items ≡ replicate count state.Unprepared) }
{
    Ok(vec![in alloc; PhaseState::Unprepared; count]?)
}

/// Two lists in which no device is prepared. `Mem` if there is no memory for them.
pub(crate) fn two_unprepared(
    alloc: Global,
    count: usize,
) -> Result<(Vec<PhaseState>, Vec<PhaseState>), Mem>
    ensures { IfOk result (λ p. (p.0.items ≡ replicate count state.Unprepared) × (p.1.items ≡ replicate count state.Unprepared)) }
{
    let one = none_prepared(alloc, count)?;
    let other = none_prepared(alloc, count)?;
    Ok((one, other))
}

/// Whether a phase is that one or its mirror.
fn is_of_pair(pair: Phase, phase: Phase) -> bool
    ensures { result ≡ (is_phase phase pair || is_phase phase (mirror pair)) }
{
    is_phase(phase, pair) || is_phase(phase, pair.mirror())
}

/// Whether an entry may move its device in that phase and its mirror.
#[inline(always)]
fn may_move(pair: Phase, kind: &Kind) -> bool
    ensures { result ≡ may_move pair kind.now }
{
    match kind {
        Kind::Schedule(phase, _)
        | Kind::Begin(phase, _)
        | Kind::End(phase, _, _)
        | Kind::Skip(phase, _, _) => is_of_pair(pair, *phase),
        Kind::Prepare { .. } | Kind::Complete(_) => true,
        _ => false,
    }
}

/// An entry moves that device, if it is there.
fn put_state(phase_states: &mut Vec<PhaseState>, pair: Phase, kind: &Kind, device: u32)
    ensures { phase_states.new.items ≡ phase_states_after pair kind.now (Some device) phase_states.old.items }
{
    if (device as usize) < phase_states.len() {
        let after = phase_state_after(pair, *kind, phase_states[device as usize]);
        phase_states[device as usize] = after;
    }
}

/// An entry moves only its own device, in its own phase or in all.
#[inline(always)]
#[tactic(auto, using(crate::proofs::Unmoved::states_stay))]
pub(crate) fn move_state(
    phase_states: &mut Vec<PhaseState>,
    pair: Phase,
    kind: &Kind,
    device: Option<u32>,
)
    ensures { phase_states.new.items ≡ phase_states_after pair kind.now device phase_states.old.items }
{
    if let Some(device) = device {
        if may_move(pair, kind) {
            put_state(phase_states, pair, kind, device);
        }
    }
}
