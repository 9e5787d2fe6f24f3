//! Nothing is owed once an attempt is over.

ghost use Rattle.std.specs.Prelude.{◌≡◌, ◌↔◌, ◌&&◌, not, false, IsTrue, length, map, replicate};
ghost use Rattle.std.specs.List.{list_all};
ghost use Rattle.sleep_model.specs.PhaseStates.{is_unprepared};
ghost use Rattle.sleep_model.specs.declared.machine.Script.{Script};
ghost use Rattle.sleep_model.specs.declared.progress.PhaseState.TheVariants as state;
ghost use Rattle.sleep_model.specs.Freezer.{freezings, unasked};
ghost use Rattle.sleep_model.specs.Laws.{NoneIsInPhase, NothingOwed};
ghost use Rattle.sleep_model.specs.Notifiers.{cpus_off, stopped, notified_flags};
ghost use Rattle.rule_definitions.specs.Restored.{KeepsRestored};
ghost use Rattle.check_past.specs.Passing.{journal_of};
ghost use Rattle.check_rules.specs.Owing.{NoDeviceOwed, NoTaskOwed};

use crate::same::both;
use check_past::Passed;
use phase_table::Phase;
use sleep_model::{Freezing, Kind, PhaseState, PlatDo};

/// Not prepared (`power.is_prepared`).
fn is_unprepared(state: PhaseState) -> bool
    ensures { result ≡ is_unprepared state }
{
    matches!(state, PhaseState::Unprepared)
}

/// Whether each of these flags is unset.
fn are_unset(flags: &[bool]) -> bool
    ensures { result ≡ list_all (λ b. not b) flags.now }
{
    flags.iter().all(|flag| !*flag)
}

/// Whether none of these flags is set.
fn is_none_set(flags: &[bool]) -> bool
    ensures { IsTrue result ↔ (flags.now ≡ replicate (length flags.now) false) }
{
    are_unset(flags)
}

/// Whether each of these devices is unprepared.
fn are_unprepared(phase_states: &[PhaseState]) -> bool
    ensures { result ≡ list_all (λ s. is_unprepared s) phase_states.now }
{
    phase_states.iter().all(|state| is_unprepared(*state))
}

/// Whether none of these devices is prepared.
fn is_none_prepared(phase_states: &[PhaseState]) -> bool
    ensures { IsTrue result ↔ (phase_states.now ≡ replicate (length phase_states.now) state.Unprepared) }
{
    are_unprepared(phase_states)
}

/// The freezer neither asks a task nor has frozen it (`freezing`, `frozen`).
fn is_unasked(freezing: Freezing) -> bool
    ensures { result ≡ (not freezing.asked && not freezing.frozen) }
{
    !freezing.asked && !freezing.frozen
}

/// Whether none of these tasks is asked or frozen, one by one.
fn are_unasked(freezings: &[Freezing]) -> bool
    ensures { result ≡ list_all (λ f. not f.asked && not f.frozen) freezings.now }
{
    freezings.iter().all(|freezing| is_unasked(*freezing))
}

/// Whether none of these tasks is asked or frozen.
fn is_none_asked(freezings: &[Freezing]) -> bool
    ensures { IsTrue result ↔ (freezings.now ≡ replicate (length freezings.now) unasked) }
{
    are_unasked(freezings)
}

/// Whether no notifier is owed its post.
#[tactic(auto, using(crate::proofs::Resting::notified_flags_len))]
fn is_none_notified(past: &Passed<'_>) -> bool
    ensures { IsTrue result ↔ (notified_flags past.now.machine (journal_of past.now) ≡ replicate (length past.now.machine.notifiers) false) }
{
    is_none_set(past.notified_flags().as_slice())
}

/// Whether no processor is off.
#[tactic(auto, using(crate::proofs::Resting::cpus_len))]
fn is_no_cpu_off(past: &Passed<'_>) -> bool
    ensures { IsTrue result ↔ (cpus_off past.now.machine.cpus (journal_of past.now) ≡ replicate past.now.machine.cpus false) }
{
    is_none_set(past.cpus_off().as_slice())
}

/// Whether no syscore operation is suspended.
#[tactic(auto, using(crate::proofs::Resting::stopped_len))]
fn is_none_stopped(past: &Passed<'_>) -> bool
    ensures { IsTrue result ↔ (stopped (length past.now.machine.syscore) (journal_of past.now)
        ≡ replicate (length past.now.machine.syscore) false) }
{
    is_none_set(past.stopped().as_slice())
}

/// Whether the freezer asks no task.
#[tactic(auto, using(check_account::proofs::Following::placed, check_account::proofs::Unasked::all_unasked))]
fn is_no_task_asked(past: &Passed<'_>) -> bool
    ensures { IsTrue result ↔ (freezings past.now.machine.actors (journal_of past.now)
        ≡ map (λ (s : Script). unasked) past.now.machine.actors) }
{
    is_none_asked(past.freezings())
}

/// Whether no device is in a phase.
#[tactic(auto, using(crate::proofs::Resting::states_len))]
fn is_no_device_prepared(past: &Passed<'_>, phase: Phase) -> bool
    ensures { IsTrue result ↔ NoneIsInPhase past.now.machine phase (journal_of past.now) }
{
    is_none_prepared(past.phase_states(phase))
}

/// Whether nothing is owed to devices, processors and the core.
fn is_no_device_owed(past: &Passed<'_>) -> bool
    ensures { IsTrue result ↔ NoDeviceOwed past.now.machine (journal_of past.now) }
{
    is_no_device_prepared(past, Phase::Suspend)
        && is_no_device_prepared(past, Phase::Late)
        && is_no_device_prepared(past, Phase::Noirq)
        && past.callback().is_none()
        && is_no_cpu_off(past)
        && !past.irqs_off()
        && is_none_stopped(past)
}

/// Whether nothing is owed to notifiers, tasks and the platform.
fn is_no_task_owed(past: &Passed<'_>) -> bool
    ensures { IsTrue result ↔ NoTaskOwed past.now.machine (journal_of past.now) }
{
    is_none_notified(past)
        && is_no_task_asked(past)
        && !past.owes_platform(PlatDo::Begin)
        && !past.owes_platform(PlatDo::Prepare)
        && !past.owes_platform(PlatDo::PrepareLate)
        && !past.sleeps()
}

/// Whether nothing is owed at all.
fn is_nothing_owed(past: &Passed<'_>) -> bool
    ensures { IsTrue result ↔ NothingOwed past.now.machine (journal_of past.now) }
{
    both(is_no_device_owed(past), is_no_task_owed(past))
}

/// Whether an attempt is over only if nothing is owed (`suspend_devices_and_enter`, `suspend_finish`).
pub fn keeps_restored(past: &Passed<'_>, kind: Kind) -> bool
    ensures { IsTrue result ↔ KeepsRestored past.now.machine (journal_of past.now) kind }
{
    match kind {
        Kind::Over { .. } => is_nothing_owed(past),
        _ => true,
    }
}
