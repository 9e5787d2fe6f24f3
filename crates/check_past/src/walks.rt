//! Who is next among devices, notifiers, processors and syscore operations.

ghost use Rattle.std.specs.Prelude.{◌≡◌, ◌-◌, ◌&&◌, not, map, reverse};
ghost use Rattle.std.specs.List.{find, list_all, list_any, range_with_len};
ghost use Rattle.sleep_model.specs.Runtime.{is_async};
ghost use Rattle.sleep_model.specs.Walk.{is_so, last_where};
ghost use Rattle.sleep_model.specs.PhaseStates.{state_at, is_direct_complete, is_down_in, is_going_down, is_not_down, is_not_up, is_prepared, is_ready, is_unprepared};

use crate::passed::Passed;
use device_rows::Flags;
use phase_table::Phase;
use sleep_model::{Device, DeviceFlags, PhaseState};

/// Not prepared (`power.is_prepared`).
pub fn is_unprepared(state: PhaseState) -> bool
    ensures { result ≡ is_unprepared state }
{
    matches!(state, PhaseState::Unprepared)
}

/// Prepared (`power.is_prepared`).
pub fn is_prepared(state: PhaseState) -> bool
    ensures { result ≡ is_prepared state }
{
    !matches!(state, PhaseState::Unprepared)
}

/// Prepared, and not yet taken by the phase on the way down (`dpm_prepared_list`).
pub fn is_ready(state: PhaseState) -> bool
    ensures { result ≡ is_ready state }
{
    matches!(state, PhaseState::Prepared)
}

/// Not done with the phase on the way down (`power.completion`).
pub fn is_not_down(state: PhaseState) -> bool
    ensures { result ≡ is_not_down state }
{
    matches!(
        state,
        PhaseState::Unprepared
            | PhaseState::Prepared
            | PhaseState::Scheduled
            | PhaseState::Suspending
    )
}

/// Scheduled on the way down, and not done (`async_schedule_dev`).
pub fn is_going_down(state: PhaseState) -> bool
    ensures { result ≡ is_going_down state }
{
    matches!(state, PhaseState::Scheduled | PhaseState::Suspending)
}

/// Its callback on the way down answered 0 (`power.is_suspended`).
pub fn is_down_in(state: PhaseState) -> bool
    ensures { result ≡ is_down_in state }
{
    matches!(state, PhaseState::Suspended)
}

/// Direct-complete (`power.direct_complete`).
pub fn is_direct_complete(state: PhaseState) -> bool
    ensures { result ≡ is_direct_complete state }
{
    matches!(state, PhaseState::Direct)
}

/// Not yet up (`power.completion`).
pub fn is_not_up(state: PhaseState) -> bool
    ensures { result ≡ is_not_up state }
{
    matches!(
        state,
        PhaseState::Suspended | PhaseState::Rescheduled | PhaseState::Resuming
    )
}

/// The state of a device among others; unprepared if there is no such device.
fn state_at(phase_states: &[PhaseState], device: u32) -> PhaseState
    ensures { result ≡ state_at phase_states.now device }
{
    if (device as usize) < phase_states.len() {
        phase_states[device as usize]
    } else {
        PhaseState::Unprepared
    }
}

/// Whether a device is asynchronous (`power.async_suspend`).
#[tactic(auto, using(crate::proofs::AtIndex::flag_is))]
fn is_async(devices: &[Device], device: u32) -> bool
    ensures { result ≡ is_so (map is_async devices.now) device }
{
    match devices.get(device as usize) {
        None => false,
        Some(device) => device.flags.has(DeviceFlags::ASYNC),
    }
}

/// Whether one of these devices is asynchronous.
pub(crate) fn any_async(devices: &[Device]) -> bool
    ensures { result ≡ list_any is_async devices.now }
{
    devices
        .iter()
        .any(|device| device.flags.has(DeviceFlags::ASYNC))
}

/// The first that is not prepared.
fn first_unprepared(order: &[u32], phase_states: &[PhaseState]) -> Option<u32>
    ensures { result ≡ find (λ d. is_unprepared (state_at phase_states.now d)) order.now }
{
    order
        .iter()
        .copied()
        .find(|d| is_unprepared(state_at(phase_states, *d)))
}

/// The last that is prepared.
fn last_prepared(order: &[u32], phase_states: &[PhaseState]) -> Option<u32>
    ensures { result ≡ find (λ d. is_prepared (state_at phase_states.now d)) (reverse order.now) }
{
    order
        .iter()
        .rev()
        .copied()
        .find(|d| is_prepared(state_at(phase_states, *d)))
}

/// The last that is prepared and not yet taken.
fn last_ready(order: &[u32], phase_states: &[PhaseState]) -> Option<u32>
    ensures { result ≡ find (λ d. is_ready (state_at phase_states.now d)) (reverse order.now) }
{
    order
        .iter()
        .rev()
        .copied()
        .find(|d| is_ready(state_at(phase_states, *d)))
}

/// The first that is scheduled on the way down, and not done.
fn first_going_down(order: &[u32], phase_states: &[PhaseState]) -> Option<u32>
    ensures { result ≡ find (λ d. is_going_down (state_at phase_states.now d)) order.now }
{
    order
        .iter()
        .copied()
        .find(|d| is_going_down(state_at(phase_states, *d)))
}

/// The first that is not done on the way down.
fn first_not_down(order: &[u32], phase_states: &[PhaseState]) -> Option<u32>
    ensures { result ≡ find (λ d. is_not_down (state_at phase_states.now d)) order.now }
{
    order
        .iter()
        .copied()
        .find(|d| is_not_down(state_at(phase_states, *d)))
}

/// The first that is not yet up.
fn first_not_up(order: &[u32], phase_states: &[PhaseState]) -> Option<u32>
    ensures { result ≡ find (λ d. is_not_up (state_at phase_states.now d)) order.now }
{
    order
        .iter()
        .copied()
        .find(|d| is_not_up(state_at(phase_states, *d)))
}

/// The first that is down and asynchronous.
fn first_down_async(order: &[u32], phase_states: &[PhaseState], devices: &[Device]) -> Option<u32>
    ensures { result ≡ find (λ d. is_down_in (state_at phase_states.now d) && is_so (map is_async devices.now) d) order.now }
{
    order.iter().copied().find(|d| is_down_in(state_at(phase_states, *d)) && is_async(devices, *d))
}

/// The first that is down and asynchronous; the caller says whether a device is asynchronous at all.
fn first_async(
    has_async: bool,
    order: &[u32],
    phase_states: &[PhaseState],
    devices: &[Device],
) -> Option<u32>
    requires { has_async ≡ list_any is_async devices.now }
    ensures { result ≡ find (λ d. is_down_in (state_at phase_states.now d) && is_so (map is_async devices.now) d) order.now }
{
    if !has_async {
        return None;
    }
    first_down_async(order, phase_states, devices)
}

/// The first that is down and synchronous.
fn first_down_sync(order: &[u32], phase_states: &[PhaseState], devices: &[Device]) -> Option<u32>
    ensures { result ≡ find (λ d. is_down_in (state_at phase_states.now d) && not (is_so (map is_async devices.now) d)) order.now }
{
    order.iter().copied().find(|d| is_down_in(state_at(phase_states, *d)) && !is_async(devices, *d))
}

/// Whether all of these are direct-complete.
fn are_direct(devices: &[u32], phase_states: &[PhaseState]) -> bool
    ensures { result ≡ list_all (λ d. is_direct_complete (state_at phase_states.now d)) devices.now }
{
    devices
        .iter()
        .all(|d| is_direct_complete(state_at(phase_states, *d)))
}

/// The first of these numbers whose flag is not set.
fn first_unset(flags: &Flags, order: &[u32]) -> Option<u32>
    ensures { result ≡ find (λ x. not (is_so flags.now x)) order.now }
{
    order.iter().copied().find(|x| !flags.is_set(*x))
}

/// The first of these numbers whose flag is set.
fn first_set(flags: &Flags, order: &[u32]) -> Option<u32>
    ensures { result ≡ find (λ x. is_so flags.now x) order.now }
{
    order.iter().copied().find(|x| flags.is_set(*x))
}

/// The first processor after the first that is not off.
fn first_on(off: &Flags, cpus: u32) -> Option<u32>
    ensures { result ≡ find (λ k. not (is_so off.now k)) (range_with_len 1 (cpus - 1)) }
{
    (1..cpus).find(|k| !off.is_set(*k))
}

/// The first processor after the first that is off.
fn first_off(off: &Flags, cpus: u32) -> Option<u32>
    ensures { result ≡ find (λ k. is_so off.now k) (range_with_len 1 (cpus - 1)) }
{
    (1..cpus).find(|k| off.is_set(*k))
}

/// The first of these flags that is set.
fn first_stopped(flags: &Flags, count: u32) -> Option<u32>
    ensures { result ≡ find (λ x. is_so flags.now x) (range_with_len 0 count) }
{
    (0..count).find(|x| flags.is_set(*x))
}

/// The last of the first `count` flags that is not set.
fn last_unset(flags: &Flags, count: u32) -> Option<u32>
    ensures { result ≡ last_where (λ x. not (is_so flags.now x)) (range_with_len 0 count) }
{
    for x in (0..count).rev() {
        if !flags.is_set(x) {
            return Some(x);
        }
    }
    None
}

impl<'m> Passed<'m> {
    ghost use Rattle.std.specs.Prelude.{◌≡◌};
    ghost use Rattle.std.specs.List.{list_all};
    ghost use Rattle.sleep_model.specs.Devices.{next_completed, next_down, next_prepared, next_to_schedule, next_up, state_in, waits_above, waits_for_subordinates, waits_down, waits_up};
    ghost use Rattle.sleep_model.specs.Notifiers.{call_order, next_notified, next_cpu_off, next_cpu_on, next_post_notified, next_syscore_resumed, next_syscore_suspended};
    ghost use Rattle.sleep_model.specs.Order.{below};
    ghost use Rattle.sleep_model.specs.PhaseStates.{is_direct_complete};
    ghost use Rattle.phase_table.specs.declared.phase.Phase.TheVariants as phase;
    ghost use Rattle.check_past.specs.Passing.{journal_of};

    /// The notifiers in the order in which they are called.
    fn call_order(&self) -> &[u32]
        ensures { result.now ≡ call_order self.now.machine }
    {
        &self.call_order
    }

    /// The device that is prepared next (`dpm_prepare`).
    #[tactic(auto, using(sleep_model::proofs::Searches::find_is_first))]
    pub fn next_prepared(&self) -> Option<u32>
        ensures { result ≡ next_prepared self.now.machine (journal_of self.now) }
    {
        first_unprepared(self.order(), self.phase_states(Phase::Suspend))
    }

    /// The device that is completed next (`dpm_complete`).
    #[tactic(auto, using(sleep_model::proofs::Searches::find_is_last))]
    pub fn next_completed(&self) -> Option<u32>
        ensures { result ≡ next_completed self.now.machine (journal_of self.now) }
    {
        last_prepared(self.order(), self.phase_states(Phase::Suspend))
    }

    /// The device that the walk down takes next (`dpm_suspend`).
    #[tactic(auto, using(sleep_model::proofs::Searches::find_is_last))]
    pub fn next_down(&self, phase: Phase) -> Option<u32>
        ensures { result ≡ next_down self.now.machine (journal_of self.now) phase }
    {
        last_ready(self.order(), self.phase_states(phase))
    }

    /// The first device that is scheduled and not done (`async_synchronize_full`).
    #[tactic(auto, using(sleep_model::proofs::Searches::find_is_first))]
    pub fn waits_down(&self, phase: Phase) -> Option<u32>
        ensures { result ≡ waits_down self.now.machine (journal_of self.now) phase }
    {
        first_going_down(self.order(), self.phase_states(phase))
    }

    /// The first device below one that is not done with a phase (`dpm_wait_for_subordinate`).
    #[tactic(auto, using(sleep_model::proofs::Searches::find_is_first))]
    pub fn waits_for_subordinates(&self, phase: Phase, device: u32) -> Option<u32>
        ensures { result ≡ waits_for_subordinates self.now.machine (journal_of self.now) phase device }
    {
        first_not_down(self.below(device), self.phase_states(phase))
    }

    /// The first device above one that is not yet up (`dpm_wait_for_superior`).
    #[tactic(auto, using(sleep_model::proofs::Searches::find_is_first))]
    pub fn waits_above(&self, phase: Phase, device: u32) -> Option<u32>
        ensures { result ≡ waits_above self.now.machine (journal_of self.now) phase device }
    {
        first_not_up(self.above(device), self.phase_states(phase))
    }

    /// The first asynchronous device that is down and not yet scheduled (`dpm_resume`).
    #[tactic(auto, using(sleep_model::proofs::Searches::find_is_first))]
    pub fn next_to_schedule(&self, phase: Phase) -> Option<u32>
        ensures { result ≡ next_to_schedule self.now.machine (journal_of self.now) phase }
    {
        first_async(
            self.has_async,
            self.order(),
            self.phase_states(phase),
            self.machine.devices.as_slice(),
        )
    }

    /// The first synchronous device that is down (`dpm_resume`).
    #[tactic(auto, using(sleep_model::proofs::Searches::find_is_first))]
    pub fn next_up(&self, phase: Phase) -> Option<u32>
        ensures { result ≡ next_up self.now.machine (journal_of self.now) phase }
    {
        first_down_sync(
            self.order(),
            self.phase_states(phase),
            self.machine.devices.as_slice(),
        )
    }

    /// The first device that is not yet up (`async_synchronize_full`).
    #[tactic(auto, using(sleep_model::proofs::Searches::find_is_first))]
    pub fn waits_up(&self, phase: Phase) -> Option<u32>
        ensures { result ≡ waits_up self.now.machine (journal_of self.now) phase }
    {
        first_not_up(self.order(), self.phase_states(phase))
    }

    /// Whether all devices below one are direct-complete.
    pub fn all_direct_below(&self, device: u32) -> bool
        ensures { result ≡ list_all (λ e. is_direct_complete (state_in self.now.machine (journal_of self.now) phase.Suspend e)) (below self.now.machine (journal_of self.now) device) }
    {
        are_direct(self.below(device), self.phase_states(Phase::Suspend))
    }

    /// The notifier that is to be called for the attempt (`PM_SUSPEND_PREPARE`).
    #[tactic(auto, using(sleep_model::proofs::Searches::find_is_first))]
    pub fn next_notified(&self) -> Option<u32>
        ensures { result ≡ next_notified self.now.machine (journal_of self.now) }
    {
        first_unset(self.notified_flags(), self.call_order())
    }

    /// The notifier that is to be called for its end (`PM_POST_SUSPEND`).
    #[tactic(auto, using(sleep_model::proofs::Searches::find_is_first))]
    pub fn next_post_notified(&self) -> Option<u32>
        ensures { result ≡ next_post_notified self.now.machine (journal_of self.now) }
    {
        first_set(self.notified_flags(), self.call_order())
    }

    /// The processor that is stopped next (`freeze_secondary_cpus`).
    #[tactic(auto, using(sleep_model::proofs::Searches::find_is_first))]
    pub fn next_cpu_off(&self) -> Option<u32>
        ensures { result ≡ next_cpu_off self.now.machine (journal_of self.now) }
    {
        first_on(self.cpus_off(), self.machine.cpus)
    }

    /// The processor that is started next (`thaw_secondary_cpus`).
    #[tactic(auto, using(sleep_model::proofs::Searches::find_is_first))]
    pub fn next_cpu_on(&self) -> Option<u32>
        ensures { result ≡ next_cpu_on self.now.machine (journal_of self.now) }
    {
        first_off(self.cpus_off(), self.machine.cpus)
    }

    /// The syscore operation that is resumed next (`syscore_resume`).
    #[tactic(auto, using(sleep_model::proofs::Searches::find_is_first))]
    pub fn next_syscore_resumed(&self) -> Option<u32>
        ensures { result ≡ next_syscore_resumed self.now.machine (journal_of self.now) }
    {
        first_stopped(self.stopped(), self.machine.syscore.len() as u32)
    }

    /// The syscore operation that is suspended next (`syscore_suspend`).
    pub fn next_syscore_suspended(&self) -> Option<u32>
        ensures { result ≡ next_syscore_suspended self.now.machine (journal_of self.now) }
    {
        last_unset(self.stopped(), self.machine.syscore.len() as u32)
    }
}
