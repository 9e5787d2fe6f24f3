//! What the entries of the journal leave of devices, notifiers, processors and syscore operations.

use crate::flags::{
    first_statuses, move_asks, move_cpus, move_notified, move_statuses, move_stopped,
};
use crate::pair_states::PairStates;
use crate::phase_states::{device_of, is_of_task};
use device_rows::Flags;
use phase_table::Phase;
use sleep_base::{Mem, drop_for_mem};
use sleep_model::{Kind, Machine, PhaseState};
use std::alloc::Global;
use std::marker::Model;

/// What the entries of the journal leave of devices, notifiers, processors and syscore operations.
#[derive(Drop)]
pub struct DeviceAccount {
    pairs: PairStates,
    asks_direct: Flags,
    statuses: Flags,
    notified: Flags,
    cpus_off: Flags,
    stopped: Flags,
}

impl Model for DeviceAccount {
    ghost use Rattle.check_account.specs.Accounts.{DeviceState};

    ghost Value = { DeviceState };

    ghost view = { λ a. record {
      pairs = a.pairs;
      asks_direct = a.asks_direct;
      statuses = a.statuses;
      notified = a.notified;
      cpus_off = a.cpus_off;
      stopped = a.stopped;
    } };
}

impl DeviceAccount {
    ghost use Rattle.std.specs.Prelude.{◌≡◌, [], IfOk};
    ghost use Rattle.sleep_model.specs.PhaseStates.{state_at};
    ghost use Rattle.check_account.specs.Accounts.{devices_after, devices_of};
    ghost use Rattle.check_account.specs.PairStates.{states_on};

    /// Before the first entry. `Mem` if there is no memory for it.
    pub fn new(alloc: Global, machine: &Machine) -> Result<Self, Mem>
        ensures { IfOk result (λ a. a ≡ devices_of machine.now []) }
    {
        let asks_direct = Flags::new(alloc, machine.devices.len())?;
        let Ok(statuses) = first_statuses(alloc, machine.devices.as_slice()) else {
            return Err(drop_for_mem(asks_direct));
        };
        let Ok(notified) = Flags::new(alloc, machine.notifiers.len()) else {
            return Err(drop_for_mem((asks_direct, statuses)));
        };
        let Ok(cpus_off) = Flags::new(alloc, machine.cpus as usize) else {
            return Err(drop_for_mem((asks_direct, statuses, notified)));
        };
        let Ok(stopped) = Flags::new(alloc, machine.syscore.len()) else {
            return Err(drop_for_mem((asks_direct, statuses, notified, cpus_off)));
        };
        // The largest comes last, with no exit after it.
        let Ok(pairs) = PairStates::new(alloc, machine.devices.len()) else {
            return Err(drop_for_mem((asks_direct, statuses, notified, cpus_off, stopped)));
        };
        Ok(DeviceAccount {
            pairs,
            asks_direct,
            statuses,
            notified,
            cpus_off,
            stopped,
        })
    }

    /// Passes one more entry of the journal.
    #[tactic(auto, using(crate::proofs::Unmoved::devices_unmoved))]
    pub fn pass(&mut self, kind: Kind)
        ensures { self.new ≡ devices_after kind self.old }
    {
        if is_of_task(kind) {
            return;
        }
        self.pairs.pass(kind, device_of(kind));
        move_asks(&mut self.asks_direct, kind);
        move_statuses(&mut self.statuses, kind);
        move_notified(&mut self.notified, kind);
        move_cpus(&mut self.cpus_off, kind);
        move_stopped(&mut self.stopped, kind);
    }

    /// The state of each device in a phase and its mirror (`struct dev_pm_info`).
    pub fn phase_states(&self, phase: Phase) -> &[PhaseState]
        ensures { result.now ≡ states_on self.now.pairs phase }
    {
        self.pairs.phase_states(phase)
    }

    /// The state of a device in a phase and its mirror.
    pub fn state(&self, phase: Phase, device: u32) -> PhaseState
        ensures { result ≡ state_at (states_on self.now.pairs phase) device }
    {
        self.pairs.state(phase, device)
    }

    /// Which devices answered 1 to their last prepare (`power.direct_complete`).
    pub fn asks_direct(&self) -> &Flags
        ensures { result.now ≡ self.now.asks_direct }
    {
        &self.asks_direct
    }

    /// Which devices are runtime suspended (`power.runtime_status`).
    pub fn statuses(&self) -> &Flags
        ensures { result.now ≡ self.now.statuses }
    {
        &self.statuses
    }

    /// Which notifiers are owed their post (`PM_POST_SUSPEND`).
    pub fn notified(&self) -> &Flags
        ensures { result.now ≡ self.now.notified }
    {
        &self.notified
    }

    /// Which processors are off (`frozen_cpus`).
    pub fn cpus_off(&self) -> &Flags
        ensures { result.now ≡ self.now.cpus_off }
    {
        &self.cpus_off
    }

    /// Which syscore operations are suspended (`syscore_ops_list`).
    pub fn stopped(&self) -> &Flags
        ensures { result.now ≡ self.now.stopped }
    {
        &self.stopped
    }
}
