//! What the passed entries leave of devices, notifiers, processors and syscore operations.

use crate::passed::Passed;
use device_rows::Flags;
use phase_table::Phase;
use sleep_base::Mem;
use sleep_model::{DeviceFlags, PhaseState};

impl<'m> Passed<'m> {
    ghost use Rattle.std.specs.Prelude.{◌≡◌, ◌<◌, length, IfOk};
    ghost use Rattle.sleep_model.specs.Links.{is_dependent, is_linked};
    ghost use Rattle.sleep_model.specs.Devices.{is_async_device, may_wake_device, state_in, asks_direct};
    ghost use Rattle.sleep_model.specs.Notifiers.{cpus_off, stopped, notified_flags};
    ghost use Rattle.sleep_model.specs.Order.{above, below, links_at, order, parents_of};
    ghost use Rattle.sleep_model.specs.Runtime.{statuses};
    ghost use Rattle.sleep_model.specs.PhaseStates.{phase_states};
    ghost use Rattle.check_past.specs.Passing.{journal_of};

    /// The state of a device in a phase and its mirror (`struct dev_pm_info`).
    #[tactic(auto, using(crate::proofs::AtIndex::states_are))]
    pub fn state(&self, phase: Phase, device: u32) -> PhaseState
        ensures { result ≡ state_in self.now.machine (journal_of self.now) phase device }
    {
        self.device_account().state(phase, device)
    }

    /// The state of each device in a phase and its mirror.
    #[tactic(auto, using(crate::proofs::AtIndex::states_are))]
    pub fn phase_states(&self, phase: Phase) -> &[PhaseState]
        ensures { result.now ≡ phase_states (length self.now.machine.devices) phase (journal_of self.now) }
    {
        self.device_account().phase_states(phase)
    }

    /// Which devices answered 1 to their last prepare (`power.direct_complete`).
    pub fn asks_direct(&self) -> &Flags
        ensures { result.now ≡ asks_direct (length self.now.machine.devices) (journal_of self.now) }
    {
        self.device_account().asks_direct()
    }

    /// Which devices are runtime suspended (`power.runtime_status`).
    pub fn statuses(&self) -> &Flags
        ensures { result.now ≡ statuses self.now.machine.devices (journal_of self.now) }
    {
        self.device_account().statuses()
    }

    /// Which notifiers are owed their post (`PM_POST_SUSPEND`).
    pub fn notified_flags(&self) -> &Flags
        ensures { result.now ≡ notified_flags self.now.machine (journal_of self.now) }
    {
        self.device_account().notified()
    }

    /// Which processors are off (`frozen_cpus`).
    pub fn cpus_off(&self) -> &Flags
        ensures { result.now ≡ cpus_off self.now.machine.cpus (journal_of self.now) }
    {
        self.device_account().cpus_off()
    }

    /// Which syscore operations are suspended (`syscore_ops_list`).
    pub fn stopped(&self) -> &Flags
        ensures { result.now ≡ stopped (length self.now.machine.syscore) (journal_of self.now) }
    {
        self.device_account().stopped()
    }

    /// The devices in their order (`dpm_list`).
    pub fn order(&self) -> &[u32]
        ensures { result.now ≡ order self.now.machine (journal_of self.now) }
    {
        self.device_graph().order()
    }

    /// What must sleep before a device does (`dpm_wait_for_subordinate`).
    pub fn below(&self, device: u32) -> &[u32]
        ensures { result.now ≡ below self.now.machine (journal_of self.now) device }
    {
        self.device_graph().below(device)
    }

    /// What must be awake before a device is (`dpm_wait_for_superior`).
    pub fn above(&self, device: u32) -> &[u32]
        ensures { result.now ≡ above self.now.machine (journal_of self.now) device }
    {
        self.device_graph().above(device)
    }

    /// Whether there is a link between these two, active or dormant.
    pub fn is_linked(&self, supplier: u32, consumer: u32) -> bool
        ensures { result ≡ is_linked (links_at self.now.machine (journal_of self.now)) supplier consumer }
    {
        self.device_graph().is_linked(supplier, consumer)
    }

    /// Whether a walk down from the consumer, over children and all links, meets the supplier
    /// (`device_is_dependent`). `Mem` if there is no memory for the walk.
    pub fn is_dependent(&self, consumer: u32, supplier: u32) -> Result<bool, Mem>
        requires consumer { consumer < length self.now.machine.devices }
        requires supplier { supplier < length self.now.machine.devices }
        ensures { IfOk result (λ b. b ≡ is_dependent (parents_of self.now.machine.devices)
            (links_at self.now.machine (journal_of self.now)) consumer supplier) }
    {
        self.device_graph().is_dependent(consumer, supplier)
    }

    /// Whether a device is asynchronous (`power.async_suspend`).
    #[tactic(auto, using(crate::proofs::AtIndex::flag_is))]
    pub fn is_async(&self, device: u32) -> bool
        ensures { result ≡ is_async_device self.now.machine device }
    {
        match self.machine.devices.as_slice().get(device as usize) {
            None => false,
            Some(device) => device.flags.has(DeviceFlags::ASYNC),
        }
    }

    /// Whether a device may wake the machine (`device_may_wakeup`).
    #[tactic(auto, using(crate::proofs::AtIndex::flag_is))]
    pub fn may_wake(&self, device: u32) -> bool
        ensures { result ≡ may_wake_device self.now.machine device }
    {
        match self.machine.devices.as_slice().get(device as usize) {
            None => false,
            Some(device) => device.flags.has(DeviceFlags::WAKEUP),
        }
    }
}
