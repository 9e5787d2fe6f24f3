//! The state of the devices' phases: callbacks, errors, direct-complete and runtime PM.
ghost use Rattle.std.specs.Prelude.{◌≡◌, map, IfOk};
ghost use Rattle.sleep_model.specs.Answers.{error_of_number};
ghost use Rattle.sleep_model.specs.Devices.{error_in, error_by, is_device};
ghost use Rattle.sleep_model.specs.Runtime.{starts_suspended, direct_disables, direct_disables_until, late_disables, late_disables_until};
ghost use Rattle.sleep_model.specs.Walk.{or_else};

use device_rows::Flags;
use phase_table::Phase;
use sleep_base::{Errno, Mem};
use sleep_model::{Actor, Callback, Device, DeviceFlags, Kind, SkipCause};
use std::alloc::Global;
use std::marker::Model;

/// What the phases of devices know besides the state of each device. It is the callback that the attempt's
/// maker runs, the errors of the open phase, which devices may be direct-complete, their runtime statuses,
/// and the spans in which runtime PM is disabled (`drivers/base/power/main.c`,
/// `drivers/base/power/runtime.c`).
#[derive(Drop)]
pub struct Devices {
    callback: Option<Callback>,
    failed: Option<Errno>,
    own_error: Option<Errno>,
    asks_direct: Flags,
    statuses: Flags,
    disabled_by_direct: bool,
    disabled_by_late: bool,
}

impl Model for Devices {
    ghost use Rattle.sleep_state.specs.DeviceStates.{DeviceState};

    ghost Value = { DeviceState };

    ghost view = { λ d. record {
      callback = d.callback;
      failed = d.failed;
      own_error = d.own_error;
      asks_direct = d.asks_direct;
      statuses = d.statuses;
      disabled_by_direct = d.disabled_by_direct;
      disabled_by_late = d.disabled_by_late;
    } };
}

/// Whether that actor is an asynchronous device.
pub fn is_device(who: Actor) -> bool
    ensures { result ≡ is_device who }
{
    matches!(who, Actor::Dev(_))
}

/// The error of a callback on the way down counts.
fn error_in(phase: Phase, r: Option<Errno>, before: Option<Errno>) -> Option<Errno>
    ensures { result ≡ error_in phase r before }
{
    match r {
        Some(r) if phase.is_down() => Some(r),
        _ => before,
    }
}

/// A wakeup that a device finds is an error of its phase (`async_error`).
fn error_by(cause: SkipCause, before: Option<Errno>) -> Option<Errno>
    ensures { result ≡ error_by cause before }
{
    match cause {
        SkipCause::Pending => Some(Errno::EBUSY),
        _ => before,
    }
}

/// An answer to prepare that is an error's number is the phase's error.
fn error_of(r: i32, before: Option<Errno>) -> Option<Errno>
    ensures { result ≡ or_else (error_of_number r) before }
{
    match Errno::of_answer(r) {
        None => before,
        error => error,
    }
}

/// Whether a device was direct-complete in suspend, after a skip.
fn direct_disables(phase: Phase, cause: SkipCause, before: bool) -> bool
    ensures { result ≡ direct_disables phase cause before }
{
    match (phase, cause) {
        (Phase::Suspend, SkipCause::Direct) => true,
        _ => before,
    }
}

/// None is any more, after resume.
fn direct_disables_until(phase: Phase, before: bool) -> bool
    ensures { result ≡ direct_disables_until phase before }
{
    match phase {
        Phase::Resume => false,
        _ => before,
    }
}

/// Whether late has taken a device, after a begin or a skip.
fn late_disables(phase: Phase, before: bool) -> bool
    ensures { result ≡ late_disables phase before }
{
    match phase {
        Phase::Late => true,
        _ => before,
    }
}

/// It has taken none any more, after early.
fn late_disables_until(phase: Phase, before: bool) -> bool
    ensures { result ≡ late_disables_until phase before }
{
    match phase {
        Phase::Early => false,
        _ => before,
    }
}

impl Devices {
    ghost use Rattle.std.specs.Prelude.{◌≡◌, IfOk, Some, None, slice_set};
    ghost use Rattle.sleep_model.specs.Answers.{error_of_number};
    ghost use Rattle.sleep_model.specs.Devices.{unless_own, error_in, error_by, is_one};
    ghost use Rattle.sleep_model.specs.Runtime.{set_status, direct_disables, direct_disables_until, late_disables, late_disables_until};
    ghost use Rattle.sleep_model.specs.Walk.{or_else};
    ghost use Rattle.sleep_state.specs.DeviceStates.{devices_after, undisturbed};

    /// No phase is open, and the devices have the runtime status that the file gives them. `Mem` if there
    /// is no memory.
    pub fn new(alloc: Global, devices: &[Device]) -> Result<Self, Mem>
        ensures { IfOk result (λ d. d ≡ undisturbed devices.now) }
    {
        Ok(Devices {
            callback: None,
            failed: None,
            own_error: None,
            asks_direct: Flags::new(alloc, devices.len())?,
            statuses: first_statuses(alloc, devices)?,
            disabled_by_direct: false,
            disabled_by_late: false,
        })
    }

    /// What an entry of that actor does.
    #[inline(always)]
    pub fn note(&mut self, kind: Kind, who: Actor)
        ensures { self.new ≡ devices_after kind who self.old }
    {
        match kind {
            Kind::Attempt { .. } => self.open(),
            Kind::Prepare { device, r } => self.prepared(device, r),
            Kind::Begin(phase, device) => self.begun(phase, device, is_device(who)),
            Kind::End(phase, _, r) => self.ended(phase, r, is_device(who)),
            Kind::Skip(phase, _, cause) => self.skipped(phase, cause),
            Kind::Done(phase, _) => self.close(phase),
            Kind::RuntimeAsk {
                device,
                to_suspended,
                r,
            } => self.asked(device, to_suspended, r),
            _ => {}
        }
    }

    /// An attempt begins without errors.
    fn open(&mut self)
        ensures { self.new ≡ record self.old { failed = None; own_error = None } }
    {
        self.failed = None;
        self.own_error = None;
    }

    /// A device was prepared: it may be direct-complete if it answered 1.
    fn prepared(&mut self, device: u32, r: i32)
        ensures { self.new ≡ record self.old {
          failed = or_else (error_of_number r) self.old.failed;
          asks_direct = slice_set self.old.asks_direct device (is_one r);
        } }
    {
        self.failed = error_of(r, self.failed);
        self.asks_direct.set(device, r == 1);
    }

    /// A callback begins, in a device's own work or not.
    fn begun(&mut self, phase: Phase, device: u32, own: bool)
        ensures { self.new ≡ record self.old {
          callback = unless_own own self.old.callback (Some (record { phase = phase; device = device }));
          disabled_by_late = late_disables phase self.old.disabled_by_late;
        } }
    {
        if !own {
            self.callback = Some(Callback { phase, device });
        }
        self.disabled_by_late = late_disables(phase, self.disabled_by_late);
    }

    /// A callback ends, in a device's own work or not.
    fn ended(&mut self, phase: Phase, r: Option<Errno>, own: bool)
        ensures { self.new ≡ record self.old {
          callback = unless_own own self.old.callback None;
          failed = error_in phase r self.old.failed;
          own_error = unless_own own self.old.own_error (error_in phase r self.old.own_error);
        } }
    {
        if !own {
            self.callback = None;
        }
        if r.is_some() {
            self.failing(phase, r, own);
        }
    }

    /// A callback's error counts, in a device's own work or not.
    fn failing(&mut self, phase: Phase, r: Option<Errno>, own: bool)
        ensures { self.new ≡ record self.old {
          failed = error_in phase r self.old.failed;
          own_error = unless_own own self.old.own_error (error_in phase r self.old.own_error);
        } }
    {
        self.failed = error_in(phase, r, self.failed);
        if !own {
            self.own_error = error_in(phase, r, self.own_error);
        }
    }

    /// A device's callback was not called.
    fn skipped(&mut self, phase: Phase, cause: SkipCause)
        ensures { self.new ≡ record self.old {
          failed = error_by cause self.old.failed;
          disabled_by_direct = direct_disables phase cause self.old.disabled_by_direct;
          disabled_by_late = late_disables phase self.old.disabled_by_late;
        } }
    {
        self.failed = error_by(cause, self.failed);
        self.disabled_by_direct = direct_disables(phase, cause, self.disabled_by_direct);
        self.disabled_by_late = late_disables(phase, self.disabled_by_late);
    }

    /// A phase is done, and its errors are forgotten.
    fn close(&mut self, phase: Phase)
        ensures { self.new ≡ record self.old {
          failed = None;
          own_error = None;
          disabled_by_direct = direct_disables_until phase self.old.disabled_by_direct;
          disabled_by_late = late_disables_until phase self.old.disabled_by_late;
        } }
    {
        self.failed = None;
        self.own_error = None;
        self.disabled_by_direct = direct_disables_until(phase, self.disabled_by_direct);
        self.disabled_by_late = late_disables_until(phase, self.disabled_by_late);
    }

    /// A request for a device's runtime status sets it if it is answered 0.
    fn asked(&mut self, device: u32, to_suspended: bool, r: Option<Errno>)
        ensures { self.new ≡ record self.old { statuses = set_status r device to_suspended self.old.statuses } }
    {
        if r.is_none() {
            self.statuses.set(device, to_suspended);
        }
    }

    /// The callback that the attempt's maker runs, if one.
    pub fn callback(&self) -> Option<Callback>
        ensures { result ≡ self.now.callback }
    {
        self.callback
    }

    /// The error of the open phase.
    pub fn failed(&self) -> Option<Errno>
        ensures { result ≡ self.now.failed }
    {
        self.failed
    }

    /// The error of a synchronous device's callback in the open phase.
    pub fn own_error(&self) -> Option<Errno>
        ensures { result ≡ self.now.own_error }
    {
        self.own_error
    }

    /// Which devices may be direct-complete.
    pub fn asks_direct(&self) -> &Flags
        ensures { result.now ≡ self.now.asks_direct }
    {
        &self.asks_direct
    }

    /// Which devices are runtime suspended.
    pub fn statuses(&self) -> &Flags
        ensures { result.now ≡ self.now.statuses }
    {
        &self.statuses
    }

    /// Whether a device was direct-complete in suspend, and resume is not done since.
    pub fn disabled_by_direct(&self) -> bool
        ensures { result ≡ self.now.disabled_by_direct }
    {
        self.disabled_by_direct
    }

    /// Whether late has taken a device, and early is not done since.
    pub fn disabled_by_late(&self) -> bool
        ensures { result ≡ self.now.disabled_by_late }
    {
        self.disabled_by_late
    }
}

/// The runtime statuses that the file gives.
fn first_statuses(alloc: Global, devices: &[Device]) -> Result<Flags, Mem>
    ensures { IfOk result (λ f. f ≡ map starts_suspended devices.now) }
{
    let mut statuses = Vec::with_capacity(alloc, devices.len())?;
    for device in devices {
        statuses.push(device.flags.has(DeviceFlags::RUNTIME_SUSPENDED))?;
    }
    Ok(Flags::of_vec(statuses))
}
