//! Flags of devices, notifiers, processors and syscore operations.

ghost use Rattle.std.specs.Prelude.{◌≡◌, map, IfOk};
ghost use Rattle.sleep_model.specs.Devices.{is_one, asks_direct_after};
ghost use Rattle.sleep_model.specs.Notifiers.{notified_after, cpus_off_after, stopped_after};
ghost use Rattle.sleep_model.specs.Runtime.{starts_suspended, statuses_after};

use device_rows::Flags;
use sleep_base::Mem;
use sleep_model::{Device, DeviceFlags, Kind};
use std::alloc::Global;

/// Which devices are runtime suspended at first. `Mem` if there is no memory for the flags.
pub(crate) fn first_statuses(alloc: Global, devices: &[Device]) -> Result<Flags, Mem>
    ensures { IfOk result (λ f. f ≡ map starts_suspended devices.now) }
{
    let mut statuses = Vec::with_capacity(alloc, devices.len())?;
    for device in devices {
        statuses.push(device.flags.has(DeviceFlags::RUNTIME_SUSPENDED))?;
    }
    Ok(Flags::of_vec(statuses))
}

/// The answer of `prepare` says whether its device may be direct-complete (`device_prepare`).
pub(crate) fn move_asks(asks: &mut Flags, kind: Kind)
    ensures { asks.new ≡ asks_direct_after kind asks.old }
{
    if let Kind::Prepare { device, r } = kind {
        asks.set(device, r == 1);
    }
}

/// A request that is answered 0 sets its device's status (`__pm_runtime_set_status`).
pub(crate) fn move_statuses(statuses: &mut Flags, kind: Kind)
    ensures { statuses.new ≡ statuses_after kind statuses.old }
{
    if let Kind::RuntimeAsk {
        device,
        to_suspended,
        r: None,
    } = kind
    {
        statuses.set(device, to_suspended);
    }
}

/// A notifier that answered 0 is owed its post (`pm_notifier_call_chain`).
pub(crate) fn move_notified(notified: &mut Flags, kind: Kind)
    ensures { notified.new ≡ notified_after kind notified.old }
{
    match kind {
        Kind::NotifyPrepare(x, None) => notified.set(x, true),
        Kind::NotifyPost(x) => notified.set(x, false),
        _ => {}
    }
}

/// A processor is stopped or started (`kernel/cpu.c`, `freeze_secondary_cpus`).
pub(crate) fn move_cpus(off: &mut Flags, kind: Kind)
    ensures { off.new ≡ cpus_off_after kind off.old }
{
    match kind {
        Kind::CpuOff(k) => off.set(k, true),
        Kind::CpuOn(k) => off.set(k, false),
        _ => {}
    }
}

/// A syscore operation is suspended or resumed (`syscore_suspend`, `syscore_resume`).
pub(crate) fn move_stopped(stopped: &mut Flags, kind: Kind)
    ensures { stopped.new ≡ stopped_after kind stopped.old }
{
    match kind {
        Kind::SyscoreSuspend(x, None) => stopped.set(x, true),
        Kind::SyscoreResume(x) => stopped.set(x, false),
        _ => {}
    }
}
